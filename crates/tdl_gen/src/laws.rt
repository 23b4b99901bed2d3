ghost use Rattle.std.specs.Prelude.{ℕ};
ghost use Rattle.gs_tables.specs.Judgements.{IsLoaded};
ghost use Rattle.gs_tables.specs.Tables.{TableRows};
ghost use Rattle.gs_translate.specs.StepsSupport.{HasOne, HasSome};
ghost use Rattle.tdl_gen.specs.Counts.{Generated};

/// States that there is at most one line of counts by any tables, and one by loaded tables.
pub fn each_count_has_one_line()
    ensures at_most_one { (set : TableRows) (lines : ℕ) → HasOne (Generated set lines) }
    ensures some { (set : TableRows) (lines : ℕ) → IsLoaded set → HasSome (Generated set lines) }
{}
