ghost use Rattle.std.specs.Prelude.{◌≡◌, ℕ, List, Result, length};
ghost use Rattle.gs_tables_document.specs.declared.error.LoadFault.{LoadFault};
ghost use Rattle.gs_tables_document.specs.declared.document.LevelName.{LevelName};
ghost use Rattle.gs_tables.specs.KeptRules.{AreKept};
ghost use Rattle.gs_tables.specs.Shapes.{BuiltInAnswer, BuiltInAnswersAreAlike, HasMemory, LoadAnswer, LoadAnswersAreAlike};
ghost use Rattle.gs_tables.specs.Tables.{IsShaped, TableRows, level_rows};

/// States that all bytes have exactly one result of `TableSet::load`, apart from `Memory` and the text of an ambiguous level.
pub fn bytes_have_one_answer()
    ensures some { (bytes : List ℕ) →
        ((answer : Result TableRows LoadFault) × HasMemory answer × LoadAnswer bytes answer) }
    ensures at_most_one { LoadAnswersAreAlike }
{}

/// States that `builtin` has exactly one result, apart from `Memory` and the text of an ambiguous level.
pub fn built_in_rows_have_one_answer()
    ensures some { (answer : Result TableRows LoadFault) × HasMemory answer × BuiltInAnswer answer }
    ensures at_most_one { BuiltInAnswersAreAlike }
{}

/// States that each option of a set satisfies the rules with its facts, and that there are as many facts as options.
pub fn options_keep_the_rules()
    ensures kept { (set : TableRows) (level : LevelName) → IsShaped set → AreKept set level }
    ensures as_many { (set : TableRows) (level : LevelName) → IsShaped set
        → length (level_rows level set).level.options ≡ length (level_rows level set).info }
{}
