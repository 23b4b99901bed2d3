ghost use Rattle.std.specs.Prelude.{◌≡◌, ℕ, Bool, List, None, Ok, position, true};
ghost use Rattle.std.specs.List.{list_all};
ghost use Rattle.gs_ai.specs.declared.row.AiRow.{AiRow};
ghost use Rattle.gs_links.specs.Loads.{load_answer};
ghost use Rattle.gs_links.specs.declared.link.Link.{Link};
ghost use Rattle.gs_linkset.specs.LinkShapes.{is_context, links_of_document};
ghost use Rattle.gs_linkset.specs.declared.link_types.Context.{Context};
ghost use Rattle.gs_linktext.specs.ReadAnswers.{IsReadAs};
ghost use Rattle.gs_linktext.specs.Spelling.{cannot_spell, spelled};
ghost use Rattle.tdl_loads.specs.Loads.{JudgesText, store_verdict};
ghost use Rattle.tdl_loads.specs.TextForms.{TextLoads};

/// States that the text form of a linkset that loads is read and loads to the same links, if each link can be spelled. A file
/// of that text has the verdict of the linkset. A linkset read from a text can be spelled, so its text form needs no condition.
pub fn text_form_loads_alike()
    ensures loads { (ais : List AiRow) (voc : List ℕ) (doc : List Context) (links : List Link)
        → list_all is_context doc ≡ true → position cannot_spell (links_of_document doc) ≡ None
        → load_answer ais voc doc ≡ Ok links → TextLoads ais voc (spelled doc) links }
    ensures judged { (templates : Bool) (ais : List AiRow) (voc : List ℕ) (doc : List Context)
        (links : List Link) → list_all is_context doc ≡ true
        → position cannot_spell (links_of_document doc) ≡ None → load_answer ais voc doc ≡ Ok links
        → JudgesText templates ais voc (spelled doc) (store_verdict templates ais (Ok links)) }
    ensures again { (ais : List AiRow) (voc bytes : List ℕ) (doc : List Context) (links : List Link)
        → IsReadAs bytes doc → load_answer ais voc doc ≡ Ok links
        → TextLoads ais voc (spelled doc) links }
{}
