ghost use Rattle.std.specs.Prelude.{◌≡◌, ℕ, List, None, position, true};
ghost use Rattle.std.specs.List.{list_all};
ghost use Rattle.gs_linkset.specs.LinkShapes.{is_context, links_of_document};
ghost use Rattle.gs_linkset.specs.declared.link_types.Context.{Context};
ghost use Rattle.gs_linkset.specs.declared.link_types.Target.{Target};
ghost use Rattle.gs_linktext.specs.Contexts.{IsCut};
ghost use Rattle.gs_linktext.specs.ReadAnswers.{HasReading, IsReadAs, IsReadError, IsSameOrMemory, IsTextOf};
ghost use Rattle.gs_linktext_grammar.specs.declared.error.LinkTextFault.{LinkTextFault};
ghost use Rattle.gs_linktext_grammar.specs.declared.error.LinkTextFault.TheVariants.{Memory};
ghost use Rattle.gs_linktext.specs.Spelling.{cannot_spell, spelled};

/// States that if each link of a document can be spelled, its text is a document of the grammar without an error. The links of
/// that text are those of the document.
pub fn spelled_is_read()
    ensures { (doc : List Context) → list_all is_context doc ≡ true
        → position cannot_spell (links_of_document doc) ≡ None
        → IsTextOf (spelled doc) (links_of_document doc) }
{}

/// States that if each link of a document can be spelled, its text is read as its links. Reading it fails only with `Memory`.
pub fn written_is_read()
    ensures links { (doc contexts : List Context) → list_all is_context doc ≡ true
        → position cannot_spell (links_of_document doc) ≡ None → IsReadAs (spelled doc) contexts
        → links_of_document contexts ≡ links_of_document doc }
    ensures read { (doc : List Context) (error : LinkTextFault) → list_all is_context doc ≡ true
        → position cannot_spell (links_of_document doc) ≡ None
        → IsReadError (spelled doc) error → error ≡ Memory }
{}

/// States that each link of a text that is read can be spelled, so `write` spells what `read` reads, or fails with `Memory`.
pub fn read_is_spelled()
    ensures { (bytes : List ℕ) (contexts : List Context) → IsReadAs bytes contexts
        → position cannot_spell (links_of_document contexts) ≡ None }
{}

/// States that links have at most one cut into contexts.
pub fn one_cut()
    ensures { (links : List (List ℕ × List ℕ × Target)) (c d : List Context) → IsCut links c
        → IsCut links d → c ≡ d }
{}

/// States that reading a text has at most one result, apart from `Memory`: the contexts of one linkset, or one error.
pub fn one_reading()
    ensures contexts { (bytes : List ℕ) (c d : List Context) → IsReadAs bytes c → IsReadAs bytes d → c ≡ d }
    ensures read { (bytes : List ℕ) (c : List Context) (error : LinkTextFault) → IsReadAs bytes c
        → IsReadError bytes error → error ≡ Memory }
    ensures rejected { (bytes : List ℕ) (e f : LinkTextFault) → IsReadError bytes e → IsReadError bytes f
        → IsSameOrMemory e f }
{}

/// States that reading a text has a result, apart from `Memory`: the contexts of a linkset, or an error.
pub fn some_reading()
    ensures { (bytes : List ℕ) → HasReading bytes }
{}
