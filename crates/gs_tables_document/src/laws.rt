ghost use Rattle.std.specs.Prelude.{◌≡◌, ◌⊎◌, ℕ, List};
ghost use Rattle.gs_json.specs.declared.error.JsonFault.{JsonFault};
ghost use Rattle.gs_tables_document.specs.declared.document.Document.{Document};
ghost use Rattle.gs_tables_document.specs.Readings.{Holds, IsFormError};

/// States that all bytes are a table document of some rows, or have a first error of its form. It is never both, and at most
/// one of each.
pub fn bytes_have_one_reading()
    ensures some { (bytes : List ℕ) → ((document : Document) × Holds bytes document)
        ⊎ ((error : JsonFault) × IsFormError bytes error) }
    ensures one_document { (bytes : List ℕ) (one other : Document) → Holds bytes one → Holds bytes other
        → one ≡ other }
    ensures one_error { (bytes : List ℕ) (one other : JsonFault) → IsFormError bytes one
        → IsFormError bytes other → one ≡ other }
    ensures not_both { (bytes : List ℕ) (document : Document) (error : JsonFault) → Holds bytes document
        → IsFormError bytes error → ⊥ }
{}
