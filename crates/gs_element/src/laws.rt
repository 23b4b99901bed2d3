ghost use Rattle.std.specs.Prelude.{◌≡◌, ℕ, List, ◌⊎◌};
ghost use Rattle.gs_ai.specs.declared.errors.ElementFault.{ElementFault};
ghost use Rattle.gs_ai.specs.declared.pair.Pair.{Pair};
ghost use Rattle.gs_ident.specs.Elements.{Elements, pairs_of};
ghost use Rattle.gs_ident.specs.Identities.{IsMadeWith};
ghost use Rattle.gs_element.specs.BracketedTexts.{bracketed_text, IsBracketed, IsBracketedError};
ghost use Rattle.gs_element.specs.Raw.{raw_text, IsRaw, IsRawError};

use gs_ai::AiTable;

/// States that a text is the join of at most one list of pairs, in either form.
pub fn one_list_each(table: &AiTable)
    ensures raw { (text : List ℕ) (a b : List Pair)
        → IsRaw table.now text a → IsRaw table.now text b → a ≡ b }
    ensures bracketed { (text : List ℕ) (a b : List Pair)
        → IsBracketed table.now text a → IsBracketed table.now text b → a ≡ b }
{
    // Only for the proof: the rows of the table satisfy its rules.
    let _ = table.rows();
}

/// States that a text has at most one error, and none if it gives pairs, in either form.
pub fn one_error_each(table: &AiTable)
    ensures raw { (text : List ℕ) (a b : ElementFault)
        → IsRawError table.now text a → IsRawError table.now text b → a ≡ b }
    ensures raw_alone { (text : List ℕ) (pairs : List Pair) (error : ElementFault)
        → IsRaw table.now text pairs → IsRawError table.now text error → ⊥ }
    ensures bracketed { (text : List ℕ) (a b : ElementFault)
        → IsBracketedError table.now text a → IsBracketedError table.now text b → a ≡ b }
    ensures bracketed_alone { (text : List ℕ) (pairs : List Pair) (error : ElementFault)
        → IsBracketed table.now text pairs → IsBracketedError table.now text error → ⊥ }
{
    // Only for the proof: the rows of the table satisfy its rules.
    let _ = table.rows();
}

/// States that a text gives pairs or has an error, in either form. If no pairs are joined to it, there is a longest prefix that
/// is a join, and an error after it.
pub fn some_answer(table: &AiTable)
    ensures raw { (text : List ℕ) → ((pairs : List Pair) × IsRaw table.now text pairs)
        ⊎ ((error : ElementFault) × IsRawError table.now text error) }
    ensures bracketed { (text : List ℕ) → ((pairs : List Pair) × IsBracketed table.now text pairs)
        ⊎ ((error : ElementFault) × IsBracketedError table.now text error) }
{
    // Only for the proof: the rows of the table satisfy its rules.
    let _ = table.rows();
}

/// States that the text that is written of an identity, made with the table, is read as its pairs, in either form.
pub fn written_is_read(table: &AiTable)
    ensures raw { (identity : Elements) → IsMadeWith table.now identity
        → IsRaw table.now (raw_text (pairs_of identity)) (pairs_of identity) }
    ensures bracketed { (identity : Elements) → IsMadeWith table.now identity
        → IsBracketed table.now (bracketed_text (pairs_of identity)) (pairs_of identity) }
{
    // Only for the proof: the rows of the table satisfy its rules.
    let _ = table.rows();
}
