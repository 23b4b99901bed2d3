ghost use Rattle.std.specs.Prelude.{◌≡◌, ◌↔◌, true, List, ℕ, Some, ◌≢◌, ◌⊎◌};
ghost use Rattle.gs_ident.specs.Elements.{Elements, pairs_of};
ghost use Rattle.gs_ident.specs.Identities.{IsMadeWith};
ghost use Rattle.gs_ident.specs.Links.{canonical_link, spelled};
ghost use Rattle.gs_dlink.specs.Answers.{IsLink, link_error};
ghost use Rattle.gs_dlink.specs.Paths.{IsKeyPath, key_path};
ghost use Rattle.gs_dlink.specs.Stems.{stem_ok};
ghost use Rattle.gs_dlink.specs.Uris.{Piece, Written};
ghost use Rattle.gs_ai.specs.declared.pair.Pair.{Pair};
ghost use Rattle.gs_ai.specs.declared.row.AiRow.{AiRow};
ghost use Rattle.gs_dlink.specs.declared.error.LinkFault.{LinkFault};
ghost use Rattle.gs_dlink.specs.declared.error.LinkFault.TheVariants.{Memory as WantOfMemory};

use gs_ai::AiTable;

/// States that the segments of a path end in at most one key path, which `key_path` finds.
pub fn one_key_path(table: &AiTable)
    ensures one { (segments : List Piece) (a b : List Written)
        → IsKeyPath table.now segments a → IsKeyPath table.now segments b → a ≡ b }
    ensures found { (segments : List Piece) (path : List Written)
        → (key_path table.now segments ≡ Some path) ↔ IsKeyPath table.now segments path }
{
    // Only for the proof: the rows satisfy the rules.
    let _ = table.rows();
}

/// States that a link written of an identity of the table, under every allowed stem, names the identity's pairs. So does the
/// identity's canonical link.
pub fn written_link_is_read(table: &AiTable)
    ensures written { (stem : List ℕ) (identity : Elements) → stem_ok stem ≡ true
        → IsMadeWith table.now identity → IsLink table.now (spelled stem identity) (pairs_of identity) }
    ensures canonical { (identity : Elements) → IsMadeWith table.now identity
        → IsLink table.now (canonical_link identity) (pairs_of identity) }
{
    // Only for the proof: the rows satisfy the rules.
    let _ = table.rows();
}

/// States that a text is a link that names one list of pairs, or has one error, and not both. `Memory` is not an error of a text.
pub fn one_answer_each()
    ensures pairs { (table : List AiRow) (text : List ℕ) (one other : List Pair)
        → IsLink table text one → IsLink table text other → one ≡ other }
    ensures alone { (table : List AiRow) (text : List ℕ) (pairs : List Pair) (error : LinkFault)
        → IsLink table text pairs → link_error table text ≡ Some error → ⊥ }
    ensures some { (table : List AiRow) (text : List ℕ) → ((pairs : List Pair) × IsLink table text pairs)
        ⊎ ((error : LinkFault) × (error ≢ WantOfMemory) × (link_error table text ≡ Some error)) }
{}
