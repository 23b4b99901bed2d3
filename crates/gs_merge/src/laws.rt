ghost use Rattle.std.specs.Prelude.{◌≡◌, ◌++◌, ℕ, List, [], Ok, codes, false, true};
ghost use Rattle.std.specs.Str.{bytes_eq};
ghost use Rattle.gs_ident.specs.Elements.{Elements};
ghost use Rattle.gs_linkset.specs.declared.link_types.Target.{Target};
ghost use Rattle.gs_links.specs.Choices.{chosen_depth};
ghost use Rattle.gs_links.specs.Loads.{keeps_names, links_of, load_answer};
ghost use Rattle.gs_links.specs.declared.link.Link.{Link};
ghost use Rattle.gs_links.specs.declared.link.Want.{Want};
ghost use Rattle.gs_merge.specs.Distinct.{distinct};
ghost use Rattle.gs_merge.specs.MergedDocuments.{is_too_many, merged};
ghost use Rattle.gs_merge.specs.Stores.{IsOfRelation, IsStore, chosen_targets, has_target, larger_depth, targets_at, targets_in};

use gs_ai::AiTable;

/// States that the merged document has the targets of the first store and then those of the second, without duplicates. This
/// holds at each anchor and each relation except `anchor`.
pub fn merged_targets()
    ensures { (a b : List Link) (text name : List ℕ) → bytes_eq name (codes "anchor") ≡ false
        → targets_in (merged a b) text name ≡ distinct (targets_at a text name ++ targets_at b text name) }
{}

/// States that merging a store with itself gives the same as merging it with a store of no links.
pub fn merged_with_itself()
    ensures { (a : List Link) → merged a a ≡ merged a [] }
{}

/// States that two stores, merged in either order, have the same targets at each anchor and relation.
pub fn either_way_round()
    ensures { (a b : List Link) (text name : List ℕ) (target : Target)
        → has_target (targets_in (merged a b) text name) target
        ≡ has_target (targets_in (merged b a) text name) target }
{}

/// States that the merged document of two stores loads to its links, or fails with `Memory`. The stores have one table and one
/// vocabulary that keeps names, and the document has at most the allowed number of targets.
pub fn merged_document_loads(table: &AiTable)
    ensures { (voc : List ℕ) (a b : List Link) → keeps_names voc ≡ true
        → IsStore table.now voc a → IsStore table.now voc b → is_too_many (merged a b) ≡ false
        → load_answer table.now voc (merged a b) ≡ Ok (links_of table.now voc (merged a b)) }
{
    // Only for the proof: the rows satisfy the rules.
    let _ = table.rows();
}

/// States that the order in which three stores are merged does not matter.
pub fn merging_is_associative(table: &AiTable)
    ensures { (voc : List ℕ) (a b c ab bc : List Link) → keeps_names voc ≡ true
        → IsStore table.now voc a → IsStore table.now voc b → IsStore table.now voc c
        → load_answer table.now voc (merged a b) ≡ Ok ab → load_answer table.now voc (merged b c) ≡ Ok bc
        → merged ab c ≡ merged a bc }
{
    // Only for the proof: the rows satisfy the rules.
    let _ = table.rows();
}

/// States what the store of the merged document chooses for every identity and every relation except `anchor`. It chooses at
/// the larger of the two stores' depths. The targets are those of the first store at this depth, and then those of the second,
/// without duplicates. So it chooses none if neither has any.
pub fn merged_store_chooses(table: &AiTable)
    ensures depth { (voc : List ℕ) (a b m : List Link) → keeps_names voc ≡ true
        → IsStore table.now voc a → IsStore table.now voc b → load_answer table.now voc (merged a b) ≡ Ok m
        → (identity : Elements) (want : Want) → IsOfRelation want
        → chosen_depth m identity want ≡ larger_depth a b identity want }
    ensures targets { (voc : List ℕ) (a b m : List Link) → keeps_names voc ≡ true
        → IsStore table.now voc a → IsStore table.now voc b → load_answer table.now voc (merged a b) ≡ Ok m
        → (identity : Elements) (want : Want) → IsOfRelation want
        → chosen_targets m identity want (larger_depth a b identity want)
        ≡ distinct (chosen_targets a identity want (larger_depth a b identity want)
        ++ chosen_targets b identity want (larger_depth a b identity want)) }
{
    // Only for the proof: the rows satisfy the rules.
    let _ = table.rows();
}
