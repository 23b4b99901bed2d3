ghost use Rattle.std.specs.Prelude.{◌≡◌, ◌↔◌, ℕ, All, List, Option};
ghost use Rattle.gs_grammar.specs.declared.item.Item.{Item};
ghost use Rattle.gs_grammar.specs.Items.{IsItem};
ghost use Rattle.gs_grammar.specs.Levels.{LevelForm, item_lists};
ghost use Rattle.gs_grammar.specs.Ambiguity.{IsAmbiguous, IsFirstShare};
ghost use Rattle.gs_grammar.specs.Derivations.{Derivation, OneDerivation};
ghost use Rattle.gs_grammar_level.specs.declared.share.Shared.{Shared};
ghost use Rattle.gs_grammar_level.specs.FirstShares.{HasShare, IsFirstShared};

/// States that a level is ambiguous if and only if two of its options, or one with itself, share a list of symbols. So a level
/// that has a first such pair is ambiguous.
pub fn ambiguous_exactly_where_options_share()
    ensures shared { (level : List (List Item)) → IsAmbiguous level ↔ HasShare level }
    ensures first { (level : List (List Item)) (i j : ℕ) (w : List ℕ) →
        IsFirstShare level i j w → IsAmbiguous level }
{}

/// States that in a level that is not ambiguous each list of symbols has at most one derivation. The one that it has is its
/// only one.
pub fn no_list_has_two_readings()
    ensures { (level : List (List Item)) (w : List ℕ) (derivation : Derivation level w) →
        (IsAmbiguous level → ⊥) → OneDerivation level w derivation.option derivation.values }
{}

/// States that each level whose items are within their bounds has an answer. It is not ambiguous, or it has a first pair of
/// options that shares a list. Only one pair can be the first, so that two answers differ at most in the text.
pub fn each_level_has_an_answer()
    ensures some { (level : LevelForm) → All (All IsItem) (item_lists level.options) →
        (answer : Option Shared) × IsFirstShared level answer }
    ensures one_pair { (level : List (List Item)) (i j k l : ℕ) (v w : List ℕ) →
        IsFirstShare level i j v → IsFirstShare level k l w → (i ≡ k) × (j ≡ l) }
{}
