ghost use Rattle.std.specs.Prelude.{◌↔◌, ◌⊎◌, ℕ, List};
ghost use Rattle.gs_grammar.specs.declared.item.Item.{Item};
ghost use Rattle.gs_grammar.specs.Ambiguity.{AreItems, HasFirstShare, IsUnambiguous};
ghost use Rattle.gs_grammar.specs.Words.{IsWord};
ghost use Rattle.gs_grammar.specs.Languages.{Language};
ghost use Rattle.gs_grammar.specs.Counts.{Counted};
ghost use Rattle.gs_grammar.specs.Laws.{DigitsBehindOneWriteTheirNumber, DigitsWriteTheirNumber, NoWordIsEmpty, NumeralWritesItsNumber, OneDerivationIsNotTwo, OneDerivationIsOneReading, UnambiguousLevelsReadAlone, WordFixesValue, WrittenIsDerived, WrittenIsRead};

/// States that a word fixes its value: no list of symbols is a word of one item with two values.
pub fn word_fixes_its_value()
    ensures { WordFixesValue }
{}

/// States the words of each item, without their values.
pub fn words_without_values()
    ensures { (item : Item) (w : List ℕ) → IsWord item w ↔ Language item w }
{}

/// States, for an item that is a number in bits, that the number of a whole word is the number that its value writes. For
/// `NumStr`, the digits follow a 1.
pub fn word_writes_its_value()
    ensures digits { DigitsWriteTheirNumber }
    ensures numeral { NumeralWritesItsNumber }
    ensures behind_one { DigitsBehindOneWriteTheirNumber }
{}

/// States that no word of an item within its bounds is empty.
pub fn no_word_is_empty()
    ensures { NoWordIsEmpty }
{}

/// States that the text written of values that the items hold is a list that the items derive, with these values.
pub fn what_is_written_is_derived()
    ensures { WrittenIsDerived }
{}

/// States that the text written of values that an option holds is read as these values. In a level that is not ambiguous it has
/// this one derivation.
pub fn what_is_written_is_read()
    ensures { WrittenIsRead }
{}

/// States that the derivations of every text can be counted: a list of symbols has no derivation in a level, one, or two
/// different ones.
pub fn each_text_is_counted()
    ensures { (level : List (List Item)) (w : List ℕ) → Counted level w }
{}

/// States that a list of symbols with only one derivation has one option and one list of values, and does not have two
/// derivations.
pub fn one_derivation_is_alone()
    ensures reading { OneDerivationIsOneReading }
    ensures not_two { OneDerivationIsNotTwo }
{}

/// States that in a level that is not ambiguous, each derivation of a list of symbols is the only one.
pub fn unambiguous_levels_read_alone()
    ensures { UnambiguousLevelsReadAlone }
{}

/// States that each level of items in their bounds is decided. It is not ambiguous, or some pair of its options is the first
/// that shares a list.
pub fn each_level_is_judged()
    ensures { (level : List (List Item)) → AreItems level → IsUnambiguous level ⊎ HasFirstShare level }
{}
