ghost use Rattle.std.specs.Prelude.{◌≡◌, ◌+◌, ◌<◌, ◌≤◌, ◌^◌, [], ◌∷◌, drop, length, map, string_bytes, take};
ghost use Rattle.tdl_arguments.specs.Names.{OfPairs};
ghost use Rattle.tdl_arguments.specs.Requests.{known_words};
ghost use Rattle.tdl_arguments.specs.Wrongs.{IsFirst, first_lacking, has_word, is_option, is_repeated, no_argument};
ghost use Rattle.tdl_arguments.specs.Wrongs.{option_faults, pairs_faults, value_reason, word_reason, wrong_at};
ghost use Rattle.tdl_arguments.specs.Wrongs.{wrong_by, wrong_command, wrong_operand, wrong_translation};

use crate::arguments::form_named;
use crate::name::{Name, NameRow};
use crate::pairs::is_given;

/// The reason why arguments are invalid.
#[derive(Clone, Copy)]
pub enum Why {
    /// There is no command.
    MissingCommand,
    /// A command of two words has one.
    MissingSecondWord,
    /// The form of texts is missing.
    MissingForm,
    /// The form that texts are translated to is missing.
    MissingTarget,
    /// The number of lines is missing.
    MissingLines,
    /// The argument is not a command.
    NotACommand,
    /// The argument is not the second word of a command.
    NotASecondWord,
    /// The argument is not a form.
    NotAForm,
    /// The argument is not a form that texts are translated to.
    NotATarget,
    /// The argument is not a number of lines.
    NotANumberOfLines,
    /// The argument is not an option of the command.
    NotAnOption,
    /// The option, or one that may be instead, is there before.
    Twice,
    /// The option has no value.
    MissingValue,
    /// The option may not have the value.
    OutOfRange(Name),
    /// A required option is missing.
    MissingOption(NameRow),
    /// The command may not have the vocabulary.
    Vocabulary,
}

/// The first fault of invalid arguments.
#[derive(Clone, Copy)]
pub struct Wrong {
    /// The index of the wrong argument. `None` if an argument is missing, or if the vocabulary does not fit the command.
    pub place: Option<usize>,
    /// The reason.
    pub why: Why,
}

/// Returns that the argument at the place is wrong.
fn wrong_at(place: usize, why: Why) -> Wrong
    ensures { result ≡ wrong_at place why }
{
    Wrong {
        place: Some(place),
        why,
    }
}

/// Returns that an argument is missing.
fn no_argument(why: Why) -> Wrong
    ensures { result ≡ no_argument why }
{
    Wrong { place: None, why }
}

/// Returns the fault of an operand: the first of the arguments is missing, or it is wrong.
fn wrong_operand(words: &[String], place: usize, missing: Why, wrong: Why) -> Wrong
    ensures { result ≡ wrong_operand place missing wrong (map string_bytes words.now) }
{
    if words.is_empty() {
        return no_argument(missing);
    }
    wrong_at(place, wrong)
}

/// Returns the fault of the first argument after `translate`, or of those after it.
fn wrong_forms(from: &str, behind: &[String]) -> Wrong
    ensures { result ≡ wrong_translation (from.now ∷ map string_bytes behind.now) }
{
    if form_named(from).is_none() {
        return wrong_at(1, Why::NotAForm);
    }
    wrong_operand(behind, 2, Why::MissingTarget, Why::NotATarget)
}

/// Returns the fault of the arguments after `translate`.
fn wrong_translation(words: &[String]) -> Wrong
    ensures { result ≡ wrong_translation (map string_bytes words.now) }
{
    if words.is_empty() {
        return no_argument(Why::MissingForm);
    }
    wrong_forms(words[0].as_str(), &words[1..])
}

/// Returns the fault of a first argument and of the arguments after it.
fn wrong_by(word: &str, behind: &[String]) -> Wrong
    ensures { result ≡ wrong_by word.now (map string_bytes behind.now) }
{
    if word == "canon" {
        return wrong_operand(behind, 1, Why::MissingForm, Why::NotAForm);
    }
    if word == "translate" {
        return wrong_translation(behind);
    }
    if word == "gen" {
        return wrong_operand(behind, 1, Why::MissingLines, Why::NotANumberOfLines);
    }
    if word == "class" || word == "dump" {
        return wrong_operand(behind, 1, Why::MissingSecondWord, Why::NotASecondWord);
    }
    wrong_at(0, Why::NotACommand)
}

/// Returns the fault of arguments that begin with no command.
pub(crate) fn wrong_command(words: &[String]) -> Wrong
    ensures { result ≡ wrong_command (map string_bytes words.now) }
{
    if words.is_empty() {
        return no_argument(Why::MissingCommand);
    }
    wrong_by(words[0].as_str(), &words[1..])
}

/// Returns whether the word is that of a name of the row.
fn has_word(row: NameRow, word: &str) -> bool
    ensures { result ≡ has_word word.now row }
{
    match row.instead {
        Some(other) => row.name.word() == word || other.word() == word,
        None => row.name.word() == word,
    }
}

/// Returns whether a row has the word.
fn is_option(rows: &[NameRow], word: &str) -> bool
    ensures { result ≡ is_option rows.now word.now }
{
    for row in rows {
        if has_word(*row, word) {
            return true;
        }
    }
    false
}

/// Returns whether a row that has the word is given by the earlier options, which are pairs.
fn is_repeated(rows: &[NameRow], word: &str, earlier: &[String]) -> bool
    ensures { OfPairs (known_words earlier.now) (λ pairs. result ≡ is_repeated rows.now pairs word.now) }
{
    for row in rows {
        let given = is_given(earlier, *row);
        if given && has_word(*row, word) {
            return true;
        }
    }
    false
}

/// Returns why the word of an option is wrong after the earlier options, which are pairs.
fn word_reason(rows: &[NameRow], word: &str, earlier: &[String]) -> Option<Why>
    ensures { OfPairs (known_words earlier.now) (λ pairs. result ≡ word_reason rows.now pairs word.now) }
{
    if !is_option(rows, word) {
        return Some(Why::NotAnOption);
    }
    if is_repeated(rows, word, earlier) {
        return Some(Why::Twice);
    }
    None
}

/// Returns why the value of an option is wrong.
fn value_reason(word: &str, value: &str) -> Option<Why>
    ensures { result ≡ value_reason word.now value.now }
{
    let name = Name::named(word)?;
    if name.has_in_range(value) {
        return None;
    }
    Some(Why::OutOfRange(name))
}

/// Returns the first required row that the options, which are pairs, do not give.
fn first_lacking(rows: &[NameRow], options: &[String]) -> Option<NameRow>
    ensures { OfPairs (known_words options.now) (λ pairs. result ≡ first_lacking pairs rows.now) }
{
    if rows.is_empty() {
        return None;
    }
    let row = rows[0];
    if row.required && !is_given(options, row) {
        return Some(row);
    }
    first_lacking(&rows[1..], options)
}

/// Returns the fault of options that are pairs, none of which is wrong.
fn wrong_pairs(rows: &[NameRow], options: &[String]) -> Wrong
    ensures { OfPairs (known_words options.now)
        (λ pairs. IsFirst (pairs_faults rows.now pairs) result) }
{
    match first_lacking(rows, options) {
        Some(row) => no_argument(Why::MissingOption(row)),
        None => no_argument(Why::Vocabulary),
    }
}

/// Returns the first fault of the options from `place` on. Those before it are pairs, none of which is wrong, and `before` arguments
/// are before the options.
fn wrong_from(rows: &[NameRow], options: &[String], place: usize, before: usize) -> Wrong
    requires within { place ≤ length options.now }
    requires fits { before + length options.now < 2 ^ 63 }
    ensures { OfPairs (known_words (take place options.now)) (λ earlier.
        IsFirst (option_faults rows.now earlier (before + place) (known_words (drop place options.now)))
        result) }
{
    if place == options.len() {
        return wrong_pairs(rows, options);
    }
    let word = options[place].as_str();
    if let Some(why) = word_reason(rows, word, &options[..place]) {
        return wrong_at(before + place, why);
    }
    if place + 1 == options.len() {
        return wrong_at(before + place, Why::MissingValue);
    }
    if let Some(why) = value_reason(word, options[place + 1].as_str()) {
        return wrong_at(before + place + 1, why);
    }
    wrong_from(rows, options, place + 2, before)
}

/// Returns the first fault of the options of a command that has these rows. `before` arguments are before the options.
pub(crate) fn wrong_options(rows: &[NameRow], options: &[String], before: usize) -> Wrong
    requires fits { before + length options.now < 2 ^ 63 }
    ensures { IsFirst (option_faults rows.now [] before (known_words options.now)) result }
{
    wrong_from(rows, options, 0, before)
}
