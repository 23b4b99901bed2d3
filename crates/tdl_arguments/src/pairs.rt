ghost use Rattle.std.specs.Prelude.{◌≡◌, true, false, drop};
ghost use Rattle.tdl_arguments.specs.declared.name.NameRow.{NameRow};
ghost use Rattle.tdl_arguments.specs.Names.{HasNoPairs, HasPairs, OfPairs};
ghost use Rattle.tdl_arguments.specs.Names.{has_required, is_given, is_named, look_up, takes};
ghost use Rattle.tdl_arguments.specs.Requests.{known_name, known_words};

use crate::name::{Name, NameRow};

/// Returns the value of the first pair with the name, if the arguments are pairs.
pub fn look_up<'a>(words: &'a [String], name: &str) -> Option<&'a str>
    ensures { OfPairs (known_words words.now) (λ pairs. known_name result ≡ look_up name.now pairs) }
{
    if words.len() < 2 {
        return None;
    }
    if words[0].as_str() == name {
        return Some(words[1].as_str());
    }
    look_up(&words[2..], name)
}

/// Returns whether the name has a value, if the arguments are pairs.
fn is_named(words: &[String], name: Name) -> bool
    ensures { OfPairs (known_words words.now) (λ pairs. result ≡ is_named pairs name) }
{
    look_up(words, name.word()).is_some()
}

/// Returns whether a name of the row has a value, if the arguments are pairs.
pub(crate) fn is_given(words: &[String], row: NameRow) -> bool
    ensures { OfPairs (known_words words.now) (λ pairs. result ≡ is_given pairs row) }
{
    match row.instead {
        Some(other) => is_named(words, row.name) || is_named(words, other),
        None => is_named(words, row.name),
    }
}

/// Returns whether a row takes this name with this value, and none of its names has a value among the others. The arguments are
/// pairs.
fn takes(rows: &[NameRow], name: &str, value: &str, others: &[String]) -> bool
    ensures { OfPairs (known_words others.now)
        (λ pairs. result ≡ takes rows.now name.now value.now pairs) }
{
    for row in rows {
        let given = is_given(others, *row);
        if !given && row.takes(name, value) {
            return true;
        }
    }
    false
}

/// Returns whether the arguments are pairs of names and values that the rows take, each row at most once.
pub fn are_of_rows(words: &[String], rows: &[NameRow]) -> bool
    ensures pairs { result ≡ true → HasPairs rows.now (known_words words.now) }
    ensures none { result ≡ false → HasNoPairs rows.now (known_words words.now) }
{
    if words.is_empty() {
        return true;
    }
    if words.len() == 1 {
        return false;
    }
    let others = &words[2..];
    if !are_of_rows(others, rows) {
        return false;
    }
    takes(rows, words[0].as_str(), words[1].as_str(), others)
}

/// Returns whether each required row is given by one of its names, if the arguments are pairs.
pub fn has_required(words: &[String], rows: &[NameRow]) -> bool
    ensures { OfPairs (known_words words.now) (λ pairs. result ≡ has_required rows.now pairs) }
{
    for row in rows {
        if row.required && !is_given(words, *row) {
            return false;
        }
    }
    true
}

/// Returns the arguments after the first, which is the name that the program was called by.
pub fn without_program_name(words: &[String]) -> &[String]
    ensures { result.now ≡ drop 1 words.now }
{
    if words.is_empty() {
        return words;
    }
    &words[1..]
}
