ghost use Rattle.std.specs.Prelude.{◌≡◌, ◌+◌, ◌≤◌, ◌<◌, ◌^◌, true, IsTrue, None, Some, not, OnOk, IfErr, IfSome, length, take, drop, position};
ghost use Rattle.std.specs.List.{list_all};
ghost use Rattle.gs_chars.specs.Characters.{are_digits, are_in_set82};
ghost use Rattle.gs_ai.specs.Parts.{is_part, is_of_part, greatest_length};
ghost use Rattle.gs_ai.specs.Values.{least_of, greatest_of, pieces, wrong_character, is_checked, number_at, is_date, keeps_check, parts_error};
ghost use Rattle.gs_ai.specs.ValuesSupport.{each_fits, fits};

use crate::errors::ValueFault;
use crate::part::Part;
use gs_chars::{CharSet, are_digits, find_check_digit};

/// Returns the fewest characters of all parts together. There are at most three.
pub fn least_length_of(parts: &[Part]) -> usize
    requires { length parts.now ≤ 3 }
    ensures { result ≡ least_of parts.now }
{
    parts.iter().map(|part| part.least()).sum()
}

/// Returns the most characters of all parts together. There are at most three.
pub fn greatest_length_of(parts: &[Part]) -> usize
    requires { length parts.now ≤ 3 }
    ensures { result ≡ greatest_of parts.now }
{
    parts.iter().map(|part| part.greatest()).sum()
}

/// Returns the characters of the value that are the part's own, and the rest.
fn split_piece(part: Part, value: &[u8]) -> (&[u8], &[u8])
    ensures piece { result.0.now ≡ take (greatest_length part) value.now }
    ensures rest { result.1.now ≡ drop (greatest_length part) value.now }
    ensures whole { length result.0.now + length result.1.now ≡ length value.now }
{
    value.split_at(value.len().min(part.greatest()))
}

/// Returns the place of the first character that may not are in the part.
fn find_wrong_in(part: Part, piece: &[u8]) -> Option<usize>
    ensures place { result ≡ position (λ c. not (is_of_part part c)) piece.now }
    ensures within { IfSome result (λ i. i < length piece.now) }
{
    piece.iter().position(|c| !part.holds(*c))
}

/// Returns the place of the first character that is not of its part.
fn find_wrong_character(parts: &[Part], value: &[u8]) -> Option<usize>
    ensures place { result ≡ wrong_character parts.now value.now }
    ensures within { IfSome result (λ i. i < length value.now) }
{
    let (part, others) = parts.split_first()?;
    let (piece, rest) = split_piece(*part, value);
    match find_wrong_in(*part, piece) {
        Some(i) => Some(i),
        None => Some(piece.len() + find_wrong_character(others, rest)?),
    }
}

/// Returns whether the digits are `k`, and the last is the check digit of the others. The digits are read once.
fn has_check_digit(k: u8, digits: &[u8]) -> bool
    requires two { 2 ≤ k }
    requires at_most_18 { k ≤ 18 }
    ensures { result ≡ is_checked k digits.now }
{
    let (others, last) = digits.split_at(digits.len().min(usize::from(k) - 1));
    match find_check_digit(others) {
        Some(check) => last == [check].as_slice(),
        None => false,
    }
}

/// Returns the number of the two digits at the place.
fn number_at(digits: &[u8], i: usize) -> u8
    requires within { i + 2 ≤ length digits.now }
    requires digits { IsTrue (are_digits digits.now) }
    ensures { result ≡ number_at digits.now i }
{
    10 * (digits[i] - b'0') + (digits[i + 1] - b'0')
}

/// Returns whether the text is a date of six digits.
fn names_date(text: &[u8]) -> bool
    ensures { result ≡ is_date text.now }
{
    if !are_digits(text) || text.len() != 6 {
        return false;
    }
    let month = number_at(text, 2);
    1 <= month && month <= 12 && number_at(text, 4) <= 31
}

/// Returns whether each character is one of the 82.
fn are_in_set82(piece: &[u8]) -> bool
    ensures { result ≡ are_in_set82 piece.now }
{
    piece.iter().all(|c| CharSet::Set82.holds(*c))
}

/// Returns whether each character may be in the part.
fn are_held(part: Part, piece: &[u8]) -> bool
    ensures { result ≡ list_all (is_of_part part) piece.now }
{
    piece.iter().all(|c| part.holds(*c))
}

/// Returns whether the characters may be in the part, with its check digit or its date if it has one.
fn fits(part: Part, piece: &[u8]) -> bool
    requires { is_part part ≡ true }
    ensures { result ≡ fits part piece.now }
{
    match part {
        Part::NumCheck(k) => has_check_digit(k, piece),
        Part::Date => names_date(piece),
        Part::Num(_) | Part::NumUpTo(_) | Part::NumOpt(_) => are_digits(piece),
        Part::Set(_) | Part::SetOpt(_) => are_in_set82(piece),
        Part::Zero | Part::Other => are_held(part, piece),
    }
}

/// Returns whether each part fits, in one pass over the value.
fn each_fits(parts: &[Part], value: &[u8]) -> bool
    requires { list_all is_part parts.now ≡ true }
    ensures { result ≡ each_fits parts.now value.now }
{
    let Some((part, others)) = parts.split_first() else {
        return true;
    };
    let (piece, rest) = split_piece(*part, value);
    fits(*part, piece) && each_fits(others, rest)
}

/// Returns whether each checked part has its check digit.
fn keep_checks(parts: &[Part], value: &[u8]) -> bool
    requires { list_all is_part parts.now ≡ true }
    ensures { result ≡ list_all keeps_check (pieces parts.now value.now) }
{
    let Some((part, others)) = parts.split_first() else {
        return true;
    };
    let (piece, rest) = split_piece(*part, value);
    let kept = match *part {
        Part::NumCheck(k) => has_check_digit(k, piece),
        _ => true,
    };
    kept && keep_checks(others, rest)
}

/// Returns whether there is one part, and the value has no error by it.
fn fits_only_part(parts: &[Part], value: &[u8]) -> bool
    requires { list_all is_part parts.now ≡ true }
    ensures { IsTrue result → parts_error parts.now value.now ≡ None }
{
    let Some((part, others)) = parts.split_first() else {
        return false;
    };
    if !others.is_empty() || value.len() < part.least() || part.greatest() < value.len() {
        return false;
    }
    fits(*part, value)
}

/// Checks the value against at most three parts, each one of the list. Returns the first error: `Length`, `Char`, `Check`,
/// `Date`, in this order.
pub fn parts_ok(parts: &[Part], value: &[u8]) -> Result<(), ValueFault>
    requires few { length parts.now ≤ 3 }
    requires listed { list_all is_part parts.now ≡ true }
    ensures ok { OnOk result (parts_error parts.now value.now ≡ None) }
    ensures err { IfErr result (λ e. parts_error parts.now value.now ≡ Some e) }
{
    // most values have one part
    if fits_only_part(parts, value) {
        return Ok(());
    }
    if value.len() < least_length_of(parts) || greatest_length_of(parts) < value.len() {
        return Err(ValueFault::Length);
    }
    if each_fits(parts, value) {
        return Ok(());
    }
    // only a wrong value is read again, for its first error
    if let Some(i) = find_wrong_character(parts, value) {
        return Err(ValueFault::Char(i));
    }
    if !keep_checks(parts, value) {
        return Err(ValueFault::Check);
    }
    Err(ValueFault::Date)
}
