ghost use Rattle.std.specs.Prelude.{◌≡◌, ◌==◌, ◌↔◌, ◌*◌, ◌^◌, ◌&&◌, ◌<◌, ℕ, List, false, length, nat_le};
ghost use Rattle.std.specs.Prelude.{IsOk, IfOk, Some, is_none};
ghost use Rattle.gs_chars.specs.Characters.{are_in_set82};
ghost use Rattle.gs_grammar.specs.declared.item.Item.TheVariants.{Num};
ghost use Rattle.gs_grammar.specs.Items.{is_between};
ghost use Rattle.gs_grammar.specs.ItemsSupport.{greatest_of, number_of_value, IsIfSmall, IsJudged, digits_reason};
ghost use Rattle.gs_grammar.specs.NumeralsSupport.{number_behind};
ghost use Rattle.gs_grammar.specs.Words.{Word, decimal_value};
ghost use Rattle.gs_grammar.specs.WrittenWords.{GivesReason, first_reason, why_not};

use crate::error::Why;
use crate::item::{Item, fits_bits, is_within};
use crate::numerals::{fits_wide_bits, has_leading_zero, number_of_digits, numeral};
use gs_chars::{CharSet, are_digits};

/// Returns the number, or the first reason that applies. A number that is too large is `None`.
fn judge(char: bool, size: bool, zero: bool, number: Option<u64>) -> Result<u64, Why>
    ensures reason { IsJudged result (first_reason char size zero (is_none number)) }
    ensures number { IfOk result (λ judged. number ≡ Some judged) }
{
    if char {
        return Err(Why::Char);
    }
    if size {
        return Err(Why::Length);
    }
    if zero {
        return Err(Why::Zero);
    }
    number.ok_or(Why::Large)
}

/// Returns 0, or the first reason that applies to a text: a character of it, or its length.
fn judge_text(char: bool, size: bool) -> Result<u64, Why>
    ensures reason { IsJudged result (first_reason char size false false) }
    ensures number { IfOk result (λ number. number ≡ 0) }
{
    judge(char, size, false, Some(0))
}

/// Returns whether each character is one of the set of 82.
fn all_in_set82(value: &[u8]) -> bool
    ensures { result ≡ are_in_set82 value.now }
{
    value
        .iter()
        .all(|character| CharSet::Set82.holds(*character))
}

/// Returns whether the number of characters is within the two bounds, and 7 bits of each have room.
fn is_packable(lo: u8, hi: u8, bits: u16, count: usize) -> bool
    ensures { result ≡ (is_between lo hi count && nat_le (7 * count) bits) }
{
    is_within(usize::from(lo), usize::from(hi), count) && count <= usize::from(bits / 7)
}

/// Returns the number that a digit's number and the characters after it write, or the first reason against it. The reasons are
/// a character, the size, and a number that does not fit in this many bits. A number that is not below 2 to the 64 is given as
/// 0.
fn judge_digits(front: u8, value: &[u8], size: bool, bits: u8) -> Result<u64, Why>
    ensures reason { IsJudged result (digits_reason front value.now size bits) }
    ensures number { IfOk result (λ number. IsIfSmall number (number_behind front value.now)) }
{
    match number_of_digits(front, value) {
        Some(number) => {
            let room = fits_bits(number, bits);
            judge(false, size, false, room.then_some(number))
        }
        None => {
            let room = bits > 64 && fits_wide_bits(front, value, bits);
            judge(!are_digits(value), size, false, room.then_some(0))
        }
    }
}

/// Returns the number that the characters write, or the first reason against it. The number has no leading zeros, is at most
/// the greatest, and fits in this many bits.
fn judge_number(value: &[u8], greatest: u64, bits: u8) -> Result<u64, Why>
    ensures reason { IsJudged result (why_not (Num bits greatest) value.now) }
    ensures number { IfOk result (λ number. number ≡ decimal_value value.now) }
{
    match numeral(value) {
        Some(number) if number <= greatest && fits_bits(number, bits) => Ok(number),
        Some(_) => Err(Why::Large),
        None => judge(
            !are_digits(value),
            value.len() == 0,
            has_leading_zero(value),
            None,
        ),
    }
}

/// Returns the number of the word that an item has for the value, or the first reason why it has none. The number of a word
/// without one is 0. The greatest number of an item has at most 64 bits.
pub fn judged(item: &Item, value: &[u8]) -> Result<u64, Why>
    ensures greatest { greatest_of item.now < 2 ^ 64 }
    ensures reason { IsJudged result (why_not item.now value.now) }
    ensures number { IfOk result (λ number. IsIfSmall number (number_of_value item.now value.now)) }
{
    let count = value.len();
    match item {
        Item::Pad { n } => judge_text(!are_digits(value), count != usize::from(*n)),
        Item::Digits { lo, hi } => judge_text(
            !are_digits(value),
            !is_within(usize::from(*lo), usize::from(*hi), count),
        ),
        Item::Int { max } => judge_number(value, *max, 64),
        Item::Esc { lo, hi } => judge_text(
            !all_in_set82(value),
            !is_within(usize::from(*lo), usize::from(*hi), count),
        ),
        Item::NumPad { bits, n } => judge_digits(0, value, count != usize::from(*n), *bits),
        Item::Num { bits, max } => judge_number(value, *max, *bits),
        Item::NumStr { bits, hi } => {
            match judge_digits(1, value, !is_within(1, usize::from(*hi), count), *bits) {
                Err(Why::Large) => Err(Why::Length),
                judged => judged,
            }
        }
        Item::Ascii7 { lo, hi, bits } => judge_text(
            !all_in_set82(value),
            !is_packable(*lo, *hi, *bits, count),
        ),
        Item::Lit(_) | Item::Fill { .. } => judge_text(false, count != 0),
    }
}

/// Returns `Ok` if some word of the item has the value, even if the item is not within its bounds. The reasons against are tried
/// in the order of `Why`. An item `Lit` or `Fill` holds only the empty value.
pub fn holds(item: &Item, value: &[u8]) -> Result<(), Why>
    ensures reason { GivesReason result (why_not item.now value.now) }
    ensures word { IsOk result ↔ ((w : List ℕ) × Word item.now value.now w) }
{
    judged(item, value)?;
    Ok(())
}
