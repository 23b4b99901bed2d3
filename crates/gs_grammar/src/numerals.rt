ghost use Rattle.std.specs.Prelude.{◌≡◌, ◌↔◌, ◌^◌, ◌*◌, ◌+◌, ℕ, ◌<◌, ◌≤◌, IsTrue, IfSome, IfNone, IfOk, SomeIff, length, decimal, nat_lt};
ghost use Rattle.gs_grammar.specs.Numerals.{NoNumeral};
ghost use Rattle.gs_grammar.specs.NumberWords.{digits_of};
ghost use Rattle.gs_grammar.specs.NumeralsSupport.{IsPadded, WritesSmall, number_behind};
ghost use Rattle.gs_grammar.specs.Languages.{IsOneBehind};
ghost use Rattle.gs_grammar.specs.WrittenWords.{has_leading_zero};

use crate::bit_words::WideNumber;
use gs_chars::{CharSet, Memory, Text};
use std::alloc::Global;

/// The powers of ten below 2 to the 64.
static POWERS_OF_TEN: [u64; 20] = [
    1,
    10,
    100,
    1_000,
    10_000,
    100_000,
    1_000_000,
    10_000_000,
    100_000_000,
    1_000_000_000,
    10_000_000_000,
    100_000_000_000,
    1_000_000_000_000,
    10_000_000_000_000,
    100_000_000_000_000,
    1_000_000_000_000_000,
    10_000_000_000_000_000,
    100_000_000_000_000_000,
    1_000_000_000_000_000_000,
    10_000_000_000_000_000_000,
];

/// Returns 10 to the n. n is at most 19.
fn power_of_ten(n: usize) -> u64
    requires { n ≤ 19 }
    ensures { result ≡ 10 ^ n }
{
    POWERS_OF_TEN[n]
}

/// Returns the number of decimal digits of a number after the first.
pub fn digits_behind(number: u64) -> u32
    ensures count { result + 1 ≡ length (decimal number) }
    ensures few { result ≤ 19 }
    ensures from { 0 < number → 10 ^ result ≤ number }
    ensures below { number < 10 * 10 ^ result }
{
    match number.checked_ilog10() {
        Some(power) => power,
        None => 0,
    }
}

/// Returns the number of decimal digits of a number.
pub fn digit_count(number: u64) -> usize
    ensures count { result ≡ length (decimal number) }
    ensures few { result ≤ 20 }
{
    digits_behind(number) as usize + 1
}

/// Returns whether a number has at most n digits. n is at most 18.
pub fn has_at_most_digits(number: u64, n: u8) -> bool
    requires { n ≤ 18 }
    ensures { IsTrue result ↔ (number < 10 ^ n) }
{
    number < power_of_ten(usize::from(n))
}

/// Returns whether there is a leading zero before other digits.
pub fn has_leading_zero(symbols: &[u8]) -> bool
    ensures { result ≡ has_leading_zero symbols.now }
{
    symbols.len() > 1 && symbols[0] == b'0'
}

/// Returns the number of digits after the first of a number that begins with 1. Returns `None` if and only if the number is not a
/// 1 followed by 1 to `most` digits. `most` is at most 12.
pub fn digits_behind_one(number: u64, most: u8) -> Option<u8>
    requires { most ≤ 12 }
    ensures least { IfSome result (λ count. 1 ≤ count) }
    ensures most { IfSome result (λ count. count ≤ most) }
    ensures digits { IfSome result (λ count. IsOneBehind count number) }
    ensures none { IfNone result ((count : ℕ) → 1 ≤ count → count ≤ most → IsOneBehind count number → ⊥) }
{
    let count = digits_behind(number);
    if count == 0 || count > u32::from(most) {
        return None;
    }
    if number >= 2 * power_of_ten(count as usize) {
        return None;
    }
    Some(count as u8)
}

/// Returns the number that a digit's number and decimal digits after it write. `None` is returned if and only if it is not below
/// 2 to the 256.
fn wide_number_behind(front: u8, digits: &[u8]) -> Option<WideNumber>
    ensures { SomeIff result (number_behind front digits.now < 2 ^ 256) (number_behind front digits.now) }
{
    let mut number = WideNumber::from_digit(front);
    for digit in digits {
        number = number.with_digit(digit.saturating_sub(b'0'))?;
    }
    Some(number)
}

/// Returns whether the number that a digit's number and decimal digits after it write has room in this many bits.
pub fn fits_wide_bits(front: u8, digits: &[u8], bits: u8) -> bool
    ensures { result ≡ nat_lt (number_behind front digits.now) (2 ^ bits) }
{
    match wide_number_behind(front, digits) {
        Some(number) => number.fits_bits(bits),
        None => false,
    }
}

/// Returns the number that a digit's number and the digits after it write. `None` is returned if and only if a symbol is not a
/// digit, or the number is not below 2 to the 64.
pub fn number_of_digits(front: u8, symbols: &[u8]) -> Option<u64>
    ensures { SomeIff result (WritesSmall front symbols.now) (number_behind front symbols.now) }
{
    let mut number = u64::from(front);
    for symbol in symbols {
        if !CharSet::Digits.holds(*symbol) {
            return None;
        }
        let shifted = number.checked_mul(10)?;
        number = shifted.checked_add(u64::from(*symbol - b'0'))?;
    }
    Some(number)
}

/// Returns the number whose decimal text, without leading zeros, the symbols are. `None` is returned if and only if they are the
/// text of no number below 2 to the 64.
pub fn numeral(symbols: &[u8]) -> Option<u64>
    ensures some { IfSome result (λ number. symbols.now ≡ decimal number) }
    ensures none { IfNone result (NoNumeral symbols.now) }
{
    if symbols.is_empty() {
        return None;
    }
    if has_leading_zero(symbols) {
        return None;
    }
    number_of_digits(0, symbols)
}

/// Writes the lowest digits of a number, the highest first, one to each place.
pub fn write_digits(number: u64, places: &mut [u8])
    ensures { places.new ≡ digits_of (length places.old) number }
{
    let mut place = places.len();
    let mut left = number;
    while place > 0 {
        place -= 1;
        places[place] = b'0' + (left % 10) as u8;
        left /= 10;
    }
}

/// Returns the n digits of a number, leading zeros. n is at most 18, and the number has no more digits.
pub fn padded(alloc: Global, number: u64, n: u8) -> Result<Text, Memory>
    requires few { n ≤ 18 }
    requires fits { number < 10 ^ n }
    ensures { IfOk result (λ digits. IsPadded n number digits) }
{
    let mut room = [0; 18];
    let digits = &mut room[..usize::from(n)];
    write_digits(number, digits);
    let text = Text::from_bytes(alloc, digits)?;
    Ok(text)
}

/// Returns the decimal text of a number.
pub fn decimal_text(alloc: Global, number: u64) -> Result<Text, Memory>
    ensures { IfOk result (λ text. text ≡ decimal number) }
{
    let count = digit_count(number);
    if count > 18 {
        let text = format!(in alloc; "{number}")?;
        return Ok(Text::from_vec(text.into_bytes()));
    }
    padded(alloc, number, count as u8)
}
