ghost use Rattle.std.specs.Prelude.{◌≡◌, ◌↔◌, ◌≤◌, ◌++◌, ◌<◌, ℕ, List, IsTrue, IfSome, IfNone, IfOk, length, replicate};
ghost use Rattle.std.specs.Prelude.{take, ◌+◌, ◌*◌, ◌^◌, SomeIff, nat_lt};
ghost use Rattle.gs_grammar.specs.Words.{WritesNumber, IsPacked, PacksMany};
ghost use Rattle.gs_grammar.specs.NumeralsSupport.{HasCode, NoCode};
ghost use Rattle.gs_grammar.specs.Limits.{most_symbols};

use gs_bits::BitBuf;
use gs_chars::{CharSet, Memory, Text};
use std::alloc::Global;
use std::marker::Model;

/// Returns whether the symbols are n zeros.
pub fn are_zeros(symbols: &[u8], n: usize) -> bool
    ensures { IsTrue result ↔ (symbols.now ≡ replicate n 0) }
{
    symbols.len() == n && symbols.iter().all(|symbol| *symbol == 0)
}

/// Returns the number that the symbols are in this many bits, the highest first. Returns `None` if and only if they are not a
/// number in that many bits. There are at most 64 bits.
pub fn number_in_bits(symbols: &[u8], bits: usize) -> Option<u64>
    requires { bits ≤ 64 }
    ensures some { IfSome result (λ number. WritesNumber bits number symbols.now) }
    ensures none { IfNone result ((number : ℕ) → WritesNumber bits number symbols.now → ⊥) }
{
    if symbols.len() != bits {
        return None;
    }
    let mut number: u64 = 0;
    for symbol in symbols {
        if *symbol > 1 {
            return None;
        }
        number = 2 * number + u64::from(*symbol);
    }
    Some(number)
}

/// Returns the code, from 1 to 127, of the first 7 symbols. Returns `None` if and only if they are not such a code.
fn front_code(symbols: &[u8]) -> Option<u8>
    ensures some { IfSome result (λ code. HasCode symbols.now code) }
    ensures none { IfNone result (NoCode symbols.now) }
{
    if symbols.len() < 7 {
        return None;
    }
    let number = number_in_bits(&symbols[..7], 7)?;
    if number == 0 {
        None
    } else {
        Some(number as u8)
    }
}

/// Returns the number of characters that the symbols pack, 7 bits each, with zeros after them. `None` is returned if and only if
/// they pack no value.
pub fn packed_count(symbols: &[u8]) -> Option<usize>
    ensures some { IfSome result (λ n. PacksMany n symbols.now) }
    ensures none { IfNone result ((value : List ℕ) → IsPacked value symbols.now → ⊥) }
{
    let mut rest = symbols;
    let mut count = 0;
    while let Some(code) = front_code(rest) {
        if !CharSet::Set82.holds(code) {
            return None;
        }
        rest = &rest[7..];
        count += 1;
    }
    if are_zeros(rest, rest.len()) {
        Some(count)
    } else {
        None
    }
}

/// Returns the characters that the symbols pack. They are packed characters.
pub fn unpacked(alloc: Global, symbols: &[u8]) -> Result<Text, Memory>
    requires { (value : List ℕ) × IsPacked value symbols.now }
    ensures { IfOk result (λ value. IsPacked value symbols.now) }
{
    let mut rest = symbols;
    let mut value = Text::new(alloc);
    while let Some(code) = front_code(rest) {
        value.push(code)?;
        rest = &rest[7..];
    }
    Ok(value)
}

/// Writes the bits to the start of the symbols, and gives their number. There is room for 512 symbols.
pub fn unpack<const N: usize>(bits: &BitBuf<N>, symbols: &mut [u8]) -> usize
    requires { length symbols.old ≡ most_symbols }
    ensures within { result ≤ length symbols.new }
    ensures written { take result symbols.new ≡ bits.now }
{
    let count = bits.len();
    bits.unpack(symbols);
    count
}

/// A number below 2 to the 256.
#[derive(Drop)]
pub struct WideNumber {
    high: u128,
    low: u128,
}

impl Model for WideNumber {
    ghost use Rattle.std.specs.Prelude.{ℕ, ◌+◌, ◌*◌, ◌^◌, ◌<◌};

    ghost Value = { ℕ };

    ghost view = { λ n. 2 ^ 128 * n.high + n.low };

    ghost invariant = { λ n. n.low < 2 ^ 128 };
}

impl WideNumber {
    /// Returns the number of a digit.
    pub fn from_digit(digit: u8) -> WideNumber
        ensures { result ≡ digit }
    {
        WideNumber {
            high: 0,
            low: u128::from(digit),
        }
    }

    /// Returns the sum. `None` is returned if and only if it is not below 2 to the 256.
    fn plus(&self, other: &WideNumber) -> Option<WideNumber>
        ensures { SomeIff result (self.now + other.now < 2 ^ 256) (self.now + other.now) }
    {
        let high = self.high.checked_add(other.high)?;
        match self.low.checked_add(other.low) {
            Some(low) => Some(WideNumber { high, low }),
            None => Some(WideNumber {
                high: high.checked_add(1)?,
                low: self.low.wrapping_add(other.low),
            }),
        }
    }

    /// Returns the number that one digit more writes: ten times this one, and the digit. `None` is returned if and only if it is
    /// not below 2 to the 256.
    pub fn with_digit(&self, digit: u8) -> Option<WideNumber>
        ensures { SomeIff result (10 * self.now + digit < 2 ^ 256) (10 * self.now + digit) }
    {
        let twice = self.plus(self)?;
        let five_times = twice.plus(&twice)?.plus(self)?;
        five_times
            .plus(&five_times)?
            .plus(&WideNumber::from_digit(digit))
    }

    /// Returns whether the number has room in this many bits.
    pub fn fits_bits(&self, bits: u8) -> bool
        ensures { result ≡ nat_lt self.now (2 ^ bits) }
    {
        if bits < 128 {
            self.high == 0 && self.low < 1 << bits
        } else {
            self.high < 1 << (bits - 128)
        }
    }
}
