ghost use Rattle.std.specs.Prelude.{◌≡◌, ◌*◌, ◌<◌, ◌≤◌, ◌^◌, ◌&&◌, nat_le, nat_lt, true, false};
ghost use Rattle.std.specs.List.{list_all};
ghost use Rattle.gs_grammar.specs.Items.{is_in_bounds, is_symbol, is_between, size_of, shortest_of};

use crate::numerals::digit_count;
use gs_chars::{CharSet, Text};

/// A part of an option.
#[derive(Drop)]
pub enum Item {
    /// A literal of 1 to 64 symbols: visible characters, or on a bit level the bits 0 and 1. Its value is empty.
    Lit(Text),
    /// On a text level, exactly `n` digits, 1 to 18.
    Pad { n: u8 },
    /// On a text level, `lo` to `hi` digits, 1 to 18.
    Digits { lo: u8, hi: u8 },
    /// On a text level, the decimal text, without leading zeros, of a number of at most `max`.
    Int { max: u64 },
    /// On a text level, `lo` to `hi` characters of the set of 82, 1 to 64, each in its spelling of EPC URIs.
    Esc { lo: u8, hi: u8 },
    /// On a bit level, the number of exactly `n` digits, 1 to 18, in `bits` bits, 1 to 64.
    NumPad { bits: u8, n: u8 },
    /// On a bit level, a number of at most `max`, which is below 2 to the `bits`, in `bits` bits, 1 to 64. Its value is the
    /// decimal text without leading zeros.
    Num { bits: u8, max: u64 },
    /// On a bit level, 1 to `hi` digits, at most 12. They are written as the number of the digit 1 followed by them, in `bits`
    /// bits, at most 64. Twice 10 to the `hi` is at most 2 to the `bits`.
    NumStr { bits: u8, hi: u8 },
    /// On a bit level, `lo` to `hi` characters of the set of 82, 7 bits for each. Zeros follow up to `bits` bits, at most 448.
    Ascii7 { lo: u8, hi: u8, bits: u16 },
    /// On a bit level, `a` zeros or `b` zeros, 1 to 64. Its value is empty.
    Fill { a: u8, b: u8 },
}

/// Returns whether a symbol may be in a literal of the level.
fn is_literal_symbol(bit_level: bool, symbol: u8) -> bool
    ensures { result ≡ is_symbol bit_level symbol }
{
    if bit_level {
        symbol < 2
    } else {
        CharSet::Visible.holds(symbol)
    }
}

/// Returns whether each symbol may be in a literal of the level.
fn are_literal_symbols(bit_level: bool, symbols: &[u8]) -> bool
    ensures { result ≡ list_all (is_symbol bit_level) symbols.now }
{
    symbols
        .iter()
        .all(|symbol| is_literal_symbol(bit_level, *symbol))
}

/// Returns whether the number is within the two bounds.
pub fn is_within(least: usize, most: usize, number: usize) -> bool
    ensures { result ≡ is_between least most number }
{
    least <= number && number <= most
}

/// Returns whether the number has room in this many bits.
pub fn fits_bits(number: u64, bits: u8) -> bool
    ensures { result ≡ nat_lt number (2 ^ bits) }
{
    bits >= 64 || number < 1 << bits
}

/// Returns whether these are two bounds from 1 to 64, the first at most the second.
fn are_bounds(lo: u8, hi: u8) -> bool
    ensures { result ≡ (nat_le 1 lo && nat_le lo hi && nat_le hi 64) }
{
    1 <= lo && lo <= hi && hi <= 64
}

/// Returns whether an item `Num` is within its bounds.
fn is_num(bits: u8, max: u64) -> bool
    ensures { result ≡ is_in_bounds true (Item.Num bits max) }
{
    1 <= bits && bits <= 64 && fits_bits(max, bits)
}

/// Returns whether an item `Digits` is within its bounds.
fn is_digits(lo: u8, hi: u8) -> bool
    ensures { result ≡ is_in_bounds false (Item.Digits lo hi) }
{
    1 <= lo && lo <= hi && hi <= 18
}

/// Returns whether an item `NumStr` is within its bounds.
fn is_num_str(bits: u8, hi: u8) -> bool
    ensures { result ≡ is_in_bounds true (Item.NumStr bits hi) }
{
    if !is_within(1, 12, usize::from(hi)) {
        return false;
    }
    bits <= 64 && fits_bits(2 * 10u64.pow(u32::from(hi)) - 1, bits)
}

/// Returns whether an item `Ascii7` is within its bounds.
fn is_ascii7(lo: u8, hi: u8, bits: u16) -> bool
    ensures { result ≡ is_in_bounds true (Item.Ascii7 lo hi bits) }
{
    1 <= lo && lo <= hi && 7 * u16::from(hi) <= bits && bits <= 448
}

impl Item {
    /// Returns whether the item is one of the level and is within its bounds.
    pub fn is_in_bounds(&self, bit_level: bool) -> bool
        ensures { result ≡ is_in_bounds bit_level self.now }
    {
        match self {
            Item::Lit(literal) => {
                let symbols = literal.as_bytes();
                is_within(1, 64, symbols.len()) && are_literal_symbols(bit_level, symbols)
            }
            Item::Pad { n } => !bit_level && is_within(1, 18, usize::from(*n)),
            Item::Digits { lo, hi } => !bit_level && is_digits(*lo, *hi),
            Item::Int { max } => !bit_level && *max <= u64::MAX,
            Item::Esc { lo, hi } => !bit_level && are_bounds(*lo, *hi),
            Item::NumPad { bits, n } => {
                bit_level
                    && is_within(1, 64, usize::from(*bits))
                    && is_within(1, 18, usize::from(*n))
            }
            Item::Num { bits, max } => bit_level && is_num(*bits, *max),
            Item::NumStr { bits, hi } => bit_level && is_num_str(*bits, *hi),
            Item::Ascii7 { lo, hi, bits } => bit_level && is_ascii7(*lo, *hi, *bits),
            Item::Fill { a, b } => bit_level && are_bounds(*a, *b),
        }
    }

    /// Returns the most symbols that a word of the item has.
    pub fn size(&self) -> usize
        ensures size { result ≡ size_of self.now }
        ensures bound { result < 2 ^ 63 }
    {
        match self {
            Item::Lit(literal) => literal.as_bytes().len(),
            Item::Pad { n } => usize::from(*n),
            Item::Digits { hi, .. } => usize::from(*hi),
            Item::Int { max } => digit_count(*max),
            Item::Esc { hi, .. } => 3 * usize::from(*hi),
            Item::NumPad { bits, .. } | Item::Num { bits, .. } | Item::NumStr { bits, .. } => {
                usize::from(*bits)
            }
            Item::Ascii7 { bits, .. } => usize::from(*bits),
            Item::Fill { b, .. } => usize::from(*b),
        }
    }

    /// Returns the fewest symbols that a word of the item has.
    pub fn shortest(&self) -> usize
        ensures { result ≡ shortest_of self.now }
    {
        match self {
            Item::Int { .. } => 1,
            Item::Digits { lo, .. } | Item::Esc { lo, .. } => usize::from(*lo),
            Item::Fill { a, .. } => usize::from(*a),
            _ => self.size(),
        }
    }
}
