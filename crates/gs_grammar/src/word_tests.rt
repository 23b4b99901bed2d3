ghost use Rattle.std.specs.Prelude.{◌≡◌, ◌↔◌, ◌==◌, ◌&&◌, ◌≤◌, ◌<◌, ◌^◌, length, take, IsTrue, IfSome, IfNone, ℕ, List};
ghost use Rattle.gs_chars.specs.Characters.{are_digits};
ghost use Rattle.gs_grammar.specs.Items.{IsItem};
ghost use Rattle.gs_grammar.specs.Languages.{IsOneBehind};
ghost use Rattle.gs_grammar.specs.Words.{IsWord, Word, WritesNumber, SpellsEach};
ghost use Rattle.gs_grammar.specs.declared.item.Item.TheVariants.{Ascii7, Digits, Esc, Fill, Int, Num, NumPad, NumStr};

use crate::bit_words::{are_zeros, number_in_bits, packed_count};
use crate::item::{Item, is_within};
use crate::numerals::{digits_behind_one, has_at_most_digits, numeral};
use gs_chars::{are_digits, read_escape};

/// Returns whether the symbols are this many digits.
pub fn are_n_digits(symbols: &[u8], n: usize) -> bool
    ensures { result ≡ ((length symbols.now == n) && are_digits symbols.now) }
{
    symbols.len() == n && are_digits(symbols)
}

/// Returns whether the symbols are a word of the item `Digits`.
pub fn are_digits_within(symbols: &[u8], lo: u8, hi: u8) -> bool
    ensures { IsTrue result ↔ IsWord (Digits lo hi) symbols.now }
{
    is_within(usize::from(lo), usize::from(hi), symbols.len()) && are_digits(symbols)
}

/// Returns whether the symbols are a word of the item `Int`.
pub fn is_integer(symbols: &[u8], max: u64) -> bool
    requires { IsItem (Int max) }
    ensures { IsTrue result ↔ IsWord (Int max) symbols.now }
{
    match numeral(symbols) {
        Some(whole) => whole <= max,
        None => false,
    }
}

/// Writes the characters that the symbols spell to the start of `out`. Returns their number, if the symbols are a word of the
/// item `Esc`.
pub fn spell_within(symbols: &[u8], lo: u8, hi: u8, out: &mut [u8]) -> Option<usize>
    requires few { hi ≤ 64 }
    requires room { length out.old ≡ 64 }
    ensures within { IfSome result (λ count. count ≤ length out.new) }
    ensures some { IfSome result (λ count. Word (Esc lo hi) (take count out.new) symbols.now) }
    ensures none { IfNone result (IsWord (Esc lo hi) symbols.now → ⊥) }
{
    let Some(count) = spell(symbols, out) else {
        return None;
    };
    if !is_within(usize::from(lo), usize::from(hi), count) {
        return None;
    }
    Some(count)
}

/// Returns the number of the symbols in bits, if they are a word of the item `NumPad`.
pub fn digits_in_bits(symbols: &[u8], bits: u8, n: u8) -> Option<u64>
    requires narrow { bits ≤ 64 }
    requires few { n ≤ 18 }
    ensures small { IfSome result (λ number. number < 10 ^ n) }
    ensures written { IfSome result (λ number. WritesNumber bits number symbols.now) }
    ensures none { IfNone result (IsWord (NumPad bits n) symbols.now → ⊥) }
{
    let Some(number) = number_in_bits(symbols, usize::from(bits)) else {
        return None;
    };
    if !has_at_most_digits(number, n) {
        return None;
    }
    Some(number)
}

/// Returns the number of the symbols in bits, if they are a word of the item `Num`.
pub fn number_within(symbols: &[u8], bits: u8, max: u64) -> Option<u64>
    requires { bits ≤ 64 }
    ensures small { IfSome result (λ number. number ≤ max) }
    ensures written { IfSome result (λ number. WritesNumber bits number symbols.now) }
    ensures none { IfNone result (IsWord (Num bits max) symbols.now → ⊥) }
{
    let Some(number) = number_in_bits(symbols, usize::from(bits)) else {
        return None;
    };
    if number > max {
        return None;
    }
    Some(number)
}

/// Returns the number of the symbols in bits, and the count of its digits after the first. Returns `None` if they are not a
/// word of the item `NumStr`.
pub fn number_behind_one(symbols: &[u8], bits: u8, hi: u8) -> Option<(u64, u8)>
    requires narrow { bits ≤ 64 }
    requires few { hi ≤ 12 }
    ensures least { IfSome result (λ r. 1 ≤ r.1) }
    ensures most { IfSome result (λ r. r.1 ≤ hi) }
    ensures digits { IfSome result (λ r. IsOneBehind r.1 r.0) }
    ensures written { IfSome result (λ r. WritesNumber bits r.0 symbols.now) }
    ensures none { IfNone result (IsWord (NumStr bits hi) symbols.now → ⊥) }
{
    let number = number_in_bits(symbols, usize::from(bits))?;
    let count = digits_behind_one(number, hi)?;
    Some((number, count))
}

/// Returns whether the symbols are a word of the item `Ascii7`.
pub fn is_packed(symbols: &[u8], lo: u8, hi: u8, bits: u16) -> bool
    ensures { IsTrue result ↔ IsWord (Ascii7 lo hi bits) symbols.now }
{
    if symbols.len() != usize::from(bits) {
        return false;
    }
    match packed_count(symbols) {
        Some(count) => is_within(usize::from(lo), usize::from(hi), count),
        None => false,
    }
}

/// Returns whether the symbols are a word of the item `Fill`.
pub fn is_filling(symbols: &[u8], a: u8, b: u8) -> bool
    ensures { IsTrue result ↔ IsWord (Fill a b) symbols.now }
{
    are_zeros(symbols, usize::from(a)) || are_zeros(symbols, usize::from(b))
}

/// Returns whether the symbols are a word of the item. The item is within its bounds.
pub fn is_word(item: &Item, symbols: &[u8]) -> bool
    requires { IsItem item.now }
    ensures { IsTrue result ↔ IsWord item.now symbols.now }
{
    match item {
        Item::Lit(literal) => literal.as_bytes() == symbols,
        Item::Pad { n } => are_n_digits(symbols, usize::from(*n)),
        Item::Digits { lo, hi } => are_digits_within(symbols, *lo, *hi),
        Item::Int { max } => is_integer(symbols, *max),
        Item::Esc { lo, hi } => spell_within(symbols, *lo, *hi, &mut [0; 64]).is_some(),
        Item::NumPad { bits, n } => digits_in_bits(symbols, *bits, *n).is_some(),
        Item::Num { bits, max } => number_within(symbols, *bits, *max).is_some(),
        Item::NumStr { bits, hi } => number_behind_one(symbols, *bits, *hi).is_some(),
        Item::Ascii7 { lo, hi, bits } => is_packed(symbols, *lo, *hi, *bits),
        Item::Fill { a, b } => is_filling(symbols, *a, *b),
    }
}

/// Writes the characters that the symbols spell, each in a spelling of EPC URIs, to the start of `out`, and gives their number.
/// `None` is returned if and only if they spell no value of at most 64 characters, which is the room of `out`. Each spelling is
/// looked for once.
pub fn spell(symbols: &[u8], out: &mut [u8]) -> Option<usize>
    requires { length out.old ≡ 64 }
    ensures within { IfSome result (λ count. count ≤ length out.new) }
    ensures room { length out.new ≡ 64 }
    ensures some { IfSome result (λ count. SpellsEach (take count out.new) symbols.now) }
    ensures none { IfNone result ((value : List ℕ) → length value ≤ 64 → SpellsEach value symbols.now → ⊥) }
{
    let mut rest = symbols;
    let mut count = 0;
    while !rest.is_empty() {
        let (character, used) = read_escape(rest)?;
        if count == 64 {
            return None;
        }
        out[count] = character;
        rest = &rest[used..];
        count += 1;
    }
    Some(count)
}
