ghost use Rattle.std.specs.Prelude.{◌≡◌, ◌≤◌, ℕ, IfOk, IfSome, IfNone};
ghost use Rattle.gs_grammar.specs.Items.{IsItem};
ghost use Rattle.gs_grammar.specs.Words.{IsWord, Word, WritesNumber, number_of_word};
ghost use Rattle.gs_grammar.specs.declared.item.Item.TheVariants.{Ascii7, Digits, Esc, Fill, Int, Lit, Num, NumPad, NumStr, Pad};

use crate::bit_words::{number_in_bits, unpacked};
use crate::item::Item;
use crate::numerals::{decimal_text, padded};
use crate::word_tests::{
    are_digits_within, are_n_digits, digits_in_bits, is_filling, is_integer, is_packed,
    number_behind_one, number_within, spell_within,
};
use gs_chars::{CowText, Memory, Text};
use std::alloc::Global;

/// Returns the empty value, if the symbols are the literal of an item `Lit`.
fn read_literal<'a>(symbols: &[u8], literal: &Text) -> Option<CowText<'a>>
    ensures found { IfSome result (λ value. Word (Lit literal.now) value symbols.now) }
    ensures none { IfNone result (IsWord (Lit literal.now) symbols.now → ⊥) }
{
    if literal.as_bytes() != symbols {
        return None;
    }
    Some(CowText::lent(&[]))
}

/// Returns the digits, if the symbols are a word of the item `Pad`.
fn read_digits(symbols: &[u8], n: u8) -> Option<CowText<'_>>
    ensures found { IfSome result (λ value. Word (Pad n) value symbols.now) }
    ensures none { IfNone result (IsWord (Pad n) symbols.now → ⊥) }
{
    if !are_n_digits(symbols, usize::from(n)) {
        return None;
    }
    Some(CowText::lent(symbols))
}

/// Returns the digits, if the symbols are a word of the item `Digits`.
fn read_digits_within(symbols: &[u8], lo: u8, hi: u8) -> Option<CowText<'_>>
    ensures found { IfSome result (λ value. Word (Digits lo hi) value symbols.now) }
    ensures none { IfNone result (IsWord (Digits lo hi) symbols.now → ⊥) }
{
    if !are_digits_within(symbols, lo, hi) {
        return None;
    }
    Some(CowText::lent(symbols))
}

/// Returns the symbols, if they are a word of the item `Int`.
fn read_integer(symbols: &[u8], max: u64) -> Option<CowText<'_>>
    requires { IsItem (Int max) }
    ensures found { IfSome result (λ value. Word (Int max) value symbols.now) }
    ensures none { IfNone result (IsWord (Int max) symbols.now → ⊥) }
{
    if !is_integer(symbols, max) {
        return None;
    }
    Some(CowText::lent(symbols))
}

/// Returns the characters that the symbols spell, if they are a word of the item `Esc`. If both lengths are equal, the symbols
/// are the characters.
fn read_escaped(
    alloc: Global,
    symbols: &[u8],
    lo: u8,
    hi: u8,
) -> Result<Option<CowText<'_>>, Memory>
    requires { hi ≤ 64 }
    ensures found { IfOk result (λ found. IfSome found (λ value. Word (Esc lo hi) value symbols.now)) }
    ensures none { IfOk result (λ found. IfNone found (IsWord (Esc lo hi) symbols.now → ⊥)) }
{
    let mut characters = [0; 64];
    let Some(count) = spell_within(symbols, lo, hi, &mut characters) else {
        return Ok(None);
    };
    if count == symbols.len() {
        return Ok(Some(CowText::lent(symbols)));
    }
    let text = Text::from_bytes(alloc, &characters[..count])?;
    Ok(Some(CowText::from(text)))
}

/// Returns the digits of the number of the symbols in bits, if they are a word of the item `NumPad`.
fn read_padded<'a>(
    alloc: Global,
    symbols: &[u8],
    bits: u8,
    n: u8,
) -> Result<Option<CowText<'a>>, Memory>
    requires narrow { bits ≤ 64 }
    requires few { n ≤ 18 }
    ensures found { IfOk result (λ found. IfSome found (λ value. Word (NumPad bits n) value symbols.now)) }
    ensures none { IfOk result (λ found. IfNone found (IsWord (NumPad bits n) symbols.now → ⊥)) }
{
    let Some(number) = digits_in_bits(symbols, bits, n) else {
        return Ok(None);
    };
    let digits = padded(alloc, number, n)?;
    Ok(Some(CowText::from(digits)))
}

/// Returns the decimal text of the number of the symbols in bits, if they are a word of the item `Num`.
fn read_number<'a>(
    alloc: Global,
    symbols: &[u8],
    bits: u8,
    max: u64,
) -> Result<Option<CowText<'a>>, Memory>
    requires { bits ≤ 64 }
    ensures found { IfOk result (λ found. IfSome found (λ value. Word (Num bits max) value symbols.now)) }
    ensures none { IfOk result (λ found. IfNone found (IsWord (Num bits max) symbols.now → ⊥)) }
{
    let Some(number) = number_within(symbols, bits, max) else {
        return Ok(None);
    };
    let text = decimal_text(alloc, number)?;
    Ok(Some(CowText::from(text)))
}

/// Returns the digits after a first 1 of the number of the symbols in bits, if they are a word of the item `NumStr`.
fn read_behind_one<'a>(
    alloc: Global,
    symbols: &[u8],
    bits: u8,
    hi: u8,
) -> Result<Option<CowText<'a>>, Memory>
    requires narrow { bits ≤ 64 }
    requires few { hi ≤ 12 }
    ensures found { IfOk result (λ found. IfSome found (λ value. Word (NumStr bits hi) value symbols.now)) }
    ensures none { IfOk result (λ found. IfNone found (IsWord (NumStr bits hi) symbols.now → ⊥)) }
{
    let Some((number, count)) = number_behind_one(symbols, bits, hi) else {
        return Ok(None);
    };
    let digits = padded(alloc, number - 10u64.pow(u32::from(count)), count)?;
    Ok(Some(CowText::from(digits)))
}

/// Returns the characters that the symbols pack, if they are a word of the item `Ascii7`.
fn read_packed<'a>(
    alloc: Global,
    symbols: &[u8],
    lo: u8,
    hi: u8,
    bits: u16,
) -> Result<Option<CowText<'a>>, Memory>
    ensures found { IfOk result (λ found.
        IfSome found (λ value. Word (Ascii7 lo hi bits) value symbols.now)) }
    ensures none { IfOk result (λ found. IfNone found (IsWord (Ascii7 lo hi bits) symbols.now → ⊥)) }
{
    if !is_packed(symbols, lo, hi, bits) {
        return Ok(None);
    }
    let text = unpacked(alloc, symbols)?;
    Ok(Some(CowText::from(text)))
}

/// Returns the empty value, if the symbols are a word of the item `Fill`.
fn read_filling<'a>(symbols: &[u8], a: u8, b: u8) -> Option<CowText<'a>>
    ensures found { IfSome result (λ value. Word (Fill a b) value symbols.now) }
    ensures none { IfNone result (IsWord (Fill a b) symbols.now → ⊥) }
{
    if !is_filling(symbols, a, b) {
        return None;
    }
    Some(CowText::lent(&[]))
}

/// Returns the value of the symbols, if they are a word of the item, and `None` if and only if they are not. A value that is its
/// own word is lent. The item is within its bounds.
pub fn read_word<'a>(
    alloc: Global,
    item: &Item,
    symbols: &'a [u8],
) -> Result<Option<CowText<'a>>, Memory>
    requires { IsItem item.now }
    ensures found { IfOk result (λ found. IfSome found (λ value. Word item.now value symbols.now)) }
    ensures none { IfOk result (λ found. IfNone found (IsWord item.now symbols.now → ⊥)) }
{
    match item {
        Item::Lit(literal) => Ok(read_literal(symbols, literal)),
        Item::Pad { n } => Ok(read_digits(symbols, *n)),
        Item::Digits { lo, hi } => Ok(read_digits_within(symbols, *lo, *hi)),
        Item::Int { max } => Ok(read_integer(symbols, *max)),
        Item::Esc { lo, hi } => read_escaped(alloc, symbols, *lo, *hi),
        Item::NumPad { bits, n } => read_padded(alloc, symbols, *bits, *n),
        Item::Num { bits, max } => read_number(alloc, symbols, *bits, *max),
        Item::NumStr { bits, hi } => read_behind_one(alloc, symbols, *bits, *hi),
        Item::Ascii7 { lo, hi, bits } => read_packed(alloc, symbols, *lo, *hi, *bits),
        Item::Fill { a, b } => Ok(read_filling(symbols, *a, *b)),
    }
}

/// Returns the value of a word of the item. The item is within its bounds.
pub fn value_of<'a>(alloc: Global, item: &Item, word: &'a [u8]) -> Result<CowText<'a>, Memory>
    requires item { IsItem item.now }
    requires word { IsWord item.now word.now }
    ensures { IfOk result (λ value. Word item.now value word.now) }
{
    match read_word(alloc, item, word)? {
        Some(value) => Ok(value),
        None => unreachable!(),
    }
}

/// Returns the number that a list of bits is.
fn number_of_bits(word: &[u8], bits: u8) -> u64
    requires narrow { bits ≤ 64 }
    requires number { (number : ℕ) × WritesNumber bits number word.now }
    ensures { WritesNumber bits result word.now }
{
    match number_in_bits(word, usize::from(bits)) {
        Some(number) => number,
        None => unreachable!(),
    }
}

/// Returns the number that a whole word writes: its bits if the item is a number in bits, and 0 for any other item. The item is
/// within its bounds, and the symbols are a word of it.
pub fn number_of_word(item: &Item, word: &[u8]) -> u64
    requires item { IsItem item.now }
    requires word { IsWord item.now word.now }
    ensures { result ≡ number_of_word item.now word.now }
{
    match item {
        Item::NumPad { bits, .. } | Item::Num { bits, .. } | Item::NumStr { bits, .. } => {
            number_of_bits(word, *bits)
        }
        _ => 0,
    }
}
