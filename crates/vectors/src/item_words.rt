//! Items as words: `lit:SYMBOLS`, `bits:DIGITS` for a literal of bits, `pad:N`, `digits:LO:HI`, `int:MAX`, `esc:LO:HI`,
//! `numpad:BITS:N`, `num:BITS:MAX`, `numstr:BITS:HI`, `ascii7:LO:HI:BITS`, `fill:A:B`.

use crate::case::{Rejection, named, number_of, text_of};
use gs_chars::Text;
use gs_grammar::Item;
use std::alloc::{AllocError, Global};

/// Returns the item of a word.
pub fn item_of(alloc: Global, word: &[u8]) -> Result<Item, Rejection> {
    if let Some(symbols) = word.strip_prefix(b"lit:") {
        return literal_of(alloc, symbols);
    }
    if let Some(digits) = word.strip_prefix(b"bits:") {
        return bit_literal_of(alloc, digits);
    }
    match text_of(word)?.split_once(':') {
        Some((name, numbers)) => numeric_item(name, three_numbers(numbers)?),
        None => Err(Rejection::NoCase),
    }
}

/// Returns the literal of these symbols.
fn literal_of(alloc: Global, symbols: &[u8]) -> Result<Item, Rejection> {
    Ok(Item::Lit(Text::from_bytes(alloc, symbols)?))
}

/// Returns the literal of the bits of these digits.
fn bit_literal_of(alloc: Global, digits: &[u8]) -> Result<Item, Rejection> {
    Ok(Item::Lit(Text::from_vec(bits_of(alloc, digits)?)))
}

/// Returns the symbols of the digits 0 and 1, and 2 of any other.
fn bits_of(alloc: Global, digits: &[u8]) -> Result<Vec<u8>, AllocError> {
    let mut bits = Vec::new(alloc);
    for digit in digits {
        bits.push(match *digit {
            b'0' => 0,
            b'1' => 1,
            _ => 2,
        })?;
    }
    Ok(bits)
}

/// Returns the numbers between colons, at most three, and 0 for those that are not there.
fn three_numbers(text: &str) -> Result<[u64; 3], Rejection> {
    let mut numbers = [0; 3];
    for (number, word) in numbers.iter_mut().zip(text.split(':')) {
        *number = number_of(word.as_bytes())?;
    }
    Ok(numbers)
}

/// The items that have numbers.
#[derive(Clone, Copy)]
enum Numbered {
    Ascii7,
    Digits,
    Esc,
    Fill,
    Int,
    Num,
    NumPad,
    NumStr,
    Pad,
}

const NAMES: [(&str, Numbered); 9] = [
    ("ascii7", Numbered::Ascii7),
    ("digits", Numbered::Digits),
    ("esc", Numbered::Esc),
    ("fill", Numbered::Fill),
    ("int", Numbered::Int),
    ("num", Numbered::Num),
    ("numpad", Numbered::NumPad),
    ("numstr", Numbered::NumStr),
    ("pad", Numbered::Pad),
];

/// Returns the item of a name and its numbers.
fn numeric_item(name: &str, [a, b, c]: [u64; 3]) -> Result<Item, Rejection> {
    match (named(&NAMES, name.as_bytes()), u8::try_from(a)) {
        (Some(Numbered::Int), _) => Ok(Item::Int { max: a }),
        (Some(Numbered::Pad), Ok(n)) => Ok(Item::Pad { n }),
        (Some(Numbered::Num), Ok(bits)) => Ok(Item::Num { bits, max: b }),
        (Some(two), Ok(first)) => two_byte_item(two, first, b, c),
        _ => Err(Rejection::NoCase),
    }
}

/// Returns the item of a name and its numbers; the first two are bytes.
fn two_byte_item(name: Numbered, first: u8, second: u64, third: u64) -> Result<Item, Rejection> {
    let Ok(second) = u8::try_from(second) else {
        return Err(Rejection::NoCase);
    };
    match name {
        Numbered::Digits => Ok(Item::Digits {
            lo: first,
            hi: second,
        }),
        Numbered::NumStr => Ok(Item::NumStr {
            bits: first,
            hi: second,
        }),
        Numbered::Esc => Ok(Item::Esc {
            lo: first,
            hi: second,
        }),
        Numbered::NumPad => Ok(Item::NumPad {
            bits: first,
            n: second,
        }),
        Numbered::Fill => Ok(Item::Fill {
            a: first,
            b: second,
        }),
        _ => packed_item(first, second, third),
    }
}

/// Returns the item of packed symbols.
fn packed_item(lo: u8, hi: u8, bits: u64) -> Result<Item, Rejection> {
    match u16::try_from(bits) {
        Ok(bits) => Ok(Item::Ascii7 { lo, hi, bits }),
        Err(_) => Err(Rejection::NoCase),
    }
}
