//! Calls of gs_chars.
//!
//! - `holds SET TEXT`, with SET `Digits` or `Set82`: for each byte `y` if the set has it and otherwise `n`.
//! - `are_digits TEXT`: whether all bytes are digits. `check_digit DIGITS`: the digit.
//! - `read_escape TEXT`: the character and the number of bytes, or `None`.
//! - `write_escape C`: the number of bytes, and the three bytes of the buffer, which held `...` before.
//! - `text TEXT`, `copy TEXT`: its bytes. `compare A B`: the order of two texts. `list BYTES`: the items, and those given back.

use crate::case::{Rejection, bytes_at, named};
use crate::line::{Done, Line};
use gs_chars::{CharSet, List, Text, are_digits, check_digit, read_escape, write_escape};
use std::alloc::Global;

#[derive(Clone, Copy)]
enum Call {
    AreDigits,
    CheckDigit,
    Compare,
    Copy,
    Holds,
    List,
    ReadEscape,
    Text,
    WriteEscape,
}

const CALLS: [(&str, Call); 9] = [
    ("are_digits", Call::AreDigits),
    ("check_digit", Call::CheckDigit),
    ("compare", Call::Compare),
    ("copy", Call::Copy),
    ("holds", Call::Holds),
    ("list", Call::List),
    ("read_escape", Call::ReadEscape),
    ("text", Call::Text),
    ("write_escape", Call::WriteEscape),
];

/// Makes a call of gs_chars.
pub fn answer(alloc: Global, line: &mut Line, call: &[u8], args: &[Text]) -> Done {
    let text = bytes_at(args, 0);
    match named(&CALLS, call) {
        Some(Call::AreDigits) => {
            line.debug(are_digits(text));
            Ok(())
        }
        Some(Call::CheckDigit) => digit(line, text),
        Some(Call::Compare) => compare(alloc, line, text, bytes_at(args, 1)),
        Some(Call::Copy) => copy(alloc, line, text),
        Some(Call::Holds) => holds(line, text, bytes_at(args, 1)),
        Some(Call::List) => list(alloc, line, text),
        Some(Call::ReadEscape) => escape_read(line, text),
        Some(Call::Text) => {
            line.text_made(Text::from_bytes(alloc, text));
            Ok(())
        }
        Some(Call::WriteEscape) => escape_written(line, text),
        None => Err(Rejection::NoCase),
    }
}

const SETS: [(&str, CharSet); 2] = [("Digits", CharSet::Digits), ("Set82", CharSet::Set82)];

/// Returns whether a set has each byte of a text.
fn holds(line: &mut Line, set: &[u8], text: &[u8]) -> Done {
    let Some(set) = named(&SETS, set) else {
        return Err(Rejection::NoCase);
    };
    for c in text {
        line.more(if set.holds(*c) { "y" } else { "n" });
    }
    Ok(())
}

fn digit(line: &mut Line, digits: &[u8]) -> Done {
    if digits.is_empty() || digits.len() > 18 || !are_digits(digits) {
        return Err(Rejection::NoCase);
    }
    line.bytes(&[check_digit(digits)]);
    Ok(())
}

fn escape_read(line: &mut Line, text: &[u8]) -> Done {
    match read_escape(text) {
        Some((character, count)) => {
            line.bytes(&[character]);
            line.debug(count);
        }
        None => line.plain("None"),
    }
    Ok(())
}

fn escape_written(line: &mut Line, characters: &[u8]) -> Done {
    let [c] = characters else {
        return Err(Rejection::NoCase);
    };
    if !CharSet::Set82.holds(*c) {
        return Err(Rejection::NoCase);
    }
    let mut buffer = *b"...";
    let count = write_escape(*c, &mut buffer);
    line.debug(count);
    line.bytes(&buffer);
    Ok(())
}

fn copy(alloc: Global, line: &mut Line, bytes: &[u8]) -> Done {
    let text = Text::from_bytes(alloc, bytes)?;
    line.text_made(text.copy(alloc));
    Ok(())
}

/// Returns the order of two texts, and whether they are equal.
fn compare(alloc: Global, line: &mut Line, left: &[u8], right: &[u8]) -> Done {
    let left = Text::from_bytes(alloc, left)?;
    let right = Text::from_vec(right.to_vec(alloc)?);
    line.debug(left.cmp(&right));
    line.debug(left == right);
    Ok(())
}

fn list(alloc: Global, line: &mut Line, bytes: &[u8]) -> Done {
    let list = List::from_vec(bytes.to_vec(alloc)?);
    line.bytes(list.items());
    line.bytes(list.into_vec().as_slice());
    Ok(())
}
