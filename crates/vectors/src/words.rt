//! How bytes and values are shown.

use crate::case::Answer;
use std::alloc::{AllocError, Global};
use std::fmt::Debug;

/// Returns the text of these characters.
pub fn said(alloc: Global, word: &str) -> Answer {
    Ok(String::from_str(alloc, word)?)
}

/// Returns a value in Rust's words.
pub fn debug_word<T: Debug>(alloc: Global, value: &T) -> Answer {
    Ok(format!(in alloc; "{value:?}")?)
}

/// Returns the upper-case hexadecimal digit of a number below 16.
fn hex_digit(number: u8) -> char {
    let front = if number < 10 { b'0' } else { b'A' - 10 };
    char::from(front.wrapping_add(number))
}

/// Appends the escape of a byte.
fn push_escape(word: &mut String, c: u8) -> Result<(), AllocError> {
    word.push_str("\\x")?;
    word.push(hex_digit(c >> 4))?;
    word.push(hex_digit(c & 15))
}

/// Appends a byte, escaped if needed.
pub fn push_shown(word: &mut String, c: u8) -> Result<(), AllocError> {
    if c.is_ascii_graphic() && c != b'\\' {
        word.push(char::from(c))
    } else {
        push_escape(word, c)
    }
}
