//! Calls of gs_bits, over buffers of N bytes, with N 0, 2, 5, 12 or 64. Bits are shown as upper-case hexadecimal digits if they
//! are whole bytes, and otherwise as the digits 0 and 1 after `b`.
//!
//! - `from_hex N TEXT`: the number of bits and the bits, or the error.
//! - `take N HEX WIDTH..`: for each width the number of the next bits or `Short`, then how many are left.
//! - `push_bits N NUMBER WIDTH ..`: `Full` for each number without room, then the bits.
//! - `get N HEX I`: bit I.
//! - `are_bit_digits TEXT`: whether the text writes bits.

ghost use Rattle.std.specs.Prelude.{◌≤◌, ◌<◌, ◌^◌, IfSome, IsTrue};

use crate::case::{Rejection, behind, bytes_at, named, number_in};
use crate::line::{Done, Line};
use gs_bits::{BitBuf, Cursor, Full, are_bit_digits};
use gs_chars::Text;
use std::alloc::Global;

#[derive(Clone, Copy)]
enum Call {
    FromHex,
    Get,
    PushBits,
    Take,
}

const CALLS: [(&str, Call); 4] = [
    ("from_hex", Call::FromHex),
    ("get", Call::Get),
    ("push_bits", Call::PushBits),
    ("take", Call::Take),
];

/// Makes a call of gs_bits.
pub fn answer(alloc: Global, line: &mut Line, call: &[u8], args: &[Text]) -> Done {
    let first = bytes_at(args, 0);
    if call == b"are_bit_digits".as_slice() {
        line.debug(are_bit_digits(first));
        return Ok(());
    }
    let others = behind(args, 1);
    match number_in(first) {
        Some(0) => answer_of::<0>(alloc, line, call, others),
        Some(2) => answer_of::<2>(alloc, line, call, others),
        Some(5) => answer_of::<5>(alloc, line, call, others),
        Some(12) => answer_of::<12>(alloc, line, call, others),
        Some(64) => answer_of::<64>(alloc, line, call, others),
        _ => Err(Rejection::NoCase),
    }
}

fn answer_of<const N: usize>(alloc: Global, line: &mut Line, call: &[u8], args: &[Text]) -> Done
    requires { N ≤ 64 }
{
    let first = bytes_at(args, 0);
    match named(&CALLS, call) {
        Some(Call::FromHex) => from_hex::<N>(alloc, line, first),
        Some(Call::Get) => get::<N>(line, first, bytes_at(args, 1)),
        Some(Call::PushBits) => push_bits::<N>(alloc, line, args),
        Some(Call::Take) => take::<N>(line, first, behind(args, 1)),
        None => Err(Rejection::NoCase),
    }
}

/// Writes the bits as the digits 0 and 1 after `b`.
fn add_single_bits<const N: usize>(line: &mut Line, bits: &BitBuf<N>) {
    line.plain("b");
    for i in 0..bits.len() {
        line.more(if bits.get(i) { "1" } else { "0" });
    }
}

/// Writes the bits.
pub fn add_bits<const N: usize>(alloc: Global, line: &mut Line, bits: &BitBuf<N>) {
    if bits.len() % 8 == 0 {
        line.text_made(bits.to_hex(alloc));
    } else {
        add_single_bits(line, bits);
    }
}

/// Returns the buffer of the digits.
pub fn buffer<const N: usize>(digits: &[u8]) -> Result<BitBuf<N>, Rejection>
    requires { N ≤ 64 }
{
    match BitBuf::<N>::from_hex(digits) {
        Ok(bits) => Ok(bits),
        Err(_) => Err(Rejection::NoCase),
    }
}

fn from_hex<const N: usize>(alloc: Global, line: &mut Line, text: &[u8]) -> Done
    requires { N ≤ 64 }
{
    match BitBuf::<N>::from_hex(text) {
        Ok(bits) => {
            line.debug(bits.len());
            add_bits(alloc, line, &bits);
        }
        Err(error) => line.debug(error),
    }
    Ok(())
}

/// Returns the number of bits that a word gives, at most 64.
fn width_in(word: &[u8]) -> Option<u32>
    ensures { IfSome result (λ width. width ≤ 64) }
{
    match number_in(word) {
        Some(number) if number <= 64 => Some(number as u32),
        _ => None,
    }
}

/// Writes the numbers of the next bits of these widths, or `Short`.
fn add_taken<const N: usize>(line: &mut Line, cursor: &mut Cursor<'_, N>, widths: &[Text]) -> Done {
    for width in widths {
        let Some(width) = width_in(width.as_bytes()) else {
            return Err(Rejection::NoCase);
        };
        match cursor.take(width) {
            Ok(number) => line.debug(number),
            Err(error) => line.debug(error),
        }
    }
    Ok(())
}

fn take<const N: usize>(line: &mut Line, digits: &[u8], widths: &[Text]) -> Done
    requires { N ≤ 64 }
{
    let bits = buffer::<N>(digits)?;
    let mut cursor = bits.cursor();
    add_taken(line, &mut cursor, widths)?;
    line.plain("left");
    line.debug(cursor.left());
    Ok(())
}

/// Returns whether a number is below 2 to the width.
fn fits(number: u64, width: u32) -> bool
    requires { width ≤ 64 }
    ensures { IsTrue result → number < 2 ^ width }
{
    u128::from(number) < 1 << width
}

/// Pushes a number and its width, and says whether there was room.
fn push_pair<const N: usize>(
    bits: &mut BitBuf<N>,
    pair: &[Text],
) -> Result<Result<(), Full>, Rejection> {
    let value = number_in(bytes_at(pair, 0));
    let width = width_in(bytes_at(pair, 1));
    match (value, width) {
        (Some(value), Some(width)) if fits(value, width) => Ok(bits.push_bits(value, width)),
        _ => Err(Rejection::NoCase),
    }
}

/// Pushes the numbers and their widths, writes `Full` for each without room, and then the bits.
fn push_bits<const N: usize>(alloc: Global, line: &mut Line, pairs: &[Text]) -> Done
    requires { N ≤ 64 }
{
    let mut bits = BitBuf::<N>::new();
    for pair in pairs.chunks(2) {
        match push_pair(&mut bits, pair) {
            Ok(Ok(())) => {}
            Ok(Err(error)) => line.debug(error),
            Err(rejection) => return Err(rejection),
        }
    }
    add_bits(alloc, line, &bits);
    Ok(())
}

fn get<const N: usize>(line: &mut Line, digits: &[u8], i: &[u8]) -> Done
    requires { N ≤ 64 }
{
    let bits = buffer::<N>(digits)?;
    match number_in(i) {
        Some(i) if i < bits.len() as u64 => line.debug(bits.get(i as usize)),
        _ => return Err(Rejection::NoCase),
    }
    Ok(())
}
