use gs_chars::{Memory, Text};
use std::alloc::{AllocError, AllocFailed, Global};

/// Why a case has no answer.
#[derive(Clone, Copy)]
pub enum Rejection {
    /// It is not a case: there is no such call, or an argument is not of its form.
    NoCase,
    /// Out of memory.
    Memory,
}

impl From<Memory> for Rejection {
    fn from(_rejected: Memory) -> Rejection {
        Rejection::Memory
    }
}

impl From<AllocError> for Rejection {
    fn from(_rejected: AllocError) -> Rejection {
        Rejection::Memory
    }
}

impl<T: Drop> From<AllocFailed<T>> for Rejection {
    fn from(_rejected: AllocFailed<T>) -> Rejection {
        Rejection::Memory
    }
}

/// The answer to a case.
pub type Answer = Result<String, Rejection>;

/// The escape within which the reading of a word is.
#[derive(Clone, Copy)]
enum Escape {
    Outside,
    Begun,
    High,
    Low(u8),
    RunHigh,
    RunLow(u8),
    Run(u8, u32),
}

/// Returns the value of an upper-case hexadecimal digit, and 0 for any other byte.
fn digit_value(c: u8) -> u8 {
    match c {
        b'0'..=b'9' => c - b'0',
        b'A'..=b'F' => c - b'A' + 10,
        _ => 0,
    }
}

/// Returns the byte of two hexadecimal digits.
fn byte_of(high: u8, low: u8) -> u8 {
    high.wrapping_mul(16).wrapping_add(digit_value(low))
}

/// Returns a number with one decimal digit more.
fn longer(number: u32, digit: u8) -> u32 {
    number
        .wrapping_mul(10)
        .wrapping_add(u32::from(digit_value(digit)))
}

/// Appends one byte `count` times.
fn push_run(bytes: &mut Vec<u8>, byte: u8, count: u32) -> Result<(), Memory> {
    for _ in 0..count {
        bytes.push(byte)?;
    }
    Ok(())
}

/// Returns the state after a byte of a word, and the byte that it ends, with its count; 0 within an escape.
fn next_of(escape: Escape, c: u8) -> (Escape, u8, u32) {
    match (escape, c) {
        (Escape::Outside, b'\\') => (Escape::Begun, c, 0),
        (Escape::Begun, b'x') => (Escape::High, c, 0),
        (Escape::Begun, b'*') => (Escape::RunHigh, c, 0),
        (Escape::Begun, b'e') => (Escape::Outside, c, 0),
        (Escape::High, high) => (Escape::Low(digit_value(high)), c, 0),
        (Escape::Low(high), low) => (Escape::Outside, byte_of(high, low), 1),
        (Escape::RunHigh, high) => (Escape::RunLow(digit_value(high)), c, 0),
        (Escape::RunLow(high), low) => (Escape::Run(byte_of(high, low), 0), c, 0),
        (Escape::Run(byte, count), b';') => (Escape::Outside, byte, count),
        (Escape::Run(byte, count), b':') => (Escape::Run(byte, count), c, 0),
        (Escape::Run(byte, count), digit) => (Escape::Run(byte, longer(count, digit)), c, 0),
        (Escape::Outside | Escape::Begun, plain) => (Escape::Outside, plain, 1),
    }
}

/// Returns the bytes that a word stands for.
fn unescaped(alloc: Global, word: &[u8]) -> Result<Text, Rejection> {
    let mut bytes = Vec::new(alloc);
    let mut escape = Escape::Outside;
    for c in word {
        let (next, byte, count) = next_of(escape, *c);
        push_run(&mut bytes, byte, count)?;
        escape = next;
    }
    Ok(Text::from_vec(bytes))
}

/// Returns the words of a case.
pub fn words_of(alloc: Global, case: &[u8]) -> Result<Vec<Text>, Rejection> {
    let mut words = Vec::new(alloc);
    for word in case.split(|c| *c == b' ') {
        push(&mut words, unescaped(alloc, word))?;
    }
    Ok(words)
}

/// Appends the value of an argument, or returns why there is none.
pub fn push<T: Drop>(items: &mut Vec<T>, made: Result<T, Rejection>) -> Result<(), Rejection> {
    Ok(items.push(made?)?)
}

/// Returns the argument at a place.
pub fn arg(args: &[Text], i: usize) -> Result<&[u8], Rejection> {
    match args.get(i) {
        Some(text) => Ok(text.as_bytes()),
        None => Err(Rejection::NoCase),
    }
}

/// Returns the argument at a place, empty if it is left out.
pub fn bytes_at(args: &[Text], i: usize) -> &[u8] {
    match args.get(i) {
        Some(text) => text.as_bytes(),
        None => b"",
    }
}

/// Returns the table's value of a name, if it has the name.
pub fn named<T: Copy>(table: &[(&str, T)], name: &[u8]) -> Option<T> {
    for (word, value) in table {
        if word.as_bytes() == name {
            return Some(*value);
        }
    }
    None
}

/// Returns a text of characters.
pub fn text_of(bytes: &[u8]) -> Result<&str, Rejection> {
    match str::from_utf8(bytes) {
        Ok(text) => Ok(text),
        Err(_) => Err(Rejection::NoCase),
    }
}

/// Returns the number that a word gives, if it is one.
pub fn number_in(word: &[u8]) -> Option<u64> {
    match str::from_utf8(word) {
        Ok(text) => text.parse::<u64>().ok(),
        Err(_) => None,
    }
}

/// Returns the number that a word gives.
pub fn number_of(word: &[u8]) -> Result<u64, Rejection> {
    match number_in(word) {
        Some(number) => Ok(number),
        None => Err(Rejection::NoCase),
    }
}

/// Returns the number at a place.
pub fn number(args: &[Text], i: usize) -> Result<u64, Rejection> {
    number_of(bytes_at(args, i))
}

/// Returns the arguments after the first ones.
pub fn behind(args: &[Text], count: usize) -> &[Text] {
    &args[count.min(args.len())..]
}

/// Returns the numbers with commas between.
fn numbers_in(alloc: Global, list: &str) -> Result<Vec<u64>, Rejection> {
    let mut numbers = Vec::new(alloc);
    for number in list.split(',') {
        push(&mut numbers, number_of(number.as_bytes()))?;
    }
    Ok(numbers)
}

/// Returns the numbers with commas between, and none if it is `-`.
pub fn numbers_of(alloc: Global, list: &[u8]) -> Result<Vec<u64>, Rejection> {
    if list == b"-".as_slice() {
        return Ok(Vec::new(alloc));
    }
    numbers_in(alloc, text_of(list)?)
}
