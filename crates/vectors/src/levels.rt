//! Calls of gs_grammar_level. An ITEM is a word of an item, and an option its items; options are divided by `|`.
//!
//! - `read_text TEXT ITEM.. | ITEM..`: the number of the option and the values of its items, or `Nothing`; of options that are
//!   ambiguous `Ambiguous` and the numbers of the two that share a list.
//! - `find_words TEXT ITEM.. | ITEM..`: the number of the option and the values of its items, or `None` where the text is left to
//!   `read_text`; the same of options that are ambiguous.
//! - `first_share LEVEL ITEM.. | ITEM..`, with LEVEL `text` or `bits`: `None`, or the numbers of the first two options that share a
//!   list.
//! - `machines LEVEL ITEM.. | ITEM..`, with LEVEL `text` or `bits`: the number of states of each machine that the level lends.
//! - `read_bits HEX ITEM.. | ITEM..`: the same over the bits of hexadecimal digits.

use crate::bits::buffer;
use crate::case::{Rejection, behind, bytes_at, named};
use crate::grammars::{is_bits, options_of};
use crate::line::{Done, Line};
use gs_chars::{Memory, Text};
use gs_grammar_level::{Level, Reading, Shared, Words, find_words, read_bits, read_text};
use std::alloc::Global;

#[derive(Clone, Copy)]
enum Call {
    FindWords,
    FirstShare,
    Machines,
    ReadBits,
    ReadText,
}

const CALLS: [(&str, Call); 5] = [
    ("find_words", Call::FindWords),
    ("first_share", Call::FirstShare),
    ("machines", Call::Machines),
    ("read_bits", Call::ReadBits),
    ("read_text", Call::ReadText),
];

/// Makes a call of gs_grammar_level.
pub fn answer(alloc: Global, line: &mut Line, call: &[u8], args: &[Text]) -> Done {
    let text = bytes_at(args, 0);
    let words = behind(args, 1);
    match named(&CALLS, call) {
        Some(Call::FindWords) => words_found(alloc, line, text, words),
        Some(Call::FirstShare) => first_shared(alloc, line, is_bits(text), words),
        Some(Call::Machines) => states(alloc, line, is_bits(text), words),
        Some(Call::ReadBits) => bits_read(alloc, line, text, words),
        Some(Call::ReadText) => text_read(alloc, line, text, words),
        None => Err(Rejection::NoCase),
    }
}

/// Returns the level of the words.
fn level_of(alloc: Global, bit_level: bool, words: &[Text]) -> Result<Level, Rejection> {
    let options = options_of(alloc, bit_level, words)?;
    Ok(Level::new(alloc, bit_level, options)?)
}

/// Writes a reading.
fn add_reading(line: &mut Line, reading: Reading<'_>) {
    match reading {
        Reading::One { option, values } => {
            line.debug(option);
            for value in values.items() {
                line.bytes(value.as_bytes());
            }
        }
        Reading::Nothing => line.plain("Nothing"),
        Reading::Memory => line.want_memory(),
    }
}

/// Writes the words that a level finds.
fn add_words(line: &mut Line, level: &Level, words: &Words<'_>) {
    line.debug(words.option());
    if let Some(option) = level.options().get(words.option()) {
        for number in 0..option.items().len() {
            line.bytes(words.value(number));
        }
    }
}

/// Writes that two options share a list.
fn add_pair(line: &mut Line, pair: Shared) {
    line.plain("Ambiguous");
    line.debug(pair.first);
    line.debug(pair.second);
}

/// Writes the first two options of a level that share a list.
fn first_shared(alloc: Global, line: &mut Line, bit_level: bool, words: &[Text]) -> Done {
    let level = level_of(alloc, bit_level, words)?;
    match level.first_share(alloc) {
        Ok(Some(pair)) => {
            line.debug(pair.first);
            line.debug(pair.second);
        }
        Ok(None) => line.plain("None"),
        Err(Memory) => line.want_memory(),
    }
    Ok(())
}

/// Writes the number of states of each machine that a level lends.
fn states(alloc: Global, line: &mut Line, bit_level: bool, words: &[Text]) -> Done {
    let level = level_of(alloc, bit_level, words)?;
    for machine in level.machines() {
        line.debug(machine.states());
    }
    Ok(())
}

/// Writes how a level reads a text.
fn text_read(alloc: Global, line: &mut Line, text: &[u8], words: &[Text]) -> Done {
    let level = level_of(alloc, false, words)?;
    match level.first_share(alloc) {
        Ok(Some(pair)) => add_pair(line, pair),
        Err(Memory) => line.want_memory(),
        Ok(None) => add_reading(line, read_text(alloc, &level, text)),
    }
    Ok(())
}

/// Writes how a level finds the words of a text.
fn words_found(alloc: Global, line: &mut Line, text: &[u8], words: &[Text]) -> Done {
    let level = level_of(alloc, false, words)?;
    match level.first_share(alloc) {
        Ok(Some(pair)) => add_pair(line, pair),
        Err(Memory) => line.want_memory(),
        Ok(None) => match find_words(&level, text) {
            Some(words) => add_words(line, &level, &words),
            None => line.plain("None"),
        },
    }
    Ok(())
}

/// Writes how a level reads bits.
fn bits_read(alloc: Global, line: &mut Line, digits: &[u8], words: &[Text]) -> Done {
    let bits = buffer::<64>(digits)?;
    let level = level_of(alloc, true, words)?;
    match level.first_share(alloc) {
        Ok(Some(pair)) => add_pair(line, pair),
        Err(Memory) => line.want_memory(),
        Ok(None) => add_reading(line, read_bits(alloc, &level, &bits)),
    }
    Ok(())
}
