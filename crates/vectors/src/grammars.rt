//! Calls of gs_grammar. An ITEM is a word of an item, and an option its items; options are divided by `|`.
//!
//! - `holds ITEM VALUE`: `Ok`, or why not.
//! - `option LEVEL ITEM..`, with LEVEL `text` or `bits`: the size and the number of items, or the error.
//! - `read_option HEX ITEM..`: the numbers of the items of one option, or `false`.
//! - `write_text ITEM.. = VALUE..`: the text, or the error. `write_bits ITEM.. = VALUE..`: the bits, or the error.

ghost use Rattle.std.specs.Prelude.{◌≡◌, IfOk, false, true};
ghost use Rattle.gs_grammar.specs.Levels.{AreOfKind, OptionForm};

use crate::bits::{add_bits, buffer};
use crate::case::{Rejection, behind, bytes_at, named, push};
use crate::item_words::item_of;
use crate::line::{Done, Line};
use gs_bits::BitBuf;
use gs_chars::{CowText, Memory, Text};
use gs_grammar::{Item, Opt, OptFault, WriteFault, holds, read_option, write_bits, write_text};
use std::alloc::Global;

#[derive(Clone, Copy)]
enum Call {
    Holds,
    Option,
    ReadOption,
    WriteBits,
    WriteText,
}

const CALLS: [(&str, Call); 5] = [
    ("holds", Call::Holds),
    ("option", Call::Option),
    ("read_option", Call::ReadOption),
    ("write_bits", Call::WriteBits),
    ("write_text", Call::WriteText),
];

/// Makes a call of gs_grammar.
pub fn answer(alloc: Global, line: &mut Line, call: &[u8], args: &[Text]) -> Done {
    let first = bytes_at(args, 0);
    match named(&CALLS, call) {
        Some(Call::Holds) => held(alloc, line, first, bytes_at(args, 1)),
        Some(Call::Option) => option(alloc, line, first, behind(args, 1)),
        Some(Call::ReadOption) => option_read(alloc, line, first, behind(args, 1)),
        Some(Call::WriteBits) => bits_written(alloc, line, args),
        Some(Call::WriteText) => text_written(alloc, line, args),
        None => Err(Rejection::NoCase),
    }
}

/// Writes `Ok`, or why an item does not hold a value.
fn held(alloc: Global, line: &mut Line, word: &[u8], value: &[u8]) -> Done {
    let item = item_of(alloc, word)?;
    match holds(&item, value) {
        Ok(()) => line.plain("Ok"),
        Err(why) => line.debug(why),
    }
    Ok(())
}

/// Returns the items of the words.
fn items_of(alloc: Global, words: &[Text]) -> Result<Vec<Item>, Rejection> {
    let mut items = Vec::new(alloc);
    for word in words {
        push(&mut items, item_of(alloc, word.as_bytes()))?;
    }
    Ok(items)
}

/// Returns the option of the items, or its error.
fn made(alloc: Global, bit_level: bool, words: &[Text]) -> Result<Result<Opt, OptFault>, Rejection>
    ensures { IfOk result (λ made. IfOk made (λ (option : OptionForm). option.bit_level ≡ bit_level)) }
{
    let items = items_of(alloc, words)?;
    Ok(Opt::new(alloc, bit_level, items))
}

/// Returns the option of the items, which make one.
fn option_of(alloc: Global, bit_level: bool, words: &[Text]) -> Result<Opt, Rejection>
    ensures { IfOk result (λ (option : OptionForm). option.bit_level ≡ bit_level) }
{
    match made(alloc, bit_level, words) {
        Ok(Ok(option)) => Ok(option),
        Ok(Err(_)) => Err(Rejection::NoCase),
        Err(rejection) => Err(rejection),
    }
}

/// Returns whether the name of a level is that of bits.
pub fn is_bits(level: &[u8]) -> bool {
    level == b"bits".as_slice()
}

/// Writes the size of an option and the number of its items, or the error.
fn option(alloc: Global, line: &mut Line, level: &[u8], words: &[Text]) -> Done {
    match made(alloc, is_bits(level), words) {
        Ok(Ok(option)) => {
            line.debug(option.size());
            line.debug(option.items().len());
        }
        Ok(Err(error)) => line.debug(error),
        Err(rejection) => return Err(rejection),
    }
    Ok(())
}

/// Returns the options of the words.
pub fn options_of(alloc: Global, bit_level: bool, words: &[Text]) -> Result<Vec<Opt>, Rejection>
    ensures { IfOk result (λ options. AreOfKind bit_level options.items) }
{
    let mut options = Vec::new(alloc);
    for group in words.split(|word| word.as_bytes() == b"|".as_slice()) {
        options.push(option_of(alloc, bit_level, group)?)?;
    }
    Ok(options)
}

fn option_read(alloc: Global, line: &mut Line, digits: &[u8], words: &[Text]) -> Done {
    let bits = buffer::<64>(digits)?;
    let option = option_of(alloc, true, words)?;
    add_numbers(alloc, line, &option, &bits)
}

/// Writes the numbers of the items of an option, or `false`.
fn add_numbers(alloc: Global, line: &mut Line, option: &Opt, bits: &BitBuf<64>) -> Done
    requires { option.now.bit_level ≡ true }
{
    let mut numbers = vec![in alloc; 0u64; option.items().len()]?;
    if !read_option(option, bits, numbers.as_mut_slice()) {
        line.plain("false");
        return Ok(());
    }
    for number in numbers.as_slice() {
        line.debug(*number);
    }
    Ok(())
}

/// Returns the words before and after `=`.
fn halves(words: &[Text]) -> Result<(&[Text], &[Text]), Rejection> {
    match words
        .iter()
        .position(|word| word.as_bytes() == b"=".as_slice())
    {
        Some(middle) => Ok((&words[..middle], &words[middle + 1..])),
        None => Err(Rejection::NoCase),
    }
}

/// Writes which item cannot hold its value, and why.
fn add_error(line: &mut Line, error: WriteFault) {
    match error {
        WriteFault::CannotHold { item, why } => {
            line.plain("CannotHold");
            line.debug(item);
            line.debug(why);
        }
        WriteFault::Memory => line.want_memory(),
    }
}

/// Returns the values, lent.
fn lent<'a>(alloc: Global, values: &'a [Text]) -> Result<Vec<CowText<'a>>, Memory>
    ensures { IfOk result (λ lent. lent.items ≡ values.now) }
{
    let mut lent = Vec::with_capacity(alloc, values.len())?;
    for value in values {
        lent.push(CowText::lent(value.as_bytes()))?;
    }
    Ok(lent)
}

fn text_written(alloc: Global, line: &mut Line, words: &[Text]) -> Done {
    let (items, values) = halves(words)?;
    let option = option_of(alloc, false, items)?;
    add_text(alloc, line, &option, values)
}

/// Writes the text of an option and these values.
fn add_text(alloc: Global, line: &mut Line, option: &Opt, values: &[Text]) -> Done
    requires { option.now.bit_level ≡ false }
{
    if values.len() != option.items().len() {
        return Err(Rejection::NoCase);
    }
    let values = lent(alloc, values)?;
    match write_text(alloc, option, values.as_slice()) {
        Ok(text) => line.text(text),
        Err(error) => add_error(line, error),
    }
    Ok(())
}

fn bits_written(alloc: Global, line: &mut Line, words: &[Text]) -> Done {
    let (items, values) = halves(words)?;
    let option = option_of(alloc, true, items)?;
    add_bits_of(alloc, line, &option, values)
}

/// Writes the bits of an option and these values.
fn add_bits_of(alloc: Global, line: &mut Line, option: &Opt, values: &[Text]) -> Done
    requires { option.now.bit_level ≡ true }
{
    if values.len() != option.items().len() || option.size() > 512 {
        return Err(Rejection::NoCase);
    }
    let values = lent(alloc, values)?;
    let mut bits = BitBuf::<64>::new();
    match write_bits(option, values.as_slice(), &mut bits) {
        Ok(()) => add_bits(alloc, line, &bits),
        Err(error) => add_error(line, error),
    }
    Ok(())
}
