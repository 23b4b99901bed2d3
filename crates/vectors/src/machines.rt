//! Calls of gs_ambig and gs_grammar_compile, over the machines that are compiled of options. LEVEL is `text` or `bits`, and options
//! are divided by `|`.
//!
//! - `compile LEVEL ITEM.. | ITEM..`: the number of states of the machine of each option.
//! - `check LEVEL ITEM.. | ITEM..`: `Clear`, or the first two options whose machines share a list of symbols, and such a list; of no
//!   machine if there is no LEVEL.
//! - `share LEVEL ITEM.. | ITEM..`: the same without the list.

use crate::case::{Rejection, behind, bytes_at, named, push};
use crate::grammars::{is_bits, options_of};
use crate::line::{Done, Line};
use gs_ambig::{Auto, Verdict, check};
use gs_chars::{Memory, Text};
use gs_grammar::Opt;
use gs_grammar_compile::compile;
use std::alloc::Global;

#[derive(Clone, Copy)]
enum Call {
    Check,
    Compile,
    Share,
}

const CALLS: [(&str, Call); 3] = [
    ("check", Call::Check),
    ("compile", Call::Compile),
    ("share", Call::Share),
];

/// Makes a call of gs_ambig or gs_grammar_compile.
pub fn answer(alloc: Global, line: &mut Line, call: &[u8], args: &[Text]) -> Done {
    let bit_level = is_bits(bytes_at(args, 0));
    let options = behind(args, 1);
    match named(&CALLS, call) {
        Some(Call::Check) if args.is_empty() => add_verdict(alloc, line, &[], true),
        Some(Call::Check) => verdict(alloc, line, bit_level, options, true),
        Some(Call::Compile) => states(alloc, line, bit_level, options),
        Some(Call::Share) => verdict(alloc, line, bit_level, options, false),
        None => Err(Rejection::NoCase),
    }
}

/// Writes two numbers.
fn add_pair(line: &mut Line, first: usize, second: usize) {
    line.debug(first);
    line.debug(second);
}

/// Returns the machine of an option.
fn compiled_of(alloc: Global, option: &Opt) -> Result<Auto, Rejection> {
    Ok(compile(alloc, option)?)
}

/// Returns the machines of the options of the words.
fn compiled(alloc: Global, bit_level: bool, words: &[Text]) -> Result<Vec<Auto>, Rejection> {
    let options = options_of(alloc, bit_level, words)?;
    let mut machines = Vec::new(alloc);
    for option in options.as_slice() {
        push(&mut machines, compiled_of(alloc, option))?;
    }
    Ok(machines)
}

/// Writes the number of states of the machine of each option.
fn states(alloc: Global, line: &mut Line, bit_level: bool, words: &[Text]) -> Done {
    let machines = compiled(alloc, bit_level, words)?;
    for machine in machines.as_slice() {
        line.debug(machine.states());
    }
    Ok(())
}

/// Writes `Clear`, or the two machines that share a list of symbols, and that list if it is requested.
fn add_verdict(alloc: Global, line: &mut Line, machines: &[Auto], has_word: bool) -> Done {
    match check(alloc, machines) {
        Ok(Verdict::Clear) => line.plain("Clear"),
        Ok(Verdict::Double { i, j, word }) => {
            add_pair(line, i, j);
            if has_word {
                line.text(word);
            }
        }
        Err(Memory) => line.want_memory(),
    }
    Ok(())
}

/// Writes the verdict on the machines of the options of the words.
fn verdict(
    alloc: Global,
    line: &mut Line,
    bit_level: bool,
    words: &[Text],
    has_word: bool,
) -> Done {
    let machines = compiled(alloc, bit_level, words)?;
    add_verdict(alloc, line, machines.as_slice(), has_word)
}
