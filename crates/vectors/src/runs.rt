//! Calls of tdl_run over objects in memory.
//!
//! - `run WORD.. / FAILS NAME BYTES .. / CUT FAILS BYTES / CUT FAILS`: a whole run with these words, over these files, this
//!   input and an empty output. A read and a write move at most CUT bytes, and the calls of the numbers FAILS fail. The answer
//!   is the status, the output, and the rest of the input. `/ CUT FAILS INPUT..` after these adds a listener with the inputs of
//!   the connections that wait at it. The answer then also has the number of finished connections, and the bytes written to
//!   each.
//! - `opened WORD.. / ..`: of such a run the status, the names of the files that were opened, and the addresses at which the
//!   listener was to be opened.

use crate::case::{Rejection, named, push, text_of};
use crate::connections::add_finished;
use crate::line::{Done, Line};
use crate::objects::section;
use crate::outcomes::add_outcome;
use crate::run_objects::{RunObjects, objects_of};
use crate::words::said;
use gs_chars::Text;
use std::alloc::Global;
use tdl_run::Status;

#[derive(Clone, Copy)]
enum Call {
    Opened,
    Run,
}

const CALLS: [(&str, Call); 2] = [("opened", Call::Opened), ("run", Call::Run)];

/// Makes a call of tdl_run.
pub fn answer(alloc: Global, line: &mut Line, call: &[u8], args: &[Text]) -> Done {
    match named(&CALLS, call) {
        Some(Call::Opened) => opened(alloc, line, args),
        Some(Call::Run) => ran(alloc, line, args),
        None => Err(Rejection::NoCase),
    }
}

fn string_of(alloc: Global, word: &[u8]) -> Result<String, Rejection> {
    said(alloc, text_of(word)?)
}

/// Returns the strings of words.
pub fn strings_of(alloc: Global, words: &[Text]) -> Result<Vec<String>, Rejection> {
    let mut strings = Vec::new(alloc);
    for word in words {
        push(&mut strings, string_of(alloc, word.as_bytes()))?;
    }
    Ok(strings)
}

/// Returns the words of a run.
fn words_at(alloc: Global, args: &[Text]) -> Result<Vec<String>, Rejection> {
    strings_of(alloc, section(args, 0)?)
}

/// Writes the result of a run: its outcome and, if a listener is known, its finished connections.
fn add_known(
    alloc: Global,
    line: &mut Line,
    args: &[Text],
    status: Status,
    objects: &mut RunObjects,
) -> Done {
    add_outcome(alloc, line, status, &mut objects.input, &objects.output)?;
    if section(args, 4).is_ok() {
        add_finished(line, &objects.door);
    }
    Ok(())
}

fn ran(alloc: Global, line: &mut Line, args: &[Text]) -> Done {
    let words = words_at(alloc, args)?;
    let mut objects = objects_of(alloc, args)?;
    let status = objects.run(alloc, &words);
    add_known(alloc, line, args, status, &mut objects)
}

/// Writes names in brackets, if they are known.
fn add_names(line: &mut Line, names: Option<&[Text]>) {
    match names {
        Some(names) => line.bracketed(names),
        None => line.plain("unknown"),
    }
}

fn opened(alloc: Global, line: &mut Line, args: &[Text]) -> Done {
    let words = words_at(alloc, args)?;
    let mut objects = objects_of(alloc, args)?;
    line.debug(objects.run(alloc, &words));
    add_names(line, objects.files.opened());
    add_names(line, objects.door.addresses());
    Ok(())
}
