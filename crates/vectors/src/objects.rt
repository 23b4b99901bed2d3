//! Objects in memory of the arguments of a case.

ghost use Rattle.std.specs.Prelude.{◌≡◌, ◌<◌, IfOk, false, is_some};

use crate::case::{Rejection, arg, behind, number, numbers_of, push, text_of};
use crate::words::said;
use gs_chars::Text;
use gs_port::{MemSink, MemSource};
use gs_port_memory::{MemDoor, MemFiles};
use std::alloc::Global;

/// Returns the part of the arguments of a number, of those that `/` divides.
pub fn section(args: &[Text], number: usize) -> Result<&[Text], Rejection> {
    for (i, part) in args
        .split(|word| word.as_bytes() == b"/".as_slice())
        .enumerate()
    {
        if i == number {
            return Ok(part);
        }
    }
    Err(Rejection::NoCase)
}

/// Returns the most bytes that one call moves, at least 1.
pub fn cut_of(args: &[Text], i: usize) -> Result<usize, Rejection>
    ensures { IfOk result (λ cut. 0 < cut) }
{
    let cut = number(args, i)?;
    if cut == 0 {
        return Err(Rejection::NoCase);
    }
    Ok(cut as usize)
}

/// Returns the input of the most bytes that a read moves, of the calls that fail, and of the bytes.
pub fn source_of(alloc: Global, words: &[Text]) -> Result<MemSource, Rejection> {
    let cut = cut_of(words, 0)?;
    let [_, fails, bytes, ..] = words else {
        return Err(Rejection::NoCase);
    };
    let fails = numbers_of(alloc, fails.as_bytes())?;
    Ok(MemSource::new(alloc, copied(alloc, bytes.as_bytes())?, cut, fails))
}

/// Returns the empty sink, by the most bytes of a write and the calls that fail.
pub fn sink_of(alloc: Global, args: &[Text]) -> Result<MemSink, Rejection> {
    let cut = cut_of(args, 0)?;
    Ok(MemSink::new(alloc, cut, fails_at(alloc, args, 1)?))
}

/// Returns the numbers of the calls that fail, in the order of an argument.
fn fails_at(alloc: Global, args: &[Text], i: usize) -> Result<Vec<u64>, Rejection> {
    numbers_of(alloc, arg(args, i)?)
}

/// Returns a copy of some bytes.
fn copied(alloc: Global, bytes: &[u8]) -> Result<Vec<u8>, Rejection> {
    Ok(bytes.to_vec(alloc)?)
}

/// Returns the file of a name and its bytes.
fn file_of(alloc: Global, file: &[Text]) -> Result<(String, Vec<u8>), Rejection> {
    let [name, bytes, ..] = file else {
        return Err(Rejection::NoCase);
    };
    let name = said(alloc, text_of(name.as_bytes())?)?;
    Ok((name, copied(alloc, bytes.as_bytes())?))
}

/// Returns the files of names and bytes in turn.
fn named_files(alloc: Global, words: &[Text]) -> Result<Vec<(String, Vec<u8>)>, Rejection> {
    let mut files = Vec::new(alloc);
    for file in words.chunks(2) {
        push(&mut files, file_of(alloc, file))?;
    }
    Ok(files)
}

/// Returns the files of the calls that fail and of names and bytes.
pub fn files_of(alloc: Global, words: &[Text]) -> Result<MemFiles, Rejection> {
    let fails = fails_at(alloc, words, 0)?;
    let files = named_files(alloc, behind(words, 1))?;
    Ok(MemFiles::new(alloc, files, fails))
}

/// Returns the inputs of connections.
fn inputs_of(alloc: Global, words: &[Text]) -> Result<Vec<Vec<u8>>, Rejection> {
    let mut inputs = Vec::new(alloc);
    for input in words {
        push(&mut inputs, copied(alloc, input.as_bytes()))?;
    }
    Ok(inputs)
}

/// Returns the listener with the most bytes of a read or a write, the calls that fail, and the inputs of the waiting
/// connections.
pub fn door_of(alloc: Global, words: &[Text]) -> Result<MemDoor, Rejection>
    ensures closed { IfOk result (λ door. is_some door.current ≡ false) }
{
    let cut = cut_of(words, 0)?;
    let fails = fails_at(alloc, words, 1)?;
    let inputs = inputs_of(alloc, behind(words, 2))?;
    Ok(MemDoor::new(alloc, inputs, cut, fails)?)
}
