//! Calls of gs_port_memory and gs_port over files in memory. FAILS are the numbers of the calls that fail, with commas between, or `-`.
//!
//! - `open FAILS NAME BYTES .. / NAME..`: the answer of an open of each name, and the bytes that a read of 4 bytes moves then.
//! - `read_file FAILS NAME BYTES .. / NAME MAX ..`: the answer of reading each file whole.

use crate::case::{Rejection, bytes_at, number, text_of};
use crate::line::{Done, Line};
use crate::objects::{files_of, section};
use crate::outside::add_moved;
use gs_chars::Text;
use gs_port::{FileFault, Files, OpenAnswer, read_file};
use gs_port_memory::MemFiles;
use std::alloc::Global;

/// Writes the answer of an open, and the bytes that a read moves then.
fn add_opened(line: &mut Line, files: &mut MemFiles, name: &str) {
    match files.open(name) {
        OpenAnswer::Opened => {
            let mut block = [0; 4];
            let moved = files.read(&mut block);
            line.plain("Opened");
            add_moved(line, moved, &block);
        }
        OpenAnswer::Failed => line.plain("Failed"),
        OpenAnswer::Memory => line.want_memory(),
    }
}

/// Makes a call of `open`.
pub fn open(alloc: Global, line: &mut Line, args: &[Text]) -> Done {
    let known = section(args, 0)?;
    let names = section(args, 1)?;
    let mut files = files_of(alloc, known)?;
    for name in names {
        add_opened(line, &mut files, text_of(name.as_bytes())?);
    }
    Ok(())
}

/// Writes a word, and the bytes of a file after it.
fn add_file(line: &mut Line, word: &str, text: Text) {
    line.plain(word);
    line.text(text);
}

/// Writes the outcome for a file, and the bytes that were read of it.
fn add_read(line: &mut Line, read: Result<Text, FileFault>) {
    match read {
        Ok(text) => add_file(line, "Ok", text),
        Err(FileFault::Over(text)) => add_file(line, "Over", text),
        Err(FileFault::Failed) => line.plain("Failed"),
        Err(FileFault::Memory) => line.want_memory(),
    }
}

/// Writes the answer of reading a file, whose name and most bytes are known.
fn add_one(alloc: Global, line: &mut Line, files: &mut MemFiles, known: &[Text]) -> Done {
    let name = text_of(bytes_at(known, 0))?;
    let max = number(known, 1)?;
    if max > 16_777_216 {
        return Err(Rejection::NoCase);
    }
    add_read(line, read_file(alloc, files, name, max as usize));
    Ok(())
}

/// Makes a call of `read_file`.
pub fn read_files(alloc: Global, line: &mut Line, args: &[Text]) -> Done {
    let known = section(args, 0)?;
    let wanted = section(args, 1)?;
    let mut files = files_of(alloc, known)?;
    for one in wanted.chunks(2) {
        add_one(alloc, line, &mut files, one)?;
    }
    Ok(())
}
