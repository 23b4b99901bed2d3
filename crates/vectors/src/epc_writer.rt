//! Calls of gs_epc over EPCs with fields that no text has, by the built-in tables. A KIND is the name of a kind, and a FILTER a
//! digit from 0 to 7, or `-` if there is none.
//!
//! - `write_hex KIND ENCODING FILTER GCP PREFIX REST SERIAL`, `write_tag ..`, `write_pure ..`: the text, or the rejection; a
//!   PIECE and a TOTAL may follow.

use crate::case::{Rejection, bytes_at, named, number_of};
use crate::line::{Done, Line};
use gs_chars::Text;
use gs_epc::{Epc, EpcWriteFault, write_hex, write_pure, write_tag};
use gs_tables::TableSet;
use std::alloc::Global;

/// The level on which an EPC is written.
#[derive(Clone, Copy)]
enum Level {
    Hex,
    Pure,
    Tag,
}

const CALLS: [(&str, Level); 3] = [
    ("write_hex", Level::Hex),
    ("write_pure", Level::Pure),
    ("write_tag", Level::Tag),
];

/// Makes a call of gs_epc.
pub fn answer(alloc: Global, line: &mut Line, set: &TableSet, call: &[u8], args: &[Text]) -> Done {
    let Some(level) = named(&CALLS, call) else {
        return Err(Rejection::NoCase);
    };
    let epc = epc_of(alloc, set, args)?;
    match level {
        Level::Pure => add_written(line, write_pure(alloc, set, &epc)),
        _ => return written_on_tag(alloc, line, set, level, &epc),
    }
    Ok(())
}

/// Writes the text of an EPC that has a filter value, or the rejection.
fn written_on_tag(alloc: Global, line: &mut Line, set: &TableSet, level: Level, epc: &Epc) -> Done {
    let Some(filter) = epc.filter else {
        return Err(Rejection::NoCase);
    };
    if filter > 7 {
        return Err(Rejection::NoCase);
    }
    match level {
        Level::Hex => add_written(line, write_hex(alloc, set, epc)),
        _ => add_written(line, write_tag(alloc, set, epc)),
    }
    Ok(())
}

/// Returns the index of the kind of a name.
fn kind_of(set: &TableSet, name: &[u8]) -> Result<usize, Rejection> {
    let kinds = set.kinds();
    match kinds.iter().position(|kind| name == kind.name.as_bytes()) {
        Some(kind) => Ok(kind),
        None => Err(Rejection::NoCase),
    }
}

/// Returns the byte that a word gives.
fn byte(word: &[u8]) -> Result<u8, Rejection> {
    let Ok(byte) = u8::try_from(number_of(word)?) else {
        return Err(Rejection::NoCase);
    };
    Ok(byte)
}

/// Returns the filter value that a word gives.
fn filter_of(word: &[u8]) -> Result<Option<u8>, Rejection> {
    if word == b"-".as_slice() {
        return Ok(None);
    }
    Ok(Some(byte(word)?))
}

/// Returns the EPC of these words.
fn epc_of(alloc: Global, set: &TableSet, args: &[Text]) -> Result<Epc, Rejection> {
    // the numbers first, since each exit after a text drops it
    let kind = kind_of(set, bytes_at(args, 0))?;
    let filter = filter_of(bytes_at(args, 2))?;
    let gcp = byte(bytes_at(args, 3))?;
    Ok(Epc {
        kind,
        encoding: Text::from_bytes(alloc, bytes_at(args, 1))?,
        filter,
        gcp,
        prefix: Text::from_bytes(alloc, bytes_at(args, 4))?,
        rest: Text::from_bytes(alloc, bytes_at(args, 5))?,
        serial: Text::from_bytes(alloc, bytes_at(args, 6))?,
        piece: Text::from_bytes(alloc, bytes_at(args, 7))?,
        total: Text::from_bytes(alloc, bytes_at(args, 8))?,
    })
}

fn add_written(line: &mut Line, written: Result<Text, EpcWriteFault>) {
    match written {
        Ok(text) => line.text(text),
        Err(EpcWriteFault::Memory) => line.want_memory(),
        Err(error) => line.debug(error),
    }
}
