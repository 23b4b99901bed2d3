//! Calls of gs_linktext.
//!
//! - `read TEXT`: the linkset in JSON, or the error.
//! - `write DOC`: the text of the linkset that DOC is in JSON, or the error.
//! - `again DOC`: the linkset in JSON that is read from the text of DOC, or the error.
//! - `cuts TEXT`: four numbers of the prefixes of TEXT, including the whole. The first two are those of the linksets and of the
//!   texts outside the grammar. The others are those of the texts with a link without an anchor, and without a relation type.

use crate::case::{Rejection, bytes_at, named};
use crate::line::{Done, Line};
use gs_chars::Text;
use gs_linkset::LinkDoc;
use gs_linktext::LinkTextFault;
use std::alloc::Global;

#[derive(Clone, Copy)]
enum Call {
    Again,
    Cuts,
    Read,
    Write,
}

const CALLS: [(&str, Call); 4] = [
    ("again", Call::Again),
    ("cuts", Call::Cuts),
    ("read", Call::Read),
    ("write", Call::Write),
];

/// Makes a call of gs_linktext.
pub fn answer(alloc: Global, line: &mut Line, call: &[u8], args: &[Text]) -> Done {
    let first = bytes_at(args, 0);
    match named(&CALLS, call) {
        Some(Call::Read) => {
            add_read(alloc, line, first);
            Ok(())
        }
        Some(Call::Cuts) => over_cuts(alloc, line, first),
        Some(Call::Write) => add_written(alloc, line, first, false),
        Some(Call::Again) => add_written(alloc, line, first, true),
        None => Err(Rejection::NoCase),
    }
}

/// Writes the linkset of a text in JSON, or the error.
fn add_read(alloc: Global, line: &mut Line, text: &[u8]) {
    match gs_linktext::read(alloc, text) {
        Ok(doc) => line.text_made(gs_linkset::write(alloc, &doc)),
        Err(error) => line.debug(error),
    }
}

/// Writes the text of a linkset, or the linkset that is read from it.
fn add_text(alloc: Global, line: &mut Line, doc: &LinkDoc, again: bool) {
    match gs_linktext::write(alloc, doc) {
        Ok(text) => {
            if again {
                add_read(alloc, line, text.as_bytes());
            } else {
                line.bytes(text.as_bytes());
            }
        }
        Err(error) => line.debug(error),
    }
}

/// Writes the text of a linkset in JSON, or the linkset that is read from that.
fn add_written(alloc: Global, line: &mut Line, document: &[u8], again: bool) -> Done {
    match gs_linkset::read(alloc, document) {
        Ok(doc) => add_text(alloc, line, &doc, again),
        Err(error) => line.error(error),
    }
    Ok(())
}

/// Returns the place of an answer among the counts.
fn place_of(read: Result<LinkDoc, LinkTextFault>) -> Result<usize, Rejection> {
    match read {
        Ok(_) => Ok(0),
        Err(LinkTextFault::Syntax) => Ok(1),
        Err(LinkTextFault::Anchor(_)) => Ok(2),
        Err(LinkTextFault::Rel(_)) => Ok(3),
        Err(LinkTextFault::Memory) => Err(Rejection::Memory),
    }
}

/// Writes how many of the prefixes of a text have each answer.
fn over_cuts(alloc: Global, line: &mut Line, text: &[u8]) -> Done {
    let mut counts: [u64; 4] = [0; 4];
    for cut in 0..text.len() + 1 {
        let place = place_of(gs_linktext::read(alloc, text.split_at(cut).0))?;
        if place < 4 && counts[place] < 1_000_000 {
            counts[place] += 1;
        }
    }
    for count in counts.iter() {
        line.debug(*count);
    }
    Ok(())
}
