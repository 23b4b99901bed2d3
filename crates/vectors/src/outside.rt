//! Calls of gs_port over objects in memory. FAILS are the numbers of the calls that fail, with commas between, or `-`.
//!
//! - `read BYTES CUT FAILS SIZE`: the bytes or answers of reads of SIZE bytes, at most 16, up to the end.
//! - `write CUT FAILS PIECE..`: the answer of a write of each piece, then the bytes that the sink holds.
//! - `write_whole CUT FAILS PIECE..`: the same for each piece written whole.
//!
//! The call over files, `read_file`, is in files.rt, and `pair` in connections.rt.

ghost use Rattle.std.specs.Prelude.{◌<◌};

use crate::case::{Rejection, behind, bytes_at, named, numbers_of};
use crate::connections::pair;
use crate::files::read_files;
use crate::line::{Done, Line};
use crate::objects::{cut_of, sink_of};
use gs_chars::Text;
use gs_port::{MemSink, MemSource, ReadAnswer, Sink, Source, WriteAnswer, write_whole};
use std::alloc::Global;

#[derive(Clone, Copy)]
enum Call {
    Pair,
    Read,
    ReadFile,
    Write,
    WriteWhole,
}

const CALLS: [(&str, Call); 5] = [
    ("pair", Call::Pair),
    ("read", Call::Read),
    ("read_file", Call::ReadFile),
    ("write", Call::Write),
    ("write_whole", Call::WriteWhole),
];

/// Makes a call of gs_port.
pub fn answer(alloc: Global, line: &mut Line, call: &[u8], args: &[Text]) -> Done {
    match named(&CALLS, call) {
        Some(Call::Pair) => pair(alloc, line, args),
        Some(Call::Read) => read(alloc, line, args),
        Some(Call::ReadFile) => read_files(alloc, line, args),
        Some(Call::Write) => write(alloc, line, args),
        Some(Call::WriteWhole) => written_whole(alloc, line, args),
        None => Err(Rejection::NoCase),
    }
}

/// Writes the answer of a read: the bytes that it moved to the start of the block, or that it failed.
pub fn add_moved(line: &mut Line, moved: ReadAnswer, block: &[u8]) {
    match moved {
        ReadAnswer::Got(n) => line.bytes(&block[..n.min(block.len())]),
        ReadAnswer::Failed => line.plain("Failed"),
    }
}

/// Writes the bytes or answers of reads of that many bytes, up to the end.
fn add_reads(line: &mut Line, source: &mut MemSource, size: usize)
    requires { 0 < size }
{
    for _ in 0..1000 {
        let mut block = [0; 16];
        let moved = source.read(&mut block[..size.min(16)]);
        if moved == ReadAnswer::Got(0) {
            break;
        }
        add_moved(line, moved, &block);
    }
    line.plain("end");
}

fn read(alloc: Global, line: &mut Line, args: &[Text]) -> Done {
    let cut = cut_of(args, 1)?;
    let size = cut_of(args, 3)?;
    let fails = numbers_of(alloc, bytes_at(args, 2))?;
    let bytes = bytes_at(args, 0).to_vec(alloc)?;
    add_reads(line, &mut MemSource::new(alloc, bytes, cut, fails), size);
    Ok(())
}

/// Writes the answer of a write: the number of bytes that it took, or that it failed.
pub fn add_taken(line: &mut Line, taken: WriteAnswer) {
    match taken {
        WriteAnswer::Took(n) => line.debug(n),
        WriteAnswer::Failed => line.plain("Failed"),
        WriteAnswer::Memory => line.want_memory(),
    }
}

fn write(alloc: Global, line: &mut Line, args: &[Text]) -> Done {
    let mut sink = sink_of(alloc, args)?;
    for piece in behind(args, 2) {
        add_taken(line, sink.write(piece.as_bytes()));
    }
    line.bytes(sink.bytes());
    Ok(())
}

/// Writes the answer of writing a whole piece.
fn add_whole(line: &mut Line, sink: &mut MemSink, piece: &[u8]) {
    line.debug(write_whole(sink, piece));
}

fn written_whole(alloc: Global, line: &mut Line, args: &[Text]) -> Done {
    let mut sink = sink_of(alloc, args)?;
    for piece in behind(args, 2) {
        add_whole(line, &mut sink, piece.as_bytes());
    }
    line.bytes(sink.bytes());
    Ok(())
}
