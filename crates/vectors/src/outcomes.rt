//! How the end of a run over lines is written: its status, its output, and the rest of its input.

use crate::case::Rejection;
use crate::line::{Done, Line};
use gs_port::{MemSink, MemSource, ReadAnswer, Source};
use std::alloc::Global;
use tdl_lines::Status;

/// Returns the rest of an input.
fn left_of(alloc: Global, input: &mut MemSource) -> Result<Vec<u8>, Rejection> {
    let mut left = Vec::new(alloc);
    for _ in 0..1_000_000 {
        let mut block = [0; 64];
        match input.read(&mut block) {
            ReadAnswer::Got(0) => break,
            ReadAnswer::Got(n) => left.extend_from_slice(&block[..n])?,
            ReadAnswer::Failed => {}
        }
    }
    Ok(left)
}

/// Writes a status, and the output.
pub fn add_status(line: &mut Line, status: Status, written: &[u8]) {
    line.debug(status);
    line.bytes(written);
}

/// Writes the status, the output, and the rest of an input.
pub fn add_outcome(
    alloc: Global,
    line: &mut Line,
    status: Status,
    input: &mut MemSource,
    output: &MemSink,
) -> Done {
    let left = left_of(alloc, input)?;
    add_status(line, status, output.bytes());
    line.bytes(left.as_slice());
    Ok(())
}
