//! Calls of gs_port_memory: `open` over files in memory (files.rt) and `door` over connections in memory (connections.rt).

use crate::case::Rejection;
use crate::connections::door;
use crate::files::open;
use crate::line::{Done, Line};
use gs_chars::Text;
use std::alloc::Global;

/// Makes a call of gs_port_memory.
pub fn answer(alloc: Global, line: &mut Line, call: &[u8], args: &[Text]) -> Done {
    match call {
        b"door" => door(alloc, line, args),
        b"open" => open(alloc, line, args),
        _ => Err(Rejection::NoCase),
    }
}
