//! A call of gs_http over the values of fields.
//!
//! - `language_ranges VALUE ..`: how many ranges there are, and each of them.

use crate::case::Rejection;
use crate::line::{Done, Line};
use gs_chars::Text;
use gs_http::language_ranges;
use std::alloc::Global;

/// Makes a call of gs_http.
pub fn answer(alloc: Global, line: &mut Line, call: &[u8], args: &[Text]) -> Done {
    match call {
        b"language_ranges" => ranges(alloc, line, args),
        _ => Err(Rejection::NoCase),
    }
}

fn ranges(alloc: Global, line: &mut Line, args: &[Text]) -> Done {
    let ranges = language_ranges(alloc, args)?;
    line.debug(ranges.items().len());
    for range in ranges.items() {
        line.bytes(range.as_bytes());
    }
    Ok(())
}
