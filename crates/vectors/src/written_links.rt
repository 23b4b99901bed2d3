//! Calls of gs_linktext_grammar.
//!
//! - `read_links TEXT`: the target URI of each link as written and, in brackets, the name and the value of each parameter; or the
//!   error.

use crate::case::{Rejection, bytes_at};
use crate::line::{Done, Line};
use gs_chars::Text;
use gs_linktext_grammar::{Param, read_links};
use std::alloc::Global;

/// Makes a call of gs_linktext_grammar.
pub fn answer(alloc: Global, line: &mut Line, call: &[u8], args: &[Text]) -> Done {
    match call {
        b"read_links" => {
            add_links(alloc, line, bytes_at(args, 0));
            Ok(())
        }
        _ => Err(Rejection::NoCase),
    }
}

/// Writes the name and the value of each parameter, in brackets.
fn add_params(line: &mut Line, params: &[Param]) {
    line.plain("[");
    for param in params {
        line.bytes(param.name.as_bytes());
        line.bytes(param.value.as_bytes());
    }
    line.plain("]");
}

/// Writes the links of a text, or the error.
fn add_links(alloc: Global, line: &mut Line, text: &[u8]) {
    match read_links(alloc, text) {
        Ok(links) => {
            for link in &links {
                line.bytes(link.href.as_bytes());
                add_params(line, link.params.items());
            }
        }
        Err(error) => line.debug(error),
    }
}
