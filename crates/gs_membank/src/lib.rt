//! Dumps of the EPC memory bank of a tag, from its protocol control word on, as readers report them and encoders are sent them.
//!
//! - `read_dump` reads a dump of hexadecimal digits: the user memory bit, the attribute bits and the EPC; `write_dump` writes one.
//! - `show_dump` writes a dump as a line with the tag URI of its EPC; `read_shown` reads such a line.
//!
//! # Example
//!
//! A control word that says six words, and the 96 bits of an SGTIN-96 after it. The gate runs this case, for which
//! crates/vectors_translation/src/dumps.rt makes the calls.
//!
//! ```text
//! gs_membank::show_dump 30003074257BF7194E4000001A85
//! u0\x20a00\x20urn:epc:tag:sgtin-96:3.0614141.812345.6789
//! ```
//!
//! # Differences from the standards
//!
//! - Of GS1 EPC Tag Data Standard 2.0 it has the bank of an EPC without an extended control word. A word whose extended bit or
//!   toggle bit is 1 is rejected. The CRC before the word and the contents of user memory are not part of a dump.
//! - The length in the word is that of the encoding, which is whole words: bits beyond it are rejected.
//! - The attribute bits are a number of 8 bits, for every version of the standard.
#![tactic(auto)]

mod dump;
mod error;
mod laws;
mod shown;

pub use dump::{Dump, read_dump, write_dump};
pub use error::{DumpFault, DumpLineFault, DumpWriteFault};
pub use laws::{
    bits_are_one_dump, dump_read_is_written, dump_written_is_read, shown_is_read,
    texts_begin_as_one_line, what_is_rejected_is_no_dump,
};
pub use shown::{read_shown, show_dump};
