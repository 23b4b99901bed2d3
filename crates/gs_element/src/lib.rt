//! Element strings: the texts of barcodes, as scanners transmit them and as people read them, and their pairs.
//!
//! - `read_raw` reads a scanned element string, with its symbology identifier or without; `read_bracketed` one with application
//!   identifiers in brackets.
//! - `write_raw` and `write_bracketed` write an identity so.
//! - `append_raw_pairs` and `append_bracketed_pairs` write a key and its other pairs without an identity.
//!
//! # Example
//!
//! A GTIN, an expiry date, a lot and a serial number from a GS1-128 symbol, the lot ended by a group separator. The gate runs
//! this case, for which crates/vectors_translation/src/elements.rt makes the call.
//!
//! ```text
//! gs_element::read_raw ]C101095060001343521726123110ABC\x1D21X1
//! 01 09506000134352 17 261231 10 ABC 21 X1
//! ```
//!
//! # Differences from the standard
//!
//! - A group separator may follow the last element, and one of predefined length. GS1 General Specifications, section 7.8, advise
//!   against writing it, and none is written there.
//! - A written text has no symbology identifier.
#![tactic(auto)]

mod bracketed_text;
mod errors;
mod laws;
mod raw;
mod writer;

pub use bracketed_text::read_bracketed;
pub use errors::RawFault;
pub use laws::{one_error_each, one_list_each, some_answer, written_is_read};
pub use raw::read_raw;
pub use writer::{
    append_bracketed, append_bracketed_pairs, append_raw, append_raw_pairs, write_bracketed,
    write_raw,
};
