//! EPCs: the EPC that tag bits and EPC URIs give by the tables, the identity that it names, and the texts of an identity.
//!
//! - `read_hex`, `read_tag` and `read_pure` give the fields of an EPC; `write_hex`, `write_tag` and `write_pure` its text.
//! - `reading_of` reads a text of any level. An `EpcReading` lends its fields, gives the identity that it names or only its
//!   pairs, and appends its link.
//! - `words_of` finds the words of an EPC URI whose fields stand in it as they are, and `bit_words_of` those of the bits of a
//!   tag. An `EpcWords` lends its fields, of which those of bits are written to `Rooms`, and appends its link. Nothing is
//!   allocated for either.
//! - `identity_of` lays the fields out as a key and its serial number; `fields_of` takes an identity apart. `push_checked` writes
//!   the digits of a key, for gs_class too.
//! - `lent_fields_of` and `append_lent` are `fields_of` and `write_level` over lent texts, without copies of them.
//!
//! # Example
//!
//! The trade item of a tag URI. It has its kind, encoding and filter value, the number of digits of its company prefix, its
//! prefix, item reference and serial number. The gate runs this case, for which crates/vectors_translation/src/epcs.rt makes
//! the call.
//!
//! ```text
//! gs_epc::read_tag urn:epc:tag:sgtin-96:3.0614141.812345.6789
//! sgtin sgtin-96 Some(3) 7 0614141 812345 6789
//! ```
//!
//! # Differences from the standard
//!
//! - Of GS1 EPC Tag Data Standard 2.0 it has the schemes that the loaded tables have. The built-in ones have no `+` scheme, no
//!   raw URI and no pattern.
//! - Hexadecimal digits and the letters of escapes are read in either case, and written in upper case.
//! - If several encodings hold an EPC and none is requested, the first in the order of the tables is written.
#![tactic(auto)]

mod candidates;
mod epc;
mod error;
mod fields;
mod item_numbers;
mod key_parts;
mod laws;
mod layout;
mod level_words;
mod link_writer;
mod reading;
mod words;
mod writer;

pub use epc::{Epc, EpcRef};
pub use error::{EpcFault, EpcWriteFault, FieldsFault};
pub use fields::field_place;
pub use key_parts::{
    fields_of, joined, lent_fields_of, parts_at, prefix_in, rest_in, skip_first, value_from_prefix,
};
pub use laws::{
    laying_out_undoes_taking_apart, taking_apart_undoes_laying_out, what_is_written_is_read,
};
pub use layout::{KeyAndSerial, identity_of, push_checked};
pub use level_words::Rooms;
pub use reading::{EpcReading, read_hex, read_pure, read_tag, reading_of};
pub use words::{EpcWords, TagBits, bit_words_of, words_of};
pub use writer::{append_lent, write_hex, write_level, write_pure, write_tag};
