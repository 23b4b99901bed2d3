//! The answers to the lines of an input: the translations of their texts.
//!
//! - `TranslatedLines` answers each text by its translation, for the line loop of tdl_lines; `answer_lines` runs that loop.
//!
//! # Example
//!
//! Two lines of at most 38 bytes; the second is not a pure identity. The gate runs this case, for which
//! crates/vectors_program/src/translated_lines.rt makes the call: the status, the output, and the bytes of the input that are left.
//!
//! ```text
//! tdl_answers::answer_lines Pure Canon - - \e no https://id.gs1.org \e 38 / 1 - urn:epc:id:sgtin:0614141.812345.6789\x0Ax / 1000 -
//! SomeRefused ok\x20https://id.gs1.org/01/80614141123458/21/6789\x0Ano\x20reading\x0A \e
//! ```
//!
//! # Differences from the standards
//!
//! - No standard defines lines of texts with their answers: the form is this project's own (docs/CLI.md, 'Lines').
#![tactic(auto)]

mod class_lines;
mod dump_lines;
mod reasons;
mod translated_lines;

pub use class_lines::{ClassCanonLines, ClassUriLines};
pub use dump_lines::{DumpReadLines, DumpWriteLines};
pub use translated_lines::{TranslatedLines, answer_lines};
