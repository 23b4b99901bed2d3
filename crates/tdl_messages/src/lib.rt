//! The lines that the program prints of answers to texts, and of files that are rejected.
//!
//! - `append_line` appends the line of an answer, `ok TEXT` or `no REASON`; `append_accepted` and `append_rejected` append either.
//! - `rejected_line` is the printed line of a rejected file. docs/TABLES.md has the text of each error in 'Why tables are
//!   rejected' and similar sections. The texts of the reasons of lines are in gs_translate.
//! - `fault_text` is the reason of such a line alone.
//! - `FileKind` has the word of each kind of file, and the most bytes that such a file may have.
//!
//! # Example
//!
//! The line of tables with a missing member. The gate runs this case, for which crates/vectors_program/src/messages.rt makes the
//! call.
//!
//! ```text
//! tdl_messages::rejected_line {"version":1}
//! refused\x20tables\x20json\x20lacks\x20/ais\x0A
//! ```
//!
//! # Differences from the standards
//!
//! - No standard says how an answer is printed, or how a file is rejected: the words are this project's own.
#![tactic(auto)]

mod answer_lines;
mod file_kind;
mod link_rejections;
mod rejection;
mod rejections;

pub use answer_lines::{append_accepted, append_line, append_rejected};
pub use file_kind::FileKind;
pub use rejection::{FileFault, Rejection};
pub use rejections::{fault_text, rejected_line};
