//! Sessions: translations by tables, prefixes and options that a value owns.
//!
//! - `open` makes a session of the numbers and bytes that a caller in C gives, or gives the first of them that is rejected, of which
//!   `tell` says the status and the printed reason.
//! - `Session::translate` translates a text into a buffer, and `Session::translate_lines` each line of a text.
//! - `Session::why` gives the kind of a rejection as a number, and its place.
//! - `Session::retargeted` makes a session of other forms and options, which shares the tables, the company prefix lengths and the
//!   classes.
//! - `Session::take_classes` gives a session classes, by which `Session::class_canon` and `Session::class_uri` translate. The answers to
//!   dumps are `Session::dump_read` and `Session::dump_write`.
//!
//! # Differences from the standards
//!
//! - No standard has such sessions: the numbers and their order are this project's own.
#![tactic(auto)]

mod buffer;
mod choice;
mod classes;
mod line_answer;
mod line_status;
mod opening;
mod rejections;
mod session;
mod status;
mod told;

pub use choice::Choice;
pub use opening::{Unopened, open};
pub use rejections::{Found, of_kind, tell_found};
pub use session::Session;
pub use status::{ARGUMENT, CLASSES, CLOSED, MEMORY, NO, OK, PREFIXES, SMALL, TABLES};
pub use told::{nothing, status_of, tell};
