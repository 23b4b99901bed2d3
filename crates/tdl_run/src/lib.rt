//! The program: whole runs, by their arguments, files, input, output and listener.
//!
//! - `run` is the call that `main` of tdl makes. It takes arguments, files, an input, an output and a listener, and returns a
//!   status. Its clauses are the README's guarantee. `without_program_name` returns the arguments of a process without the
//!   program's name.
//!
//! # Example
//!
//! A whole run over objects in memory: the arguments, no files, and an input that is read two bytes at a time. The output takes
//! three at a time. The gate runs this case: crates/vectors_program/src/runs.rt makes the call. The result is the status, the
//! output, and the rest of the input.
//!
//! ```text
//! tdl_run::run canon pure / - / 2 - urn:epc:id:sgtin:0614141.812345.6789\x0A / 3 -
//! Done ok\x20https://id.gs1.org/01/80614141123458/21/6789\x0A \e
//! ```
//!
//! # Differences from the standards
//!
//! - No standard has a command line for these translations: the commands, names, statuses and printed texts are this
//!   project's own (docs/CLI.md, 'Commands' and 'Statuses').
#![tactic(auto)]

mod commands;
mod laws;
mod line_commands;
mod printed_lines;
mod requests;
mod runner;

pub use laws::{
    canon_answers_by_canonical_links, canonical_answers_by_kept_elements, outputs_compare_elements,
    words_ask_for_one_thing, words_have_one_outcome, words_in_order_are_answered,
};
pub use runner::run;
pub use tdl_answers::answer_lines;
pub use tdl_arguments::without_program_name;
pub use tdl_lines::Status;
