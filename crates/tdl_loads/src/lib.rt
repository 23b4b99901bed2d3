//! The files that a run names: read, judged and loaded in their order.
//!
//! - `load_files` loads the files of a request, or their defaults. It stops at the first that is missing, cannot be read or is
//!   rejected (`Unloaded`), and opens no later one.
//! - `Loaded` holds the loaded contents of a run: the tables with their document (`TablesWithSource`) and the company prefix
//!   lengths (`Tabled`). It also holds the links and their merged document (`Linked`), the settings of replies, and the
//!   classes.
//! - `text_form_loads_alike` is the law that a linkset and its text form load to the same links.
//!
//! # Example
//!
//! A whole run whose tables are rejected. The gate runs this case: crates/vectors_program/src/runs.rt makes the call.
//!
//! ```text
//! tdl_run::run check --tables t / - t {"version":1} / 5 - \e / 1000 -
//! Refused refused\x20tables\x20json\x20lacks\x20/ais\x0A \e
//! ```
//!
//! # Differences from the standards
//!
//! - No standard gives the order or the largest sizes of such files. Both are this project's own (docs/CLI.md, 'Files').
#![tactic(auto)]

mod laws;
mod linked;
mod links;
mod loads;
mod named_files;

pub use laws::text_form_loads_alike;
pub use loads::{Linked, Loaded, Tabled, TablesWithSource, Unloaded, load_files};
