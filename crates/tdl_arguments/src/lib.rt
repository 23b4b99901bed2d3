//! The arguments of the command line: the request that they make, or which of them is wrong, and why.
//!
//! - `read_arguments` gives the request of arguments: a command with its operands, the files that they name, and their values, each in range.
//!   Otherwise it gives the first wrong argument, and the reason.
//! - `asked_page` gives the text that `--help`, `--version`, or a command and `--help` ask for. `without_program_name` gives the arguments of a process without the program's name.
//!
//! # Example
//!
//! The filter value of a translation, and its other values by default: no company prefix length, no encoding, all elements kept,
//! and the stem. The gate runs this case, for which crates/vectors_program/src/arguments.rt makes the call.
//!
//! ```text
//! tdl_arguments::read_arguments translate link hex --filter 1
//! Some(1) None \e false https://id.gs1.org
//! ```
//!
//! # Differences from the standards
//!
//! - No standard has a command line for these translations: the commands, names and values are this project's own
//!   (docs/CLI.md, 'Options').
#![tactic(auto)]

mod arguments;
mod command;
mod name;
mod pages;
mod pairs;
mod request;
mod value_reader;
mod wrong;

pub use arguments::read_arguments;
pub use command::Command;
pub use name::{Name, NameRow};
pub use pages::{Page, asked_page};
pub use pairs::without_program_name;
pub use request::{LinksFile, NamedFiles, NamedValues, Request};
pub use wrong::{Why, Wrong};
