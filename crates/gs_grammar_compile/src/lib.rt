//! The machines of items and of options, and how their runs correspond to derivations.
//!
//! - `compile` makes the machine of an option. Its accepting runs are the derivations of the option, and the words of the items
//!   end at the borders that they cross.
//!
//! # Example
//!
//! Three digits are read by `pad:2 pad:1` and by `pad:3`, so the machines of these two options share them. The gate runs this
//! case, for which crates/vectors_grammars/src/machines.rt makes the calls.
//!
//! ```text
//! gs_grammar_compile::share text pad:2 pad:1 | pad:3
//! 0 1
//! ```
//!
//! # Differences from the standards
//!
//! - GS1 EPC Tag Data Translation gives the forms of an option by patterns. Here they are items, and a machine of each option
//!   reads them.
#![tactic(auto)]

mod additions;
mod code_states;
mod compiler;
mod laws;
mod numeral;
mod ones;
mod spelling_states;

pub use compiler::compile;
pub use laws::cuts_of_runs_are_those_of_derivations;
