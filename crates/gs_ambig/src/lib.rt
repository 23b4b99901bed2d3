//! Machines, which are finite automata without circles, and the search for a list of symbols with two accepting runs.
//!
//! - `Auto` is a machine: a table of edges, whose states ascend on each walk, and its borders, the states between two items.
//! - `check` answers `Clear` if and only if no list of symbols has two different accepting runs. Otherwise it answers the first
//!   pair of machines with such a list, and the list.
//! - `PairSearch` searches one machine or two, for a caller that goes through the pairs itself.
//!
//! # Example
//!
//! The first option's words are `12`, the second's `1` and one digit, so their machines share `12`. The gate runs this case, for
//! which crates/vectors_grammars/src/machines.rt makes the call.
//!
//! ```text
//! gs_ambig::check text lit:12 | lit:1 digits:1:1
//! 0 1 12
//! ```
//!
//! # Differences from the standards
//!
//! - No standard has these machines or this search. They are textbook automata whose edges each lead to a later state, so that each
//!   walk ends. The search stands for the care of whoever writes tables for GS1 EPC Tag Data Translation.
#![tactic(auto)]

mod machine;
mod pair_search;
mod search;

pub use machine::{Auto, Edge, Table};
pub use pair_search::{PairSearch, Verdict, check};
