//! Levels: options with their machines, and the readings of a text or of bits by one pass.
//!
//! A level has the meaning of Tag Data Translation. It is the options in which one form of an EPC, for example its tag bits,
//! may be written.
//!
//! - `Level::new` compiles the machine of each option, once, and `Level::machines` lends the machines.
//! - `read_text` and `read_bits` find the option that reads a text or bits, and the value of each of its items. If each item
//!   before the last has words of one length, these lengths give the words. Otherwise the option's machine finds them.
//!   `read_bits_within` reads bits into room of the caller's, from which the values are lent.
//! - `find_words` lends the words of a text that are their own values, and makes no list of them. `None` leaves the text to
//!   `read_text`.
//! - `find_bits` finds the words of bits that are literals, numbers and zeros, and `BitWords::value` writes the value of one to
//!   an array. `None` leaves the bits to `read_bits_within`.
//! - `Level::first_share` gives the first two options of the level that share a list of symbols, and a text that shows it. It gives
//!   `None` if and only if no list of symbols has two readings by the level.
//!
//! # Example
//!
//! A pure identity URI by the second of two options. The gate runs this case, for which crates/vectors_grammars/src/levels.rt makes
//! the calls; `\e` is the empty value of a literal.
//!
//! ```text
//! gs_grammar_level::read_text urn:epc:id:sgtin:0614141.812345.6789 pad:3 | lit:urn:epc:id:sgtin: pad:7 lit:. pad:6 lit:. esc:1:20
//! 1 \e 0614141 \e 812345 \e 6789
//! ```
//!
//! # Differences from the standard
//!
//! - The items of options are this project's own, instead of the patterns and functions of GS1 EPC Tag Data Translation.
//! - A level is read only if no text and no bits have two readings by it; the standard has no such condition.
//!   `Level::first_share` decides it of all texts and bits, once, when tables are loaded.
#![tactic(auto)]

mod bit_words;
mod choice;
mod cuttings;
mod finder;
mod fronts;
mod laws;
mod level;
mod own_words;
mod probe_groups;
mod read;
mod share;
mod trail;

pub use bit_words::{BitWords, find_bits};
pub use laws::{
    ambiguous_exactly_where_options_share, each_level_has_an_answer, no_list_has_two_readings,
};
pub use level::Level;
pub use own_words::{Words, find_words};
pub use read::{Reading, read_bits, read_bits_within, read_text};
pub use share::Shared;
