//! Templates of references: a link's target with places for the values of an identity. One link can so serve all serial numbers
//! of a trade item. A place is `{CODE}`, the simple expansion of RFC 6570 with the codes of application identifiers as names.
//!
//! - `places_ok` finds the first brace outside a place, or the first place whose AI does not belong to the key.
//! - `expand` fills the places. No value adds a delimiter to the reference.
//!
//! # Example
//!
//! The serial number has a slash, which is escaped, and there is no lot, so that nothing stands for its place. The gate runs this
//! case, for which crates/vectors_links/src/templates.rt makes the call.
//!
//! ```text
//! gs_template::expand https://shop.example/p/{01}?s={21}&l={10} 01 09506000134352 21 A/B
//! https://shop.example/p/09506000134352?s=A%2FB&l=
//! ```
//!
//! # Differences from the standard
//!
//! - A name is 2 to 4 digits. A brace outside a place is literal; RFC 6570 makes it an error.
//! - The tilde is escaped too, like in a canonical link; no value contains one.
#![tactic(auto)]

mod error;
mod expansion;
mod laws;
mod places;

pub use error::PlaceFault;
pub use expansion::expand;
pub use laws::{
    no_brace_is_left, parts_of_a_template, places_hold_plain_bytes, values_add_no_delimiter,
};
pub use places::places_ok;
