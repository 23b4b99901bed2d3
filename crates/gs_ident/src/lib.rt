//! Identities of things: a key, its qualifiers and the attributes, and the GS1 Digital Link that spells them.
//!
//! - `make` makes an identity of pairs of codes and values, in any order, or gives the first error.
//! - `spell` writes its Digital Link under a stem; `canonical` the canonical link, under https://id.gs1.org.
//!
//! # Example
//!
//! A trade item with a lot, a serial number, a variant and an expiry date. The qualifiers are in the order of the standard, the
//! attribute in the query. The gate runs this case, for which crates/vectors_translation/src/identities.rt makes the calls.
//!
//! ```text
//! gs_ident::spell https://r.example/g 01 09506000134352 10 ABC 21 X/1 22 2 17 261231
//! https://r.example/g/01/09506000134352/22/2/10/ABC/21/X%2F1?17=261231
//! ```
//!
//! # Differences from the standard
//!
//! - The attributes of a canonical link ascend by code, so that one identity has one link.
//! - A code that occurs twice with one value counts once; with two values it is an error.
//! - A value that means none, such as 0 for 254, is left out.
#![tactic(auto)]

mod errors;
mod identity;
mod maker;
mod pairs;
mod spelling;

pub use errors::IdentFault;
pub use gs_ai::Pair;
pub use identity::{Identity, is_coded};
pub use maker::make;
pub use pairs::{pair_with, same_code};
pub use spelling::{
    CANONICAL_STEM, append_canonical, append_element, append_escaped, append_link, canonical,
    one_link_each, spell,
};
