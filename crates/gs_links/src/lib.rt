//! The link store: the links of a linkset by the identities of their anchors. It chooses the links of an identity, by language
//! too, and makes the document of these.
//!
//! - `Store::load` takes a linkset, or gives its first rejection.
//! - `Store::choose` finds the links of an identity, of one relation or of all, at the longest of its prefixes that has one. A
//!   link of a lot goes before one of the trade item.
//! - `Store::narrow` keeps, of the chosen links, those in the first wished language that one of them has. `Ranges` holds the
//!   wished languages.
//! - `Store::document` makes a linkset of the chosen links. `write_document` and `write_text` write it and copy none of them.
//!
//! # Example
//!
//! An anchor needs a key: only the qualifier 21 names nothing. The gate runs this case, for which
//! crates/vectors_links/src/links.rt makes the call. That file also has the cases of `choose`, `narrow` and `document`.
//!
//! ```text
//! gs_links::load {"linkset":[{"anchor":"/21/A"}]}
//! BadAnchor(0,\x20Link(NoKeyPath))
//! ```
//!
//! # Differences from the standards
//!
//! - Each context has an `anchor`, which RFC 9264 leaves optional: a link has to belong to an identity.
//! - An anchor is a Digital Link, with its host or without, and has no attributes, since links are chosen by keys and qualifiers.
//! - That only the links of the longest prefix are chosen is a profile of this project.
//! - A language range that matches none of the chosen links is skipped, and all stay if none is left: RFC 4647 leaves this
//!   open.
//! - A store has at most 65,536 links; a reference has 1 to 2,048 bytes from 33 to 126.
#![tactic(auto)]

mod anchors;
mod choice;
mod error;
mod index;
mod kept_anchor;
mod languages;
mod laws;
mod link;
mod loader;
mod narrower;
mod ranges;
mod store;

pub use error::{AnchorWhy, StoreFault};
pub use kept_anchor::{Anchor, OwnedPair};
pub use laws::{
    by_key_and_qualifiers, deeper_hides, expanded_once, names_of_relations, one_anchor,
    prefixes_of, same_links_load, same_links_same_store,
};
pub use link::{Chosen, Link, Want};
pub use loader::{expand, is_over, keeps_names};
pub use ranges::Ranges;
pub use store::Store;
