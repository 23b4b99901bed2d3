//! Reads JSON documents (RFC 8259), looks their parts up by name and index, and checks objects against a plan.
//!
//! - `Doc::parse` reads a document. A `Node` is a part of it: `member` and `item` look parts up, and `text`, `number` and
//!   others give values. `find` and `value` report no other kind.
//! - `read_value` reads one value of a text at a time, without a tree of the whole. `Node::of_item` gives an item its place.
//! - `Node::shaped` checks an object against a plan of the members it must and may have and their sorts, `Node::items_shaped`
//!   the objects of an array. `plan_of` makes a plan. `text_in`, `number_in`, `truth_in` and `items_in` read a member of a checked object.
//!
//! # Example
//!
//! The first item of the member `a` has no member `c`: the error gives its place as a JSON Pointer (RFC 6901). The gate runs
//! this case, and crates/vectors_links/src/documents.rt makes the calls.
//!
//! ```text
//! gs_json::text {"a":[{"b":"c"}]} .a #0 .c
//! Lacks /a/0/c
//! ```
//!
//! # Differences from the standard
//!
//! - The last of equal names counts, and an object's members come in ascending order of name.
//! - `number` reads only digits, and at most 2^64 - 1.
//! - A byte order mark at the start is an error.
#![tactic(auto)]

mod doc;
mod error;
mod laws;
mod look_ups;
mod node;
mod place;
mod plan;
mod values;

pub use doc::Doc;
pub use error::JsonFault;
pub use laws::places_point_to_their_parts;
pub use look_ups::{items_in, items_of, number_in, text_in, truth_in};
pub use node::Node;
pub use plan::{Entry, Sort, plan_of};
pub use values::{read_value, value_from};
