//! Class URIs: the class of things that a text names, such as a lot of a trade item, and the text written of an identity.
//!
//! - `ClassSet::load` reads a document of classes (JSON), or gives its first rejection. `ClassSet::builtin` makes the set of
//!   the built-in rows, and `ClassSet::none` the empty set.
//! - `read_class` gives the identity that a class URI names; `write_class` the class URI of an identity.
//!
//! # Example
//!
//! A lot of a trade item, by the built-in classes: the key with its check digit, and the lot. The gate runs this case, for which
//! crates/vectors_translation/src/class_uris.rt makes the call.
//!
//! ```text
//! gs_class::read - urn:epc:class:lgtin:0614141.812345.998877
//! https://id.gs1.org/01/80614141123458/10/998877
//! ```
//!
//! # Differences from the standard
//!
//! - The document of classes and its rules are this project's own (docs/TABLES.md, 'The class document'). A set by which a text has two
//!   readings is rejected, with such a text.
//! - The length of the company prefix of an identity is given, or comes from a list of prefixes; a class URI carries it.
//! - Limits: 256 classes, 24 items and 512 symbols of one.
#![tactic(auto)]

mod builtin;
mod class_set;
mod document;
mod error;
mod laws;
mod reader;
mod rules;
mod writer;

pub use class_set::ClassSet;
pub use error::{ClassFault, ClassLoadFault, ClassWriteFault};
pub use laws::{
    classes_have_one_answer, one_class, what_is_read_is_written, what_is_written_is_read,
};
pub use reader::read_class;
pub use writer::write_class;
