//! The meanings of texts in the forms of GS1 identities, the answers to them, and their translations.
//!
//! The six forms: tag bits in hexadecimal digits, EPC tag URIs, pure identity URIs, GS1 Digital Links, and two forms of element
//! strings. These are element strings as barcode scanners transmit them, and those in brackets.
//!
//! - `read` returns the meaning of a text, or the first reason why it has none.
//! - `translate` returns its one spelling in a requested form, and `Translator` does so for one text after another.
//! - `reason_text` is the text of a reason; `append_reason` appends it, and `append_ident` that of elements that have no identity.
//!
//! # Example
//!
//! The bits of a tag as a tag URI. The gate runs this case, for which crates/vectors_translation/src/translations.rt makes the call;
//! its head names the arguments.
//!
//! ```text
//! gs_translate::translate Hex Tag - - \e no https://id.gs1.org \e 3074257BF7194E4000001A85
//! urn:epc:tag:sgtin-96:3.0614141.812345.6789
//! ```
//!
//! # Differences from the standards
//!
//! - A translation goes by the identity, the elements that are named. GS1 EPC Tag Data Translation goes from pattern to
//!   pattern. So element strings and links take part, and an EPC that becomes another keeps its filter value.
//! - The order of the reasons, and the answer to a text of more than 2,048 bytes, are this project's own.
//! - The rules of the GS1 General Specifications on elements that require or exclude each other are not checked. The exception
//!   is two keys: such a text names two things and is rejected.
#![tactic(auto)]

mod form;
mod hold_text;
mod laws;
mod reader;
mod reason;
mod reason_texts;
mod recoding;
mod spelling;
mod tag_fields;
mod translator;
mod words;

pub use form::{FieldName, Form, Options, Target};
pub use laws::{
    a_spelling_means_the_same, canonical_links_are_translations, each_text_has_one_answer,
    each_text_has_one_meaning, each_text_has_one_translation, equal_links_name_the_same,
    loaded_tables_suit_each_form, migrated_tables_translate_alike,
};
pub use reader::{Meaning, read};
pub use reason::Reason;
pub use reason_texts::{append_ident, append_reason, reason_text};
pub use translator::{Translator, translate};
pub use words::{append_number, append_numbered, append_numbered_twice, append_word};
