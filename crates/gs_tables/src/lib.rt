//! Table sets: the application identifiers, kinds and options that a document or the built-in rows give, and their rules.
//!
//! - `TableSet::load` reads a table document (JSON), or gives its first rejection; `builtin` makes the set of the built-in rows.
//! - `migrate` makes the text of a document as one of version 2, which loads to the same set. `migrated_text` makes that of a
//!   document that is known to load.
//! - `TableSet::ais`, `kinds`, `level`, `info` and `candidates` lend the parts of a set, `key_row` and `serial_row` the rows of a
//!   kind.
//! - `KeyForm`, `Room`, `are_characters` and `characters_of` describe the form of a key's values and of its serial. `keeps_gcp`,
//!   `keeps_rest`, `keeps_serial` and `size_within_limit` test an option's items, and `is_of_key` and `lists` a key's row.
//!   gs_class uses them too, with `split_items`, which separates items from their fields.
//!
//! # Example
//!
//! The built-in set has 57 application identifiers, 10 kinds, and 105, 105 and 70 options of tag bits, tag URIs and pure identity
//! URIs. The gate runs this case, for which crates/vectors_translation/src/tables.rt makes the call.
//!
//! ```text
//! gs_tables::builtin
//! 57 10 105 105 70
//! ```
//!
//! # Differences from the standards
//!
//! - The form of the document and its rules are this project's own (docs/TABLES.md, 'The table document'). GS1 EPC Tag Data
//!   Translation has its own files, which are not read.
//! - Tables by which a text or bits have two readings are rejected, with such a text.
//! - The built-in rows are the binary encodings of ten kinds that GS1 EPC Tag Data Standard 2.0 kept from versions 1.x. The
//!   header, widths and padding of gdti-174 are this project's own.
//! - Limits: 256 application identifiers, 64 kinds, 256 options of a level, 24 items and 512 symbols of an option.
#![tactic(auto)]

mod builtin_set;
mod field_items;
mod form;
mod kind_places;
mod kind_rules;
mod kinds_levels;
mod laws;
mod level_tables;
mod migration;
mod option_rules;
mod rules;
mod table_set;

pub use builtin_set::builtin;
pub use field_items::{keeps_gcp, keeps_rest, keeps_serial, size_within_limit};
pub use form::{Behind, KeyForm, Room, are_characters, characters_of};
pub use gs_tables_document::{
    Field, ItemFault, Kind, LevelName, LimitName, LoadFault, OptInfo, SerialAt, read_item,
};
pub use kind_rules::{is_of_key, lists};
pub use kinds_levels::split_items;
pub use laws::{built_in_rows_have_one_answer, bytes_have_one_answer, options_keep_the_rules};
pub use migration::{migrate, migrated_text};
pub use table_set::TableSet;
