//! Table documents: their rows, and the reading of them from JSON text.
//!
//! - `read_document` reads a document of tables: application identifiers, kinds of EPC, and the options of the three levels; or
//!   gives its first error.
//! - `read_item` reads one item of an option; `copy_in` copies the text of a member.
//!
//! # Example
//!
//! An item of a tag URI: a company prefix of seven digits. The gate runs this case, for which crates/vectors_translation/src/rows.rt makes
//! the call.
//!
//! ```text
//! gs_tables_document::read_item tag ["pad","gcp",7]
//! gcp=pad:7
//! ```
//!
//! # Differences from the standard
//!
//! - GS1 EPC Tag Data Translation publishes its tables as XML and JSON with patterns and functions. These documents have rows
//!   of items instead (docs/TABLES.md, 'The table document').
#![tactic(auto)]

mod document;
mod error;
mod item_forms;
mod items;
mod laws;
mod plans;
mod reader;
mod rows;

pub use document::{
    Document, Field, FieldItem, Kind, KindRow, LevelName, MOST_ITEMS, MOST_KINDS, MOST_ROWS,
    OptInfo, OptionRow, SerialAt,
};
pub use error::{ItemFault, LimitName, LoadFault};
pub use items::read_item;
pub use laws::bytes_have_one_reading;
pub use plans::copy_in;
pub use reader::read_document;
