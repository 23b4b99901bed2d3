//! Table documents of version 1 as documents of version 2.
//!
//! - `second_text` makes the text of a document's second version. It is for documents that a load has accepted: gs_tables has
//!   the call for bytes of any kind, `migrate`.
//!
//! # Example
//!
//! A document of one kind. The gate runs this case, for which crates/vectors_translation/src/tables.rt makes the call, over the load
//! of gs_tables.
//!
//! ```text
//! gs_tables::migrate {"version":1,"ais":[{"code":"00","parts":["n18c"],"role":"key"}],"kinds":[{"name":"sscc","key":"00","lead":1,"serial":""}],"binary":[],"tag":[],"pure":[]}
//! {"ais":[{"code":"00","parts":["n18c"],"role":"key"}],"binary":[],"kinds":[{"fields":[],"key":"00","lead":1,"name":"sscc","serial":""}],"pure":[],"tag":[],"version":2}
//! ```
//!
//! # Differences from the standards
//!
//! - The document and its versions are this project's own (docs/TABLES.md, 'The table document'). No way leads from version 2
//!   back to version 1.
//! - An accepted document has no members that the profile does not name, so none is lost. Spaces, the order of members,
//!   unnecessary escapes and repeated members are.
#![tactic(auto)]

mod texts;
mod tree;

pub use texts::second_text;
