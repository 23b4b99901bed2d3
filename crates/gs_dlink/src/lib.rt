//! GS1 Digital Links: web addresses that hold an identity, read and written.
//!
//! - `read_link` reads a whole link; `read_target` the target of a request, without a host.
//! - `stem_ok` says whether links may be written under an address, and `write_link` writes one.
//! - `part_len` cuts the query of a request target.
//!
//! # Example
//!
//! A shop's link with its own path before the key, an escape, a query parameter that is not an element, and a fragment. The
//! gate runs this case, for which crates/vectors_translation/src/digital_links.rt makes the call.
//!
//! ```text
//! gs_dlink::read_link https://shop.example/a/01/9506000134352/21/%41?linkType=x&17=261231#f
//! 01 09506000134352 21 A 17 261231
//! ```
//!
//! # Differences from the standard
//!
//! - Of GS1 Digital Link: URI Syntax it has uncompressed links with numeric codes. The names of codes, such as `gtin`, and
//!   compressed links are not read.
//! - A GTIN may have 8, 12 or 13 digits, which are filled up with leading zeros; it is written with 14.
#![tactic(auto)]

mod error;
mod laws;
mod path;
mod query;
mod read;
mod stem;
mod value;

pub use error::LinkFault;
pub use laws::{one_answer_each, one_key_path, written_link_is_read};
pub use query::part_len;
pub use read::{read_link, read_target};
pub use stem::{stem_ok, write_link};
pub use value::decoded;
