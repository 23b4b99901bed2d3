//! Linksets as text (RFC 9264, section 4.1), read and written. They are documents of the type `application/linkset`, in the
//! syntax of the `Link` field (RFC 8288, section 3).
//!
//! - `read` reads a linkset from a text, or gives its first error; `write` spells one, and `write_context` one that is lent.
//! - A written document is read as the same links: `written_is_read`. A read one can be written: `read_is_spelled`.
//! - `one_lexing`, `one_cut`, `one_reading`, `some_reading`, `spelled_is_read`: the other laws of reading and writing.
//!
//! # Example
//!
//! A link with two relation types, which gives two links. Their order is kept, so each has a separate context. The gate runs this
//! case, for which crates/vectors_links/src/linktexts.rt makes the call.
//!
//! ```text
//! gs_linktext::read <https://a.example/1>;rel="b\x20a"\x20;\x20anchor="/414/0614141000012",
//! {"linkset":[{"anchor":"/414/0614141000012","b":[{"href":"https://a.example/1"}]},{"a":[{"href":"https://a.example/1"}],"anchor":"/414/0614141000012"}]}
//! ```
//!
//! # Differences from the standards
//!
//! - Each link has an `anchor`, and a relation type, which is not `anchor`: a linkset in JSON could not hold it otherwise.
//! - White space, including line breaks, is allowed between all tokens. A target URI has no white space, and only bytes of
//!   printable ASCII.
//! - Only the first `rel` and the first `anchor` of a link count (RFC 8288, sections 3.2 and 3.3). The same holds for `type`,
//!   `title` and `media`. `hreflang` and other attributes may be repeated.
//! - The texts are UTF-8, once the backslashes of a quoted string are taken off.
//! - A value of a name that ends in `*` is ignored unless it has the form `UTF-8'LANG'TEXT`.
#![tactic(auto)]

mod attrs;
mod cuts;
mod groups;
mod laws;
mod reader;
mod spellable;
mod types;
mod writer;

pub use gs_linktext_grammar::{LinkTextFault, one_lexing};
pub use laws::{
    one_cut, one_reading, read_is_spelled, some_reading, spelled_is_read, written_is_read,
};
pub use reader::read;
pub use writer::{LinkTextWriteFault, write, write_context};
