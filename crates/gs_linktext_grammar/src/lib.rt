//! The grammar of linksets as text (RFC 9264, section 4.1; RFC 8288, section 3): lexemes, and the links that are written with
//! them. gs_linktext reads and writes linksets with it.
//!
//! - `read_links` returns the links of a text as written, with their parameters in order. `one_lexing` is the law that a text
//!   has one list of lexemes.
//!
//! # Example
//!
//! A comma in a quoted string divides no links: one link with three parameters. The gate runs this case, for which
//! crates/vectors_links/src/written_links.rt makes the call.
//!
//! ```text
//! gs_linktext_grammar::read_links <https://a.example/1>;rel=item;anchor="/414/0614141000012";title="a,b"
//! https://a.example/1 [ rel item anchor /414/0614141000012 title a,b ]
//! ```
//!
//! # Differences from the standards
//!
//! - White space, including line breaks, is allowed between all tokens.
//! - Names and values are UTF-8; a text with another one is not a document.
#![tactic(auto)]

mod checked_text;
mod error;
mod laws;
mod lexeme;
mod lexer;
mod links;
mod params;
mod written_link;

pub use checked_text::{CheckedText, is_utf8};
pub use error::LinkTextFault;
pub use laws::one_lexing;
pub use lexeme::Lexeme;
pub use lexer::{is_blank, is_quotable, is_target_byte, is_token};
pub use links::read_links;
pub use written_link::{Param, WrittenLink};
