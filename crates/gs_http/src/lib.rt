//! Replies to requests of HTTP/1 (RFC 9110, RFC 9112) by the links of a store, in the manner of GS1's resolver standard.
//!
//! - `reply` answers one head: with a redirect, several links to choose from, a linkset, the resolver description file, or only a
//!   status.
//! - `serve_one` answers the heads of one connection in order, however their bytes come, and says how that ended.
//! - `Resolver` has the data that both make of a `Site` once for many requests; `reply_with` and `serve_with` borrow it.
//! - `reference_for` returns the target URI of one link for an identity, and `document_for` the document of many. If target
//!   URIs are templates, the identity's values fill their places (gs_template).
//! - `render` returns a document in the requested form (RFC 9264). `LinksetForm` names the forms, and `Rendered` has the bytes and
//!   their form.
//!
//! # Example
//!
//! A lot that has its own link. The gate runs this case, for which crates/vectors_resolver/src/heads.rt makes the call. The
//! head of crates/vectors_cases/src/lib.rt describes how bytes are written, and `lots` is a linkset of that file.
//!
//! ```text
//! gs_http::reply lots - - GET\x20/01/09506000134352/10/ABC/21/X1\x20HTTP/1.1\x0D\x0AHost:\x20r\x0D\x0A\x0D\x0A
//! HTTP/1.1\x20307\x20Temporary\x20Redirect\x0D\x0ALocation:\x20https://example.com/lot\x0D\x0AContent-Length:\x200\x0D\x0A\x0D\x0A stays
//! ```
//!
//! A document that is requested as text. Its one target URI has a place for the serial number. The gate runs this case, for which
//! crates/vectors_links/src/documents.rt makes the call; a 1 means that target URIs are templates.
//!
//! ```text
//! gs_http::render Text 1 {"linkset":[{"anchor":"/01/09506000134352","r":[{"href":"https://s.example/{21}"}]}]} 01 09506000134352 21 A/B
//! Text <https://s.example/A%2FB>;\x20rel="r";\x20anchor="/01/09506000134352"
//! ```
//!
//! # Differences from the standards
//!
//! - The cases of a reply, their order and the choice of the links are a profile of this project (docs/REPLIES.md).
//! - A head has at most 8,192 bytes and 64 fields, and a connection at most 1,000 replies.
//! - A request with a message body is rejected. So is one whose head has a line feed without a carriage return before it.
//! - If text is requested, a document that text cannot hold is sent as JSON; see `render`.
//! - Only target URIs are templates; anchors, relations and attributes are unchanged.
//! - The methods are GET and HEAD. The query is not passed on, weights of `Accept` are ignored, and no field is sent for caches
//!   or for other origins.
#![tactic(auto)]

mod answer;
mod buffer;
mod connection;
mod cuts;
mod documents;
mod fields;
mod head_reply;
mod heads;
mod languages;
mod laws;
mod replies;
mod request;
mod resolver;
mod routing;
mod said;
mod wishes;

pub use connection::{Served, serve_one, serve_with};
pub use documents::{LinksetForm, Rendered, document_for, reference_for, render};
pub use head_reply::{reply, reply_with};
pub use languages::language_ranges;
pub use laws::{one_answer_to_a_stream, one_reply};
pub use replies::Reply;
pub use resolver::{Resolver, Settings, Site};
