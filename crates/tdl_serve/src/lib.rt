//! A resolver for one stream, and for the connections of a listener, which it serves one at a time.
//!
//! - `resolve` answers the heads of an input as those of one connection.
//! - `serve` opens a listener and serves at most a number of connections. It prints their number and the number of those that
//!   ended by an error.
//!
//! # Example
//!
//! A request for a trade item, and the redirection to its default link. The gate runs this case:
//! crates/vectors_resolver/src/resolved.rt makes the call. The head of crates/vectors_cases/src/lib.rt says how bytes are written.
//!
//! ```text
//! tdl_serve::resolve {"linkset":[{"anchor":"/01/09506000134352","gs1:defaultLink":[{"href":"https://example.com/p"}]}]} / 4096 - GET\x20/01/09506000134352\x20HTTP/1.1\x0D\x0A\x0D\x0A / 4096 -
//! Done HTTP/1.1\x20307\x20Temporary\x20Redirect\x0D\x0ALocation:\x20https://example.com/p\x0D\x0AContent-Length:\x200\x0D\x0A\x0D\x0A
//! ```
//!
//! # Differences from the standards
//!
//! - An input that is answered is one connection, without a listener.
//! - Connections are served one at a time, and the server ends after the number of them that the caller names.
//! - Of a connection at most 1,000 heads are answered, and at most 12,288 bytes are read beyond these.
#![tactic(auto)]

mod laws;
mod sessions;
mod stream;

pub use laws::rises_tell_errors;
pub use sessions::serve;
pub use stream::resolve;
