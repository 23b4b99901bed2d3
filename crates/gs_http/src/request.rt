ghost use Rattle.gs_http.specs.SaidFields.{Says};

use crate::said::Said;
use httparse::spans::HeaderSpan;

/// A request, as spans of its head.
#[derive(Drop)]
pub(crate) struct Request<'a> {
    /// The method.
    pub method: &'a [u8],
    /// The target.
    pub target: &'a [u8],
    /// The minor version of HTTP/1.
    pub minor: u8,
    /// The head.
    pub head: &'a [u8],
    /// The places of its fields.
    pub fields: &'a [HeaderSpan],
    /// What its fields say.
    pub said: Said<'a>,
    ghost says: { Says said head.now fields.now },
}
