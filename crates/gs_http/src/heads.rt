ghost use Rattle.std.specs.Prelude.{◌≡◌, length, IfSome, MatchOption};
ghost use Rattle.httparse.specs.Grammar.{RequestHead};
ghost use Rattle.httparse.specs.Spans.{IsRequestAt, IsRequestWithin};
ghost use Rattle.gs_http.specs.Heads.{IsWhole, has_bare_line_feed, is_bare_line_feed, is_rejected, most_fields};
ghost use Rattle.gs_http.specs.LentValues.{SaysHead, asked_by};

use crate::request::Request;
use crate::said::Said;
use httparse::Status;
use httparse::spans::{HeaderSpan, RequestSpans, parse_request};

/// The most fields of a head.
pub(crate) const MOST_FIELDS: usize = 64;

/// Returns the places of the parts of a head, if the bytes are exactly a head with at most as many fields as spans.
pub(crate) fn whole_head(head: &[u8], spans: &mut [HeaderSpan]) -> Option<RequestSpans>
    requires { length spans.old ≡ most_fields }
    ensures within { IfSome result (IsRequestWithin head.now spans.new) }
    ensures whole { MatchOption result ((h : RequestHead) → ¬ (IsWhole head.now h))
        (λ parts. (h : RequestHead) × IsWhole head.now h × IsRequestAt head.now spans.new parts h) }
{
    match parse_request(head, spans) {
        Ok(Status::Complete(parts)) => {
            if parts.len == head.len() {
                Some(parts)
            } else {
                None
            }
        }
        _ => None,
    }
}

/// Returns the request whose parts are at these spans.
pub(crate) fn request_at<'a>(
    head: &'a [u8],
    spans: &'a [HeaderSpan],
    parts: RequestSpans,
) -> Request<'a>
    requires { IsRequestWithin head.now spans.now parts }
    ensures says { SaysHead result head.now spans.now parts }
    ensures head { result.head.now ≡ head.now }
{
    let fields = &spans[..parts.headers];
    Request {
        method: parts.method.of(head),
        target: parts.path.of(head),
        minor: parts.version,
        head,
        fields,
        said: Said::of(head, fields),
    }
}

/// Returns whether a byte is a line feed without a carriage return before it.
fn is_bare_line_feed(before: u8, c: u8) -> bool
    ensures { result ≡ is_bare_line_feed (before, c) }
{
    c == b'\n' && before != b'\r'
}

/// Returns whether some line feed has no carriage return before it.
fn has_bare_line_feed(head: &[u8]) -> bool
    ensures { result ≡ has_bare_line_feed head.now }
{
    let mut before = 0;
    for c in head {
        if is_bare_line_feed(before, *c) {
            return true;
        }
        before = *c;
    }
    false
}

/// Returns whether the request is not answered because of a bare line feed or a message body.
#[tactic(auto, unfolding(crate::specs::Heads::is_rejected))]
pub(crate) fn is_rejected(request: &Request<'_>) -> bool
    ensures { result ≡ is_rejected request.now.head.now (asked_by request.now).fields }
{
    has_bare_line_feed(request.head) || request.said.has_body
}
