ghost use Rattle.std.specs.Prelude.{◌≡◌, ◌++◌, [], codes, if◌then◌else◌, IfOk};
ghost use Rattle.std.specs.List.{flat_map};
ghost use Rattle.gs_http.specs.LentValues.{said};
ghost use Rattle.gs_http.specs.Replies.{body_of, close_field, line, own_field, reply_bytes, status_of, type_of};

use crate::answer::Answer;
use crate::documents::LinksetForm;
use gs_chars::{Memory, Text};
use std::alloc::Global;

/// Returns the line with the status code and its phrase.
fn status_line<'b>(answer: &'b Answer<'_>) -> &'b [u8]
    ensures { result.now ≡ line (codes "HTTP/1.1 " ++ status_of (said answer.now)) }
{
    match answer {
        Answer::Description(_) => b"HTTP/1.1 200 OK\r\n",
        Answer::Linkset(_) => b"HTTP/1.1 200 OK\r\n",
        Answer::Choices(_) => b"HTTP/1.1 300 Multiple Choices\r\n",
        Answer::Redirect(_) => b"HTTP/1.1 307 Temporary Redirect\r\n",
        Answer::BadRequest => b"HTTP/1.1 400 Bad Request\r\n",
        Answer::NotFound => b"HTTP/1.1 404 Not Found\r\n",
        Answer::NotAllowed => b"HTTP/1.1 405 Method Not Allowed\r\n",
    }
}

/// Returns the body, which is empty if there is none.
fn body_of<'b>(answer: &'b Answer<'_>) -> &'b [u8]
    ensures { result.now ≡ body_of (said answer.now) }
{
    match answer {
        Answer::Description(text) => text,
        Answer::Linkset(sent) => sent.text.as_bytes(),
        Answer::Choices(text) => text.as_bytes(),
        Answer::Redirect(_) => &[],
        Answer::BadRequest => &[],
        Answer::NotFound => &[],
        Answer::NotAllowed => &[],
    }
}

/// Returns the media type of a linkset in a form.
fn type_of(form: LinksetForm) -> &'static [u8]
    ensures { result.now ≡ type_of form }
{
    match form {
        LinksetForm::Json => b"application/linkset+json",
        LinksetForm::Text => b"application/linkset",
    }
}

/// Returns the field that only this answer has: its name, its value and the end of its line.
fn own_field<'b>(answer: &'b Answer<'_>) -> (&'b [u8], &'b [u8], &'b [u8])
    ensures { result.0.now ++ (result.1.now ++ result.2.now) ≡ own_field (said answer.now) }
{
    match answer {
        Answer::Description(_) => (b"Content-Type: ", b"application/json", b"\r\n"),
        Answer::Linkset(sent) => (b"Content-Type: ", type_of(sent.form), b"\r\n"),
        Answer::Choices(_) => (b"Content-Type: ", b"application/linkset+json", b"\r\n"),
        Answer::Redirect(reference) => (b"Location: ", reference.as_bytes(), b"\r\n"),
        Answer::BadRequest => (b"", b"", b""),
        Answer::NotFound => (b"", b"", b""),
        Answer::NotAllowed => (b"Allow: ", b"GET, HEAD", b"\r\n"),
    }
}

/// Returns the end of the head, with the field that ends the connection, if it ends.
fn head_end(close: bool) -> &'static [u8]
    ensures { result.now ≡ close_field close ++ line [] }
{
    if close {
        b"Connection: close\r\n\r\n"
    } else {
        b"\r\n"
    }
}

/// Returns the content, and nothing if only the head is requested.
fn sent_body(head_only: bool, body: &[u8]) -> &[u8]
    ensures { result.now ≡ (if head_only then [] else body.now) }
{
    if head_only { &[] } else { body }
}

/// Returns the bytes of the parts, one part after another.
fn joined(alloc: Global, parts: &[&[u8]]) -> Result<Text, Memory>
    ensures { IfOk result (λ text. text ≡ flat_map (λ part. part.now) parts.now) }
{
    Ok(Text::from_vec(parts.concat(alloc)?))
}

/// Returns the bytes of a reply, given its length field, the end of its head and the sent part of its content.
fn written<'p>(
    alloc: Global,
    answer: &'p Answer<'_>,
    length: &'p [u8],
    end: &'p [u8],
    body: &'p [u8],
) -> Result<Text, Memory>
    ensures { IfOk result (λ bytes. bytes ≡
        (((line (codes "HTTP/1.1 " ++ status_of (said answer.now)) ++ own_field (said answer.now))
        ++ length.now) ++ end.now) ++ body.now) }
{
    let (name, value, close) = own_field(answer);
    let parts = [status_line(answer), name, value, close, length, end, body];
    joined(alloc, &parts)
}

/// Returns the bytes of a reply.
pub(crate) fn reply_bytes(
    alloc: Global,
    head_only: bool,
    close: bool,
    answer: &Answer<'_>,
) -> Result<Text, Memory>
    ensures { IfOk result (λ bytes. bytes ≡ reply_bytes head_only close (said answer.now)) }
{
    let body = body_of(answer);
    let length = format!(in alloc; "Content-Length: {}\r\n", body.len())?;
    written(
        alloc,
        answer,
        length.as_bytes(),
        head_end(close),
        sent_body(head_only, body),
    )
}

/// The reply to a head.
#[derive(Drop)]
pub struct Reply {
    /// Its bytes.
    pub bytes: Text,
    /// Whether the connection ends with it.
    pub close: bool,
}
