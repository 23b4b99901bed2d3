ghost use Rattle.std.specs.Prelude.{◌≡◌, All, length};
ghost use Rattle.httparse.specs.Spans.{IsHeaderWithin};
ghost use Rattle.gs_http.specs.AcceptedForms.{first_form, form_named, part_form, value_forms};
ghost use Rattle.gs_http.specs.SaidFields.{Adds, Says};

use crate::cuts::before;
use crate::documents::LinksetForm;
use crate::fields::{Members, has_close, is_word, trimmed};
use httparse::spans::HeaderSpan;

/// Returns the form of a linkset that a media type names.
fn form_named(name: &[u8]) -> Option<LinksetForm>
    ensures { result ≡ form_named name.now }
{
    if is_word(name, b"application/linkset+json") {
        return Some(LinksetForm::Json);
    }
    if is_word(name, b"application/linkset") {
        return Some(LinksetForm::Text);
    }
    None
}

/// Returns the form that a part of a value names by the text before its parameters.
fn part_form(part: &[u8]) -> Option<LinksetForm>
    ensures { result ≡ part_form part.now }
{
    form_named(trimmed(before(part, b';')))
}

/// Returns the first form that one of the members of a value names.
fn value_form(value: &[u8]) -> Option<LinksetForm>
    ensures { result ≡ first_form (value_forms value.now) }
{
    for member in Members::of(value) {
        if let Some(form) = part_form(member) {
            return Some(form);
        }
    }
    None
}

/// What the header fields of a request say to its reply.
#[derive(Clone, Copy)]
pub(crate) struct Said<'a> {
    /// Whether there is a message body: a `Transfer-Encoding`, or a `Content-Length` that is not written `0`.
    pub has_body: bool,
    /// Whether the connection ends: `close` is a member of a field `Connection`.
    pub closes: bool,
    /// The form of a linkset that is accepted first (`Accept`).
    pub form: Option<LinksetForm>,
    /// The fields from the first `Accept-Language` on, none if there is no such field.
    pub languages: &'a [HeaderSpan],
}

impl<'a> Said<'a> {
    /// Adds a field by its name and value. `from` has this field and all after it.
    fn add(&mut self, name: &[u8], value: &[u8], from: &'a [HeaderSpan])
        ensures { Adds self.old self.new (name.now, value.now) from.now }
    {
        if is_word(name, b"transfer-encoding") {
            self.has_body = true;
        } else if is_word(name, b"content-length") {
            self.has_body |= value != b"0".as_slice();
        } else if is_word(name, b"connection") {
            self.closes |= has_close(value);
        } else if is_word(name, b"accept") {
            if self.form.is_none() {
                self.form = value_form(value);
            }
        } else if is_word(name, b"accept-language") {
            if self.languages.is_empty() {
                self.languages = from;
            }
        }
    }

    /// Returns what the fields of a head say. Reads each field once.
    pub(crate) fn of(head: &[u8], fields: &'a [HeaderSpan]) -> Said<'a>
        requires { All (IsHeaderWithin (length head.now)) fields.now }
        ensures { Says result head.now fields.now }
    {
        let mut said = Said {
            has_body: false,
            closes: false,
            form: None,
            languages: &[],
        };
        let mut rest = fields;
        while let Some((field, others)) = rest.split_first() {
            said.add(field.name.of(head), field.value.of(head), rest);
            rest = others;
        }
        said
    }
}
