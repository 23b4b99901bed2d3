ghost use Rattle.std.specs.Prelude.{◌≡◌, map, reverse};
ghost use Rattle.std.specs.Char.{to_ascii_lowercase};
ghost use Rattle.std.specs.Iterator.{YieldsFirstRef, item_count};
ghost use Rattle.std.specs.List.{slice_split};
ghost use Rattle.httparse.specs.Grammar.{is_ows, skip_ows, trim_ows};
ghost use Rattle.gs_http.specs.Fields.{has_close, is_close, is_comma, is_word};
ghost use Rattle.gs_http.specs.SaidFields.{members_left};

use gs_chars::place_of;

/// Returns whether the text is the word, which has no capital letters, case-insensitively.
pub(crate) fn is_word(text: &[u8], word: &[u8]) -> bool
    requires { map to_ascii_lowercase word.now ≡ word.now }
    ensures { result ≡ is_word word.now text.now }
{
    text.eq_ignore_ascii_case(word)
}

/// Returns whether a byte is a space or a tab.
fn is_blank(c: u8) -> bool
    ensures { result ≡ is_ows c }
{
    c == b' ' || c == b'\t'
}

/// Returns the text without the spaces and tabs at its start.
fn trim_start(mut text: &[u8]) -> &[u8]
    ensures { result.now ≡ skip_ows text.now }
{
    while let [first, rest @ ..] = text
        && is_blank(*first)
    {
        text = rest;
    }
    text
}

/// Returns the text without the spaces and tabs at its end.
fn trim_end(mut text: &[u8]) -> &[u8]
    ensures { result.now ≡ reverse (skip_ows (reverse text.now)) }
{
    while let [rest @ .., last] = text
        && is_blank(*last)
    {
        text = rest;
    }
    text
}

/// Returns the text without the spaces and tabs at both ends.
#[tactic(auto, unfolding(httparse::specs::Grammar::trim_ows))]
pub(crate) fn trimmed(text: &[u8]) -> &[u8]
    ensures { result.now ≡ trim_ows text.now }
{
    trim_end(trim_start(text))
}

/// Returns whether a part of a value is the word `close`.
fn is_close(part: &[u8]) -> bool
    ensures { result ≡ is_close part.now }
{
    is_word(trimmed(part), b"close")
}

/// The members of a list-valued field (RFC 9110, section 5.6.1): the parts of its value between commas.
#[derive(Drop)]
pub(crate) struct Members<'a> {
    /// The part of the value from the next member on.
    rest: Option<&'a [u8]>,
}

impl<'a> Members<'a> {
    /// Returns the members of a value.
    pub(crate) fn of(value: &'a [u8]) -> Members<'a>
        ensures { members_left result ≡ slice_split is_comma value.now }
    {
        Members { rest: Some(value) }
    }
}

impl<'a> Iterator for Members<'a> {
    type Item = &'a [u8];

    ghost next_gives = { YieldsFirstRef members_left };

    ghost remaining = { item_count members_left };

    fn next(&mut self) -> Option<&'a [u8]> {
        let rest = self.rest?;
        let end = place_of(rest, b',');
        if end == rest.len() {
            self.rest = None;
            return Some(rest);
        }
        self.rest = Some(&rest[end + 1..]);
        Some(&rest[..end])
    }
}

/// Returns whether one of the members is the word `close`.
pub(crate) fn has_close(value: &[u8]) -> bool
    ensures { result ≡ has_close value.now }
{
    Members::of(value).any(|member| is_close(member))
}
