ghost use Rattle.std.specs.Prelude.{◌≡◌, ◌++◌, IfOk, filter, find, true};
ghost use Rattle.std.specs.List.{list_all};
ghost use Rattle.std.specs.Str.{is_utf8};
ghost use Rattle.gs_ident.specs.Elements.{is_coded};
ghost use Rattle.gs_ident.specs.Links.{percent_encoded};
ghost use Rattle.gs_template.specs.Progress.{is_inert};
ghost use Rattle.gs_template.specs.Templates.{bytes_behind, filled, is_delimiter, is_place_byte, part_of, place_size, stands_for, value_of, value_under};

use crate::places::place_size;
use gs_ai::Pair;
use gs_chars::{Memory, Text};
use gs_ident::{Identity, append_escaped, is_coded, pair_with};
use std::alloc::Global;

/// Returns the value of the first pair with a code, or nothing if there is no such pair.
fn value_among<'a>(pairs: &'a [Pair<'_>], code: &[u8]) -> &'a [u8]
    ensures { result.now ≡ value_of (find (is_coded code.now) pairs.now) }
{
    match pair_with(pairs, code) {
        Some(pair) => pair.value.as_bytes(),
        None => b"",
    }
}

/// Returns the value of an identity under a code, and nothing if it has none.
fn value_under<'a>(identity: &'a Identity<'_>, code: &[u8]) -> &'a [u8]
    ensures { result.now ≡ value_under identity.now code.now }
{
    if is_coded(code, identity.key()) {
        return identity.key().value.as_bytes();
    }
    match pair_with(identity.qualifiers(), code) {
        Some(pair) => pair.value.as_bytes(),
        None => value_among(identity.attributes(), code),
    }
}

/// Appends the percent-encoded value.
fn append_value(out: &mut Vec<u8>, value: &[u8]) -> Result<(), Memory>
    ensures text { IfOk result (λ _. out.new.items ≡ out.old.items ++ percent_encoded value.now) }
    ensures inert { list_all is_place_byte (percent_encoded value.now) ≡ true }
{
    append_escaped(out, value)
}

/// Appends the expansion of the part that begins with this byte, and returns the number of its bytes after the first.
fn append_part(
    out: &mut Vec<u8>,
    byte: u8,
    behind: &[u8],
    identity: &Identity<'_>,
) -> Result<usize, Memory>
    ensures further { IfOk result (λ further. further ≡ bytes_behind (place_size byte behind.now)) }
    ensures text { IfOk result (λ _. out.new.items
        ≡ out.old.items ++ stands_for identity.now (part_of byte behind.now (place_size byte behind.now))) }
    ensures inert { IfOk result (λ _.
        is_inert identity.now (part_of byte behind.now (place_size byte behind.now)) ≡ true) }
{
    let size = place_size(byte, behind);
    if size == 0 {
        out.push(byte)?;
        return Ok(0);
    }
    append_value(out, value_under(identity, &behind[..size]))?;
    Ok(size + 1)
}

/// Returns the template with each place `{CODE}` replaced by the identity's value of this AI, escaped as in a Digital Link URI.
/// A place is empty if the identity has no such element. All other bytes are unchanged (RFC 6570, section 3.2.2). A place is an
/// opening brace, 2 to 4 digits and a closing brace. No value adds a delimiter, and a template that is valid UTF-8 expands to
/// valid UTF-8. Fails only with `Memory`.
pub fn expand(alloc: Global, href: &[u8], identity: &Identity<'_>) -> Result<Text, Memory>
    ensures text { IfOk result (λ text. text ≡ filled href.now identity.now) }
    ensures delimiters { IfOk result (λ text. filter is_delimiter text ≡ filter is_delimiter href.now) }
    ensures utf8 { IfOk result (λ text. is_utf8 href.now ≡ true → is_utf8 text ≡ true) }
{
    let mut out = Vec::with_capacity(alloc, href.len())?;
    let mut further = 0;
    for (i, byte) in href.iter().enumerate() {
        if 0 < further {
            further -= 1;
            continue;
        }
        further = append_part(&mut out, *byte, &href[i + 1..], identity)?;
    }
    Ok(Text::from_vec(out))
}
