ghost use Rattle.std.specs.Prelude.{◌≡◌, IfOk};
ghost use Rattle.percent_encoding.specs.Percent.{percent_decode};
ghost use Rattle.gs_dlink.specs.Values.{IsPlaced, is_short_gtin, padded, pair_answer, are_escapes, begins_hex};
ghost use Rattle.gs_dlink.specs.ValuesSupport.{unescaped, written_of};
ghost use Rattle.gs_chars.specs.Answers.{OrError};

use crate::error::LinkFault;
use gs_ai::{AiTable, ElementFault, ElementWhy, Pair, ValueFault};
use gs_chars::{CowText, Memory, Text, are_digits, place_of};
use percent_encoding::percent_decode;
use std::alloc::Global;

/// A pair of a link, lent by it, with the offset of its code in the whole text. The row of its code is looked up once.
/// Contracts see place, code and value; `IsPlaced` says that the row is that of the code.
#[derive(Clone, Copy)]
pub(crate) struct WrittenPair<'a> {
    pub(crate) at: usize,
    pub(crate) row: Option<usize>,
    pub(crate) code: &'a [u8],
    pub(crate) value: &'a [u8],
}

/// The leading zeros of a GTIN of 8 digits.
const ZEROS: &[u8] = b"000000";

/// Returns whether the text is a GTIN of 8, 12 or 13 digits.
fn is_short_gtin(text: &[u8]) -> bool
    ensures { result ≡ is_short_gtin text.now }
{
    (text.len() == 8 || text.len() == 12 || text.len() == 13) && are_digits(text)
}

/// Returns the text without its escapes (RFC 3986, section 2.1). A percent sign that begins no escape is unchanged. Fails only
/// with `Memory`.
pub fn decoded(alloc: Global, text: &[u8]) -> Result<Text, Memory>
    ensures { IfOk result (λ out. out ≡ percent_decode text.now) }
{
    let mut out = Vec::with_capacity(alloc, text.len())?;
    percent_decode(text).append_to(&mut out)?;
    Ok(Text::from_vec(out))
}

/// Returns the value that the text spells, lent if it has no escapes. `None` is returned if and only if a percent sign begins no
/// escape.
fn unescaped(alloc: Global, text: &[u8]) -> Result<Option<CowText<'_>>, Memory>
    ensures { IfOk result (λ value. value ≡ unescaped text.now) }
{
    if place_of(text, b'%') == text.len() {
        return Ok(Some(CowText::lent(text)));
    }
    if !are_escapes(text) {
        return Ok(None);
    }
    Ok(Some(CowText::from(decoded(alloc, text)?)))
}

/// Returns the value with leading zeros up to 14 digits, if it is a short GTIN and its row allows one.
fn padded<'a>(alloc: Global, short: bool, value: CowText<'a>) -> Result<CowText<'a>, Memory>
    ensures { IfOk result (λ out. out ≡ padded short value.entry) }
{
    if !short || !is_short_gtin(value.as_bytes()) {
        return Ok(value);
    }
    let mut out = Text::from_bytes(alloc, &ZEROS[..14 - value.as_bytes().len()])?;
    out.extend_from_slice(value.as_bytes())?;
    Ok(CowText::from(out))
}

/// Returns the error of a pair at the place of its code.
fn error_of(written: &WrittenPair<'_>, why: ElementWhy) -> LinkFault
    ensures { result ≡ LinkFault.Element (record { at = written.now.at; why = why }) }
{
    LinkFault::Element(ElementFault {
        at: written.at,
        why,
    })
}

/// Returns the pair that is written so, or its first error: `Unknown`, `Escape`, an error of the value.
pub(crate) fn read_pair<'a>(
    alloc: Global,
    table: &AiTable,
    written: &WrittenPair<'a>,
) -> Result<Pair<'a>, LinkFault>
    requires { IsPlaced table.now written.now }
    ensures { OrError LinkFault.Memory result (pair_answer table.now (written_of written.now)) }
{
    let Some(place) = written.row else {
        return Err(error_of(written, ElementWhy::Value(ValueFault::Unknown)));
    };
    let row = &table.rows()[place];
    let Some(value) = unescaped(alloc, written.value)? else {
        return Err(error_of(written, ElementWhy::Escape));
    };
    let value = padded(alloc, row.short, value)?;
    match table.row_value_ok(place, value.as_bytes()) {
        Ok(()) => Ok(Pair {
            code: CowText::lent(written.code),
            value,
        }),
        Err(error) => Err(error_of(written, ElementWhy::Value(error))),
    }
}

/// Returns whether the text begins with two hexadecimal digits.
fn begins_hex(text: &[u8]) -> bool
    ensures { result ≡ begins_hex text.now }
{
    match text {
        [high, low, ..] => high.is_ascii_hexdigit() && low.is_ascii_hexdigit(),
        _ => false,
    }
}

/// Returns whether each percent sign of the text begins an escape.
fn are_escapes(text: &[u8]) -> bool
    ensures { result ≡ are_escapes text.now }
{
    for (i, c) in text.iter().enumerate() {
        if *c == b'%' && !begins_hex(&text[i + 1..]) {
            return false;
        }
    }
    true
}
