ghost use Rattle.std.specs.Prelude.{◌≡◌, ◌-◌, ◌++◌, ◌<◌, ℕ, IfOk, List, Some, drop, length, slice_get, take, slice_index, find, []};
ghost use Rattle.gs_tables_document.specs.declared.document.SerialAt.TheVariants.{Ai};
ghost use Rattle.std.specs.Option.{option_copied, option_map_or};
ghost use Rattle.gs_epc.specs.Layout.{parts_at};
ghost use Rattle.gs_epc.specs.KeyParts.{IsTakenApart, behind_zero, checked_count, digits_in, prefix_in, rest_in, serial_in, tail_in, unless_empty, value_from_prefix};
ghost use Rattle.gs_ai.specs.Values.{has_code};
ghost use Rattle.gs_ai.specs.declared.row.AiRow.{AiRow};

use crate::epc::{Epc, EpcRef};
use crate::error::FieldsFault;
use gs_ai::{AiTable, Part};
use gs_chars::{CowText, Memory, Text};
use gs_ident::{Identity, pair_with};
use gs_tables::{Kind, SerialAt, TableSet, are_characters};
use std::alloc::Global;

/// Returns the first `count` bytes of a value, or all if there are fewer.
fn take_first(value: &[u8], count: usize) -> &[u8]
    ensures { result.now ≡ take count value.now }
{
    &value[..count.min(value.len())]
}

/// Returns the bytes of a value after the first `count`.
pub fn skip_first(value: &[u8], count: usize) -> &[u8]
    ensures { result.now ≡ drop count value.now }
{
    &value[count.min(value.len())..]
}

/// Returns the value after the leading zero, if the parts begin with one.
fn behind_zero<'a>(parts: &[Part], value: &'a [u8]) -> &'a [u8]
    ensures { result.now ≡ behind_zero parts.now value.now }
{
    match parts {
        [Part::Zero, ..] => skip_first(value, 1),
        _ => value,
    }
}

/// Returns the number of digits of the key with its check digit.
fn checked_count(parts: &[Part]) -> usize
    ensures { result ≡ checked_count parts.now }
{
    match parts {
        [Part::Zero, Part::NumCheck(count), ..] => usize::from(*count),
        [Part::NumCheck(count), ..] => usize::from(*count),
        _ => 0,
    }
}

/// Returns the digits of the key without its check digit.
fn digits_in<'a>(parts: &[Part], value: &'a [u8]) -> &'a [u8]
    ensures { result.now ≡ digits_in parts.now value.now }
{
    take_first(
        behind_zero(parts, value),
        checked_count(parts).saturating_sub(1),
    )
}

/// Returns the rest of the key after the check digit.
fn tail_in<'a>(parts: &[Part], value: &'a [u8]) -> &'a [u8]
    ensures { result.now ≡ tail_in parts.now value.now }
{
    skip_first(behind_zero(parts, value), checked_count(parts))
}

/// Returns the number of digits of the piece, by the two lengths of a kind.
fn piece_length(further: &[u8]) -> usize
    ensures { result ≡ slice_index further.now 0 }
{
    match further {
        [piece, ..] => usize::from(*piece),
        [] => 0,
    }
}

/// Returns the number of digits of the total, by the two lengths of a kind.
fn total_length(further: &[u8]) -> usize
    ensures { result ≡ slice_index further.now 1 }
{
    match further {
        [_, total, ..] => usize::from(*total),
        _ => 0,
    }
}

/// Returns the piece: the first of the digits after the check digit.
fn piece_in<'a>(parts: &[Part], further: &[u8], value: &'a [u8]) -> &'a [u8]
    ensures { result.now ≡ take (slice_index further.now 0) (tail_in parts.now value.now) }
{
    take_first(tail_in(parts, value), piece_length(further))
}

/// Returns the total: the digits after the piece.
fn total_in<'a>(parts: &[Part], further: &[u8], value: &'a [u8]) -> &'a [u8]
    ensures { result.now
        ≡ take (slice_index further.now 1) (drop (slice_index further.now 0) (tail_in parts.now value.now)) }
{
    take_first(
        skip_first(tail_in(parts, value), piece_length(further)),
        total_length(further),
    )
}

/// Returns the company prefix.
pub fn prefix_in<'a>(parts: &[Part], lead: u8, gcp: u8, value: &'a [u8]) -> &'a [u8]
    ensures { result.now ≡ prefix_in parts.now lead gcp value.now }
{
    if are_characters(parts) {
        return take_first(value, usize::from(gcp));
    }
    take_first(
        skip_first(digits_in(parts, value), usize::from(lead)),
        usize::from(gcp),
    )
}

/// Returns the two texts joined.
pub fn joined(alloc: Global, first: &[u8], others: &[u8]) -> Result<Text, Memory>
    ensures { IfOk result (λ text. text ≡ first.now ++ others.now) }
{
    let mut text = Text::from_bytes(alloc, first)?;
    text.extend_from_slice(others)?;
    Ok(text)
}

/// Returns the part after the company prefix: the lead digits, and the digits after them.
pub fn rest_in<'a>(parts: &[Part], lead: u8, gcp: u8, value: &'a [u8]) -> (&'a [u8], &'a [u8])
    ensures { result.0.now ++ result.1.now ≡ rest_in parts.now lead gcp value.now }
{
    let gcp = usize::from(gcp);
    if are_characters(parts) {
        return (&[], skip_first(value, gcp));
    }
    let lead = usize::from(lead);
    let digits = digits_in(parts, value);
    (
        take_first(digits, lead),
        skip_first(skip_first(digits, lead), gcp),
    )
}

/// Returns the parts of the key of a code.
pub fn parts_at<'a>(ais: &'a AiTable, code: &[u8]) -> &'a [Part]
    ensures { result.now ≡ parts_at ais.now code.now }
{
    match ais.row_with(code) {
        Some(row) => row.parts.items(),
        None => &[],
    }
}

/// Returns the parts of the key of a kind of the set. Takes no search: the kind is given by its index too.
pub(crate) fn parts_of<'a>(set: &'a TableSet, index: usize, kind: &Kind) -> &'a [Part]
    requires { slice_get set.now.kinds index ≡ Some kind.now }
    ensures { result.now ≡ parts_at set.now.ais kind.now.key }
{
    match set.key_row(index) {
        Some(row) => row.parts.items(),
        None => &[],
    }
}

/// Returns the text that stands for an absent serial of a kind of the set. Takes no search: the kind is given by its index too.
pub(crate) fn none_of<'a>(set: &'a TableSet, index: usize, kind: &Kind) -> &'a [u8]
    requires { slice_get set.now.kinds index ≡ Some kind.now }
    ensures { (code : List ℕ) → kind.now.serial ≡ Ai code
        → result.now ≡ option_map_or (λ (row : AiRow). row.none) (find (has_code code) set.now.ais) [] }
{
    match set.serial_row(index) {
        Some(row) => row.none.as_bytes(),
        None => &[],
    }
}

/// Returns the text, if it is not empty.
fn unless_empty(text: &[u8]) -> Option<&[u8]>
    ensures { option_copied result ≡ unless_empty text.now }
{
    if text.is_empty() { None } else { Some(text) }
}

/// Returns the serial by a kind of the set, if the identity has one or needs none. The kind is given by its index too.
fn serial_in<'a>(
    set: &'a TableSet,
    index: usize,
    kind: &Kind,
    parts: &[Part],
    identity: &'a Identity<'_>,
) -> Option<&'a [u8]>
    requires { slice_get set.now.kinds index ≡ Some kind.now }
    ensures { option_copied result ≡ serial_in set.now.ais parts.now kind.now.serial identity.now }
{
    match &kind.serial {
        SerialAt::Nowhere => Some(&[]),
        SerialAt::Tail => unless_empty(tail_in(parts, identity.key().value.as_bytes())),
        SerialAt::Ai(code) => match pair_with(identity.qualifiers(), code.as_bytes()) {
            Some(pair) => Some(pair.value.as_bytes()),
            None => unless_empty(none_of(set, index, kind)),
        },
    }
}

/// Returns the value of a key of a kind of the set from the company prefix on (TDS 2.0, section 7). A leading zero and the lead
/// digits, if there are any, are left out. The kind is given by its index.
pub fn value_from_prefix<'a>(set: &TableSet, kind: usize, value: &'a [u8]) -> &'a [u8]
    requires { kind < length set.now.kinds }
    ensures { result.now ≡ value_from_prefix set.now kind value.now }
{
    let row = &set.kinds()[kind];
    let parts = parts_of(set, kind, row);
    skip_first(behind_zero(parts, value), usize::from(row.lead))
}

/// Returns the rest of its two parts, which are joined if it has lead digits.
fn rest_of<'a>(alloc: Global, lead: &[u8], behind: &'a [u8]) -> Result<CowText<'a>, Memory>
    ensures { IfOk result (λ rest. rest ≡ lead.now ++ behind.now) }
{
    if lead.is_empty() {
        return Ok(CowText::lent(behind));
    }
    Ok(CowText::from(joined(alloc, lead, behind)?))
}

/// Returns the EPC in owned texts. Each text that is lent is copied.
pub(crate) fn copied(alloc: Global, lent: EpcRef<'_>) -> Result<Epc, Memory>
    ensures { IfOk result (λ epc. epc ≡ lent.entry) }
{
    Ok(Epc {
        kind: lent.kind,
        encoding: Text::from_bytes(alloc, lent.encoding)?,
        filter: lent.filter,
        gcp: lent.gcp,
        prefix: Text::from_bytes(alloc, lent.prefix)?,
        rest: lent.rest.into_text(alloc)?,
        piece: Text::from_bytes(alloc, lent.piece)?,
        total: Text::from_bytes(alloc, lent.total)?,
        serial: Text::from_bytes(alloc, lent.serial)?,
    })
}

/// Returns the fields of an identity by a kind of the set and the company prefix length (TDS 2.0, section 7). The kind is given
/// by its index. The fields are prefix, reference, piece, total and serial, with an empty encoding and no filter value. If the
/// value of the key is too short, so are they. Returns `MissingSerial` if and only if the kind has a serial, the identity has
/// none, and no text means its absence. A rest with lead digits is joined, and the other texts are lent.
pub fn lent_fields_of<'a>(
    alloc: Global,
    set: &'a TableSet,
    kind: usize,
    identity: &'a Identity<'_>,
    gcp: u8,
) -> Result<EpcRef<'a>, FieldsFault>
    requires { kind < length set.now.kinds }
    ensures { IsTakenApart set.now kind identity.now gcp result }
{
    let row = &set.kinds()[kind];
    let parts = parts_of(set, kind, row);
    let Some(serial) = serial_in(set, kind, row, parts, identity) else {
        return Err(FieldsFault::MissingSerial);
    };
    let value = identity.key().value.as_bytes();
    let further = row.further.items();
    let (lead, behind) = rest_in(parts, row.lead, gcp, value);
    Ok(EpcRef {
        kind,
        encoding: &[],
        filter: None,
        gcp,
        prefix: prefix_in(parts, row.lead, gcp, value),
        rest: rest_of(alloc, lead, behind)?,
        piece: piece_in(parts, further, value),
        total: total_in(parts, further, value),
        serial,
    })
}

/// Returns the fields of an identity as `lent_fields_of` does, in owned texts.
pub fn fields_of(
    alloc: Global,
    set: &TableSet,
    kind: usize,
    identity: &Identity<'_>,
    gcp: u8,
) -> Result<Epc, FieldsFault>
    requires { kind < length set.now.kinds }
    ensures { IsTakenApart set.now kind identity.now gcp result }
{
    let lent = lent_fields_of(alloc, set, kind, identity, gcp)?;
    Ok(copied(alloc, lent)?)
}
