ghost use Rattle.std.specs.Prelude.{◌≡◌, ◌≤◌, ◌++◌, ℕ, IfOk, List, length, Some, slice_get, find, []};
ghost use Rattle.std.specs.Option.{option_copied, option_map_or};
ghost use Rattle.gs_ident.specs.Identities.{IsMadeWith, stands_for_none};
ghost use Rattle.gs_ident.specs.QualifiedKeys.{pairs_in};
ghost use Rattle.gs_epc.specs.Epcs.{IsOfSet};
ghost use Rattle.gs_epc.specs.KeptFields.{FitKind};
ghost use Rattle.gs_epc.specs.Layout.{AreKeyDigits, IsLaidOut, behind_check, key_digits, key_value, lay, parts_at};
ghost use Rattle.gs_epc.specs.Layout.{serial_elements, tail_of_key, with_check, zero_in_front, fields_in};
ghost use Rattle.gs_epc.specs.LayoutSupport.{coded_pairs};
ghost use Rattle.gs_epc.specs.declared.epc.Epc.{Epc};
ghost use Rattle.gs_ai.specs.declared.row.AiRow.{AiRow};
ghost use Rattle.gs_ai.specs.Values.{has_code};

use crate::epc::{Epc, EpcRef, lent};
use crate::key_parts::{joined, none_of, parts_of};
use gs_ai::{Pair, Part};
use gs_chars::{CowText, Memory, Text, check_digit};
use gs_ident::Identity;
use gs_tables::{Kind, SerialAt, TableSet, are_characters};
use std::alloc::Global;

/// Returns the leading zero of the key, if its parts begin with one.
pub(crate) fn zero_in_front(parts: &[Part]) -> &'static [u8]
    ensures { result.now ≡ zero_in_front parts.now }
{
    match parts {
        [Part::Zero, ..] => b"0",
        _ => b"",
    }
}

/// Returns the serial, if it is in the key's own value.
pub(crate) fn tail_of_key<'a>(at: &SerialAt, serial: &'a [u8]) -> &'a [u8]
    ensures { result.now ≡ tail_of_key at.now serial.now }
{
    match at {
        SerialAt::Tail => serial,
        SerialAt::Nowhere | SerialAt::Ai(_) => &[],
    }
}

/// Appends digits one by one. There is usually at most one, for which this takes fewer instructions than appending a slice.
fn push_few(value: &mut Text, digits: &[u8]) -> Result<(), Memory>
    ensures { IfOk result (λ _. value.new ≡ value.old ++ digits.now) }
{
    for digit in digits {
        value.push(*digit)?;
    }
    Ok(())
}

/// Appends the digits of the key: the lead digits of the rest, the prefix, and the other digits of the rest.
fn push_digits(value: &mut Text, lead: u8, prefix: &[u8], rest: &[u8]) -> Result<(), Memory>
    requires { lead ≤ length rest.now }
    ensures { IfOk result (λ _. value.new ≡ value.old ++ key_digits lead prefix.now rest.now) }
{
    let (first, others) = rest.split_at(usize::from(lead));
    push_few(value, first)?;
    value.extend_from_slice(prefix)?;
    value.extend_from_slice(others)?;
    Ok(())
}

/// Appends the digits of a key and their check digit (TDS 2.0, section 7). They are the lead digits of the rest, the company
/// prefix, and the other digits of the rest. Fails only with `Memory`. The digits are 1 to 18, and the lead digits are in the
/// rest.
pub fn push_checked(value: &mut Text, lead: u8, prefix: &[u8], rest: &[u8]) -> Result<(), Memory>
    requires { AreKeyDigits lead prefix.now rest.now }
    ensures { IfOk result (λ _. value.new ≡ value.old ++ with_check (key_digits lead prefix.now rest.now)) }
{
    let start = value.as_bytes().len();
    push_digits(value, lead, prefix, rest)?;
    let check = check_digit(&value.as_bytes()[start..]);
    value.push(check)?;
    Ok(())
}

/// Appends a text that is empty as a rule.
fn push_some(value: &mut Text, text: &[u8]) -> Result<(), Memory>
    ensures { IfOk result (λ _. value.new ≡ value.old ++ text.now) }
{
    if text.is_empty() {
        return Ok(());
    }
    value.extend_from_slice(text)
}

/// Appends the rest after the check digit: the piece and the total, and the serial if it is the tail.
fn push_behind(value: &mut Text, kind: &Kind, epc: &EpcRef<'_>) -> Result<(), Memory>
    ensures { IfOk result (λ _. value.new ≡ value.old ++ behind_check kind.now (fields_in epc.now)) }
{
    push_some(value, epc.piece)?;
    push_some(value, epc.total)?;
    push_some(value, tail_of_key(&kind.serial, epc.serial))?;
    Ok(())
}

/// Returns the value of a key of digits: a leading zero, the digits with their check digit, and the rest after it.
fn digits_value(
    alloc: Global,
    parts: &[Part],
    kind: &Kind,
    epc: &EpcRef<'_>,
) -> Result<Text, Memory>
    requires { AreKeyDigits kind.now.lead epc.now.prefix epc.now.rest }
    ensures { IfOk result (λ value. value ≡ zero_in_front parts.now
        ++ with_check (key_digits kind.now.lead epc.now.prefix epc.now.rest)
        ++ behind_check kind.now (fields_in epc.now)) }
{
    let mut value = Text::new(alloc);
    push_few(&mut value, zero_in_front(parts))?;
    push_checked(&mut value, kind.lead, epc.prefix, epc.rest.as_bytes())?;
    push_behind(&mut value, kind, epc)?;
    Ok(value)
}

/// Returns the value of the key, by the parts of its row.
fn key_value(alloc: Global, set: &TableSet, kind: &Kind, epc: &EpcRef<'_>) -> Result<Text, Memory>
    requires named { slice_get set.now.kinds epc.now.kind ≡ Some kind.now }
    requires fit { FitKind set.now.ais kind.now (fields_in epc.now) }
    ensures { IfOk result (λ value. value
        ≡ key_value (parts_at set.now.ais kind.now.key) kind.now (fields_in epc.now)) }
{
    // only for the proof: the rows satisfy the rules of application identifiers
    let _ = set.ais().rows();
    let parts = parts_of(set, epc.kind, kind);
    if are_characters(parts) {
        return joined(alloc, epc.prefix, epc.rest.as_bytes());
    }
    digits_value(alloc, parts, kind, epc)
}

/// Returns whether the value is the text that means an absent element.
fn stands_for_none(none: &[u8], value: &[u8]) -> bool
    ensures { (ais : List AiRow) (code : List ℕ)
        → none.now ≡ option_map_or (λ (row : AiRow). row.none) (find (has_code code) ais) []
        → result ≡ stands_for_none ais (record { code = code; value = value.now }) }
{
    !none.is_empty() && none == value
}

/// Returns the code of the serial, if it is a separate element and means one. The kind is given by its index too.
pub(crate) fn serial_code<'a>(
    set: &TableSet,
    index: usize,
    kind: &'a Kind,
    serial: &[u8],
) -> Option<&'a [u8]>
    requires { slice_get set.now.kinds index ≡ Some kind.now }
    ensures { coded_pairs (option_copied result) serial.now
        ≡ serial_elements set.now.ais kind.now.serial serial.now }
{
    match &kind.serial {
        SerialAt::Ai(code) => {
            if stands_for_none(none_of(set, index, kind), serial) {
                return None;
            }
            Some(code.as_bytes())
        }
        SerialAt::Nowhere | SerialAt::Tail => None,
    }
}

/// Returns the pair of the serial, if it is a separate element and means one.
fn serial_pair<'a>(set: &TableSet, kind: &'a Kind, epc: &EpcRef<'a>) -> Option<Pair<'a>>
    requires { slice_get set.now.kinds epc.now.kind ≡ Some kind.now }
    ensures { pairs_in result ≡ serial_elements set.now.ais kind.now.serial epc.now.serial }
{
    match serial_code(set, epc.kind, kind, epc.serial) {
        Some(code) => Some(Pair {
            code: CowText::lent(code),
            value: CowText::lent(epc.serial),
        }),
        None => None,
    }
}

/// The pairs that an EPC names: the key, and the serial if it is a separate element that counts.
#[derive(Drop)]
pub struct KeyAndSerial<'a> {
    /// The pair of the key.
    pub key: Pair<'a>,
    /// The pair of the serial, or none.
    pub serial: Option<Pair<'a>>,
}

/// Returns the pair of a key of the kind, and that of its serial.
pub(crate) fn key_and_serial<'a>(
    alloc: Global,
    set: &TableSet,
    kind: &'a Kind,
    epc: &EpcRef<'a>,
) -> Result<KeyAndSerial<'a>, Memory>
    requires named { slice_get set.now.kinds epc.now.kind ≡ Some kind.now }
    requires fit { FitKind set.now.ais kind.now (fields_in epc.now) }
    ensures key { IfOk result (λ pairs. pairs.key ≡ (lay set.now.ais kind.now (fields_in epc.now)).key) }
    ensures serial { IfOk result (λ pairs.
        pairs_in pairs.serial ≡ (lay set.now.ais kind.now (fields_in epc.now)).qualifiers) }
{
    let value = key_value(alloc, set, kind, epc)?;
    Ok(KeyAndSerial {
        key: Pair {
            code: CowText::lent(kind.key.as_bytes()),
            value: CowText::from(value),
        },
        serial: serial_pair(set, kind, epc),
    })
}

/// Returns the pair, if there is one.
fn one_or_none(alloc: Global, pair: Option<Pair<'_>>) -> Result<Vec<Pair<'_>>, Memory>
    ensures { IfOk result (λ pairs. pairs.items ≡ pairs_in pair.entry) }
{
    let Some(pair) = pair else {
        return Ok(Vec::new(alloc));
    };
    let mut pairs = Vec::with_capacity(alloc, 1)?;
    pairs.push(pair)?;
    Ok(pairs)
}

/// Returns the identity of a key of the kind, and of its serial.
pub(crate) fn lay_out<'a>(
    alloc: Global,
    set: &TableSet,
    kind: &'a Kind,
    epc: &EpcRef<'a>,
) -> Result<Identity<'a>, Memory>
    requires named { slice_get set.now.kinds epc.now.kind ≡ Some kind.now }
    requires fit { FitKind set.now.ais kind.now (fields_in epc.now) }
    ensures laid { IfOk result (λ identity. identity ≡ lay set.now.ais kind.now (fields_in epc.now)) }
    ensures with_table { IfOk result (IsMadeWith set.now.ais) }
{
    // only for the proof: the rows satisfy the rules of application identifiers
    let _ = set.ais().rows();
    let KeyAndSerial { key, serial } = key_and_serial(alloc, set, kind, epc)?;
    let qualifiers = one_or_none(alloc, serial)?;
    Ok(Identity::from_pairs(key, qualifiers, Vec::new(alloc)))
}

/// Returns the identity that an EPC of the set names (TDS 2.0, section 7). It is the key of its kind, laid out with its check
/// digit, and its serial. Fails only with `Memory`. The EPC is one that a reading by the set gave; it lends the serial, and the
/// set the codes.
pub fn identity_of<'a>(
    alloc: Global,
    set: &'a TableSet,
    epc: &'a Epc,
) -> Result<Identity<'a>, Memory>
    requires { IsOfSet set.now epc.now }
    ensures laid { IfOk result (IsLaidOut set.now epc.now) }
    ensures with_table { IfOk result (IsMadeWith set.now.ais) }
{
    lay_out(alloc, set, kind_of(set, epc), &lent(epc))
}

/// Returns the kind of an EPC of the set. The EPC's fields fit it.
pub(crate) fn kind_of<'a>(set: &'a TableSet, epc: &Epc) -> &'a Kind
    requires { IsOfSet set.now epc.now }
    ensures named { slice_get set.now.kinds epc.now.kind ≡ Some result.now }
    ensures fit { FitKind set.now.ais result.now (fields_in epc.now) }
{
    &set.kinds()[epc.kind]
}

/// Returns the kind with this index, which is that of an EPC of the set. The EPC's fields fit it.
pub(crate) fn kind_at(set: &TableSet, index: usize) -> &Kind
    requires { (epc : Epc) × IsOfSet set.now epc × (epc.kind ≡ index) }
    ensures named { slice_get set.now.kinds index ≡ Some result.now }
    ensures fit { (epc : Epc) → IsOfSet set.now epc → epc.kind ≡ index
        → FitKind set.now.ais result.now (fields_in epc) }
{
    &set.kinds()[index]
}
