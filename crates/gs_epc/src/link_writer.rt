ghost use Rattle.std.specs.Prelude.{◌≡◌, ◌≤◌, ◌++◌, IfOk, OnErr, Some, length, slice_get};
ghost use Rattle.std.specs.List.{flat_map};
ghost use Rattle.gs_chars.specs.Answers.{BeginsWith};
ghost use Rattle.gs_ident.specs.Links.{path_step, percent_encoded, spelled};
ghost use Rattle.gs_epc.specs.KeptFields.{FitKind};
ghost use Rattle.gs_epc.specs.Layout.{AreKeyDigits, behind_check, key_digits, key_value, lay, parts_at};
ghost use Rattle.gs_epc.specs.Layout.{serial_elements, with_check, zero_in_front};

use crate::fields::KeyTexts;
use crate::key_parts::parts_of;
use crate::layout::{serial_code, tail_of_key, zero_in_front};
use gs_ai::Part;
use gs_chars::{Memory, check_digit};
use gs_ident::{append_element, append_escaped};
use gs_tables::{Kind, TableSet, are_characters};

/// Appends digits, usually one, for which a push takes fewer instructions than appending a slice.
fn append_few(out: &mut Vec<u8>, digits: &[u8]) -> Result<(), Memory>
    ensures written { IfOk result (λ _. out.new.items ≡ out.old.items ++ digits.now) }
    ensures begun { OnErr result (BeginsWith out.new.items out.old.items) }
{
    match digits {
        [] => Ok(()),
        [digit] => Ok(out.push(*digit)?),
        _ => Ok(out.extend_from_slice(digits)?),
    }
}

/// Appends the digits of the key: the lead digits of the rest, the prefix, and the other digits of the rest.
fn append_digits(out: &mut Vec<u8>, lead: u8, prefix: &[u8], rest: &[u8]) -> Result<(), Memory>
    requires { lead ≤ length rest.now }
    ensures written { IfOk result (λ _. out.new.items
        ≡ out.old.items ++ key_digits lead prefix.now rest.now) }
    ensures begun { OnErr result (BeginsWith out.new.items out.old.items) }
{
    let (first, others) = rest.split_at(usize::from(lead));
    append_few(out, first)?;
    out.extend_from_slice(prefix)?;
    Ok(out.extend_from_slice(others)?)
}

/// Appends the digits of a key and their check digit, as `push_checked` does.
fn append_checked(out: &mut Vec<u8>, lead: u8, prefix: &[u8], rest: &[u8]) -> Result<(), Memory>
    requires { AreKeyDigits lead prefix.now rest.now }
    ensures written { IfOk result (λ _. out.new.items
        ≡ out.old.items ++ with_check (key_digits lead prefix.now rest.now)) }
    ensures begun { OnErr result (BeginsWith out.new.items out.old.items) }
{
    let start = out.len();
    append_digits(out, lead, prefix, rest)?;
    let check = check_digit(&out.as_slice()[start..]);
    Ok(out.push(check)?)
}

/// Appends a value with its escapes that is empty as a rule.
fn append_some(out: &mut Vec<u8>, value: &[u8]) -> Result<(), Memory>
    ensures written { IfOk result (λ _. out.new.items ≡ out.old.items ++ percent_encoded value.now) }
    ensures begun { OnErr result (BeginsWith out.new.items out.old.items) }
{
    if value.is_empty() {
        return Ok(());
    }
    append_escaped(out, value)
}

/// Appends the rest after the check digit with its escapes: the piece and the total, and the serial if it is the tail.
fn append_behind(out: &mut Vec<u8>, kind: &Kind, fields: &KeyTexts<'_>) -> Result<(), Memory>
    ensures written { IfOk result (λ _. out.new.items
        ≡ out.old.items ++ percent_encoded (behind_check kind.now fields.now)) }
    ensures begun { OnErr result (BeginsWith out.new.items out.old.items) }
{
    append_some(out, fields.piece)?;
    append_some(out, fields.total)?;
    append_some(out, tail_of_key(&kind.serial, fields.serial))
}

/// Appends the value of a key of digits. Digits have no escapes.
fn append_digits_value(
    out: &mut Vec<u8>,
    parts: &[Part],
    kind: &Kind,
    fields: &KeyTexts<'_>,
) -> Result<(), Memory>
    requires { AreKeyDigits kind.now.lead fields.now.prefix fields.now.rest }
    ensures written { IfOk result (λ _. out.new.items ≡ out.old.items ++ percent_encoded
        (zero_in_front parts.now ++ with_check (key_digits kind.now.lead fields.now.prefix fields.now.rest)
        ++ behind_check kind.now fields.now)) }
    ensures begun { OnErr result (BeginsWith out.new.items out.old.items) }
{
    append_few(out, zero_in_front(parts))?;
    append_checked(out, kind.lead, fields.prefix, fields.rest)?;
    append_behind(out, kind, fields)
}

/// Appends the value of the key with its escapes, by the parts of its row. The kind is given by its index too.
fn append_value(
    set: &TableSet,
    index: usize,
    kind: &Kind,
    fields: &KeyTexts<'_>,
    out: &mut Vec<u8>,
) -> Result<(), Memory>
    requires named { slice_get set.now.kinds index ≡ Some kind.now }
    requires fit { FitKind set.now.ais kind.now fields.now }
    ensures written { IfOk result (λ _. out.new.items ≡ out.old.items
        ++ percent_encoded (key_value (parts_at set.now.ais kind.now.key) kind.now fields.now)) }
    ensures begun { OnErr result (BeginsWith out.new.items out.old.items) }
{
    // only for the proof: the rows satisfy the rules of application identifiers
    let _ = set.ais().rows();
    let parts = parts_of(set, index, kind);
    if are_characters(parts) {
        append_escaped(out, fields.prefix)?;
        return append_escaped(out, fields.rest);
    }
    append_digits_value(out, parts, kind, fields)
}

/// Appends the step of the path of a link for the key, of which `append_value` appends the value.
fn append_key(
    set: &TableSet,
    index: usize,
    kind: &Kind,
    fields: &KeyTexts<'_>,
    out: &mut Vec<u8>,
) -> Result<(), Memory>
    requires named { slice_get set.now.kinds index ≡ Some kind.now }
    requires fit { FitKind set.now.ais kind.now fields.now }
    ensures written { IfOk result (λ _. out.new.items
        ≡ out.old.items ++ path_step (lay set.now.ais kind.now fields.now).key) }
    ensures begun { OnErr result (BeginsWith out.new.items out.old.items) }
{
    out.push(b'/')?;
    out.extend_from_slice(kind.key.as_bytes())?;
    out.push(b'/')?;
    append_value(set, index, kind, fields, out)
}

/// Appends a serial as a step of the path of a link, if it is a separate element and means one.
fn append_serial(
    set: &TableSet,
    index: usize,
    kind: &Kind,
    serial: &[u8],
    out: &mut Vec<u8>,
) -> Result<(), Memory>
    requires { slice_get set.now.kinds index ≡ Some kind.now }
    ensures written { IfOk result (λ _. out.new.items
        ≡ out.old.items ++ flat_map path_step (serial_elements set.now.ais kind.now.serial serial.now)) }
    ensures begun { OnErr result (BeginsWith out.new.items out.old.items) }
{
    match serial_code(set, index, kind, serial) {
        Some(code) => append_element(out, b'/', code, serial, b'/'),
        None => Ok(()),
    }
}

/// Appends the link under the stem of a key of the kind, and of its serial. Each part goes straight to `out`. The kind is given
/// by its index too.
pub(crate) fn append_laid_out(
    set: &TableSet,
    index: usize,
    kind: &Kind,
    fields: &KeyTexts<'_>,
    stem: &[u8],
    out: &mut Vec<u8>,
) -> Result<(), Memory>
    requires named { slice_get set.now.kinds index ≡ Some kind.now }
    requires fit { FitKind set.now.ais kind.now fields.now }
    ensures written { IfOk result (λ _. out.new.items
        ≡ out.old.items ++ spelled stem.now (lay set.now.ais kind.now fields.now)) }
    ensures begun { OnErr result (BeginsWith out.new.items out.old.items) }
{
    out.extend_from_slice(stem)?;
    append_key(set, index, kind, fields, out)?;
    append_serial(set, index, kind, fields.serial, out)
}
