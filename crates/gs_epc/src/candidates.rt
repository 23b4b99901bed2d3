ghost use Rattle.std.specs.Prelude.{◌≡◌, [], IfOk, decimal, map};
ghost use Rattle.std.specs.List.{list_any};
ghost use Rattle.std.specs.Option.{option_map_or};
ghost use Rattle.gs_tables.specs.Rules.{is_field};
ghost use Rattle.gs_epc.specs.Candidates.{HasFilter, HasFilterOn, filter_text, is_asked, is_left_out, left_out, value_for};

use crate::epc::EpcRef;
use gs_chars::{CowText, Memory};
use gs_tables::{Field, LevelName};
use std::alloc::Global;

/// The texts of the filter values.
const DIGITS: &[u8] = b"01234567";

/// Returns whether the name of an encoding is the requested one.
pub(crate) fn is_asked(level: LevelName, asked: &[u8], name: &[u8]) -> bool
    ensures { result ≡ is_asked level asked.now name.now }
{
    match level {
        LevelName::Pure => true,
        LevelName::Binary | LevelName::Tag => asked.is_empty() || asked == name,
    }
}

/// Returns the text of a filter value.
fn filter_digit(filter: Option<u8>) -> &'static [u8]
    requires { HasFilter filter }
    ensures { result.now ≡ option_map_or decimal filter [] }
{
    match filter {
        Some(filter) => &DIGITS[usize::from(filter)..][..1],
        None => unreachable!(),
    }
}

/// Returns the text of the filter value, empty on the level of pure identities.
fn filter_text(level: LevelName, filter: Option<u8>) -> &'static [u8]
    requires { HasFilterOn level filter }
    ensures { result.now ≡ filter_text level filter }
{
    match level {
        LevelName::Pure => &[],
        LevelName::Tag => filter_digit(filter),
        LevelName::Binary => filter_digit(filter),
    }
}

/// Returns the value of the items that stand for a field.
fn value_for<'a>(epc: &'a EpcRef<'_>, filter: &'static [u8], field: Option<Field>) -> CowText<'a>
    ensures { (level : LevelName) → filter.now ≡ filter_text level epc.now.filter
        → result ≡ value_for level epc.now field }
{
    let text: &[u8] = match field {
        None => &[],
        Some(Field::Filter) => filter,
        Some(Field::Gcp) => epc.prefix,
        Some(Field::Rest) => epc.rest.as_bytes(),
        Some(Field::Piece) => epc.piece,
        Some(Field::Total) => epc.total,
        Some(Field::Serial) => epc.serial,
    };
    CowText::lent(text)
}

/// Returns the values of the items that stand for these fields.
pub(crate) fn values_for<'a>(
    alloc: Global,
    level: LevelName,
    epc: &'a EpcRef<'_>,
    fields: &[Option<Field>],
) -> Result<Vec<CowText<'a>>, Memory>
    requires { HasFilterOn level epc.now.filter }
    ensures { IfOk result (λ values. values.items ≡ map (value_for level epc.now) fields.now) }
{
    let filter = filter_text(level, epc.filter);
    let mut values = Vec::with_capacity(alloc, fields.len())?;
    for field in fields {
        values.push(value_for(epc, filter, *field))?;
    }
    Ok(values)
}

/// Returns whether an item stands for the field.
fn has_item(field: Field, fields: &[Option<Field>]) -> bool
    ensures { result ≡ list_any (is_field field) fields.now }
{
    for at in fields {
        if *at == Some(field) {
            return true;
        }
    }
    false
}

/// Returns whether a text is not empty, and no item stands for its field.
fn is_left_out(field: Field, fields: &[Option<Field>], text: &[u8]) -> bool
    ensures { result ≡ is_left_out field fields.now text.now }
{
    // an empty text is never left out, and then the items need no look
    !text.is_empty() && !has_item(field, fields)
}

/// Returns the first of the rest, the piece, the total and the serial that an option leaves out.
pub(crate) fn left_out(fields: &[Option<Field>], epc: &EpcRef<'_>) -> Option<Field>
    ensures { result ≡ left_out fields.now epc.now }
{
    if is_left_out(Field::Rest, fields, epc.rest.as_bytes()) {
        return Some(Field::Rest);
    }
    if is_left_out(Field::Piece, fields, epc.piece) {
        return Some(Field::Piece);
    }
    if is_left_out(Field::Total, fields, epc.total) {
        return Some(Field::Total);
    }
    if is_left_out(Field::Serial, fields, epc.serial) {
        Some(Field::Serial)
    } else {
        None
    }
}
