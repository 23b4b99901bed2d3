ghost use Rattle.std.specs.Prelude.{◌≡◌, bytes_eq};
ghost use Rattle.std.specs.List.{list_any};
ghost use Rattle.gs_ai.specs.Tables.{is_key};
ghost use Rattle.gs_tables.specs.Forms.{serial_at};
ghost use Rattle.gs_tables.specs.Rules.{are_fields_of, are_piece_and_total, fits_form, fits_key, has_key, has_name, is_characters, is_kind, is_lead, is_new_name, is_serial_of};

use crate::form::{Behind, KeyForm, are_characters, key_form, tail_of};
use gs_ai::{AiRow, AiTable, Role};
use gs_chars::{Text, are_visible};
use gs_tables_document::KindRow;

/// Returns whether a kind has the name.
fn is_named(kinds: &[KindRow], name: &[u8]) -> bool
    ensures { result ≡ list_any (has_name name.now) kinds.now }
{
    kinds.iter().any(|kind| name == kind.name.as_bytes())
}

/// Returns whether a kind has the key.
fn is_keyed(kinds: &[KindRow], key: &[u8]) -> bool
    ensures { result ≡ list_any (has_key key.now) kinds.now }
{
    kinds.iter().any(|kind| key == kind.key.as_bytes())
}

/// Returns whether the name is not empty, is visible, and differs from the earlier ones.
fn is_new_name(earlier: &[KindRow], name: &[u8]) -> bool
    ensures { result ≡ is_new_name earlier.now name.now }
{
    !name.is_empty() && are_visible(name) && !is_named(earlier, name)
}

/// Returns whether that many lead digits fit the form of the key.
fn is_lead(form: KeyForm, lead: u64) -> bool
    ensures { result ≡ is_lead form lead }
{
    match form {
        KeyForm::Digits(_, _) => lead <= 1,
        KeyForm::Characters(_) => lead == 0,
    }
}

/// Returns whether the AI is that of a row of only characters.
fn is_characters(ais: &AiTable, code: &[u8]) -> bool
    ensures { result ≡ is_characters ais.now code.now }
{
    match ais.row_with(code) {
        Some(row) => are_characters(row.parts.items()),
        None => false,
    }
}

/// Returns whether a row lists the code among its qualifiers.
pub fn lists(row: &AiRow, code: &[u8]) -> bool
    ensures { result ≡ list_any (bytes_eq code.now) row.now.qualifiers }
{
    row.qualifiers
        .items()
        .iter()
        .any(|listed| code == listed.as_bytes())
}

/// Returns whether the serial is in the tail if and only if the key has one. Otherwise it must be nowhere, or in a qualifier of
/// the key.
fn is_serial_of(ais: &AiTable, row: &AiRow, form: KeyForm, serial: &[u8]) -> bool
    ensures { result ≡ is_serial_of ais.now row.now form (serial_at serial.now) }
{
    let has_tail = tail_of(form).is_some();
    if serial.is_empty() {
        return !has_tail;
    }
    if serial == b"tail".as_slice() {
        return has_tail;
    }
    !has_tail && lists(row, serial) && is_characters(ais, serial)
}

/// Returns whether these are the names of the two further fields, in their order.
fn are_piece_and_total(fields: &[Text]) -> bool
    ensures { result ≡ are_piece_and_total fields.now }
{
    match fields {
        [piece, total] => {
            piece.as_bytes() == b"piece".as_slice() && total.as_bytes() == b"total".as_slice()
        }
        _ => false,
    }
}

/// Returns whether the further fields are the piece and the total if the key has them, and otherwise none.
fn are_fields_of(form: KeyForm, fields: &[Text]) -> bool
    ensures { result ≡ are_fields_of form fields.now }
{
    match form {
        KeyForm::Digits(_, Behind::Further(_, _)) => are_piece_and_total(fields),
        KeyForm::Digits(_, Behind::Nothing | Behind::Tail(_)) | KeyForm::Characters(_) => {
            fields.is_empty()
        }
    }
}

/// Returns whether the lead digits, the serial and the further fields of the kind fit a key of this form.
fn fits_form(ais: &AiTable, row: &AiRow, kind: &KindRow, form: KeyForm) -> bool
    ensures { result ≡ fits_form ais.now row.now kind.now form }
{
    is_lead(form, kind.lead)
        && is_serial_of(ais, row, form, kind.serial.as_bytes())
        && are_fields_of(form, kind.fields.items())
}

/// Returns whether the row is that of a key.
pub fn is_of_key(row: &AiRow) -> bool
    ensures { result ≡ is_key row.now.role }
{
    matches!(row.role, Role::Key)
}

/// Returns whether the row of the key has a form that a kind can have, which the kind fits.
fn fits_key(ais: &AiTable, row: &AiRow, kind: &KindRow) -> bool
    ensures { result ≡ fits_key ais.now row.now kind.now }
{
    if !is_of_key(row) {
        return false;
    }
    match key_form(row.parts.items()) {
        Some(form) => fits_form(ais, row, kind, form),
        None => false,
    }
}

/// Returns whether the kind satisfies the rules of kinds, given the earlier ones.
#[tactic(auto, unfolding(crate::specs::Rules::is_kind))]
pub(crate) fn is_kind(ais: &AiTable, earlier: &[KindRow], kind: &KindRow) -> bool
    ensures { result ≡ is_kind ais.now earlier.now kind.now }
{
    let key = kind.key.as_bytes();
    if !is_new_name(earlier, kind.name.as_bytes()) || is_keyed(earlier, key) {
        return false;
    }
    match ais.row_with(key) {
        Some(row) => fits_key(ais, row, kind),
        None => false,
    }
}
