ghost use Rattle.std.specs.Prelude.{◌≡◌, IfOk, is_some};
ghost use Rattle.gs_tables.specs.Forms.{characters_of, digits_form, form_at, further_at, key_form, serial_at};
ghost use Rattle.gs_tables.specs.Forms.{serial_room, tail_of};

use gs_ai::{AiTable, Part};
use gs_chars::{List, Memory};
use std::alloc::Global;

/// The form of the value of a key that a kind can have.
#[derive(Clone, Copy)]
pub enum KeyForm {
    /// That many digits and a check digit, with an optional zero at the start, and the part after the check digit.
    Digits(u8, Behind),
    /// 1 to that many characters of the set of 82.
    Characters(u8),
}

/// The part of a key after the check digit.
#[derive(Clone, Copy)]
pub enum Behind {
    /// Nothing.
    Nothing,
    /// A tail, which may be empty.
    Tail(Room),
    /// A piece and a total of that many digits each.
    Further(u8, u8),
}

/// The room that a serial has.
#[derive(Clone, Copy)]
pub enum Room {
    /// At most that many characters of the set of 82.
    Characters(u8),
    /// At most that many digits.
    Digits(u8),
}

/// Returns the form of digits with a check digit, and an optional tail, of characters or of digits.
fn digits_form(parts: &[Part]) -> Option<KeyForm>
    ensures { result ≡ digits_form parts.now }
{
    match parts {
        [Part::NumCheck(k)] => Some(KeyForm::Digits(k.saturating_sub(1), Behind::Nothing)),
        [Part::NumCheck(k), Part::SetOpt(most)] => {
            let tail = Behind::Tail(Room::Characters(*most));
            Some(KeyForm::Digits(k.saturating_sub(1), tail))
        }
        [Part::NumCheck(k), Part::NumOpt(most)] => {
            let tail = Behind::Tail(Room::Digits(*most));
            Some(KeyForm::Digits(k.saturating_sub(1), tail))
        }
        _ => None,
    }
}

/// Returns the form of the parts of a key, if a kind can have them.
pub fn key_form(parts: &[Part]) -> Option<KeyForm>
    ensures { result ≡ key_form parts.now }
{
    match parts {
        [Part::Zero, others @ ..] => digits_form(others),
        [Part::Set(most)] => Some(KeyForm::Characters(*most)),
        [Part::NumCheck(k), Part::Num(a), Part::Num(b)] => {
            Some(KeyForm::Digits(k.saturating_sub(1), Behind::Further(*a, *b)))
        }
        _ => digits_form(parts),
    }
}

/// Returns the form of the key of a code.
pub fn form_at(ais: &AiTable, code: &[u8]) -> Option<KeyForm>
    ensures { result ≡ form_at ais.now code.now }
{
    key_form(ais.row_with(code)?.parts.items())
}

/// Returns the room of a tail, if the key has one.
pub fn tail_of(form: KeyForm) -> Option<Room>
    ensures { result ≡ tail_of form }
{
    match form {
        KeyForm::Digits(_, Behind::Tail(room)) => Some(room),
        KeyForm::Digits(_, Behind::Nothing | Behind::Further(_, _)) | KeyForm::Characters(_) => {
            None
        }
    }
}

/// Returns the numbers of digits of the piece and the total of the key of a code, and nothing of a key without them.
pub fn further_at(alloc: Global, ais: &AiTable, code: &[u8]) -> Result<List<u8>, Memory>
    ensures { IfOk result (λ lengths. lengths ≡ further_at ais.now code.now) }
{
    let mut lengths = Vec::new(alloc);
    if let Some(KeyForm::Digits(_, Behind::Further(a, b))) = form_at(ais, code) {
        lengths.push(a)?;
        lengths.push(b)?;
        return Ok(List::from_vec(lengths));
    }
    Ok(List::from_vec(lengths))
}

/// Returns the most characters of parts that are only characters.
pub fn characters_of(parts: &[Part]) -> Option<u8>
    ensures { result ≡ characters_of parts.now }
{
    match parts {
        [Part::Set(most)] => Some(*most),
        _ => None,
    }
}

/// Returns whether the parts are only characters of the set of 82.
pub fn are_characters(parts: &[Part]) -> bool
    ensures { result ≡ is_some (characters_of parts.now) }
{
    characters_of(parts).is_some()
}

/// Returns the room of the serial, if there is one.
pub fn serial_room(ais: &AiTable, form: KeyForm, serial: &[u8]) -> Option<Room>
    ensures { result ≡ serial_room ais.now form (serial_at serial.now) }
{
    if serial.is_empty() {
        return None;
    }
    if serial == b"tail".as_slice() {
        return tail_of(form);
    }
    let most = characters_of(ais.row_with(serial)?.parts.items())?;
    Some(Room::Characters(most))
}
