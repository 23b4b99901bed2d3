ghost use Rattle.std.specs.Prelude.{◌≡◌, IfSome, position};
ghost use Rattle.gs_tables_document.specs.declared.document.Field.{Field};
ghost use Rattle.gs_tables.specs.Rules.{is_field};
ghost use Rattle.gs_epc.specs.Epcs.{epc_of, value_at, value_of};
ghost use Rattle.gs_epc.specs.FieldTexts.{epc_with, filter_number, key_fields};
ghost use Rattle.gs_epc.specs.Filters.{IsFilter};
ghost use Rattle.gs_epc.specs.Layout.{fields_in};

use crate::epc::EpcRef;
use crate::item_numbers::ItemNumbers;
use gs_chars::CowText;
use gs_tables::{Field, OptInfo};
use std::marker::Model;

/// The fields of a key, each text lent.
#[derive(Drop)]
pub(crate) struct KeyTexts<'a> {
    pub prefix: &'a [u8],
    pub rest: &'a [u8],
    pub piece: &'a [u8],
    pub total: &'a [u8],
    pub serial: &'a [u8],
}

impl<'a> Model for KeyTexts<'a> {
    ghost use Rattle.gs_epc.specs.Layout.{KeyFields};

    ghost Value = { KeyFields };

    ghost view = { λ t. record {
      prefix = t.prefix.now;
      rest = t.rest.now;
      piece = t.piece.now;
      total = t.total.now;
      serial = t.serial.now;
    } };
}

/// Returns the place of the first item that stands for a field.
pub fn field_place(field: Field, fields: &[Option<Field>]) -> Option<usize>
    ensures { result ≡ position (is_field field) fields.now }
{
    fields.iter().position(|named| *named == Some(field))
}

/// Returns the value of a field, and the empty text if no item has the field.
fn value_of<'a>(field: Field, numbers: &ItemNumbers<'_>, values: &'a [CowText<'_>]) -> &'a [u8]
    ensures { result.now ≡ value_of field numbers.now values.now }
{
    match numbers.of(field) {
        Some(place) if place < values.len() => values[place].as_bytes(),
        _ => &[],
    }
}

/// Returns the number of a filter value: its one digit.
pub(crate) fn filter_number(text: &[u8]) -> Option<u8>
    ensures { result ≡ filter_number text.now }
{
    match text {
        [digit, ..] => Some(digit.saturating_sub(b'0')),
        [] => None,
    }
}

/// Returns the EPC of an option by its filter value and the fields of its key, each text lent.
pub(crate) fn epc_with<'a>(info: &'a OptInfo, filter: Option<u8>, texts: KeyTexts<'a>) -> EpcRef<'a>
    ensures { result ≡ epc_with info.now filter texts.entry }
{
    EpcRef {
        kind: info.kind,
        encoding: info.encoding.as_bytes(),
        filter,
        gcp: info.gcp,
        prefix: texts.prefix,
        rest: CowText::lent(texts.rest),
        piece: texts.piece,
        total: texts.total,
        serial: texts.serial,
    }
}

/// Returns the fields of the key that values give by the numbers of items, each text lent.
fn texts_by<'a>(numbers: &ItemNumbers<'_>, values: &'a [CowText<'_>]) -> KeyTexts<'a>
    ensures { result ≡ key_fields numbers.now values.now }
{
    KeyTexts {
        prefix: value_of(Field::Gcp, numbers, values),
        rest: value_of(Field::Rest, numbers, values),
        piece: value_of(Field::Piece, numbers, values),
        total: value_of(Field::Total, numbers, values),
        serial: value_of(Field::Serial, numbers, values),
    }
}

/// Returns the fields of the key that the values of an option's items give, each text lent.
pub(crate) fn key_texts<'a>(info: &OptInfo, values: &'a [CowText<'_>]) -> KeyTexts<'a>
    ensures { result ≡ fields_in (epc_of info.now values.now) }
{
    texts_by(&ItemNumbers::new(info.fields.items()), values)
}

/// Returns the EPC that the values of an option's items give, each text lent.
pub(crate) fn epc_of<'a>(info: &'a OptInfo, values: &'a [CowText<'_>]) -> EpcRef<'a>
    requires { IfSome (value_at Field.Filter info.now.fields values.now) IsFilter }
    ensures { result ≡ epc_of info.now values.now }
{
    let numbers = ItemNumbers::new(info.fields.items());
    let filter = filter_number(value_of(Field::Filter, &numbers, values));
    epc_with(info, filter, texts_by(&numbers, values))
}
