ghost use Rattle.std.specs.Prelude.{◌≡◌, ◌++◌, OnErr, OnOk, codes};
ghost use Rattle.gs_chars.specs.Answers.{BeginsWith};
ghost use Rattle.gs_translate.specs.Reasons.{field_text, held_text, hold_text, missing_text};

use crate::form::FieldName;
use crate::words::append_word;
use gs_chars::Memory;
use gs_grammar::Why;
use gs_tables_document::Field;

/// Appends the name of the missing field.
pub(crate) fn append_missing(out: &mut Vec<u8>, name: FieldName) -> Result<(), Memory>
    ensures written { OnOk result (out.new.items ≡ out.old.items ++ (codes "missing " ++ missing_text name)) }
    ensures begun { OnErr result (BeginsWith out.new.items out.old.items) }
{
    match name {
        FieldName::Gcp => append_word(out, b"missing gcp"),
        FieldName::Serial => append_word(out, b"missing serial"),
        FieldName::Filter => append_word(out, b"missing filter"),
    }
}

/// Returns the name of a field.
fn field_name(field: Field) -> &'static [u8]
    ensures { result.now ≡ field_text field }
{
    match field {
        Field::Filter => b"filter",
        Field::Gcp => b"gcp",
        Field::Rest => b"rest",
        Field::Piece => b"piece",
        Field::Total => b"total",
        Field::Serial => b"serial",
    }
}

/// Returns why an item does not hold a value, in one word.
fn why_word(why: Why) -> &'static [u8]
    ensures { result.now ≡ held_text why }
{
    match why {
        Why::Char => b"char",
        Why::Length => b"length",
        Why::Zero => b"zero",
        Why::Large => b"large",
    }
}

/// Appends which field is not held, and why.
pub(crate) fn append_hold(out: &mut Vec<u8>, field: Field, why: Why) -> Result<(), Memory>
    ensures written { OnOk result (out.new.items ≡ out.old.items ++ hold_text field why) }
    ensures begun { OnErr result (BeginsWith out.new.items out.old.items) }
{
    append_word(out, b"hold ")?;
    append_word(out, field_name(field))?;
    append_word(out, b" ")?;
    append_word(out, why_word(why))
}
