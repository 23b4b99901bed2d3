ghost use Rattle.std.specs.Prelude.{◌≡◌, IfOk};
ghost use Rattle.gs_ident.specs.Identities.{IsMadeWith};
ghost use Rattle.gs_epc.specs.Epcs.{value_of};
ghost use Rattle.gs_epc.specs.Layout.{key_digits, lay, with_check};
ghost use Rattle.gs_class.specs.Meanings.{ReadsAs, said_by};
ghost use Rattle.gs_class.specs.MeaningsSupport.{FitsClass};
ghost use Rattle.gs_class.specs.Sets.{IsOfTable, kind_of};

use crate::class_set::{Class, ClassSet};
use crate::error::ClassFault;
use gs_ai::{AiTable, Pair};
use gs_chars::{CowText, Memory, Text};
use gs_epc::{field_place, push_checked};
use gs_grammar_level::{Reading, read_text};
use gs_ident::Identity;
use gs_tables::Field;
use std::alloc::Global;

/// Returns the value of a field, and the empty value if no item has the field.
fn value_of<'a>(field: Field, fields: &[Option<Field>], values: &'a [CowText<'_>]) -> &'a [u8]
    ensures { result.now ≡ value_of field fields.now values.now }
{
    match field_place(field, fields) {
        Some(place) if place < values.len() => values[place].as_bytes(),
        _ => &[],
    }
}

/// Returns the digits of the key that the values say, with their check digit.
fn key_value(
    alloc: Global,
    ais: &AiTable,
    class: &Class,
    values: &[CowText<'_>],
) -> Result<Text, Memory>
    requires { FitsClass ais.now class.now (said_by class.now values.now) }
    ensures { IfOk result (λ value. value ≡ with_check (key_digits class.now.lead
        (said_by class.now values.now).prefix (said_by class.now values.now).rest)) }
{
    // only for the proof: the rows satisfy the rules of application identifiers
    let _ = ais.rows();
    let fields = class.fields.items();
    let mut value = Text::new(alloc);
    push_checked(
        &mut value,
        class.lead,
        value_of(Field::Gcp, fields, values),
        value_of(Field::Rest, fields, values),
    )?;
    Ok(value)
}

/// Returns the identity that the values of the items of a class say.
fn class_identity<'a>(
    alloc: Global,
    ais: &AiTable,
    class: &'a Class,
    values: &[CowText<'_>],
) -> Result<Identity<'a>, Memory>
    requires { FitsClass ais.now class.now (said_by class.now values.now) }
    ensures identity { IfOk result (λ identity. identity
        ≡ lay ais.now (kind_of class.now) (said_by class.now values.now)) }
    ensures with_table { IfOk result (IsMadeWith ais.now) }
{
    // only for the proof: the rows satisfy the rules of application identifiers
    let _ = ais.rows();
    let key = Pair {
        code: CowText::lent(class.key.as_bytes()),
        value: CowText::from(key_value(alloc, ais, class, values)?),
    };
    let lot = value_of(Field::Serial, class.fields.items(), values);
    let element = Pair {
        code: CowText::lent(class.element.as_bytes()),
        value: CowText::from(Text::from_bytes(alloc, lot)?),
    };
    Identity::of_key(alloc, ais, key, Some(element))
}

/// Returns the identity that a text is a class URI of, by the set (TDS 2.0, 'EPC Class URIs'). The key is laid out with its
/// check digit, and the element has the lot. `NoReading` is returned if and only if the text has no derivation by a class of
/// the set. May return `Memory` instead. The set is of the table.
pub fn read_class<'a>(
    alloc: Global,
    set: &'a ClassSet,
    table: &AiTable,
    text: &[u8],
) -> Result<Identity<'a>, ClassFault>
    requires { IsOfTable table.now set.now }
    ensures answer { ReadsAs table.now set.now text.now result }
    ensures with_table { IfOk result (IsMadeWith table.now) }
{
    match read_text(alloc, set.level(), text) {
        Reading::One { option, values } => {
            let class = &set.classes()[option];
            Ok(class_identity(alloc, table, class, values.items())?)
        }
        Reading::Nothing => Err(ClassFault::NoReading),
        Reading::Memory => Err(ClassFault::Memory),
    }
}
