ghost use Rattle.std.specs.Prelude.{◌≡◌, ◌<◌, position};
ghost use Rattle.gs_tables.specs.Rules.{is_field};
ghost use Rattle.gs_epc.specs.NumbersOfItems.{index_of};

use gs_tables::Field;
use std::marker::Model;

/// The number of the first item of each field, found in one pass over the fields. Contracts see the fields.
#[derive(Drop)]
pub(crate) struct ItemNumbers<'a> {
    fields: &'a [Option<Field>],
    // by the index of the field: the number and one more, or 0
    numbers: [usize; 6],
}

impl<'a> Model for ItemNumbers<'a> {
    ghost use Rattle.std.specs.Prelude.{List, Option};
    ghost use Rattle.gs_tables_document.specs.declared.document.Field.{Field};
    ghost use Rattle.gs_epc.specs.NumbersOfItems.{AreNumbersFrom};

    ghost Value = { List (Option Field) };

    ghost view = { λ t. t.fields.now };

    ghost invariant = { λ t. AreNumbersFrom 0 t.fields.now t.numbers };
}

/// Returns the index of a field.
fn index_of(field: Field) -> usize
    ensures index { result ≡ index_of field }
    ensures within { result < 6 }
{
    match field {
        Field::Filter => 0,
        Field::Gcp => 1,
        Field::Rest => 2,
        Field::Piece => 3,
        Field::Total => 4,
        Field::Serial => 5,
    }
}

impl<'a> ItemNumbers<'a> {
    /// Finds the number of the first item of each field.
    pub fn new(fields: &'a [Option<Field>]) -> ItemNumbers<'a>
        ensures { result ≡ fields.now }
    {
        let mut numbers = [0; 6];
        let mut place = fields.len();
        while place > 0 {
            place -= 1;
            if let Some(field) = fields[place] {
                numbers[index_of(field)] = place + 1;
            }
        }
        ItemNumbers { fields, numbers }
    }

    /// Returns the number of the first item that stands for a field.
    pub fn of(&self, field: Field) -> Option<usize>
        ensures { result ≡ position (is_field field) self.now }
    {
        let number = self.numbers[index_of(field)];
        if number == 0 { None } else { Some(number - 1) }
    }
}
