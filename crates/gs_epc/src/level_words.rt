ghost use Rattle.std.specs.Prelude.{◌≡◌, []};
ghost use Rattle.std.specs.List.{slice_index_or};
ghost use Rattle.gs_tables_document.specs.declared.document.Field.{Field};
ghost use Rattle.gs_epc.specs.Epcs.{value_of};
ghost use Rattle.gs_epc.specs.FieldTexts.{filter_number, key_fields};
ghost use Rattle.gs_epc.specs.WordsOfLevels.{words_in};

use crate::fields::{KeyTexts, filter_number};
use crate::item_numbers::ItemNumbers;
use gs_grammar_level::{BitWords, Words};
use gs_tables::Field;

/// Room for the values of the fields of a key. The numbers in the bits of a tag are written to it, each as its digits.
#[derive(Drop)]
pub struct Rooms {
    prefix: [u8; 20],
    rest: [u8; 20],
    piece: [u8; 20],
    total: [u8; 20],
    serial: [u8; 20],
}

impl Rooms {
    /// Makes room for the values of one EPC.
    pub fn new() -> Rooms {
        Rooms {
            prefix: [0; 20],
            rest: [0; 20],
            piece: [0; 20],
            total: [0; 20],
            serial: [0; 20],
        }
    }
}

/// The words of an EPC URI, or of the bits of a tag, by an option of a level.
#[derive(Drop)]
pub(crate) enum LevelWords<'a> {
    /// The words of an EPC URI.
    Text(Words<'a>),
    /// The words of bits.
    Bits(BitWords<'a>),
}

impl LevelWords<'_> {
    /// Returns the number of the option.
    pub fn option(&self) -> usize
        ensures { result ≡ (words_in self.now).option }
    {
        match self {
            LevelWords::Text(words) => words.option(),
            LevelWords::Bits(words) => words.option(),
        }
    }

    /// Returns the value of the item of this number, and an empty text after the last. A number in bits is written to the
    /// room.
    #[inline(always)]
    fn value<'r>(&'r self, number: usize, room: &'r mut [u8; 20]) -> &'r [u8]
        ensures { result.now ≡ slice_index_or (words_in self.now).values number [] }
    {
        match self {
            LevelWords::Text(words) => words.value(number),
            LevelWords::Bits(words) => words.value(number, room),
        }
    }

    /// Returns the value of a field, and the empty text if no item has the field. A value of bits is written to the room.
    #[inline(always)]
    fn value_of<'r>(
        &'r self,
        field: Field,
        numbers: &ItemNumbers<'_>,
        room: &'r mut [u8; 20],
    ) -> &'r [u8]
        ensures { result.now ≡ value_of field numbers.now (words_in self.now).values }
    {
        match numbers.of(field) {
            Some(number) => self.value(number, room),
            None => &[],
        }
    }

    /// Returns the filter value, if an item stands for it: the number of its one digit.
    pub fn filter(&self, numbers: &ItemNumbers<'_>) -> Option<u8>
        ensures { result ≡ filter_number (value_of Field.Filter numbers.now (words_in self.now).values) }
    {
        let mut room = [0; 20];
        filter_number(self.value_of(Field::Filter, numbers, &mut room))
    }

    /// Returns the fields of the key that the words give by the numbers of items. Values of bits are written to the rooms.
    pub fn key_texts<'r>(&'r self, numbers: &ItemNumbers<'_>, rooms: &'r mut Rooms) -> KeyTexts<'r>
        ensures { result ≡ key_fields numbers.now (words_in self.now).values }
    {
        KeyTexts {
            prefix: self.value_of(Field::Gcp, numbers, &mut rooms.prefix),
            rest: self.value_of(Field::Rest, numbers, &mut rooms.rest),
            piece: self.value_of(Field::Piece, numbers, &mut rooms.piece),
            total: self.value_of(Field::Total, numbers, &mut rooms.total),
            serial: self.value_of(Field::Serial, numbers, &mut rooms.serial),
        }
    }
}
