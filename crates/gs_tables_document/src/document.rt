ghost use Rattle.std.specs.Prelude.{◌≡◌};
ghost use Rattle.gs_tables_document.specs.Items.{field_of};
ghost use Rattle.gs_tables_document.specs.Documents.{is_bits};

use gs_ai::AiRow;
use gs_chars::{List, Text};
use gs_grammar::Item;

/// An item, and the field that its value stands for, none for a literal and a fill.
pub type FieldItem = (Option<Field>, Item);

/// A kind of a document, before it is judged.
#[derive(Drop)]
pub struct KindRow {
    /// The name, as written in EPC URIs.
    pub name: Text,
    /// The code of the key.
    pub key: Text,
    /// The number of digits of the key that are before the prefix and go with the rest.
    pub lead: u64,
    /// The place of the serial: the AI of its element, `tail`, or empty for none.
    pub serial: Text,
    /// The names of the further fields, in their order. A document of version 1 has none.
    pub fields: List<Text>,
}

/// An option of a document, before it is judged.
#[derive(Drop)]
pub struct OptionRow {
    /// The name of its kind.
    pub kind: Text,
    /// The name of the encoding, empty on the level of pure identities.
    pub encoding: Text,
    /// The number of digits or characters of the GS1 Company Prefix.
    pub gcp: u64,
    /// The items. One is absent if the document has an item there that is not of the level.
    pub items: List<Option<FieldItem>>,
}

/// The rows of a document, before they are judged.
#[derive(Drop)]
pub struct Document {
    /// The version of the profile.
    pub version: u64,
    /// The application identifiers.
    pub ais: List<AiRow>,
    /// The kinds.
    pub kinds: List<KindRow>,
    /// The options of the bits of tags.
    pub binary: List<OptionRow>,
    /// The options of tag URIs.
    pub tag: List<OptionRow>,
    /// The options of pure identity URIs.
    pub pure: List<OptionRow>,
}

/// The place of the serial of a kind of key.
#[derive(Drop)]
pub enum SerialAt {
    /// The kind has none.
    Nowhere,
    /// At the end of the key's value.
    Tail,
    /// In a separate element with this AI.
    Ai(Text),
}

/// A kind of EPC: a key of the application identifiers, and how its value is taken apart.
pub struct Kind {
    /// The name, as written in EPC URIs.
    pub name: Text,
    /// The code of the key.
    pub key: Text,
    /// The number of digits of the key, 0 or 1, that are before the prefix and go with the rest.
    pub lead: u8,
    /// The place of the serial.
    pub serial: SerialAt,
    /// The numbers of digits of the piece and the total, which follow the check digit; empty for a kind without them.
    pub further: List<u8>,
}

// by hand, so that a function that drops a kind calls this: a derived drop is written out at each of its exits
impl Drop for Kind {
    fn drop(self) {
        let Kind {
            name: _,
            key: _,
            lead: _,
            serial: _,
            further: _,
        } = self;
    }
}

/// The meaning of the value of an item.
#[derive(Clone, Copy, Debug, PartialEq, Eq)]
pub enum Field {
    /// The filter value of a tag.
    Filter,
    /// The GS1 Company Prefix.
    Gcp,
    /// The digits or characters of the key after the company prefix.
    Rest,
    /// The number of the piece, if the key has pieces.
    Piece,
    /// The number of pieces.
    Total,
    /// The serial.
    Serial,
}

impl Field {
    /// Returns the field that is written so.
    pub(crate) fn read(text: &[u8]) -> Option<Field>
        ensures { result ≡ field_of text.now }
    {
        if text == b"filter".as_slice() {
            Some(Field::Filter)
        } else if text == b"gcp".as_slice() {
            Some(Field::Gcp)
        } else if text == b"rest".as_slice() {
            Some(Field::Rest)
        } else if text == b"serial".as_slice() {
            Some(Field::Serial)
        } else if text == b"piece".as_slice() {
            Some(Field::Piece)
        } else if text == b"total".as_slice() {
            Some(Field::Total)
        } else {
            None
        }
    }
}

/// A level of a table set: a form in which the tags and EPC URIs of all kinds are written (TDT 2.0, section 3).
#[derive(Clone, Copy, Debug, PartialEq)]
pub enum LevelName {
    /// The bits of a tag.
    Binary,
    /// EPC tag URIs.
    Tag,
    /// EPC pure identity URIs.
    Pure,
}

impl LevelName {
    /// Returns whether the symbols of the level are bits.
    pub fn is_bits(self) -> bool
        ensures { result ≡ is_bits self }
    {
        match self {
            LevelName::Binary => true,
            LevelName::Tag | LevelName::Pure => false,
        }
    }
}

/// The facts that a table set has about an option, apart from its items.
#[derive(Drop)]
pub struct OptInfo {
    /// The index of its kind.
    pub kind: usize,
    /// The name of the encoding, empty on the level of pure identities.
    pub encoding: Text,
    /// The number of digits or characters of the GS1 Company Prefix, 1 to 12.
    pub gcp: u8,
    /// The field of each item, none for literals and fills.
    pub fields: List<Option<Field>>,
}

/// The most rows of application identifiers, and the most options of a level.
pub const MOST_ROWS: usize = 256;

/// The most kinds.
pub const MOST_KINDS: usize = 64;

/// The most items of an option.
pub const MOST_ITEMS: usize = 24;
