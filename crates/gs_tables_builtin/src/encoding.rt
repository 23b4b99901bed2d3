use gs_chars::Text;
use gs_grammar::Item;

/// A length of the company prefix: its digits, its number in the partition table, and its bits.
#[derive(Clone, Copy)]
pub struct Partition {
    pub digits: u8,
    pub number: u8,
    pub bits: u8,
}

/// The part of a key after the company prefix. It is the remaining digits without the check digit, optionally followed by a
/// piece and a total of two digits each; a number; or characters.
#[derive(Clone, Copy)]
pub enum RestForm {
    Digits(u8),
    InPieces(u8),
    Number,
    Characters,
}

/// An encoding of a kind: its header, the bits of prefix and rest together, the rest, the serial, and the zeros at the end.
#[derive(Drop)]
pub struct Encoding {
    pub name: Text,
    pub kind: Text,
    pub header: u8,
    pub width: u8,
    pub rest: RestForm,
    pub serial: Option<Item>,
    pub after: Option<Item>,
}

/// The pure identity of a kind: its name, the rest, and the serial.
#[derive(Drop)]
pub struct Identity {
    pub name: Text,
    pub rest: RestForm,
    pub serial: Option<Item>,
}

/// An item, or none, written in a line.
#[derive(Clone, Copy)]
pub(crate) enum ItemLine {
    /// No item.
    Nothing,
    /// A number in that many bits, and the greatest.
    Number(u8, u64),
    /// At least one digit, at most the second number, in bits of the first number.
    Count(u8, u8),
    /// At least one character, at most the first number, in bits of the second number.
    Characters(u8, u16),
    /// Zeros of one of these two lengths.
    Fill(u8, u8),
    /// Zeros of this length.
    Zeros(u8),
}

/// The serial of a pure identity, or none, written in a line.
#[derive(Clone, Copy)]
pub(crate) enum SerialLine {
    /// No serial.
    Nothing,
    /// At least one character, at most that many.
    Characters(u8),
    /// At least one digit, at most that many.
    Digits(u8),
}

/// An encoding, written in a line.
#[derive(Clone, Copy)]
pub(crate) struct EncodingLine<'a> {
    pub name: &'a [u8],
    pub kind: &'a [u8],
    pub header: u8,
    pub width: u8,
    pub rest: RestForm,
    pub serial: ItemLine,
    pub after: ItemLine,
}
