ghost use Rattle.std.specs.Prelude.{◌≡◌, ◌++◌, IfOk, OnOk, map};
ghost use Rattle.gs_tables_builtin.specs.BuiltIn.{encodings, identities, zeros};
ghost use Rattle.gs_tables_builtin.specs.BuiltInSupport.{encoding_known, encodings_at, identity_known, identity_with, item_known, serial_known};

use crate::encoding::RestForm::{Characters, Digits, InPieces, Number};
use crate::encoding::{
    Encoding, EncodingLine, Identity, ItemLine, Partition, RestForm, SerialLine,
};
use gs_chars::{List, Memory, Text};
use gs_grammar::Item;
use std::alloc::Global;

/// A row of the partition table for each line: the digits of the prefix, its number, and its bits.
macro_rules! partitions {
    ($($digits:literal $number:literal $bits:literal;)*) => {
        [$(Partition { digits: $digits, number: $number, bits: $bits }),*]
    };
}

/// The partition table.
pub(crate) const PARTITIONS: [Partition; 7] = partitions! {
    12 0 40;
    11 1 37;
    10 2 34;
    9 3 30;
    8 4 27;
    7 5 24;
    6 6 20;
};

/// Returns a literal of `n` zeros.
pub(crate) fn zeros(alloc: Global, n: u8) -> Result<Item, Memory>
    ensures { IfOk result (λ item. item ≡ zeros n) }
{
    let bits = Vec::from_elem(alloc, 0u8, usize::from(n))?;
    Ok(Item::Lit(Text::from_vec(bits)))
}

/// Returns the item that a line describes, if there is one.
fn item_of(alloc: Global, line: ItemLine) -> Result<Option<Item>, Memory>
    ensures { IfOk result (λ item. item ≡ item_known line) }
{
    match line {
        ItemLine::Nothing => Ok(None),
        ItemLine::Number(bits, max) => Ok(Some(Item::Num { bits, max })),
        ItemLine::Count(bits, hi) => Ok(Some(Item::NumStr { bits, hi })),
        ItemLine::Characters(hi, bits) => Ok(Some(Item::Ascii7 { lo: 1, hi, bits })),
        ItemLine::Fill(a, b) => Ok(Some(Item::Fill { a, b })),
        ItemLine::Zeros(n) => Ok(Some(zeros(alloc, n)?)),
    }
}

/// Returns the encoding that a line describes.
fn encoding_of(alloc: Global, line: &EncodingLine<'_>) -> Result<Encoding, Memory>
    ensures { IfOk result (λ row. row ≡ encoding_known line.now) }
{
    Ok(Encoding {
        name: Text::from_bytes(alloc, line.name)?,
        kind: Text::from_bytes(alloc, line.kind)?,
        header: line.header,
        width: line.width,
        rest: line.rest,
        serial: item_of(alloc, line.serial)?,
        after: item_of(alloc, line.after)?,
    })
}

/// Appends an encoding for each line.
fn push_encodings(
    alloc: Global,
    rows: &mut Vec<Encoding>,
    lines: &[EncodingLine<'_>],
) -> Result<(), Memory>
    ensures { OnOk result (rows.new.items ≡ rows.old.items ++ map encoding_known lines.now) }
{
    for line in lines {
        rows.push(encoding_of(alloc, line)?)?;
    }
    Ok(())
}

/// A line for each row: name, kind, header, the bits of prefix and rest, the rest, the serial, and the zeros at the end.
macro_rules! lines {
    ($($name:literal $kind:literal $header:literal, $width:literal $rest:expr, $serial:expr, $after:expr;)*) => {
        [$(EncodingLine {
            name: $name,
            kind: $kind,
            header: $header,
            width: $width,
            rest: $rest,
            serial: $serial,
            after: $after,
        }),*]
    };
}

/// Appends the encodings of trade items, logistic units and locations.
#[tactic(auto, unfolding(crate::specs::BuiltIn::encodings))]
fn add_item_encodings(alloc: Global, rows: &mut Vec<Encoding>) -> Result<(), Memory>
    ensures { OnOk result (rows.new.items ≡ rows.old.items ++ encodings_at 0 5) }
{
    push_encodings(
        alloc,
        rows,
        &lines! {
            b"sgtin-96" b"sgtin" 0x30, 44 Digits(13), ItemLine::Number(38, 274_877_906_943), ItemLine::Nothing;
            b"sgtin-198" b"sgtin" 0x36, 44 Digits(13), ItemLine::Characters(20, 140), ItemLine::Fill(2, 10);
            b"sscc-96" b"sscc" 0x31, 58 Digits(17), ItemLine::Nothing, ItemLine::Zeros(24);
            b"sgln-96" b"sgln" 0x32, 41 Digits(12), ItemLine::Number(41, 2_199_023_255_551), ItemLine::Nothing;
            b"sgln-195" b"sgln" 0x39, 41 Digits(12), ItemLine::Characters(20, 140), ItemLine::Fill(5, 13);
        },
    )
}

/// Appends the encodings of assets.
#[tactic(auto, unfolding(crate::specs::BuiltIn::encodings))]
fn add_asset_encodings(alloc: Global, rows: &mut Vec<Encoding>) -> Result<(), Memory>
    ensures { OnOk result (rows.new.items ≡ rows.old.items ++ encodings_at 5 4) }
{
    push_encodings(
        alloc,
        rows,
        &lines! {
            b"grai-96" b"grai" 0x33, 44 Digits(12), ItemLine::Number(38, 274_877_906_943), ItemLine::Nothing;
            b"grai-170" b"grai" 0x37, 44 Digits(12), ItemLine::Characters(16, 112), ItemLine::Fill(6, 6);
            b"giai-96" b"giai" 0x34, 82 Number, ItemLine::Nothing, ItemLine::Nothing;
            b"giai-202" b"giai" 0x38, 188 Characters, ItemLine::Nothing, ItemLine::Fill(6, 6);
        },
    )
}

/// Appends the encodings of documents and services.
#[tactic(auto, unfolding(crate::specs::BuiltIn::encodings))]
fn add_document_encodings(alloc: Global, rows: &mut Vec<Encoding>) -> Result<(), Memory>
    ensures { OnOk result (rows.new.items ≡ rows.old.items ++ encodings_at 9 3) }
{
    push_encodings(
        alloc,
        rows,
        &lines! {
            b"gdti-96" b"gdti" 0x2C, 41 Digits(12), ItemLine::Number(41, 2_199_023_255_551), ItemLine::Nothing;
            b"gdti-174" b"gdti" 0x3E, 41 Digits(12), ItemLine::Characters(17, 119), ItemLine::Fill(2, 2);
            b"gsrn-96" b"gsrn" 0x2D, 58 Digits(17), ItemLine::Nothing, ItemLine::Zeros(24);
        },
    )
}

/// Appends the encodings of coupons, pieces of trade items and service providers.
#[tactic(auto, unfolding(crate::specs::BuiltIn::encodings))]
fn add_further_encodings(alloc: Global, rows: &mut Vec<Encoding>) -> Result<(), Memory>
    ensures { OnOk result (rows.new.items ≡ rows.old.items ++ encodings_at 12 3) }
{
    push_encodings(
        alloc,
        rows,
        &lines! {
            b"sgcn-96" b"sgcn" 0x3F, 41 Digits(12), ItemLine::Count(41, 12), ItemLine::Nothing;
            b"itip-110" b"itip" 0x40, 44 InPieces(13), ItemLine::Number(38, 274_877_906_943), ItemLine::Fill(2, 2);
            b"gsrnp-96" b"gsrnp" 0x2E, 58 Digits(17), ItemLine::Nothing, ItemLine::Zeros(24);
        },
    )
}

/// Appends the encodings, in their order.
#[tactic(auto, unfolding(crate::specs::BuiltIn::encodings))]
fn add_encodings(alloc: Global, rows: &mut Vec<Encoding>) -> Result<(), Memory>
    ensures { OnOk result (rows.new.items ≡ rows.old.items ++ encodings) }
{
    add_item_encodings(alloc, rows)?;
    add_asset_encodings(alloc, rows)?;
    add_document_encodings(alloc, rows)?;
    add_further_encodings(alloc, rows)
}

/// Returns the encodings, in their order.
pub(crate) fn encodings(alloc: Global) -> Result<List<Encoding>, Memory>
    ensures { IfOk result (λ rows. rows ≡ encodings) }
{
    let mut rows = Vec::new(alloc);
    add_encodings(alloc, &mut rows)?;
    Ok(List::from_vec(rows))
}

/// Returns the serial that a line describes, if there is one.
fn serial_of(line: SerialLine) -> Option<Item>
    ensures { result ≡ serial_known line }
{
    match line {
        SerialLine::Nothing => None,
        SerialLine::Characters(hi) => Some(Item::Esc { lo: 1, hi }),
        SerialLine::Digits(hi) => Some(Item::Digits { lo: 1, hi }),
    }
}

/// Returns the pure identity of a kind, with the serial that a line describes.
fn identity_row(
    alloc: Global,
    name: &[u8],
    rest: RestForm,
    serial: SerialLine,
) -> Result<Identity, Memory>
    ensures { IfOk result (λ row. row ≡ identity_with name.now rest serial) }
{
    let name = Text::from_bytes(alloc, name)?;
    let serial = serial_of(serial);
    Ok(Identity { name, rest, serial })
}

/// Returns the pure identities of these lines: the name of each, the reference, and the serial, if there is one.
fn identities_of(
    alloc: Global,
    lines: &[(&[u8], RestForm, SerialLine)],
) -> Result<List<Identity>, Memory>
    ensures { IfOk result (λ rows. rows ≡ map identity_known lines.now) }
{
    let mut rows = Vec::new(alloc);
    for (name, rest, serial) in lines {
        rows.push(identity_row(alloc, name, *rest, *serial)?)?;
    }
    Ok(List::from_vec(rows))
}

/// Returns the pure identities of the kinds, in their order.
#[tactic(auto, unfolding(crate::specs::BuiltIn::identities))]
pub(crate) fn identities(alloc: Global) -> Result<List<Identity>, Memory>
    ensures { IfOk result (λ rows. rows ≡ identities) }
{
    identities_of(
        alloc,
        &[
            (b"sgtin", Digits(13), SerialLine::Characters(20)),
            (b"sscc", Digits(17), SerialLine::Nothing),
            (b"sgln", Digits(12), SerialLine::Characters(20)),
            (b"grai", Digits(12), SerialLine::Characters(16)),
            (b"giai", Characters, SerialLine::Nothing),
            (b"gdti", Digits(12), SerialLine::Characters(17)),
            (b"gsrn", Digits(17), SerialLine::Nothing),
            (b"sgcn", Digits(12), SerialLine::Digits(12)),
            (b"itip", InPieces(13), SerialLine::Characters(20)),
            (b"gsrnp", Digits(17), SerialLine::Nothing),
        ],
    )
}
