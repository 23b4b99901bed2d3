ghost use Rattle.std.specs.Prelude.{◌≡◌, ◌≤◌, ◌-◌, ◌^◌, ◌∷◌, ◌++◌, IfOk, IsTrue, OnOk, Some, codes, map, option_to_list};
ghost use Rattle.std.specs.List.{flat_map};
ghost use Rattle.gs_bits.specs.Bits.{bits_of};
ghost use Rattle.gs_grammar.specs.declared.item.Item.TheVariants.{Lit};
ghost use Rattle.gs_tables_builtin.specs.BuiltIn.{behind_prefix, binary_items, dotted, in_text, in_text_too, of_field, pieces_in_bits, pieces_in_text, pure_items, rest_in_bits, tag_items};
ghost use Rattle.gs_tables_builtin.specs.BuiltInSupport.{Gains, binary_head, binary_tail, rest_fits, tag_head, tag_tail};

use crate::builtin_encodings::zeros;
use crate::encoding::{Encoding, Identity, Partition, RestForm};
use gs_chars::{List, Memory, Text};
use gs_grammar::Item;
use gs_tables_document::{Field, FieldItem};
use std::alloc::Global;

/// Appends an item of a field, or of none.
fn push_item(
    items: &mut Vec<Option<FieldItem>>,
    field: Option<Field>,
    item: Item,
) -> Result<(), Memory>
    ensures { OnOk result (Gains items.old.items items.new.items (Some (field, item))) }
{
    items.push(Some((field, item)))?;
    Ok(())
}

/// Appends a literal of the lowest `width` bits of a number, the highest first.
#[tactic(auto, unfolding(gs_bits::specs::Bits::bits_of))]
fn add_bits(
    alloc: Global,
    items: &mut Vec<Option<FieldItem>>,
    width: u8,
    number: u8,
) -> Result<(), Memory>
    requires { width ≤ 8 }
    ensures { OnOk result (Gains items.old.items items.new.items (Some (None, Lit (bits_of width number)))) }
{
    let mut bits = Vec::new(alloc);
    let mut left = width;
    while left > 0 {
        left -= 1;
        bits.push(number >> left & 1)?;
    }
    push_item(items, None, Item::Lit(Text::from_vec(bits)))
}

/// Appends a literal of the text.
fn add_literal(alloc: Global, items: &mut Vec<Option<FieldItem>>, text: &[u8]) -> Result<(), Memory>
    ensures { OnOk result (Gains items.old.items items.new.items (Some (None, Lit text.now))) }
{
    let text = Text::from_bytes(alloc, text)?;
    push_item(items, None, Item::Lit(text))
}

/// Appends a text, a name and a colon.
fn extend_with_name(text: &mut Vec<u8>, beginning: &[u8], name: &Text) -> Result<(), Memory>
    ensures { OnOk result (text.new.items ≡ text.old.items ++ beginning.now ++ name.now ++ codes ":") }
{
    text.extend_from_slice(beginning)?;
    text.extend_from_slice(name.as_bytes())?;
    text.extend_from_slice(b":")?;
    Ok(())
}

/// Appends a literal of a URI's beginning up to the name, and the name and a colon.
fn add_beginning(
    alloc: Global,
    items: &mut Vec<Option<FieldItem>>,
    beginning: &[u8],
    name: &Text,
) -> Result<(), Memory>
    ensures { OnOk result (Gains items.old.items items.new.items
        (Some (None, Lit (beginning.now ++ name.now ++ codes ":")))) }
{
    let mut text = Vec::new(alloc);
    extend_with_name(&mut text, beginning, name)?;
    push_item(items, None, Item::Lit(Text::from_vec(text)))
}

/// Returns the greatest number of that many bits.
fn greatest_of(bits: u8) -> u64
    requires { bits ≤ 64 }
    ensures { result ≡ 2 ^ bits - 1 }
{
    if bits == 64 {
        u64::MAX
    } else {
        (1 << bits) - 1
    }
}

/// Returns the reference for a company prefix of `digits` digits, in `bits` bits.
fn rest_in_bits(alloc: Global, rest: RestForm, digits: u8, bits: u8) -> Result<FieldItem, Memory>
    requires { IsTrue (rest_fits rest bits) }
    ensures { IfOk result (λ item. item ≡ rest_in_bits rest digits bits) }
{
    match rest {
        RestForm::Digits(all) | RestForm::InPieces(all) => {
            let n = all.saturating_sub(digits);
            if n == 0 {
                Ok((None, zeros(alloc, bits)?))
            } else {
                Ok((Some(Field::Rest), Item::NumPad { bits, n }))
            }
        }
        RestForm::Number => {
            let max = greatest_of(bits);
            Ok((Some(Field::Rest), Item::Num { bits, max }))
        }
        RestForm::Characters => {
            let hi = 30u8.saturating_sub(digits);
            let bits = u16::from(bits);
            Ok((Some(Field::Rest), Item::Ascii7 { lo: 1, hi, bits }))
        }
    }
}

/// Returns the item of a text level for one of a bit level.
fn in_text(item: Item) -> Item
    ensures { result ≡ in_text item }
{
    match item {
        Item::NumPad { bits: _, n } => Item::Pad { n },
        Item::Num { bits: _, max } => Item::Int { max },
        Item::NumStr { bits: _, hi } => Item::Digits { lo: 1, hi },
        Item::Ascii7 { lo, hi, bits: _ } => Item::Esc { lo, hi },
        other => other,
    }
}

/// Returns a copy of the item.
fn copy_of(alloc: Global, item: &Item) -> Result<Item, Memory>
    ensures { IfOk result (λ copy. copy ≡ item.now) }
{
    Ok(match item {
        Item::Lit(text) => Item::Lit(text.copy(alloc)?),
        Item::Pad { n } => Item::Pad { n: *n },
        Item::Digits { lo, hi } => Item::Digits { lo: *lo, hi: *hi },
        Item::Int { max } => Item::Int { max: *max },
        Item::Esc { lo, hi } => Item::Esc { lo: *lo, hi: *hi },
        Item::NumPad { bits, n } => Item::NumPad { bits: *bits, n: *n },
        Item::Num { bits, max } => Item::Num {
            bits: *bits,
            max: *max,
        },
        Item::NumStr { bits, hi } => Item::NumStr {
            bits: *bits,
            hi: *hi,
        },
        Item::Ascii7 { lo, hi, bits } => Item::Ascii7 {
            lo: *lo,
            hi: *hi,
            bits: *bits,
        },
        Item::Fill { a, b } => Item::Fill { a: *a, b: *b },
    })
}

/// Returns a copy of the item that there may be.
fn copy_of_some(alloc: Global, item: &Option<Item>) -> Result<Option<Item>, Memory>
    ensures { IfOk result (λ copy. copy ≡ item.now) }
{
    match item {
        Some(item) => Ok(Some(copy_of(alloc, item)?)),
        None => Ok(None),
    }
}

/// Appends an item, if there is one.
fn add(
    items: &mut Vec<Option<FieldItem>>,
    field: Option<Field>,
    item: Option<Item>,
) -> Result<(), Memory>
    ensures { OnOk result (items.new.items ≡ items.old.items ++ map Some (of_field field item)) }
{
    match item {
        Some(item) => push_item(items, field, item),
        None => Ok(()),
    }
}

/// Appends a dot and the item of a field.
fn add_dotted(
    alloc: Global,
    items: &mut Vec<Option<FieldItem>>,
    field: Field,
    item: Item,
) -> Result<(), Memory>
    ensures { OnOk result (items.new.items ≡ items.old.items ++ map Some (dotted field item)) }
{
    add_literal(alloc, items, b".")?;
    push_item(items, Some(field), item)
}

/// Appends the item of the serial after a dot, if there is one.
fn add_serial(
    alloc: Global,
    items: &mut Vec<Option<FieldItem>>,
    serial: Option<Item>,
) -> Result<(), Memory>
    ensures { OnOk result (items.new.items
        ≡ items.old.items ++ map Some (flat_map (dotted Field.Serial) (option_to_list serial))) }
{
    match serial {
        Some(serial) => add_dotted(alloc, items, Field::Serial, serial),
        None => Ok(()),
    }
}

/// Appends the piece and the total after the reference on the bit level, if the kind has them.
fn add_pieces_in_bits(items: &mut Vec<Option<FieldItem>>, rest: RestForm) -> Result<(), Memory>
    ensures { OnOk result (items.new.items ≡ items.old.items ++ map Some (pieces_in_bits rest)) }
{
    match rest {
        RestForm::InPieces(_) => {
            push_item(items, Some(Field::Piece), Item::NumPad { bits: 7, n: 2 })?;
            push_item(items, Some(Field::Total), Item::NumPad { bits: 7, n: 2 })
        }
        RestForm::Digits(_) | RestForm::Number | RestForm::Characters => Ok(()),
    }
}

/// Appends the piece and the total after the reference of a text, if the kind has them.
fn add_pieces_in_text(
    alloc: Global,
    items: &mut Vec<Option<FieldItem>>,
    rest: RestForm,
) -> Result<(), Memory>
    ensures { OnOk result (items.new.items ≡ items.old.items ++ map Some (pieces_in_text rest)) }
{
    match rest {
        RestForm::InPieces(_) => {
            add_dotted(alloc, items, Field::Piece, Item::Pad { n: 2 })?;
            add_dotted(alloc, items, Field::Total, Item::Pad { n: 2 })
        }
        RestForm::Digits(_) | RestForm::Number | RestForm::Characters => Ok(()),
    }
}

/// Appends the items after the company prefix of a text if the reference has no digits.
fn add_behind_dots(
    alloc: Global,
    items: &mut Vec<Option<FieldItem>>,
    serial: Option<Item>,
) -> Result<(), Memory>
    ensures { OnOk result (items.new.items ≡ items.old.items
        ++ Some (None, Lit (codes "..")) ∷ map Some (of_field (Some Field.Serial) serial)) }
{
    add_literal(alloc, items, b"..")?;
    add(items, Some(Field::Serial), serial)
}

/// Appends the items after the company prefix of a text.
fn add_behind_prefix(
    alloc: Global,
    items: &mut Vec<Option<FieldItem>>,
    rest: FieldItem,
    form: RestForm,
    serial: Option<Item>,
) -> Result<(), Memory>
    ensures { OnOk result (items.new.items
        ≡ items.old.items ++ map Some (behind_prefix rest (pieces_in_text form) serial)) }
{
    match rest {
        (None, _) => add_behind_dots(alloc, items, serial),
        (Some(_), rest) => {
            add_dotted(alloc, items, Field::Rest, rest)?;
            add_pieces_in_text(alloc, items, form)?;
            add_serial(alloc, items, serial)
        }
    }
}

/// Returns the reference of a text for a company prefix of `digits` digits, which has `bits` bits on the bit level.
fn rest_in_text(alloc: Global, rest: RestForm, digits: u8, bits: u8) -> Result<FieldItem, Memory>
    requires { IsTrue (rest_fits rest bits) }
    ensures { IfOk result (λ item. item ≡ in_text_too (rest_in_bits rest digits bits)) }
{
    let (field, item) = rest_in_bits(alloc, rest, digits, bits)?;
    Ok((field, in_text(item)))
}

/// Appends the items of an encoding on the bit level up to the prefix.
fn add_binary_head(
    alloc: Global,
    items: &mut Vec<Option<FieldItem>>,
    header: u8,
    partition: Partition,
) -> Result<(), Memory>
    ensures { OnOk result (items.new.items ≡ items.old.items ++ map Some (binary_head header partition)) }
{
    add_bits(alloc, items, 8, header)?;
    push_item(items, Some(Field::Filter), Item::Num { bits: 3, max: 7 })?;
    add_bits(alloc, items, 3, partition.number)?;
    let prefix = Item::NumPad {
        bits: partition.bits,
        n: partition.digits,
    };
    push_item(items, Some(Field::Gcp), prefix)
}

/// Appends the items of an encoding on the bit level after the prefix.
fn add_binary_tail(
    alloc: Global,
    items: &mut Vec<Option<FieldItem>>,
    encoding: &Encoding,
    partition: Partition,
) -> Result<(), Memory>
    requires { IsTrue (rest_fits encoding.now.rest (encoding.now.width - partition.bits)) }
    ensures { OnOk result (items.new.items
        ≡ items.old.items ++ map Some (binary_tail encoding.now partition)) }
{
    let bits = encoding.width.saturating_sub(partition.bits);
    let (field, rest) = rest_in_bits(alloc, encoding.rest, partition.digits, bits)?;
    push_item(items, field, rest)?;
    add_pieces_in_bits(items, encoding.rest)?;
    let serial = copy_of_some(alloc, &encoding.serial)?;
    add(items, Some(Field::Serial), serial)?;
    let after = copy_of_some(alloc, &encoding.after)?;
    add(items, None, after)
}

/// Returns the items of an encoding on the bit level.
pub(crate) fn binary_items(
    alloc: Global,
    encoding: &Encoding,
    partition: Partition,
) -> Result<List<Option<FieldItem>>, Memory>
    requires { IsTrue (rest_fits encoding.now.rest (encoding.now.width - partition.bits)) }
    ensures { IfOk result (λ items. items ≡ map Some (binary_items encoding.now partition)) }
{
    let mut items = Vec::new(alloc);
    add_binary_head(alloc, &mut items, encoding.header, partition)?;
    add_binary_tail(alloc, &mut items, encoding, partition)?;
    Ok(List::from_vec(items))
}

/// Appends the items of an encoding as a tag URI up to the prefix.
fn add_tag_head(
    alloc: Global,
    items: &mut Vec<Option<FieldItem>>,
    name: &Text,
    n: u8,
) -> Result<(), Memory>
    ensures { OnOk result (items.new.items ≡ items.old.items ++ map Some (tag_head name.now n)) }
{
    add_beginning(alloc, items, b"urn:epc:tag:", name)?;
    push_item(items, Some(Field::Filter), Item::Int { max: 7 })?;
    add_literal(alloc, items, b".")?;
    push_item(items, Some(Field::Gcp), Item::Pad { n })
}

/// Appends the items of an encoding as a tag URI after the prefix.
fn add_tag_tail(
    alloc: Global,
    items: &mut Vec<Option<FieldItem>>,
    encoding: &Encoding,
    partition: Partition,
) -> Result<(), Memory>
    requires { IsTrue (rest_fits encoding.now.rest (encoding.now.width - partition.bits)) }
    ensures { OnOk result (items.new.items ≡ items.old.items ++ map Some (tag_tail encoding.now partition)) }
{
    let bits = encoding.width.saturating_sub(partition.bits);
    let rest = rest_in_text(alloc, encoding.rest, partition.digits, bits)?;
    let serial = copy_of_some(alloc, &encoding.serial)?.map(in_text);
    add_behind_prefix(alloc, items, rest, encoding.rest, serial)
}

/// Returns the items of an encoding as a tag URI.
pub(crate) fn tag_items(
    alloc: Global,
    encoding: &Encoding,
    partition: Partition,
) -> Result<List<Option<FieldItem>>, Memory>
    requires { IsTrue (rest_fits encoding.now.rest (encoding.now.width - partition.bits)) }
    ensures { IfOk result (λ items. items ≡ map Some (tag_items encoding.now partition)) }
{
    let mut items = Vec::new(alloc);
    add_tag_head(alloc, &mut items, &encoding.name, partition.digits)?;
    add_tag_tail(alloc, &mut items, encoding, partition)?;
    Ok(List::from_vec(items))
}

/// Appends the items of a kind as a pure identity URI.
fn add_pure(
    alloc: Global,
    items: &mut Vec<Option<FieldItem>>,
    identity: &Identity,
    partition: Partition,
) -> Result<(), Memory>
    ensures { OnOk result (items.new.items
        ≡ items.old.items ++ map Some (pure_items identity.now partition)) }
{
    let n = partition.digits;
    add_beginning(alloc, items, b"urn:epc:id:", &identity.name)?;
    push_item(items, Some(Field::Gcp), Item::Pad { n })?;
    let rest = rest_in_text(alloc, identity.rest, n, 0)?;
    let serial = copy_of_some(alloc, &identity.serial)?;
    add_behind_prefix(alloc, items, rest, identity.rest, serial)
}

/// Returns the items of a kind as a pure identity URI.
pub(crate) fn pure_items(
    alloc: Global,
    identity: &Identity,
    partition: Partition,
) -> Result<List<Option<FieldItem>>, Memory>
    ensures { IfOk result (λ items. items ≡ map Some (pure_items identity.now partition)) }
{
    let mut items = Vec::new(alloc);
    add_pure(alloc, &mut items, identity, partition)?;
    Ok(List::from_vec(items))
}
