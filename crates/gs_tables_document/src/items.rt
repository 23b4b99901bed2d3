ghost use Rattle.serde_json.specs.View.{view};
ghost use Rattle.gs_tables_document.specs.Items.{Reads, bit_item, item_of, text_item, bits_of, byte_arg, number_arg};
ghost use Rattle.gs_tables_document.specs.Items.{short_arg, text_arg};
ghost use Rattle.std.specs.Prelude.{◌≡◌, ◌<◌, ◌-◌, IfOk, map, option_map};
ghost use Rattle.gs_json.specs.Answers.{items_count};
ghost use Rattle.gs_tables_document.specs.ItemsSupport.{exactly, field_of_sized, two_bytes};

use crate::document::{Field, FieldItem};
use crate::error::ItemFault;
use crate::item_forms::{
    read_ascii7, read_bits, read_digits, read_esc, read_fill, read_int, read_literal, read_num,
    read_numpad, read_numstr, read_pad,
};
use crate::plans::items_len;
use gs_bits::are_bit_digits;
use gs_chars::{Memory, Text};
use gs_json::Node;
use serde_json::Value;
use std::alloc::Global;

/// Returns an item of an option with the field of its value; a literal and a fill have none. Returns `Bad` if and only if the
/// part breaks one of these rules. It is an array. Its name is known and of this kind of level. It has the right number and
/// kind of arguments. Each field is known, and each number fits its place in the item.
pub fn read_item(alloc: Global, item: &Node<'_>, bit_level: bool) -> Result<FieldItem, ItemFault>
    ensures { Reads result (item_of bit_level (view item.now.tree)) }
{
    read_value(alloc, item.value(), bit_level)
}

/// Returns the item that an array is, on a bit level or a text level.
pub(crate) fn read_value(
    alloc: Global,
    item: &Value,
    bit_level: bool,
) -> Result<FieldItem, ItemFault>
    ensures { Reads result (item_of bit_level (view item.now)) }
{
    match text_arg(item, 0) {
        Some(name) if bit_level => read_bit_item(alloc, item, name.as_bytes()),
        Some(name) => read_text_item(alloc, item, name.as_bytes()),
        None => Err(ItemFault::Bad),
    }
}

/// Returns the item, or `Bad` if there is none.
fn found(item: Option<FieldItem>) -> Result<FieldItem, ItemFault>
    ensures { Reads result item }
{
    match item {
        Some(item) => Ok(item),
        None => Err(ItemFault::Bad),
    }
}

/// Returns an item of a text level by its name.
fn read_text_item(alloc: Global, item: &Value, name: &[u8]) -> Result<FieldItem, ItemFault>
    ensures { Reads result (text_item name.now (view item.now)) }
{
    if name == b"lit".as_slice() {
        read_literal(alloc, item)
    } else if name == b"pad".as_slice() {
        found(read_pad(item))
    } else if name == b"int".as_slice() {
        found(read_int(item))
    } else if name == b"esc".as_slice() {
        found(read_esc(item))
    } else if name == b"digits".as_slice() {
        found(read_digits(item))
    } else {
        Err(ItemFault::Bad)
    }
}

/// Returns an item of a bit level by its name.
fn read_bit_item(alloc: Global, item: &Value, name: &[u8]) -> Result<FieldItem, ItemFault>
    ensures { Reads result (bit_item name.now (view item.now)) }
{
    if name == b"lit".as_slice() {
        read_bits(alloc, item)
    } else if name == b"numpad".as_slice() {
        found(read_numpad(item))
    } else if name == b"num".as_slice() {
        found(read_num(item))
    } else if name == b"ascii7".as_slice() {
        found(read_ascii7(item))
    } else if name == b"fill".as_slice() {
        found(read_fill(item))
    } else if name == b"numstr".as_slice() {
        found(read_numstr(item))
    } else {
        Err(ItemFault::Bad)
    }
}

/// Returns whether an array has that many parts.
pub(crate) fn must_have(item: &Value, count: usize) -> Option<()>
    ensures { result ≡ exactly count (items_count (view item.now)) }
{
    if items_len(item) == count {
        Some(())
    } else {
        None
    }
}

/// Returns the text at a place of an array.
pub(crate) fn text_arg(item: &Value, i: usize) -> Option<&str>
    ensures { option_map (λ text. text.now) result ≡ text_arg i (view item.now) }
{
    match item.get(i) {
        Some(part) => part.as_str(),
        None => None,
    }
}

/// Returns the number at a place of an array.
pub(crate) fn number_arg(item: &Value, i: usize) -> Option<u64>
    ensures { result ≡ number_arg i (view item.now) }
{
    match item.get(i) {
        Some(part) => part.as_u64(),
        None => None,
    }
}

/// Returns the number below 256 at a place of an array.
pub(crate) fn byte_arg(item: &Value, i: usize) -> Option<u8>
    ensures { result ≡ byte_arg i (view item.now) }
{
    match number_arg(item, i) {
        Some(number) if number < 256 => Some(number as u8),
        _ => None,
    }
}

/// Returns the number below 65,536 at a place of an array.
pub(crate) fn short_arg(item: &Value, i: usize) -> Option<u16>
    ensures { result ≡ short_arg i (view item.now) }
{
    match number_arg(item, i) {
        Some(number) if number < 65_536 => Some(number as u16),
        _ => None,
    }
}

/// Returns the numbers below 256 at a place of an array and the next.
pub(crate) fn two_bytes(item: &Value, i: usize) -> Option<(u8, u8)>
    requires { i < 4 }
    ensures { result ≡ two_bytes i (view item.now) }
{
    match (byte_arg(item, i), byte_arg(item, i + 1)) {
        (Some(a), Some(b)) => Some((a, b)),
        _ => None,
    }
}

/// Returns the field that the second part of an array of that many parts names.
pub(crate) fn field_arg(item: &Value, count: usize) -> Option<Field>
    ensures { result ≡ field_of_sized count (view item.now) }
{
    must_have(item, count)?;
    match text_arg(item, 1) {
        Some(name) => Field::read(name.as_bytes()),
        None => None,
    }
}

/// Returns the bits that a text of the digits 0 and 1 writes.
pub(crate) fn bits_of(alloc: Global, text: &[u8]) -> Result<Text, ItemFault>
    ensures { Reads result (bits_of text.now) }
{
    if !are_bit_digits(text) {
        return Err(ItemFault::Bad);
    }
    match bits_of_digits(alloc, text) {
        Ok(bits) => Ok(Text::from_vec(bits)),
        Err(Memory) => Err(ItemFault::Memory),
    }
}

/// Returns the bits of digits 0 and 1.
fn bits_of_digits(alloc: Global, text: &[u8]) -> Result<Vec<u8>, Memory>
    ensures { IfOk result (λ bits. bits.items ≡ map (λ c. c - 48) text.now) }
{
    let mut bits = Vec::new(alloc);
    for c in text {
        bits.push(c.saturating_sub(b'0'))?;
    }
    Ok(bits)
}
