ghost use Rattle.std.specs.Prelude.{◌≡◌, option_map, option_and_then};
ghost use Rattle.serde_json.specs.View.{view};
ghost use Rattle.gs_tables_document.specs.Items.{Reads, bits_of, both, byte_arg, short_arg};
ghost use Rattle.gs_tables_document.specs.ItemsSupport.{literal_text};
ghost use Rattle.gs_tables_document.specs.Items.{no_field, number_arg, sized, text_arg, with_field};
ghost use Rattle.gs_grammar.specs.declared.item.Item.TheVariants.{Ascii7, Digits, Esc, Int, Lit, Num, NumPad, NumStr, Pad};
ghost use Rattle.gs_grammar.specs.declared.item.Item.TheVariants.{Fill};

use crate::document::FieldItem;
use crate::error::ItemFault;
use crate::items::{
    bits_of, byte_arg, field_arg, must_have, number_arg, short_arg, text_arg, two_bytes,
};
use gs_chars::Text;
use gs_grammar::Item;
use serde_json::Value;
use std::alloc::Global;

/// Returns the text of `["lit", TEXT]`.
fn literal_text(item: &Value) -> Option<&str>
    ensures { option_map (λ text. text.now) result ≡ literal_text (view item.now) }
{
    must_have(item, 2)?;
    text_arg(item, 1)
}

/// Reads `["lit", TEXT]`.
pub(crate) fn read_literal(alloc: Global, item: &Value) -> Result<FieldItem, ItemFault>
    ensures { Reads result (sized 2 (view item.now)
        (no_field (option_map Lit (text_arg 1 (view item.now))))) }
{
    match literal_text(item) {
        Some(text) => Ok((None, Item::Lit(Text::from_bytes(alloc, text.as_bytes())?))),
        None => Err(ItemFault::Bad),
    }
}

/// Reads `["lit", BITS]`.
pub(crate) fn read_bits(alloc: Global, item: &Value) -> Result<FieldItem, ItemFault>
    ensures { Reads result (sized 2 (view item.now)
        (no_field (option_map Lit (option_and_then bits_of (text_arg 1 (view item.now)))))) }
{
    match literal_text(item) {
        Some(digits) => Ok((None, Item::Lit(bits_of(alloc, digits.as_bytes())?))),
        None => Err(ItemFault::Bad),
    }
}

/// Reads `["pad", FIELD, n]`.
pub(crate) fn read_pad(item: &Value) -> Option<FieldItem>
    ensures { result ≡ sized 3 (view item.now)
        (with_field (view item.now) (option_map Pad (byte_arg 2 (view item.now)))) }
{
    let field = field_arg(item, 3)?;
    let n = byte_arg(item, 2)?;
    Some((Some(field), Item::Pad { n }))
}

/// Reads `["int", FIELD, max]`.
pub(crate) fn read_int(item: &Value) -> Option<FieldItem>
    ensures { result ≡ sized 3 (view item.now)
        (with_field (view item.now) (option_map Int (number_arg 2 (view item.now)))) }
{
    let field = field_arg(item, 3)?;
    let max = number_arg(item, 2)?;
    Some((Some(field), Item::Int { max }))
}

/// Reads `["esc", FIELD, lo, hi]`.
pub(crate) fn read_esc(item: &Value) -> Option<FieldItem>
    ensures { result ≡ sized 4 (view item.now)
        (with_field (view item.now) (both (byte_arg 2 (view item.now)) (byte_arg 3 (view item.now)) Esc)) }
{
    let field = field_arg(item, 4)?;
    let (lo, hi) = two_bytes(item, 2)?;
    Some((Some(field), Item::Esc { lo, hi }))
}

/// Reads `["digits", FIELD, lo, hi]`.
pub(crate) fn read_digits(item: &Value) -> Option<FieldItem>
    ensures { result ≡ sized 4 (view item.now)
        (with_field (view item.now) (both (byte_arg 2 (view item.now)) (byte_arg 3 (view item.now)) Digits)) }
{
    let field = field_arg(item, 4)?;
    let (lo, hi) = two_bytes(item, 2)?;
    Some((Some(field), Item::Digits { lo, hi }))
}

/// Reads `["numpad", FIELD, bits, n]`.
pub(crate) fn read_numpad(item: &Value) -> Option<FieldItem>
    ensures { result ≡ sized 4 (view item.now)
        (with_field (view item.now) (both (byte_arg 2 (view item.now)) (byte_arg 3 (view item.now)) NumPad)) }
{
    let field = field_arg(item, 4)?;
    let (bits, n) = two_bytes(item, 2)?;
    Some((Some(field), Item::NumPad { bits, n }))
}

/// Reads `["num", FIELD, bits, max]`.
pub(crate) fn read_num(item: &Value) -> Option<FieldItem>
    ensures { result ≡ sized 4 (view item.now)
        (with_field (view item.now) (both (byte_arg 2 (view item.now)) (number_arg 3 (view item.now)) Num)) }
{
    let field = field_arg(item, 4)?;
    let bits = byte_arg(item, 2)?;
    let max = number_arg(item, 3)?;
    Some((Some(field), Item::Num { bits, max }))
}

/// Reads `["numstr", FIELD, bits, hi]`.
pub(crate) fn read_numstr(item: &Value) -> Option<FieldItem>
    ensures { result ≡ sized 4 (view item.now)
        (with_field (view item.now) (both (byte_arg 2 (view item.now)) (byte_arg 3 (view item.now)) NumStr)) }
{
    let field = field_arg(item, 4)?;
    let (bits, hi) = two_bytes(item, 2)?;
    Some((Some(field), Item::NumStr { bits, hi }))
}

/// Reads `["ascii7", FIELD, lo, hi, bits]`.
pub(crate) fn read_ascii7(item: &Value) -> Option<FieldItem>
    ensures { result ≡ sized 5 (view item.now)
        (with_field (view item.now) (option_and_then
        (λ bits. both (byte_arg 2 (view item.now)) (byte_arg 3 (view item.now)) (λ lo hi. Ascii7 lo hi bits))
        (short_arg 4 (view item.now)))) }
{
    let field = field_arg(item, 5)?;
    let bits = short_arg(item, 4)?;
    let (lo, hi) = two_bytes(item, 2)?;
    Some((Some(field), Item::Ascii7 { lo, hi, bits }))
}

/// Reads `["fill", a, b]`.
pub(crate) fn read_fill(item: &Value) -> Option<FieldItem>
    ensures { result ≡ sized 3 (view item.now)
        (no_field (both (byte_arg 1 (view item.now)) (byte_arg 2 (view item.now)) Fill)) }
{
    must_have(item, 3)?;
    let (a, b) = two_bytes(item, 1)?;
    Some((None, Item::Fill { a, b }))
}
