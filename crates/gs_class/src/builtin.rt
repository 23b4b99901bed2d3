ghost use Rattle.std.specs.Prelude.{◌≡◌, ◌≤◌, IfOk, None, Some};
ghost use Rattle.gs_grammar.specs.declared.item.Item.TheVariants.{Lit};
ghost use Rattle.gs_class.specs.BuiltIn.{built_in_rows, lgtin_items, lgtin_row};

use crate::document::ClassRow;
use gs_chars::{List, Memory, Text};
use gs_grammar::Item;
use gs_tables::Field;
use gs_tables_document::FieldItem;
use std::alloc::Global;

/// Returns a literal.
fn literal(alloc: Global, text: &[u8]) -> Result<Option<FieldItem>, Memory>
    ensures { IfOk result (λ item. item ≡ Some (None, Lit text.now)) }
{
    Ok(Some((None, Item::Lit(Text::from_bytes(alloc, text)?))))
}

/// Returns the items of the lot of a trade item whose company prefix has `n` digits.
fn lgtin_items(alloc: Global, n: u8) -> Result<List<Option<FieldItem>>, Memory>
    requires { n ≤ 13 }
    ensures { IfOk result (λ items. items ≡ lgtin_items n) }
{
    let mut items = Vec::new(alloc);
    items.push(literal(alloc, b"urn:epc:class:lgtin:")?)?;
    items.push(Some((Some(Field::Gcp), Item::Pad { n })))?;
    items.push(literal(alloc, b".")?)?;
    items.push(Some((Some(Field::Rest), Item::Pad { n: 13 - n })))?;
    items.push(literal(alloc, b".")?)?;
    items.push(Some((Some(Field::Serial), Item::Esc { lo: 1, hi: 20 })))?;
    Ok(List::from_vec(items))
}

/// Returns the lot of a trade item whose company prefix has `n` digits.
fn lgtin_row(alloc: Global, n: u8) -> Result<ClassRow, Memory>
    requires { n ≤ 13 }
    ensures { IfOk result (λ row. row ≡ lgtin_row n) }
{
    Ok(ClassRow {
        name: Text::from_bytes(alloc, b"lgtin")?,
        key: Text::from_bytes(alloc, b"01")?,
        lead: 1,
        element: Text::from_bytes(alloc, b"10")?,
        gcp: u64::from(n),
        items: lgtin_items(alloc, n)?,
    })
}

/// Returns the built-in rows.
pub(crate) fn built_in_rows(alloc: Global) -> Result<Vec<ClassRow>, Memory>
    ensures { IfOk result (λ rows. rows.items ≡ built_in_rows) }
{
    let mut rows = Vec::new(alloc);
    rows.push(lgtin_row(alloc, 12)?)?;
    rows.push(lgtin_row(alloc, 11)?)?;
    rows.push(lgtin_row(alloc, 10)?)?;
    rows.push(lgtin_row(alloc, 9)?)?;
    rows.push(lgtin_row(alloc, 8)?)?;
    rows.push(lgtin_row(alloc, 7)?)?;
    rows.push(lgtin_row(alloc, 6)?)?;
    Ok(rows)
}
