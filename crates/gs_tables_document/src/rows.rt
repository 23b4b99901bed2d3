ghost use Rattle.std.specs.Prelude.{◌≡◌, IfOk, Some, codes, map};
ghost use Rattle.serde_json.specs.View.{view};
ghost use Rattle.gs_json.specs.Members.{items_in, text_in};
ghost use Rattle.gs_tables_document.specs.Documents.{Each, IsRole, part_in};
ghost use Rattle.gs_tables_document.specs.Items.{is_first_field, is_first_item, item_in};
ghost use Rattle.gs_tables_document.specs.DocumentsSupport.{AreAiLists};

use crate::document::{Field, FieldItem, KindRow, OptionRow};
use crate::error::ItemFault;
use crate::items::read_value;
use crate::plans::{Reading, copy_in, str_of};
use gs_ai::{AiRow, Part, Role};
use gs_chars::{List, Memory, Text};
use gs_grammar::Item;
use gs_json::{items_in, number_in, text_in, truth_in};
use serde_json::Value;
use std::alloc::Global;

/// A type that a part of a document is read as.
pub(crate) trait Row: Drop {
    ghost use Rattle.serde_json.specs.Data.{Data};
    ghost use Rattle.gs_tables_document.specs.declared.plans.Reading.{Reading};

    /// The last argument is the row that the part is read as.
    ghost reads: { Reading → Data → Self → Type 0 };

    /// Reads any part of a document.
    fn read(alloc: Global, value: &Value, reading: Reading) -> Result<Self, Memory>
        ensures { IfOk result (λ row. reads reading (view value.now) row) };
}

/// Returns the rows that these are read as, in their order.
fn read_items<R: Row>(alloc: Global, items: &[Value], reading: Reading) -> Result<List<R>, Memory>
    ensures { IfOk result (λ rows. Each (R.reads reading) (map view items.now) rows) }
{
    let mut rows = Vec::new(alloc);
    for item in items {
        rows.push(R::read(alloc, item, reading)?)?;
    }
    Ok(List::from_vec(rows))
}

/// Returns the rows of the array that is the member of a name, and none if there is no such array.
pub(crate) fn read_rows<R: Row>(
    alloc: Global,
    object: &Value,
    name: &str,
    reading: Reading,
) -> Result<List<R>, Memory>
    ensures { IfOk result (λ rows. Each (R.reads reading) (items_in name.now (view object.now)) rows) }
{
    read_items(alloc, items_in(object, name), reading)
}

impl Row for Text {
    ghost use Rattle.gs_tables_document.specs.Documents.{IsText};

    ghost reads = { λ _ d text. IsText d text };

    fn read(alloc: Global, value: &Value, _reading: Reading) -> Result<Text, Memory> {
        Text::from_bytes(alloc, str_of(value).as_bytes())
    }
}

impl Row for Part {
    ghost use Rattle.gs_tables_document.specs.Documents.{IsPartOf};

    ghost reads = { λ reading d part. IsPartOf reading.second d part };

    fn read(alloc: Global, value: &Value, reading: Reading) -> Result<Part, Memory> {
        let part = Part::read(str_of(value).as_bytes());
        Ok(part_in(part, reading.second))
    }
}

/// Returns the part that a document of version 2, or of another version, reads here.
fn part_in(part: Part, second: bool) -> Part
    ensures { result ≡ part_in second part }
{
    match part {
        Part::NumOpt(_) if !second => Part::Other,
        other => other,
    }
}

/// Returns the item that a document of version 2, or of another version, reads here.
fn item_in(item: FieldItem, second: bool) -> Option<FieldItem>
    ensures { result ≡ item_in second (Some item) }
{
    if second || (is_first_field(item.0) && is_first_item(&item.1)) {
        Some(item)
    } else {
        None
    }
}

/// Returns whether the field is one of version 1.
fn is_first_field(field: Option<Field>) -> bool
    ensures { result ≡ is_first_field field }
{
    !matches!(field, Some(Field::Piece | Field::Total))
}

/// Returns whether the item is one of version 1.
fn is_first_item(item: &Item) -> bool
    ensures { result ≡ is_first_item item.now }
{
    !matches!(item, Item::Digits { .. } | Item::NumStr { .. })
}

/// Returns the role that the member `role` names.
fn role_in(object: &Value) -> Role
    ensures { IsRole (text_in (codes "role") (view object.now)) result }
{
    Role::read(text_in(object, "role").as_bytes())
}

/// Returns the parts and the qualifiers of an application identifier.
fn lists_in(
    alloc: Global,
    object: &Value,
    reading: Reading,
) -> Result<(List<Part>, List<Text>), Memory>
    ensures { IfOk result (AreAiLists reading.second (view object.now)) }
{
    Ok((
        read_rows(alloc, object, "parts", reading)?,
        read_rows(alloc, object, "qualifiers", reading)?,
    ))
}

impl Row for AiRow {
    ghost use Rattle.gs_tables_document.specs.Documents.{IsAiRow};

    ghost reads = { λ reading d row. IsAiRow reading.second d row };

    fn read(alloc: Global, value: &Value, reading: Reading) -> Result<AiRow, Memory> {
        let role = role_in(value);
        let short = truth_in(value, "short");
        let code = copy_in(alloc, value, "code")?;
        let none = copy_in(alloc, value, "none")?;
        let (parts, qualifiers) = lists_in(alloc, value, reading)?;
        Ok(AiRow {
            role,
            short,
            code,
            none,
            parts,
            qualifiers,
        })
    }
}

impl Row for KindRow {
    ghost use Rattle.gs_tables_document.specs.Documents.{IsKindRow};

    ghost reads = { λ _ d row. IsKindRow d row };

    fn read(alloc: Global, value: &Value, reading: Reading) -> Result<KindRow, Memory> {
        Ok(KindRow {
            lead: number_in(value, "lead"),
            name: copy_in(alloc, value, "name")?,
            key: copy_in(alloc, value, "key")?,
            serial: copy_in(alloc, value, "serial")?,
            fields: read_rows(alloc, value, "fields", reading)?,
        })
    }
}

impl Row for OptionRow {
    ghost use Rattle.gs_tables_document.specs.Documents.{IsOptionRow};

    ghost reads = { IsOptionRow };

    fn read(alloc: Global, value: &Value, reading: Reading) -> Result<OptionRow, Memory> {
        Ok(OptionRow {
            gcp: number_in(value, "gcp"),
            kind: copy_in(alloc, value, "kind")?,
            encoding: copy_in(alloc, value, "encoding")?,
            items: read_rows(alloc, value, "items", reading)?,
        })
    }
}

impl Row for Option<FieldItem> {
    ghost use Rattle.gs_tables_document.specs.Documents.{IsItemAt};

    ghost reads = { IsItemAt };

    fn read(alloc: Global, value: &Value, reading: Reading) -> Result<Option<FieldItem>, Memory> {
        match read_value(alloc, value, reading.bits) {
            Ok(item) => Ok(item_in(item, reading.second)),
            Err(ItemFault::Bad) => Ok(None),
            Err(ItemFault::Memory) => Err(Memory),
        }
    }
}
