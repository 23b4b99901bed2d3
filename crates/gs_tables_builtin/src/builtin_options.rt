ghost use Rattle.std.specs.Prelude.{◌≡◌, ◌-◌, ◌++◌, IfOk, IsTrue, OnOk, List, Some, map};
ghost use Rattle.std.specs.List.{flat_map, list_all};
ghost use Rattle.gs_tables_builtin.specs.BuiltIn.{encoded_items, encoded_row, encoded_rows, pure_row, pure_rows, row_with};
ghost use Rattle.gs_tables_builtin.specs.BuiltInSupport.{Gains, rest_fits, rests_fit};

use crate::builtin_encodings::PARTITIONS;
use crate::builtin_items::{binary_items, pure_items, tag_items};
use crate::encoding::{Encoding, Identity, Partition};
use gs_chars::{List, Memory, Text};
use gs_tables_document::{FieldItem, OptionRow};
use std::alloc::Global;

/// Appends an option.
fn push(
    alloc: Global,
    rows: &mut Vec<OptionRow>,
    kind: &[u8],
    encoding: &[u8],
    partition: Partition,
    items: List<Option<FieldItem>>,
) -> Result<(), Memory>
    ensures { OnOk result (Gains rows.old.items rows.new.items
        (row_with kind.now encoding.now partition items)) }
{
    let row = OptionRow {
        kind: Text::from_bytes(alloc, kind)?,
        encoding: Text::from_bytes(alloc, encoding)?,
        gcp: u64::from(partition.digits),
        items,
    };
    rows.push(row)?;
    Ok(())
}

/// Appends an option of an encoding for a length of the prefix.
fn push_named(
    alloc: Global,
    rows: &mut Vec<OptionRow>,
    encoding: &Encoding,
    partition: Partition,
    items: List<Option<FieldItem>>,
) -> Result<(), Memory>
    ensures { OnOk result (Gains rows.old.items rows.new.items
        (row_with encoding.now.kind encoding.now.name partition items)) }
{
    let name = encoding.name.as_bytes();
    push(
        alloc,
        rows,
        encoding.kind.as_bytes(),
        name,
        partition,
        items,
    )
}

/// Returns the items of an option of an encoding for a length of the prefix, of tag bits or of tag URIs.
fn encoded_items(
    alloc: Global,
    bits: bool,
    encoding: &Encoding,
    partition: Partition,
) -> Result<List<Option<FieldItem>>, Memory>
    requires { IsTrue (rest_fits encoding.now.rest (encoding.now.width - partition.bits)) }
    ensures { IfOk result (λ items. items ≡ map Some (encoded_items bits encoding.now partition)) }
{
    if bits {
        binary_items(alloc, encoding, partition)
    } else {
        tag_items(alloc, encoding, partition)
    }
}

/// Appends the option of an encoding for a length of the prefix, of tag bits or of tag URIs.
fn push_encoded(
    alloc: Global,
    bits: bool,
    rows: &mut Vec<OptionRow>,
    encoding: &Encoding,
    partition: Partition,
) -> Result<(), Memory>
    requires { IsTrue (rest_fits encoding.now.rest (encoding.now.width - partition.bits)) }
    ensures { OnOk result (Gains rows.old.items rows.new.items (encoded_row bits encoding.now partition)) }
{
    let items = encoded_items(alloc, bits, encoding, partition)?;
    push_named(alloc, rows, encoding, partition, items)
}

/// Appends the options of an encoding, of tag bits or of tag URIs.
fn add_encoded(
    alloc: Global,
    bits: bool,
    rows: &mut Vec<OptionRow>,
    encoding: &Encoding,
) -> Result<(), Memory>
    requires { IsTrue (rests_fit encoding.now) }
    ensures { OnOk result (rows.new.items ≡ rows.old.items ++ encoded_rows bits encoding.now) }
{
    for partition in &PARTITIONS {
        push_encoded(alloc, bits, rows, encoding, *partition)?;
    }
    Ok(())
}

/// Appends the pure option of a kind for a length of the prefix.
fn push_pure(
    alloc: Global,
    rows: &mut Vec<OptionRow>,
    identity: &Identity,
    partition: Partition,
) -> Result<(), Memory>
    ensures { OnOk result (Gains rows.old.items rows.new.items (pure_row identity.now partition)) }
{
    let items = pure_items(alloc, identity, partition)?;
    push(alloc, rows, identity.name.as_bytes(), b"", partition, items)
}

/// Appends the pure options of a kind.
fn add_pure(alloc: Global, rows: &mut Vec<OptionRow>, identity: &Identity) -> Result<(), Memory>
    ensures { OnOk result (rows.new.items ≡ rows.old.items ++ pure_rows identity.now) }
{
    for partition in &PARTITIONS {
        push_pure(alloc, rows, identity, *partition)?;
    }
    Ok(())
}

/// Returns the options of the encodings, of tag bits or of tag URIs.
pub(crate) fn encoded_options(
    alloc: Global,
    bits: bool,
    encodings: &[Encoding],
) -> Result<List<OptionRow>, Memory>
    requires { IsTrue (list_all rests_fit encodings.now) }
    ensures { IfOk result (λ rows. rows ≡ flat_map (encoded_rows bits) encodings.now) }
{
    let mut rows = Vec::new(alloc);
    for encoding in encodings {
        add_encoded(alloc, bits, &mut rows, encoding)?;
    }
    Ok(List::from_vec(rows))
}

/// Returns the pure options of the kinds.
pub(crate) fn pure_options(
    alloc: Global,
    identities: &[Identity],
) -> Result<List<OptionRow>, Memory>
    ensures { IfOk result (λ rows. rows ≡ flat_map pure_rows identities.now) }
{
    let mut rows = Vec::new(alloc);
    for identity in identities {
        add_pure(alloc, &mut rows, identity)?;
    }
    Ok(List::from_vec(rows))
}
