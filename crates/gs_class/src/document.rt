ghost use Rattle.std.specs.Prelude.{◌≡◌, [], IfOk, false, codes, map};
ghost use Rattle.serde_json.specs.View.{view};
ghost use Rattle.gs_json.specs.Members.{items_of, items_in};
ghost use Rattle.gs_json.specs.Shapes.{IsFirst};
ghost use Rattle.gs_class.specs.Documents.{document_plan, form_errors, row_plan, row_of, rows_of};
ghost use Rattle.gs_tables_document.specs.Items.{item_of};

use gs_chars::{List, Memory, Text};
use gs_json::{Entry, JsonFault, Node, Sort, number_in, plan_of};
use gs_tables::{ItemFault, read_item};
use gs_tables_document::{FieldItem, copy_in};
use std::alloc::Global;

/// A class of a document, before it is judged.
#[derive(Drop)]
pub struct ClassRow {
    /// The name, as written in class URIs.
    pub name: Text,
    /// The code of the key.
    pub key: Text,
    /// The number of digits of the key that are before the company prefix and go with the rest.
    pub lead: u64,
    /// The AI of the element that identifies the class among the things of one key.
    pub element: Text,
    /// The number of digits of the GS1 Company Prefix.
    pub gcp: u64,
    /// The items. One is absent if the document has an item there that is not an item of a text.
    pub items: List<Option<FieldItem>>,
}

/// Returns the members of the document.
fn document_plan(alloc: Global) -> Result<List<Entry>, Memory>
    ensures { IfOk result (λ plan. plan ≡ document_plan) }
{
    plan_of(
        alloc,
        &[
            (b"version", true, Sort::Number),
            (b"classes", true, Sort::Array),
        ],
    )
}

/// Returns the members of a row.
fn row_plan(alloc: Global) -> Result<List<Entry>, Memory>
    ensures { IfOk result (λ plan. plan ≡ row_plan) }
{
    plan_of(
        alloc,
        &[
            (b"name", true, Sort::Text),
            (b"key", true, Sort::Text),
            (b"lead", true, Sort::Number),
            (b"element", true, Sort::Text),
            (b"gcp", true, Sort::Number),
            (b"items", true, Sort::Arrays),
        ],
    )
}

/// Finds the first error of the form of a document: of its object, then of its rows.
pub(crate) fn judge_form(alloc: Global, root: &Node<'_>) -> Result<(), JsonFault>
    requires { root.now.place ≡ [] }
    ensures { IsFirst result (form_errors (view root.now.tree)) }
{
    let plan = document_plan(alloc)?;
    root.shaped(alloc, plan.items())?;
    let row = row_plan(alloc)?;
    root.items_shaped(alloc, "classes", row.items())
}

/// Returns the item that an array is, if it is an item of a text.
fn read_class_item(alloc: Global, item: &Node<'_>) -> Result<Option<FieldItem>, Memory>
    ensures { IfOk result (λ entry. entry ≡ item_of false (view item.now.tree)) }
{
    match read_item(alloc, item, false) {
        Ok(item) => Ok(Some(item)),
        Err(ItemFault::Bad) => Ok(None),
        Err(ItemFault::Memory) => Err(Memory),
    }
}

/// Returns the items of an array.
fn read_items(alloc: Global, array: &Node<'_>) -> Result<List<Option<FieldItem>>, Memory>
    ensures { IfOk result (λ items. items ≡ map (item_of false) (items_of (view array.now.tree))) }
{
    let mut items = Vec::new(alloc);
    let count = array.items_len().unwrap_or(0);
    for i in 0..count {
        let Ok(item) = array.item(alloc, i) else {
            return Err(Memory);
        };
        items.push(read_class_item(alloc, &item)?)?;
    }
    Ok(List::from_vec(items))
}

/// Returns the items of the member `items` of a row.
fn items_of_row(alloc: Global, row: &Node<'_>) -> Result<List<Option<FieldItem>>, Memory>
    ensures { IfOk result (λ items. items
        ≡ map (item_of false) (items_in (codes "items") (view row.now.tree))) }
{
    match row.find(alloc, "items")? {
        Some(array) => read_items(alloc, &array),
        None => Ok(List::from_vec(Vec::new(alloc))),
    }
}

/// Returns the row that an object is.
fn read_row(alloc: Global, row: &Node<'_>) -> Result<ClassRow, Memory>
    ensures { IfOk result (λ made. made ≡ row_of (view row.now.tree)) }
{
    let object = row.value();
    let items = items_of_row(alloc, row)?;
    Ok(ClassRow {
        name: copy_in(alloc, object, "name")?,
        key: copy_in(alloc, object, "key")?,
        lead: number_in(object, "lead"),
        element: copy_in(alloc, object, "element")?,
        gcp: number_in(object, "gcp"),
        items,
    })
}

/// Returns the rows of an array, in their order.
fn rows_of_array(alloc: Global, array: &Node<'_>) -> Result<Vec<ClassRow>, Memory>
    ensures { IfOk result (λ rows. rows.items ≡ map row_of (items_of (view array.now.tree))) }
{
    let mut rows = Vec::new(alloc);
    let count = array.items_len().unwrap_or(0);
    for i in 0..count {
        let Ok(row) = array.item(alloc, i) else {
            return Err(Memory);
        };
        rows.push(read_row(alloc, &row)?)?;
    }
    Ok(rows)
}

/// Returns the rows of a document, in their order.
pub(crate) fn read_rows(alloc: Global, root: &Node<'_>) -> Result<Vec<ClassRow>, Memory>
    ensures { IfOk result (λ rows. rows.items ≡ rows_of (view root.now.tree)) }
{
    match root.find(alloc, "classes")? {
        Some(array) => rows_of_array(alloc, &array),
        None => Ok(Vec::new(alloc)),
    }
}
