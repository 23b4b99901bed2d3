ghost use Rattle.std.specs.Prelude.{◌≡◌, [], IfOk};
ghost use Rattle.serde_json.specs.View.{view};
ghost use Rattle.gs_json.specs.Shapes.{IsFirst};
ghost use Rattle.gs_prefix.specs.Documents.{entries_of, entry_of, entry_plan, form_errors, list_plan, version_errors};

use crate::entry::PrefixEntry;
use gs_chars::{List, Memory, Text};
use gs_json::{Entry, JsonFault, Node, Sort, items_in, number_in, plan_of, text_in};
use serde_json::Value;
use std::alloc::Global;

/// Returns the members of the document.
fn list_plan(alloc: Global) -> Result<List<Entry>, Memory>
    ensures { IfOk result (λ plan. plan ≡ list_plan) }
{
    plan_of(
        alloc,
        &[
            (b"version", true, Sort::Number),
            (b"prefixes", true, Sort::Array),
        ],
    )
}

/// Returns the members of an entry.
fn entry_plan(alloc: Global) -> Result<List<Entry>, Memory>
    ensures { IfOk result (λ plan. plan ≡ entry_plan) }
{
    plan_of(
        alloc,
        &[
            (b"prefix", true, Sort::Text),
            (b"length", true, Sort::Number),
        ],
    )
}

/// Rejects a document of another version.
fn judge_version(alloc: Global, root: &Node<'_>) -> Result<(), JsonFault>
    ensures { IsFirst result (version_errors (view root.now.tree)) }
{
    if number_in(root.value(), "version") == 1 {
        return Ok(());
    }
    Err(JsonFault::Kind(Text::from_bytes(alloc, b"/version")?))
}

/// Finds the first error of the form of a document: of its object, then of its version, then of its entries.
pub(crate) fn judge_form(alloc: Global, root: &Node<'_>) -> Result<(), JsonFault>
    requires { root.now.place ≡ [] }
    ensures { IsFirst result (form_errors (view root.now.tree)) }
{
    let plan = list_plan(alloc)?;
    root.shaped(alloc, plan.items())?;
    judge_version(alloc, root)?;
    let entry = entry_plan(alloc)?;
    root.items_shaped(alloc, "prefixes", entry.items())
}

/// Returns the entry that an object is.
fn read_entry(alloc: Global, object: &Value) -> Result<PrefixEntry, Memory>
    ensures { IfOk result (λ entry. entry ≡ entry_of (view object.now)) }
{
    Ok(PrefixEntry {
        prefix: Text::from_bytes(alloc, text_in(object, "prefix").as_bytes())?,
        length: number_in(object, "length"),
    })
}

/// Returns the entries of a document, in their order.
pub(crate) fn read_entries(alloc: Global, root: &Value) -> Result<Vec<PrefixEntry>, Memory>
    ensures { IfOk result (λ entries. entries.items ≡ entries_of (view root.now)) }
{
    let mut entries = Vec::new(alloc);
    for item in items_in(root, "prefixes") {
        entries.push(read_entry(alloc, item)?)?;
    }
    Ok(entries)
}
