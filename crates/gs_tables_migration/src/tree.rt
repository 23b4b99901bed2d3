ghost use Rattle.std.specs.Prelude.{◌≡◌, IfOk};
ghost use Rattle.serde_json.specs.Data.{put};
ghost use Rattle.serde_json.specs.View.{members_view, view};
ghost use Rattle.gs_tables_migration.specs.Migrations.{kinds_with_fields, second_version, with_fields, with_member};

use gs_chars::Memory;
use gs_json::{items_in, number_in};
use serde_json::{Map, Value};
use std::alloc::Global;

/// Puts a value at a name of an object, instead of the one that it had there.
fn put(
    alloc: Global,
    members: &mut Map<String, Value>,
    name: &str,
    value: Value,
) -> Result<(), Memory>
    ensures { IfOk result (λ _.
        members_view members.new.entries ≡ put name.now (view value) (members_view members.old.entries)) }
{
    serde_json::put(members, alloc, name, value)?;
    Ok(())
}

/// Returns the object with this value at a name. A value that is not an object is unchanged.
fn with_member(alloc: Global, tree: Value, name: &str, value: Value) -> Result<Value, Memory>
    ensures { IfOk result (λ with. view with ≡ with_member name.now (view value) (view tree)) }
{
    match tree {
        Value::Object(mut members) => {
            put(alloc, &mut members, name, value)?;
            Ok(Value::Object(members))
        }
        other => Ok(other),
    }
}

/// Returns a kind with no further fields.
fn with_fields(alloc: Global, kind: &Value) -> Result<Value, Memory>
    ensures { IfOk result (λ with. view with ≡ with_fields (view kind.now)) }
{
    let none = Value::Array(Vec::new(alloc));
    with_member(alloc, kind.clone()?, "fields", none)
}

/// Returns the kinds of a document, each with no further fields.
fn kinds_with_fields(alloc: Global, document: &Value) -> Result<Value, Memory>
    ensures { IfOk result (λ kinds. view kinds ≡ kinds_with_fields (view document.now)) }
{
    let mut kinds = Vec::new(alloc);
    for kind in items_in(document, "kinds") {
        kinds.push(with_fields(alloc, kind)?)?;
    }
    Ok(Value::Array(kinds))
}

/// Returns the document of version 2 for one of version 1. A document of version 2 is unchanged.
#[tactic(auto, unfolding(crate::specs::Migrations::second_version))]
pub(crate) fn second_version(alloc: Global, document: Value) -> Result<Value, Memory>
    ensures { IfOk result (λ second. view second ≡ second_version (view document)) }
{
    if number_in(&document, "version") == 2 {
        return Ok(document);
    }
    let kinds = kinds_with_fields(alloc, &document)?;
    let with_kinds = with_member(alloc, document, "kinds", kinds)?;
    with_member(alloc, with_kinds, "version", Value::from(2u64))
}
