ghost use Rattle.std.specs.Prelude.{◌≡◌, ◌≤◌, Some, false, IfOk, IsUtf8};
ghost use Rattle.serde_json.specs.Data.{Data, depth};
ghost use Rattle.serde_json.specs.Read.{max_depth, read as read_text};
ghost use Rattle.serde_json.specs.View.{view};
ghost use Rattle.serde_json.specs.Written.{compact_text, has_float};
ghost use Rattle.gs_tables_document.specs.declared.document.Document.{Document};
ghost use Rattle.gs_tables_document.specs.Readings.{Holds, IsJson};
ghost use Rattle.gs_tables_migration.specs.Migrations.{IsKnown, IsMigrated, in_second};

use crate::tree::second_version;
use gs_chars::{Memory, Text};
use serde_json::Value;
use std::alloc::Global;

/// Returns the tree of the JSON text that the bytes are.
fn tree_of(alloc: Global, bytes: &[u8]) -> Result<Value, Memory>
    requires { (d : Data) × IsJson bytes.now d }
    ensures { IfOk result (λ tree. IsJson bytes.now (view tree)) }
{
    match Value::from_slice(alloc, bytes) {
        Ok(tree) => Ok(tree),
        Err(error) if error.is_memory() => Err(Memory),
        Err(_) => unreachable!(),
    }
}

/// Returns the JSON text of a tree, with no space and the members of each object in ascending order of name.
fn text_of(alloc: Global, tree: Value) -> Result<Text, Memory>
    ensures text { IfOk result (λ text. has_float (view tree) ≡ false → text ≡ compact_text (view tree)) }
    ensures utf8 { IfOk result IsUtf8 }
    ensures reads_back { IfOk result (λ text. depth (view tree) ≤ max_depth
        → read_text text ≡ Some (view tree)) }
{
    Ok(Text::from_vec(tree.to_vec(alloc)?))
}

/// Returns the text of a table document as one of version 2. It is the JSON text of the same tree, with the version 2 and no
/// further fields in each kind. If the document is of version 2, it is that of the tree itself. It has no spaces, the members
/// of each object in ascending order of name, and only the last of the members with one name. It is a document of version 2
/// with the rows of the bytes. These are a document of version 1 or 2 whose parts and items are all known. Fails only with
/// `Memory`.
pub fn second_text(alloc: Global, bytes: &[u8]) -> Result<Text, Memory>
    requires known { (document : Document) × Holds bytes.now document × IsKnown document }
    ensures text { IfOk result (IsMigrated bytes.now) }
    ensures holds { IfOk result (λ text. (document : Document) → Holds bytes.now document
        → Holds text (in_second document)) }
{
    let tree = tree_of(alloc, bytes)?;
    let second = second_version(alloc, tree)?;
    text_of(alloc, second)
}
