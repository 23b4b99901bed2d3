ghost use Rattle.gs_tables.specs.Shapes.{BuiltInAnswer};

use crate::table_set::TableSet;
use gs_tables_builtin::builtin_document;
use gs_tables_document::LoadFault;
use std::alloc::Global;

/// Returns the set of the built-in rows. They are the application identifiers, ten kinds of key, and the options of each
/// encoding and kind. Each encoding has the binary and the tag option for each company prefix length from 12 to 6, and each
/// kind the pure option. The rows go through the rules of `TableSet::load`, and its check of levels. Returns the first
/// rejection if there is one. May return `Memory` instead.
pub fn builtin(alloc: Global) -> Result<TableSet, LoadFault>
    ensures { BuiltInAnswer result }
{
    let document = builtin_document(alloc)?;
    TableSet::of_rows(alloc, document)
}
