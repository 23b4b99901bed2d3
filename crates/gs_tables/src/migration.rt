ghost use Rattle.std.specs.Prelude.{Err, IfErr, IfOk};
ghost use Rattle.gs_tables_migration.specs.Migrations.{IsMigrated};
ghost use Rattle.gs_tables.specs.MigratedSets.{Loads, LoadsAlike};
ghost use Rattle.gs_tables.specs.Shapes.{LoadAnswer};

use crate::table_set::TableSet;
use gs_chars::{Memory, Text};
use gs_tables_document::LoadFault;
use gs_tables_migration::second_text;
use std::alloc::Global;

/// Returns the text of a table document as one of version 2: the JSON text of the same tree. For a document of version 1 the
/// version becomes 2 and each kind gets no further fields. The text has no spaces, and the members of each object once, in
/// ascending order of name. It loads to the set that the document loads to. The bytes are a document that loads. Fails only
/// with `Memory`.
pub fn migrated_text(alloc: Global, bytes: &[u8]) -> Result<Text, Memory>
    requires loads { Loads bytes.now }
    ensures text { IfOk result (IsMigrated bytes.now) }
    ensures alike { IfOk result (LoadsAlike bytes.now) }
{
    second_text(alloc, bytes)
}

/// Returns the migrated text of a table document, as `migrated_text` makes it, or the rejection of the document. Returns `Ok` if
/// and only if `TableSet::load` does, and otherwise its error. May return `Memory` instead.
pub fn migrate(alloc: Global, bytes: &[u8]) -> Result<Text, LoadFault>
    ensures text { IfOk result (IsMigrated bytes.now) }
    ensures loads { IfOk result (λ _. Loads bytes.now) }
    ensures alike { IfOk result (LoadsAlike bytes.now) }
    ensures rejected { IfErr result (λ error. LoadAnswer bytes.now (Err error)) }
{
    judge(alloc, bytes)?;
    Ok(migrated_text(alloc, bytes)?)
}

/// Checks that the bytes load, and returns the rejection if not.
fn judge(alloc: Global, bytes: &[u8]) -> Result<(), LoadFault>
    ensures loads { IfOk result (λ _. Loads bytes.now) }
    ensures rejected { IfErr result (λ error. LoadAnswer bytes.now (Err error)) }
{
    let _set = TableSet::load(alloc, bytes)?;
    Ok(())
}
