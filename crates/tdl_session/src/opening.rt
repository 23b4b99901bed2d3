ghost use Rattle.std.specs.Prelude.{◌≡◌, IfOk, IfErr, Ok};
ghost use Rattle.tdl_session.specs.Openings.{ArePrefixesRejected, AreRejected, IsOpened, TablesGive, prefixes_given};
ghost use Rattle.gs_chars.specs.Answers.{OrError};

use crate::choice::{Choice, Chosen, choose};
use crate::session::Session;
use gs_chars::Memory;
use gs_class::ClassLoadFault;
use gs_prefix::{PrefixFault, PrefixList};
use gs_tables::{LoadFault, TableSet, builtin};
use std::alloc::Global;

/// Why a session is not opened, or its classes are not loaded.
#[derive(Drop)]
pub enum Unopened {
    /// A number is out of range, or no link may have the stem.
    Argument,
    /// The table document is rejected, for this reason, which is never out of memory.
    Tables(LoadFault),
    /// The list of company prefix lengths is rejected, for this reason, which is never out of memory.
    Prefixes(PrefixFault),
    /// The class document is rejected, for this reason, which is never out of memory.
    Classes(ClassLoadFault),
    /// Out of memory.
    Memory,
}

impl From<Memory> for Unopened {
    ghost use Rattle.std.specs.Prelude.{◌≡◌};
    ghost use Rattle.tdl_session.specs.declared.opening.Unopened.TheVariants.{Memory as OutOfMemory};

    ghost from_gives = { λ _ e. e ≡ OutOfMemory };

    fn from(_rejected: Memory) -> Unopened {
        Unopened::Memory
    }
}

/// Returns the tables of a document, or the built-in ones if it is empty.
fn tables_of(alloc: Global, bytes: &[u8]) -> Result<TableSet, LoadFault>
    ensures { TablesGive bytes.now result }
{
    if bytes.is_empty() {
        builtin(alloc)
    } else {
        TableSet::load(alloc, bytes)
    }
}

/// Returns the list of a document, or the empty one if it is empty.
fn prefixes_of(alloc: Global, bytes: &[u8]) -> Result<PrefixList, PrefixFault>
    ensures { OrError PrefixFault.Memory result (prefixes_given bytes.now) }
{
    if bytes.is_empty() {
        return Ok(PrefixList::empty(alloc));
    }
    PrefixList::load(alloc, bytes)
}

/// Returns the tables, or why they are rejected.
fn load_tables(alloc: Global, bytes: &[u8]) -> Result<TableSet, Unopened>
    ensures ok { IfOk result (λ set. TablesGive bytes.now (Ok set)) }
    ensures rejected { IfErr result (AreRejected bytes.now) }
{
    match tables_of(alloc, bytes) {
        Ok(set) => Ok(set),
        Err(LoadFault::Memory) => Err(Unopened::Memory),
        Err(error) => Err(Unopened::Tables(error)),
    }
}

/// Returns the list, or why it is rejected.
fn load_prefixes(alloc: Global, bytes: &[u8]) -> Result<PrefixList, Unopened>
    ensures ok { IfOk result (λ list. Ok list ≡ prefixes_given bytes.now) }
    ensures rejected { IfErr result (ArePrefixesRejected bytes.now) }
{
    match prefixes_of(alloc, bytes) {
        Ok(list) => Ok(list),
        Err(PrefixFault::Memory) => Err(Unopened::Memory),
        Err(error) => Err(Unopened::Prefixes(error)),
    }
}

/// Returns the session of the numbers and bytes, or the first of these that is rejected: the numbers and the stem, the tables,
/// the list of company prefix lengths. May return `Memory` instead.
pub fn open(
    alloc: Global,
    choice: &Choice,
    encoding: &[u8],
    stem: &[u8],
    tables: &[u8],
    prefixes: &[u8],
) -> Result<Session, Unopened>
    ensures { IsOpened choice.now encoding.now stem.now tables.now prefixes.now result }
{
    let chosen = choose(alloc, choice, encoding, stem)?;
    let set = load_tables(alloc, tables)?;
    let list = load_prefixes(alloc, prefixes)?;
    Ok(Session::new(alloc, set, list, chosen)?)
}
