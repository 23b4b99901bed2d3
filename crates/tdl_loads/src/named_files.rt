ghost use Rattle.std.specs.Prelude.{◌≡◌, option_to_list};
ghost use Rattle.tdl_arguments.specs.Requests.{known_name};
ghost use Rattle.tdl_loads.specs.Loads.{BytesGive, PrefixesGive, ClassesGive, is_of_classes, TablesGive};
ghost use Rattle.tdl_loads.specs.LoadsSupport.{LoadsOne, AreUnnamedClasses, IsOfBuiltIn};
ghost use Rattle.tdl_loads.specs.Reads.{PrefixesUnloadedAs, ClassesUnloadedAs, UnloadedAs};

use crate::loads::{TablesWithSource, Unloaded};
use gs_ai::AiTable;
use gs_chars::Text;
use gs_class::{ClassLoadFault, ClassSet};
use gs_port::{FileFault as ReadingFault, Files, read_file};
use gs_prefix::{PrefixFault, PrefixList};
use gs_tables::{LoadFault, TableSet, builtin};
use std::alloc::Global;
use tdl_arguments::Command;
use tdl_messages::{FileFault, FileKind, Rejection};

/// Reads the bytes of the named file of a kind, or returns `None` if none is named. Rejects the file as `Over` if and only if it
/// has more bytes than its kind may have.
pub fn read_if_named<F: Files>(
    alloc: Global,
    kind: FileKind,
    name: Option<&str>,
    files: &mut F,
) -> Result<Option<Text>, Unloaded>
    ensures { LoadsOne (λ known. BytesGive known kind (known_name name.entry))
        (option_to_list (known_name name.entry)) (files.new ≡ files.old)
        (F.state files.old) (F.state files.new) result }
{
    let Some(name) = name else {
        return Ok(None);
    };
    match read_file(alloc, files, name, kind.limit()) {
        Ok(bytes) => Ok(Some(bytes)),
        Err(ReadingFault::Over(_)) => Err(Unloaded::Refused(Rejection {
            kind,
            error: FileFault::Over,
        })),
        Err(ReadingFault::Failed) => Err(Unloaded::ReadFault),
        Err(ReadingFault::Memory) => Err(Unloaded::Memory),
    }
}

/// Turns the answer of a load of company prefix lengths into that of a run.
fn list_of(answer: Result<PrefixList, PrefixFault>) -> Result<PrefixList, Unloaded>
    ensures { PrefixesUnloadedAs answer result }
{
    match answer {
        Ok(list) => Ok(list),
        Err(PrefixFault::Memory) => Err(Unloaded::Memory),
        Err(error) => Err(Unloaded::Refused(Rejection {
            kind: FileKind::Prefixes,
            error: FileFault::Prefixes(error),
        })),
    }
}

/// Loads the company prefix lengths of the named file, or none if none is named.
pub fn load_prefixes<F: Files>(
    alloc: Global,
    name: Option<&str>,
    files: &mut F,
) -> Result<PrefixList, Unloaded>
    ensures { LoadsOne (λ known. PrefixesGive known (known_name name.entry))
        (option_to_list (known_name name.entry)) (files.new ≡ files.old)
        (F.state files.old) (F.state files.new) result }
{
    match read_if_named(alloc, FileKind::Prefixes, name, files) {
        Ok(Some(bytes)) => list_of(PrefixList::load(alloc, bytes.as_bytes())),
        Ok(None) => Ok(PrefixList::empty(alloc)),
        Err(unloaded) => Err(unloaded),
    }
}

/// Returns whether the command works on class URIs.
fn is_of_classes(command: Command) -> bool
    ensures { result ≡ is_of_classes command }
{
    match command {
        Command::ClassCanon | Command::ClassUri => true,
        _ => false,
    }
}

/// Turns the answer of a load of classes into that of a run.
fn classes_of(answer: Result<ClassSet, ClassLoadFault>) -> Result<ClassSet, Unloaded>
    ensures { ClassesUnloadedAs answer result }
{
    match answer {
        Ok(set) => Ok(set),
        Err(ClassLoadFault::Memory) => Err(Unloaded::Memory),
        Err(error) => Err(Unloaded::Refused(Rejection {
            kind: FileKind::Classes,
            error: FileFault::Classes(error),
        })),
    }
}

/// Loads the classes of a command that names no file of them: the built-in ones if it works on class URIs, otherwise none.
fn load_unnamed(alloc: Global, ais: &AiTable, command: Command) -> Result<ClassSet, Unloaded>
    ensures { AreUnnamedClasses ais.now command result }
{
    if is_of_classes(command) {
        return classes_of(ClassSet::builtin(alloc, ais));
    }
    Ok(ClassSet::none(alloc)?)
}

/// Loads the classes of the named file. Without a name it loads the built-in ones if the command works on class URIs, otherwise
/// none.
pub fn load_classes<F: Files>(
    alloc: Global,
    ais: &AiTable,
    command: Command,
    name: Option<&str>,
    files: &mut F,
) -> Result<ClassSet, Unloaded>
    ensures { LoadsOne (λ known. ClassesGive known ais.now command (known_name name.entry))
        (option_to_list (known_name name.entry)) (files.new ≡ files.old)
        (F.state files.old) (F.state files.new) result }
{
    match read_if_named(alloc, FileKind::Classes, name, files) {
        Ok(Some(bytes)) => classes_of(ClassSet::load(alloc, ais, bytes.as_bytes())),
        Ok(None) => load_unnamed(alloc, ais, command),
        Err(unloaded) => Err(unloaded),
    }
}

/// Turns the answer of a load of tables from a document into that of a run.
fn tables_of(
    answer: Result<TableSet, LoadFault>,
    source: Text,
) -> Result<TablesWithSource, Unloaded>
    ensures { UnloadedAs source answer result }
{
    match answer {
        Ok(tables) => Ok(TablesWithSource { tables, source }),
        Err(LoadFault::Memory) => Err(Unloaded::Memory),
        Err(error) => Err(Unloaded::Refused(Rejection {
            kind: FileKind::Tables,
            error: FileFault::Tables(error),
        })),
    }
}

/// Loads the built-in tables, which are not from a document.
fn load_builtin(alloc: Global) -> Result<TablesWithSource, Unloaded>
    ensures { IsOfBuiltIn result }
{
    tables_of(builtin(alloc), Text::new(alloc))
}

/// Loads the tables of the named file with its bytes, or the built-in ones if none is named.
pub fn load_tables<F: Files>(
    alloc: Global,
    name: Option<&str>,
    files: &mut F,
) -> Result<TablesWithSource, Unloaded>
    ensures { LoadsOne (λ known. TablesGive known (known_name name.entry))
        (option_to_list (known_name name.entry)) (files.new ≡ files.old)
        (F.state files.old) (F.state files.new) result }
{
    match read_if_named(alloc, FileKind::Tables, name, files) {
        Ok(Some(source)) => tables_of(TableSet::load(alloc, source.as_bytes()), source),
        Ok(None) => load_builtin(alloc),
        Err(unloaded) => Err(unloaded),
    }
}
