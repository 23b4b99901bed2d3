ghost use Rattle.std.specs.Prelude.{◌≡◌, true};
ghost use Rattle.tdl_arguments.specs.Ranges.{is_vocabulary};
ghost use Rattle.tdl_arguments.specs.Requests.{all_named, description_named, known_files, known_request, known_values, tables_named};
ghost use Rattle.tdl_loads.specs.Loads.{FilesGive, named_up_to};
ghost use Rattle.tdl_loads.specs.LoadsSupport.{Loads, LoadsOne, SettingsGive, TabledGive};

use crate::linked::load_linked;
use crate::named_files::{load_classes, load_prefixes, load_tables, read_if_named};
use gs_chars::{Memory, Text};
use gs_class::ClassSet;
use gs_http::Settings;
use gs_links::Store;
use gs_linkset::LinkDoc;
use gs_port::Files;
use gs_prefix::PrefixList;
use gs_tables::TableSet;
use std::alloc::Global;
use tdl_arguments::{NamedFiles, NamedValues, Request};
use tdl_messages::{FileKind, Rejection};
use thiserror::Error;

/// Tables, and their document.
#[derive(Drop)]
pub struct TablesWithSource {
    /// The tables.
    pub tables: TableSet,
    /// The bytes of the document; empty if the tables are the built-in ones.
    pub source: Text,
}

/// The tables and the company prefix lengths that a run has loaded.
#[derive(Drop)]
pub struct Tabled {
    /// The tables.
    pub tables: TableSet,
    /// The bytes of the document that the tables are from; empty for the built-in ones.
    pub source: Text,
    /// The company prefix lengths.
    pub prefixes: PrefixList,
}

/// The links that a run has loaded, and the document that they and others were merged to. It has no context if there are no others.
#[derive(Drop)]
pub struct Linked {
    /// The links.
    pub links: Store,
    /// The merged document.
    pub merged: LinkDoc,
}

/// The loaded contents of a run.
pub struct Loaded {
    /// The tables.
    pub tables: TableSet,
    /// The bytes of the document that the tables are from; empty for the built-in ones.
    pub source: Text,
    /// The company prefix lengths.
    pub prefixes: PrefixList,
    /// The links.
    pub links: Store,
    /// The document that the links and others were merged to.
    pub merged: LinkDoc,
    /// The settings of replies: the vocabulary, the description of the resolver, and whether references are templates.
    pub settings: Settings,
    /// The classes of class URIs.
    pub classes: ClassSet,
}

// by hand, so that a function that drops a `Loaded` calls this one: a derived drop is written out at each of its exits
impl Drop for Loaded {
    fn drop(self) {
        let Loaded {
            tables: _,
            source: _,
            prefixes: _,
            links: _,
            merged: _,
            settings: _,
            classes: _,
        } = self;
    }
}

/// The reason why a run has not loaded its files.
#[derive(Debug, PartialEq, Drop, Error)]
pub enum Unloaded {
    /// A file is rejected.
    #[error("a file is rejected")]
    Refused(Rejection),
    /// The files counted an error, or a file is missing.
    #[error("a file cannot be read")]
    ReadFault,
    /// Out of memory.
    #[error("out of memory")]
    Memory,
}

impl From<Memory> for Unloaded {
    ghost use Rattle.std.specs.Prelude.{◌≡◌};
    ghost use Rattle.tdl_loads.specs.declared.loads.Unloaded.TheVariants.{Memory as OutOfMemory};

    ghost from_gives = { λ _ e. e ≡ OutOfMemory };

    fn from(_rejected: Memory) -> Unloaded {
        Unloaded::Memory
    }
}

/// Loads the tables and the company prefix lengths. Without a name, the tables are the built-in ones, and there are no prefixes.
fn load_tabled<F: Files>(
    alloc: Global,
    named: NamedFiles<'_>,
    files: &mut F,
) -> Result<Tabled, Unloaded>
    ensures { Loads (λ known. TabledGive known (known_files named.entry))
        (λ kind. named_up_to kind (known_files named.entry))
        (tables_named (known_files named.entry)) (files.new ≡ files.old)
        (F.state files.old) (F.state files.new) result }
{
    let given = load_tables(alloc, named.tables, files)?;
    let prefixes = load_prefixes(alloc, named.prefixes, files)?;
    let TablesWithSource { tables, source } = given;
    Ok(Tabled {
        tables,
        source,
        prefixes,
    })
}

/// Loads the settings of replies: the values, and the description, if it is named.
fn load_settings<F: Files>(
    alloc: Global,
    values: NamedValues<'_>,
    named: NamedFiles<'_>,
    files: &mut F,
) -> Result<Settings, Unloaded>
    ensures { LoadsOne (λ known. SettingsGive known (known_files named.entry) (known_values values.entry))
        (description_named (known_files named.entry)) (files.new ≡ files.old)
        (F.state files.old) (F.state files.new) result }
{
    let describe = read_if_named(alloc, FileKind::Describe, named.describe, files)?;
    let voc = Text::from_bytes(alloc, values.voc.as_bytes())?;
    Ok(Settings {
        voc,
        describe,
        templates: values.templates,
    })
}

/// Loads the files in their order: tables, company prefix lengths, links, second and third ones, the description, classes. It
/// stops at the first that is missing, cannot be read or is rejected, and opens no later one. If they are not named, the tables
/// are the built-in ones, and there are no prefixes, links or description. Without a file of classes, a command on class URIs
/// has the built-in ones, and any other command none.
pub fn load_files<F: Files>(
    alloc: Global,
    request: Request<'_>,
    files: &mut F,
) -> Result<Loaded, Unloaded>
    requires { is_vocabulary request.values.voc.now ≡ true }
    ensures { Loads (λ known. FilesGive known (known_request request.entry))
        (λ kind. named_up_to kind (known_request request.entry).files)
        (all_named request.entry) (files.new ≡ files.old)
        (F.state files.old) (F.state files.new) result }
{
    let Request {
        command,
        files: named,
        values,
    } = request;
    let tabled = load_tabled(alloc, named, files)?;
    let table = tabled.tables.ais();
    let linked = load_linked(alloc, table, values, named, files)?;
    let settings = load_settings(alloc, values, named, files)?;
    let classes = load_classes(alloc, table, command, named.classes, files)?;
    let Tabled {
        tables,
        source,
        prefixes,
    } = tabled;
    let Linked { links, merged } = linked;
    Ok(Loaded {
        tables,
        source,
        prefixes,
        links,
        merged,
        settings,
        classes,
    })
}
