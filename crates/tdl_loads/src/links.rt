ghost use Rattle.std.specs.Prelude.{◌≡◌, [], IfErr, IfOk, Ok, Some, false, option_map, option_to_list, true};
ghost use Rattle.gs_links.specs.Loads.{load_answer};
ghost use Rattle.gs_linkset.specs.Answers.{read_answer};
ghost use Rattle.gs_linktext.specs.ReadAnswers.{IsReadAs, IsReadError};
ghost use Rattle.tdl_messages.specs.declared.file_kind.FileKind.TheVariants.{Links as OfLinks};
ghost use Rattle.tdl_arguments.specs.Ranges.{is_vocabulary};
ghost use Rattle.tdl_arguments.specs.Requests.{known_links, known_name, name_of_links};
ghost use Rattle.tdl_loads.specs.Loads.{JudgesFile, JudgesText, LinksGive, OtherGives, links_verdict, other_verdict, placed, store_verdict};
ghost use Rattle.tdl_loads.specs.LoadsSupport.{LoadsOne};
ghost use Rattle.tdl_loads.specs.Reads.{JudgedAs, JudgedBy, unread_text};
ghost use Rattle.gs_chars.specs.Answers.{OrError};

use crate::linked::judge_places;
use crate::loads::Unloaded;
use crate::named_files::read_if_named;
use gs_ai::AiTable;
use gs_chars::{List, Text};
use gs_json::JsonFault;
use gs_links::{Store, StoreFault};
use gs_linkset::{LinkDoc, read};
use gs_linktext_grammar::LinkTextFault;
use gs_port::Files;
use std::alloc::Global;
use tdl_arguments::LinksFile;
use tdl_messages::{FileFault, FileKind, Rejection};

/// How links are judged.
#[derive(Clone, Copy)]
pub struct Judging<'a> {
    /// The kind of the file that they are in.
    pub kind: FileKind,
    /// The application identifiers of their anchors.
    pub ais: &'a AiTable,
    /// The vocabulary that `gs1:` stands for in their relations.
    pub voc: &'a str,
    /// Whether their references are templates.
    pub templates: bool,
}

/// Returns the links of a store, unless one of their references is an invalid template.
fn placed(judging: Judging<'_>, store: Store) -> Result<Store, Unloaded>
    ensures { JudgedAs judging.entry.kind (placed judging.entry.templates judging.entry.ais.now store)
        result }
{
    if !judging.templates {
        return Ok(store);
    }
    match judge_places(judging.ais, &store) {
        Ok(()) => Ok(store),
        Err(error) => Err(Unloaded::Refused(Rejection {
            kind: judging.kind,
            error,
        })),
    }
}

/// Loads the store of a linkset.
pub fn load_store(alloc: Global, judging: Judging<'_>, doc: LinkDoc) -> Result<Store, Unloaded>
    requires { is_vocabulary judging.voc.now ≡ true }
    ensures { JudgedAs judging.entry.kind (store_verdict judging.entry.templates judging.entry.ais.now
        (load_answer judging.entry.ais.now judging.entry.voc.now doc)) result }
{
    match Store::load(alloc, judging.ais, judging.voc.as_bytes(), doc) {
        Ok(store) => placed(judging, store),
        Err(StoreFault::Memory) => Err(Unloaded::Memory),
        Err(error) => Err(Unloaded::Refused(Rejection {
            kind: judging.kind,
            error: FileFault::Store(error),
        })),
    }
}

/// Reads a linkset in JSON and gives its bytes up.
fn read_json(alloc: Global, bytes: Text) -> Result<LinkDoc, JsonFault>
    ensures { OrError JsonFault.Memory result (read_answer bytes) }
{
    read(alloc, bytes.as_bytes())
}

/// Loads the links of bytes in JSON, which it gives up before it makes the store.
fn judge_json(alloc: Global, judging: Judging<'_>, bytes: Text) -> Result<Store, Unloaded>
    requires { is_vocabulary judging.voc.now ≡ true }
    ensures { JudgedAs judging.entry.kind (links_verdict judging.entry.templates judging.entry.ais.now
        judging.entry.voc.now (read_answer bytes)) result }
{
    match read_json(alloc, bytes) {
        Ok(doc) => load_store(alloc, judging, doc),
        Err(JsonFault::Memory) => Err(Unloaded::Memory),
        Err(error) => Err(Unloaded::Refused(Rejection {
            kind: judging.kind,
            error: FileFault::Linkset(error),
        })),
    }
}

/// Returns the reason that a run has not loaded a file of a kind, since it is not a linkset as text.
fn unread_text(kind: FileKind, error: LinkTextFault) -> Unloaded
    ensures { result ≡ unread_text kind error }
{
    match error {
        LinkTextFault::Memory => Unloaded::Memory,
        LinkTextFault::Syntax | LinkTextFault::Anchor(_) | LinkTextFault::Rel(_) => {
            Unloaded::Refused(Rejection {
                kind,
                error: FileFault::LinkText(error),
            })
        }
    }
}

/// Reads a linkset as text and gives its bytes up.
fn read_text(alloc: Global, bytes: Text) -> Result<LinkDoc, LinkTextFault>
    ensures read { IfOk result (λ doc. IsReadAs bytes doc) }
    ensures rejected { IfErr result (IsReadError bytes) }
{
    gs_linktext::read(alloc, bytes.as_bytes())
}

/// Loads the links of bytes as text, which it gives up before it makes the store.
fn judge_text(alloc: Global, judging: Judging<'_>, bytes: Text) -> Result<Store, Unloaded>
    requires { is_vocabulary judging.voc.now ≡ true }
    ensures { JudgedBy judging.entry.kind (JudgesText judging.entry.templates judging.entry.ais.now
        judging.entry.voc.now bytes) result }
{
    match read_text(alloc, bytes) {
        Ok(doc) => load_store(alloc, judging, doc),
        Err(error) => Err(unread_text(judging.kind, error)),
    }
}

/// Returns the name of a file of links.
fn name_of(file: Option<LinksFile<'_>>) -> Option<&str>
    ensures { known_name result ≡ option_map name_of_links (known_links file.entry) }
{
    match file {
        Some(LinksFile::Json(name)) => Some(name),
        Some(LinksFile::Text(name)) => Some(name),
        None => None,
    }
}

/// Loads the links of the bytes of a named file.
fn judge_named(
    alloc: Global,
    judging: Judging<'_>,
    file: LinksFile<'_>,
    bytes: Text,
) -> Result<Store, Unloaded>
    requires { is_vocabulary judging.voc.now ≡ true }
    ensures { JudgedBy judging.entry.kind (JudgesFile judging.entry.templates judging.entry.ais.now
        judging.entry.voc.now (known_links (Some file.entry)) bytes) result }
{
    match file {
        LinksFile::Text(_) => judge_text(alloc, judging, bytes),
        LinksFile::Json(_) => judge_json(alloc, judging, bytes),
    }
}

/// Loads the links of the bytes of a file, in JSON if none is named.
fn judge_file(
    alloc: Global,
    judging: Judging<'_>,
    file: Option<LinksFile<'_>>,
    bytes: Text,
) -> Result<Store, Unloaded>
    requires { is_vocabulary judging.voc.now ≡ true }
    ensures { JudgedBy judging.entry.kind (JudgesFile judging.entry.templates judging.entry.ais.now
        judging.entry.voc.now (known_links file.entry) bytes) result }
{
    match file {
        Some(file) => judge_named(alloc, judging, file, bytes),
        None => judge_json(alloc, judging, bytes),
    }
}

/// Makes the store of no link.
fn load_no_link(alloc: Global, ais: &AiTable, voc: &str) -> Result<Store, Unloaded>
    requires { is_vocabulary voc.now ≡ true }
    ensures { JudgedAs OfLinks (Ok []) result }
{
    let judging = Judging {
        kind: FileKind::Links,
        ais,
        voc,
        templates: false,
    };
    load_store(alloc, judging, no_context(alloc))
}

/// Makes the document of no context.
#[tactic(auto, unfolding(gs_linkset::specs::LinkShapes::is_context))]
pub fn no_context(alloc: Global) -> LinkDoc
    ensures { result ≡ [] }
{
    LinkDoc::of_contexts(List::from_vec(Vec::new(alloc)))
}

/// Loads the links of the named file, in JSON or as text, or none if none is named. In their relations `gs1:` stands for the
/// vocabulary, and their references are templates or are not.
pub fn load_links<F: Files>(
    alloc: Global,
    ais: &AiTable,
    voc: &str,
    templates: bool,
    file: Option<LinksFile<'_>>,
    files: &mut F,
) -> Result<Store, Unloaded>
    requires { is_vocabulary voc.now ≡ true }
    ensures { LoadsOne (λ known. LinksGive known templates ais.now voc.now (known_links file.entry))
        (option_to_list (option_map name_of_links (known_links file.entry))) (files.new ≡ files.old)
        (F.state files.old) (F.state files.new) result }
{
    let judging = Judging {
        kind: FileKind::Links,
        ais,
        voc,
        templates,
    };
    match read_if_named(alloc, FileKind::Links, name_of(file), files) {
        Ok(Some(bytes)) => judge_file(alloc, judging, file, bytes),
        Ok(None) => load_no_link(alloc, ais, voc),
        Err(unloaded) => Err(unloaded),
    }
}

/// Loads the links of bytes in JSON, which are merged with others.
fn judge_other(
    alloc: Global,
    kind: FileKind,
    ais: &AiTable,
    voc: &str,
    bytes: Text,
) -> Result<Option<Store>, Unloaded>
    requires { is_vocabulary voc.now ≡ true }
    ensures { JudgedAs kind (other_verdict (links_verdict false ais.now voc.now (read_answer bytes)))
        result }
{
    let judging = Judging {
        kind,
        ais,
        voc,
        templates: false,
    };
    match judge_json(alloc, judging, bytes) {
        Ok(store) => Ok(Some(store)),
        Err(unloaded) => Err(unloaded),
    }
}

/// Loads the links of the named file of a kind, in JSON, which are merged with others. Loads none if none is named.
pub fn load_other<F: Files>(
    alloc: Global,
    kind: FileKind,
    ais: &AiTable,
    voc: &str,
    name: Option<&str>,
    files: &mut F,
) -> Result<Option<Store>, Unloaded>
    requires { is_vocabulary voc.now ≡ true }
    ensures { LoadsOne (λ known. OtherGives known kind ais.now voc.now (known_name name.entry))
        (option_to_list (known_name name.entry)) (files.new ≡ files.old)
        (F.state files.old) (F.state files.new) result }
{
    match read_if_named(alloc, kind, name, files) {
        Ok(Some(bytes)) => judge_other(alloc, kind, ais, voc, bytes),
        Ok(None) => Ok(None),
        Err(unloaded) => Err(unloaded),
    }
}
