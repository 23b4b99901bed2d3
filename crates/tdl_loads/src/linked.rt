ghost use Rattle.std.specs.Prelude.{◌≡◌, true, Ok};
ghost use Rattle.gs_merge.specs.MergedDocuments.{merge_answer};
ghost use Rattle.tdl_messages.specs.declared.file_kind.FileKind.TheVariants.{Merge as OfMerge};
ghost use Rattle.tdl_arguments.specs.Ranges.{is_vocabulary};
ghost use Rattle.tdl_arguments.specs.Requests.{known_files, known_values, links_named};
ghost use Rattle.tdl_loads.specs.Loads.{merged_with, merging, link_errors, places_errors};
ghost use Rattle.tdl_loads.specs.LoadsSupport.{LinkedGive, Loads, links_up_to};
ghost use Rattle.tdl_loads.specs.Reads.{JudgedAs};
ghost use Rattle.gs_chars.specs.Answers.{first_or};
ghost use Rattle.gs_translate.specs.Steps.{reworded};

use crate::links::{Judging, load_links, load_other, load_store, no_context};
use crate::loads::{Linked, Unloaded};
use gs_ai::AiTable;
use gs_links::{Link, Store, StoreFault};
use gs_linkset::LinkDoc;
use gs_merge::{MergeFault, merge};
use gs_port::Files;
use gs_template::places_ok;
use std::alloc::Global;
use tdl_arguments::{NamedFiles, NamedValues};
use tdl_messages::{FileFault, FileKind, Rejection};

/// Merges two stores to one document.
fn merge_two(alloc: Global, first: &Store, second: &Store) -> Result<LinkDoc, Unloaded>
    ensures { JudgedAs OfMerge (reworded
        (λ _. FileFault.Store StoreFault.TooMany) (merge_answer first.now second.now)) result }
{
    match merge(alloc, first, second) {
        Ok(doc) => Ok(doc),
        Err(MergeFault::Memory) => Err(Unloaded::Memory),
        Err(MergeFault::TooMany) => Err(Unloaded::Refused(Rejection {
            kind: FileKind::Merge,
            error: FileFault::Store(StoreFault::TooMany),
        })),
    }
}

/// Merges a merged document and third links to one document, or returns the merged one if there are no third links.
fn merge_third(
    alloc: Global,
    ais: &AiTable,
    voc: &str,
    merged: LinkDoc,
    third: Option<Store>,
) -> Result<LinkDoc, Unloaded>
    requires { is_vocabulary voc.now ≡ true }
    ensures { JudgedAs OfMerge (merged_with ais.now voc.now (Ok merged) third) result }
{
    let Some(third) = third else {
        return Ok(merged);
    };
    let judging = Judging {
        kind: FileKind::Merge,
        ais,
        voc,
        templates: false,
    };
    match load_store(alloc, judging, merged) {
        Ok(store) => merge_two(alloc, &store, &third),
        Err(unloaded) => Err(unloaded),
    }
}

/// Merges links, second and third ones to one document. Without second ones it has no context.
fn merge_all(
    alloc: Global,
    ais: &AiTable,
    voc: &str,
    links: &Store,
    second: Option<Store>,
    third: Option<Store>,
) -> Result<LinkDoc, Unloaded>
    requires { is_vocabulary voc.now ≡ true }
    ensures { JudgedAs OfMerge (merging ais.now voc.now links.now second third) result }
{
    let Some(second) = second else {
        return Ok(no_context(alloc));
    };
    match merge_two(alloc, links, &second) {
        Ok(merged) => merge_third(alloc, ais, voc, merged, third),
        Err(unloaded) => Err(unloaded),
    }
}

/// Loads the links, second and third ones, and merges them to one document if there are second ones.
pub fn load_linked<F: Files>(
    alloc: Global,
    ais: &AiTable,
    values: NamedValues<'_>,
    named: NamedFiles<'_>,
    files: &mut F,
) -> Result<Linked, Unloaded>
    requires { is_vocabulary values.voc.now ≡ true }
    ensures { Loads
        (λ known. LinkedGive known (known_files named.entry) (known_values values.entry) ais.now)
        (λ kind. links_up_to kind (known_files named.entry))
        (links_named (known_files named.entry)) (files.new ≡ files.old)
        (F.state files.old) (F.state files.new) result }
{
    let voc = values.voc;
    let links = load_links(alloc, ais, voc, values.templates, named.links, files)?;
    let second = load_other(alloc, FileKind::Second, ais, voc, named.second, files)?;
    let third = load_other(alloc, FileKind::Third, ais, voc, named.third, files)?;
    let merged = merge_all(alloc, ais, voc, &links, second, third)?;
    Ok(Linked { links, merged })
}

/// Finds the first error of the template that is the reference of the link of this number.
fn judge_link(ais: &AiTable, i: usize, link: &Link) -> Result<(), FileFault>
    ensures { result ≡ first_or (link_errors ais.now (i, link.now)) tt }
{
    let key = link.anchor.key().code();
    match places_ok(ais, key, link.target.href.as_bytes()) {
        Ok(()) => Ok(()),
        Err(error) => Err(FileFault::Place(i, error)),
    }
}

/// Finds the first error of the templates that are the references of links, in the order of the links. Does not allocate.
pub fn judge_places(ais: &AiTable, links: &Store) -> Result<(), FileFault>
    ensures { result ≡ first_or (places_errors ais.now links.now) tt }
{
    for i in 0..links.len() {
        judge_link(ais, i, links.link(i))?;
    }
    Ok(())
}
