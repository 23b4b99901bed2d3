ghost use Rattle.std.specs.Prelude.{◌≡◌, IfOk, true, ◌∷◌, ◌++◌, [], map};
ghost use Rattle.std.specs.List.{list_all};
ghost use Rattle.gs_linkset.specs.LinkShapes.{is_context, is_target};
ghost use Rattle.gs_merge.specs.MergedDocuments.{merge_answer, merged, contexts_of, relations_of, targets_of};
ghost use Rattle.gs_merge.specs.Stores.{LoadsForBoth};
ghost use Rattle.gs_merge.specs.Distinct.{distinct};
ghost use Rattle.gs_linkset.specs.WrittenTrees.{target_text};
ghost use Rattle.gs_merge.specs.Groups.{AreTextsOf, with_target};
ghost use Rattle.gs_chars.specs.Answers.{OrError};

use crate::error::MergeFault;
use crate::groups::{Grouping, StoredLink, groups_of, stored_links};
use gs_chars::{List, Memory, Text};
use gs_links::{Store, is_over};
use gs_linkset::{Context, LinkDoc, Relation, Target};
use std::alloc::Global;
use std::collections::BTreeMap;

/// Returns the contexts of the merged document.
fn merged_contexts(alloc: Global, a: &Store, b: &Store) -> Result<List<Context>, Memory>
    ensures answer { IfOk result (λ contexts. contexts ≡ merged a.now b.now) }
    ensures shape { IfOk result (λ contexts. list_all is_context contexts ≡ true) }
{
    let links = stored_links(alloc, a, b)?;
    contexts_of(alloc, links.as_slice())
}

/// Returns the merged document of two stores. Its contexts are the canonical links of all anchors of both stores, without
/// duplicates, in ascending order. A context has each relation of its links except `anchor`, in ascending order. A relation has
/// the targets of the first store and then those of the second, in their stores' orders. It has only the first of equal
/// targets. Two targets are equal if their target URIs and all their attributes are. Returns `TooMany` if and only if the
/// document has more than 65,536 targets. May return `Memory` instead. The document loads, to
/// its links, by a table and a vocabulary that keeps names if both stores are of these. Takes O(n log n) steps for n links.
pub fn merge(alloc: Global, a: &Store, b: &Store) -> Result<LinkDoc, MergeFault>
    ensures answer { OrError MergeFault.Memory result (merge_answer a.now b.now) }
    ensures loads { IfOk result (LoadsForBoth a.now b.now) }
{
    let contexts = merged_contexts(alloc, a, b)?;
    if is_over(contexts.items()) {
        return Err(MergeFault::TooMany);
    }
    Ok(LinkDoc::of_contexts(contexts))
}

/// Adds the relation of a name with the targets of its links.
fn push_relation(
    alloc: Global,
    name: Text,
    links: &[StoredLink<'_>],
    relations: &mut Vec<Relation>,
) -> Result<(), Memory>
    ensures { IfOk result (λ _. relations.new.items ≡ relations.old.items
        ++ record { name = name; targets = distinct (targets_of links.now) } ∷ []) }
{
    let targets = distinct_targets(alloc, links)?;
    relations.push(Relation { name, targets })?;
    Ok(())
}

/// Returns the relations of links, in ascending order of name.
fn relations_of(alloc: Global, links: &[StoredLink<'_>]) -> Result<List<Relation>, Memory>
    ensures { IfOk result (λ relations. relations ≡ relations_of links.now) }
{
    let groups = groups_of(alloc, Grouping::ByRelation, links)?;
    let mut relations = Vec::new(alloc);
    for entry in groups {
        let (name, group) = entry;
        push_relation(alloc, name, group.as_slice(), &mut relations)?;
    }
    Ok(List::from_vec(relations))
}

/// Adds the context of an anchor with the relations of its links.
fn push_context(
    alloc: Global,
    anchor: Text,
    links: &[StoredLink<'_>],
    contexts: &mut Vec<Context>,
) -> Result<(), Memory>
    ensures { IfOk result (λ _. contexts.new.items ≡ contexts.old.items
        ++ record { anchor = anchor; relations = relations_of links.now } ∷ []) }
{
    let relations = relations_of(alloc, links)?;
    contexts.push(Context { anchor, relations })?;
    Ok(())
}

/// Returns the contexts of links, in ascending order of anchor.
fn contexts_of(alloc: Global, links: &[StoredLink<'_>]) -> Result<List<Context>, Memory>
    ensures { IfOk result (λ contexts. contexts ≡ contexts_of links.now) }
{
    let groups = groups_of(alloc, Grouping::ByAnchor, links)?;
    let mut contexts = Vec::new(alloc);
    for entry in groups {
        let (anchor, group) = entry;
        push_context(alloc, anchor, group.as_slice(), &mut contexts)?;
    }
    Ok(List::from_vec(contexts))
}

/// Returns the text that identifies a target.
fn text_of(alloc: Global, target: &Target) -> Result<Text, Memory>
    requires { is_target target.now ≡ true }
    ensures { IfOk result (λ text. text ≡ target_text target.now) }
{
    target.text(alloc)
}

/// Appends a copy of a target unless an equal one, with the same text, was appended before.
fn add_target(
    alloc: Global,
    texts: &mut BTreeMap<Text, ()>,
    targets: &mut Vec<Target>,
    target: &Target,
) -> Result<(), Memory>
    requires shape { is_target target.now ≡ true }
    requires targets { list_all is_target targets.old.items ≡ true }
    requires texts { AreTextsOf texts.old.entries targets.old.items }
    ensures targets { IfOk result (λ _. targets.new.items ≡ with_target targets.old.items target.now) }
    ensures texts { IfOk result (λ _. AreTextsOf texts.new.entries targets.new.items) }
{
    if texts.insert(text_of(alloc, target)?, ())?.is_some() {
        return Ok(());
    }
    targets.push(target.copy(alloc)?)?;
    Ok(())
}

/// Copies of the targets of links, each equal one once, at its first place.
fn distinct_targets(alloc: Global, links: &[StoredLink<'_>]) -> Result<List<Target>, Memory>
    ensures { IfOk result (λ targets. targets ≡ distinct (targets_of links.now)) }
{
    let mut texts = BTreeMap::new(alloc);
    let mut targets = Vec::new(alloc);
    for link in links {
        add_target(alloc, &mut texts, &mut targets, &link.link().target)?;
    }
    Ok(List::from_vec(targets))
}
