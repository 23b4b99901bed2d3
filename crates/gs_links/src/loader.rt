ghost use Rattle.std.specs.Prelude.{◌≡◌, ◌++◌, [], IfErr, IfOk, Ok, map, not, position, true, ◌≤◌, ◌+◌, min, nat_lt};
ghost use Rattle.std.specs.Prelude.{suc};
ghost use Rattle.gs_linkset.specs.LinkShapes.{is_context};
ghost use Rattle.gs_links.specs.Shapes.{is_link, most_links};
ghost use Rattle.std.specs.List.{enumerate_from, flat_map, list_all};
ghost use Rattle.gs_ident.specs.Identities.{IsMadeWith};
ghost use Rattle.gs_links.specs.Loads.{anchor_answer, context_errors, context_links, is_reference, link_with};
ghost use Rattle.gs_links.specs.Loads.{links_of, relation_links, relations_errors, targets_count, expanded};
ghost use Rattle.gs_links.specs.Loads.{keeps_names};
ghost use Rattle.gs_links.specs.LoadingSupport.{IsRejection, relations_count};
ghost use Rattle.gs_chars.specs.Answers.{first_or, OrError};
ghost use Rattle.gs_chars.specs.Characters.{is_visible};

use crate::anchors::read_anchor;
use crate::error::StoreFault;
use crate::kept_anchor::Anchor;
use crate::link::Link;
use gs_ai::AiTable;
use gs_chars::{List, Memory, Text, are_visible};
use gs_linkset::{Context, Relation, Target};
use std::alloc::Global;

/// Returns whether a text is 1 to 2,048 visible characters.
#[tactic(auto, unfolding(crate::specs::Loads::is_reference))]
fn is_reference(text: &[u8]) -> bool
    ensures { result ≡ is_reference text.now }
{
    1 <= text.len() && text.len() <= 2048 && are_visible(text)
}

/// Returns the number of the first target whose `href` is not a reference.
fn bad_target(targets: &[Target]) -> Option<usize>
    ensures { result ≡ position (λ target. not (is_reference target.href)) targets.now }
{
    targets
        .iter()
        .position(|target| !is_reference(target.href.as_bytes()))
}

/// Returns the first rejection of the relations of the context at an index.
fn judge_relations(i: usize, relations: &[Relation]) -> Result<(), StoreFault>
    ensures { result ≡ first_or (relations_errors i relations.now) tt }
{
    for (r, relation) in relations.iter().enumerate() {
        if let Some(t) = bad_target(relation.targets.items()) {
            return Err(StoreFault::BadHref(i, r, t));
        }
    }
    Ok(())
}

/// Returns the link of an anchor by a relation to a target.
fn link_with(
    alloc: Global,
    anchor: &Anchor,
    relation: &Text,
    target: Target,
) -> Result<Link, Memory>
    ensures { IfOk result (λ link. link ≡ link_with anchor.now relation.now target) }
{
    Ok(Link {
        anchor: anchor.copy(alloc)?,
        relation: relation.copy(alloc)?,
        target,
    })
}

/// Adds the links of targets.
fn push_targets(
    alloc: Global,
    anchor: &Anchor,
    relation: &Text,
    targets: List<Target>,
    links: &mut Vec<Link>,
) -> Result<(), Memory>
    ensures { IfOk result (λ _. links.new.items
        ≡ links.old.items ++ map (link_with anchor.now relation.now) targets) }
{
    for target in targets.into_vec() {
        links.push(link_with(alloc, anchor, relation, target)?)?;
    }
    Ok(())
}

/// Adds the links of a relation.
fn push_relation(
    alloc: Global,
    voc: &[u8],
    anchor: &Anchor,
    relation: Relation,
    links: &mut Vec<Link>,
) -> Result<(), Memory>
    ensures { IfOk result (λ _. links.new.items
        ≡ links.old.items ++ relation_links voc.now anchor.now relation) }
{
    let name = expand(alloc, voc, relation.name)?;
    push_targets(alloc, anchor, &name, relation.targets, links)
}

/// Adds the links of relations.
fn push_relations(
    alloc: Global,
    voc: &[u8],
    anchor: &Anchor,
    relations: List<Relation>,
    links: &mut Vec<Link>,
) -> Result<(), Memory>
    ensures { IfOk result (λ _. links.new.items
        ≡ links.old.items ++ flat_map (relation_links voc.now anchor.now) relations) }
{
    for relation in relations.into_vec() {
        push_relation(alloc, voc, anchor, relation, links)?;
    }
    Ok(())
}

/// Returns the anchor of the context at an index, or the context's first rejection.
fn judge_context(
    alloc: Global,
    table: &AiTable,
    i: usize,
    context: &Context,
) -> Result<Anchor, StoreFault>
    ensures rejected { IfErr result (IsRejection table.now i context.now) }
    ensures anchor { IfOk result (λ anchor. Ok anchor ≡ anchor_answer table.now context.now.anchor) }
    ensures with_table { IfOk result (λ anchor. IsMadeWith table.now anchor) }
    ensures relations { IfOk result (λ _. relations_errors i context.now.relations ≡ []) }
{
    let anchor = match read_anchor(alloc, table, context.anchor.as_bytes())? {
        Ok(anchor) => Anchor::of(alloc, &anchor)?,
        Err(why) => return Err(StoreFault::BadAnchor(i, why)),
    };
    judge_relations(i, context.relations.items())?;
    Ok(anchor)
}

/// Adds the links of the context at an index, or answers its first rejection.
fn push_context(
    alloc: Global,
    table: &AiTable,
    voc: &[u8],
    i: usize,
    context: Context,
    links: &mut Vec<Link>,
) -> Result<(), StoreFault>
    requires voc { list_all is_visible voc.now ≡ true }
    requires shape { is_context context ≡ true }
    ensures answer { OrError StoreFault.Memory result (first_or (context_errors table.now i context) tt) }
    ensures links { IfOk result (λ _. links.new.items
        ≡ links.old.items ++ context_links table.now voc.now context) }
    ensures shape { IfOk result (λ _. list_all is_link (context_links table.now voc.now context) ≡ true) }
{
    // Only for the proof: the rows satisfy the rules.
    let _ = table.rows();
    let anchor = judge_context(alloc, table, i, &context)?;
    push_relations(alloc, voc, &anchor, context.relations, links)?;
    Ok(())
}

/// Returns the links of contexts, in their order, or the first rejection, context by context.
pub(crate) fn links_of(
    alloc: Global,
    table: &AiTable,
    voc: &[u8],
    contexts: List<Context>,
) -> Result<List<Link>, StoreFault>
    requires voc { list_all is_visible voc.now ≡ true }
    requires shape { list_all is_context contexts ≡ true }
    ensures answer { OrError StoreFault.Memory result
        (first_or (flat_map (λ row. context_errors table.now row.0 row.1) (enumerate_from 0 contexts))
        (links_of table.now voc.now contexts)) }
    ensures shape { IfOk result (λ links. list_all is_link links ≡ true) }
{
    let mut links = Vec::new(alloc);
    let mut i = 0;
    for context in contexts.into_vec() {
        push_context(alloc, table, voc, i, context, &mut links)?;
        i += 1;
    }
    Ok(List::from_vec(links))
}

/// The most links that a store has: one for each target.
const MOST_LINKS: usize = 65_536;

/// Returns the sum of a count and the number of the relations' targets, up to one more than a store has.
fn count_relations(before: usize, relations: &[Relation]) -> usize
    requires { before ≤ suc most_links }
    ensures { result ≡ min (before + relations_count relations.now) (suc most_links) }
{
    let mut count = before;
    for relation in relations {
        count = (count + relation.targets.items().len()).min(MOST_LINKS + 1);
    }
    count
}

/// Returns whether the contexts have more targets than a store has links: more than 65,536.
pub fn is_over(contexts: &[Context]) -> bool
    ensures { result ≡ nat_lt most_links (targets_count contexts.now) }
{
    let mut count = 0;
    for context in contexts {
        count = count_relations(count, context.relations.items());
    }
    MOST_LINKS < count
}

/// Returns whether expanding an expanded relation again does not change it: neither the vocabulary nor `gs1:` begins with the
/// other. So it does not begin with `gs1:`, is not empty, and is not `g`, `gs` or `gs1`.
#[tactic(auto, unfolding(crate::specs::Loads::keeps_names))]
pub fn keeps_names(voc: &[u8]) -> bool
    ensures { result ≡ keeps_names voc.now }
{
    !voc.starts_with(b"gs1:") && !b"gs1:".starts_with(voc)
}

/// Returns the relation of this name. If the name begins with `gs1:`, it is the vocabulary with the rest, otherwise the name.
/// Fails only with `Memory`.
#[tactic(auto, unfolding(crate::specs::Loads::expanded))]
pub fn expand(alloc: Global, voc: &[u8], name: Text) -> Result<Text, Memory>
    ensures { IfOk result (λ relation. relation ≡ expanded voc.now name) }
{
    match name.as_bytes().strip_prefix(b"gs1:") {
        Some(rest) => {
            let mut relation = Vec::from_slice(alloc, voc)?;
            relation.extend_from_slice(rest)?;
            Ok(Text::from_vec(relation))
        }
        None => Ok(name),
    }
}
