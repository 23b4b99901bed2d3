ghost use Rattle.std.specs.Prelude.{◌≡◌, ◌++◌, ◌∷◌, [], ℕ, List, None, IfOk, IfErr, bytes_eq, codes, map};
ghost use Rattle.std.specs.List.{list_any};
ghost use Rattle.gs_linkset.specs.declared.link_types.Target.{Target};
ghost use Rattle.gs_linktext.specs.Contexts.{IsCut};
ghost use Rattle.gs_linktext.specs.Links.{is_rel_error, link_error, types_of};
ghost use Rattle.gs_linktext.specs.ReadAnswers.{IsReadAs, IsReadError};
ghost use Rattle.gs_linktext.specs.Steps.{IsErrorOfLink, IsMoreLinks};

use crate::attrs::attrs_of;
use crate::cuts::push_link;
use crate::types::{first_value, types_in};
use gs_chars::{List, Memory};
use gs_linkset::{Context, LinkDoc, Target};
use gs_linktext_grammar::{LinkTextFault, Param, WrittenLink, read_links};
use std::alloc::Global;

/// Returns the relation types of parameters.
fn types_of(alloc: Global, params: &[Param]) -> Result<Vec<&[u8]>, Memory>
    ensures { IfOk result (λ types. map (λ type. type.now) types.items ≡ types_of params.now) }
{
    match first_value(b"rel", params) {
        Some(value) => types_in(alloc, value),
        None => types_in(alloc, b""),
    }
}

/// Returns whether one of the relation types is `anchor`.
fn has_anchor(types: &[&[u8]]) -> bool
    ensures { result ≡ list_any (λ type. bytes_eq type.now (codes "anchor")) types.now }
{
    types.iter().any(|name| *name == b"anchor".as_slice())
}

/// Returns whether there is no relation type, or one that is `anchor`.
fn is_rel_error(types: &[&[u8]]) -> bool
    ensures { result ≡ is_rel_error (map (λ type. type.now) types.now) }
{
    if types.is_empty() {
        return true;
    }
    has_anchor(types)
}

/// Adds a link to a copy of the target.
fn push_copy(
    alloc: Global,
    contexts: &mut Vec<Context>,
    anchor: &[u8],
    name: &[u8],
    target: &Target,
) -> Result<(), Memory>
    ensures { IfOk result (λ _. (links : List (List ℕ × List ℕ × Target))
        → IsCut links contexts.old.items
        → IsCut (links ++ (anchor.now, name.now, target.now) ∷ []) contexts.new.items) }
{
    let copy = target.copy(alloc)?;
    push_link(alloc, contexts, anchor, name, copy)
}

/// Adds a link for each relation type.
fn push_types(
    alloc: Global,
    contexts: &mut Vec<Context>,
    anchor: &[u8],
    types: &[&[u8]],
    target: &Target,
) -> Result<(), Memory>
    ensures { IfOk result (λ _. (links : List (List ℕ × List ℕ × Target))
        → IsCut links contexts.old.items
        → IsCut (links ++ map (λ type. (anchor.now, type, target.now)) (map (λ type. type.now) types.now))
        contexts.new.items) }
{
    for name in types {
        push_copy(alloc, contexts, anchor, name, target)?;
    }
    Ok(())
}

/// Adds the links of a written link, the link of this number.
fn add_link(
    alloc: Global,
    i: usize,
    link: &WrittenLink,
    contexts: &mut Vec<Context>,
) -> Result<(), LinkTextFault>
    ensures error_free { IfOk result (λ _. link_error i link.now ≡ None) }
    ensures more { IfOk result (λ _. IsMoreLinks link.now contexts.old.items contexts.new.items) }
    ensures rejected { IfErr result (IsErrorOfLink (link_error i link.now)) }
{
    let params = link.params.items();
    let Some(anchor) = first_value(b"anchor", params) else {
        return Err(LinkTextFault::Anchor(i));
    };
    let types = types_of(alloc, params)?;
    if is_rel_error(types.as_slice()) {
        return Err(LinkTextFault::Rel(i));
    }
    let attrs = attrs_of(alloc, params)?;
    let href = link.href.copy(alloc)?;
    let target = Target { href, attrs };
    push_types(alloc, contexts, anchor, types.as_slice(), &target)?;
    Ok(())
}

/// Returns the linkset of a text (RFC 9264, section 4.1). It is a list of links in the syntax of the `Link` field (RFC 8288,
/// section 3), with line breaks allowed as white space. Each relation type of a link's first `rel` gives a link, with the first
/// `anchor` as its anchor.
///
/// Returns `Syntax` if and only if the bytes are not a document of the grammar. Otherwise the first bad link decides, counted
/// from 0. One without an `anchor` gives `Anchor`; one with no relation type, or with the type `anchor`, gives `Rel`. `Anchor`
/// comes first within a link. May return `Memory` instead. The time is linear in the bytes, except for sorting the names of a
/// link's parameters, and for copying a target with several relation types.
pub fn read(alloc: Global, bytes: &[u8]) -> Result<LinkDoc, LinkTextFault>
    ensures read { IfOk result (λ doc. IsReadAs bytes.now doc) }
    ensures rejected { IfErr result (IsReadError bytes.now) }
{
    let links = read_links(alloc, bytes)?;
    let mut contexts = Vec::new(alloc);
    let written = links.as_slice();
    for i in 0..written.len() {
        let link = &written[i];
        add_link(alloc, i, link, &mut contexts)?;
    }
    Ok(LinkDoc::of_contexts(List::from_vec(contexts)))
}
