ghost use Rattle.std.specs.Prelude.{◌≡◌, ◌∷◌, ◌++◌, [], IfOk, List, None, Some, ℕ, if◌then◌else◌, map, option_map};
ghost use Rattle.std.specs.Prelude.{unwrap_or, true};
ghost use Rattle.std.specs.Cmp.Lexicographic.{slice_cmp};
ghost use Rattle.std.specs.List.Sorted.{IsStrictlySortedBy};
ghost use Rattle.std.specs.Map.{keys_of};
ghost use Rattle.std.specs.Ordering.{nat_cmp};
ghost use Rattle.std.specs.Str.{bytes_eq};
ghost use Rattle.gs_merge.specs.Groups.{entry_seen, found_at, groups_of, key_of};
ghost use Rattle.std.specs.List.{list_all};
ghost use Rattle.gs_links.specs.Shapes.{is_link};
ghost use Rattle.gs_merge.specs.MergedDocuments.{with_relation};

use gs_chars::{Memory, Text};
use gs_links::{Link, Store};
use gs_linkset::is_anchor;
use std::alloc::Global;
use std::collections::BTreeMap;
use std::marker::Model;

/// The text that links are grouped by.
#[derive(Clone, Copy)]
pub(crate) enum Grouping {
    /// The canonical link of their anchor.
    ByAnchor,
    /// Their relation.
    ByRelation,
}

/// Returns the text by which a link is grouped.
fn key_of(alloc: Global, by: Grouping, link: &Link) -> Result<Text, Memory>
    ensures { IfOk result (λ text. text ≡ key_of by link.now) }
{
    match by {
        Grouping::ByAnchor => link.anchor.canonical(alloc),
        Grouping::ByRelation => link.relation.copy(alloc),
    }
}

/// Takes the group of a text out, or makes one.
fn take_group<'a>(
    alloc: Global,
    groups: &mut BTreeMap<Text, Vec<StoredLink<'a>>>,
    text: &Text,
) -> Vec<StoredLink<'a>>
    ensures group { result.items
        ≡ unwrap_or (option_map (λ g. g.items) (found_at groups.old.entries text.now)) [] }
    ensures others { (q : List ℕ) → found_at groups.new.entries q
        ≡ (if bytes_eq text.now q then None else found_at groups.old.entries q) }
{
    match groups.remove(text) {
        Some(group) => group,
        None => Vec::new(alloc),
    }
}

/// Adds a link to the group of a text.
fn put_link<'a>(
    alloc: Global,
    groups: &mut BTreeMap<Text, Vec<StoredLink<'a>>>,
    text: Text,
    link: StoredLink<'a>,
) -> Result<(), Memory>
    ensures ordered { IfOk result (λ _. IsStrictlySortedBy (slice_cmp nat_cmp) (keys_of groups.new.entries)) }
    ensures group { IfOk result (λ _. (q : List ℕ)
        → option_map (λ g. g.items) (found_at groups.new.entries q)
        ≡ (if bytes_eq text q
        then Some (unwrap_or (option_map (λ g. g.items) (found_at groups.old.entries text)) []
        ++ link.entry ∷ [])
        else option_map (λ g. g.items) (found_at groups.old.entries q))) }
{
    let mut group = take_group(alloc, groups, &text);
    group.push(link)?;
    groups.insert(text, group)?;
    Ok(())
}

/// Returns the links by their texts, those of each text in their order.
pub(crate) fn groups_of<'a>(
    alloc: Global,
    by: Grouping,
    links: &[StoredLink<'a>],
) -> Result<BTreeMap<Text, Vec<StoredLink<'a>>>, Memory>
    ensures { IfOk result (λ groups.
        map (entry_seen (λ g. g.items)) groups.entries ≡ groups_of by links.now) }
{
    let mut groups = BTreeMap::new(alloc);
    for link in links {
        let text = key_of(alloc, by, link.link())?;
        put_link(alloc, &mut groups, text, link.again())?;
    }
    Ok(groups)
}

/// A link of a store, which lends it. Contracts see the link.
#[derive(Drop)]
pub(crate) struct StoredLink<'a> {
    link: &'a Link,
}

impl<'a> Model for StoredLink<'a> {
    ghost use Rattle.std.specs.Prelude.{◌≡◌, true};
    ghost use Rattle.gs_links.specs.Shapes.{is_link};
    ghost use Rattle.gs_links.specs.declared.link.Link.{Link};

    ghost Value = { Link };

    ghost view = { λ a. a.link.now };

    ghost invariant = { λ a. is_link a.link.now ≡ true };
}

impl<'a> StoredLink<'a> {
    /// Returns the link.
    pub(crate) fn link(&self) -> &Link
        ensures same { result.now ≡ self.now }
        ensures shape { is_link self.now ≡ true }
    {
        self.link
    }

    /// Returns the same link, lent once more.
    pub(crate) fn again(&self) -> StoredLink<'a>
        ensures { result ≡ self.now }
    {
        StoredLink { link: self.link }
    }
}

/// Adds the links of a store whose relation is not `anchor`, in their order.
fn push_links<'a>(store: &'a Store, links: &mut Vec<StoredLink<'a>>) -> Result<(), Memory>
    requires { list_all is_link links.old.items ≡ true }
    ensures links { IfOk result (λ _. links.new.items ≡ links.old.items ++ with_relation store.now) }
    ensures shape { IfOk result (λ _. list_all is_link links.new.items ≡ true) }
{
    for i in 0..store.len() {
        let link = store.link(i);
        if is_anchor(link.relation.as_bytes()) {
            continue;
        }
        links.push(StoredLink { link })?;
    }
    Ok(())
}

/// Returns the links of two stores whose relation is not `anchor`: those of the first, and then those of the second.
pub(crate) fn stored_links<'a>(
    alloc: Global,
    a: &'a Store,
    b: &'a Store,
) -> Result<Vec<StoredLink<'a>>, Memory>
    ensures links { IfOk result (λ links. links.items ≡ with_relation (a.now ++ b.now)) }
    ensures shape { IfOk result (λ links. list_all is_link links.items ≡ true) }
{
    let mut links = Vec::new(alloc);
    push_links(a, &mut links)?;
    push_links(b, &mut links)?;
    Ok(links)
}
