ghost use Rattle.std.specs.Prelude.{◌≡◌, ◌≤◌, ◌<◌, ◌⊎◌, length, take, All};
ghost use Rattle.gs_ident.specs.Elements.{first_qualifiers};
ghost use Rattle.gs_links.specs.Choices.{chosen_at, chosen_depth, are_first, is_candidate, is_chosen, is_prefix};
ghost use Rattle.gs_links.specs.Choices.{is_wanted};
ghost use Rattle.gs_links.specs.Index.{IsIndexOf, anchor_number, chosen_among};

use crate::index::{Index, number_with};
use crate::kept_anchor::{Anchor, OwnedPair};
use crate::link::{Chosen, Link, Want};
use gs_ai::Pair;
use gs_ident::Identity;

/// Returns the links that are chosen for an identity at its prefix with that many qualifiers, which has the number. Their
/// numbers are put before `out`.
fn choose_at(
    links: &[Link],
    index: &Index,
    identity: &Identity<'_>,
    want: Want<'_>,
    depth: usize,
    number: u64,
    out: &mut [u32],
) -> Chosen
    requires number { number ≡ anchor_number (first_qualifiers depth identity.now) }
    requires index { IsIndexOf index.now links.now }
    requires room { length links.now ≤ length out.now }
    ensures depth { result.depth ≡ depth }
    ensures count { result.count ≡ length (chosen_at links.now identity.now want.entry depth) }
    ensures numbers { take result.count out.new ≡ chosen_at links.now identity.now want.entry depth }
{
    let count = put_chosen(links, index.list(number), identity, want, depth, out);
    Chosen { depth, count }
}

/// Returns the links that are chosen for an identity of those at its prefixes with that many qualifiers or more, the longest
/// prefix first. Their numbers are put before `out`. The prefix with that many has the number. If none is chosen, the depth is
/// that many.
pub(crate) fn choose_from(
    links: &[Link],
    index: &Index,
    identity: &Identity<'_>,
    want: Want<'_>,
    depth: usize,
    number: u64,
    out: &mut [u32],
) -> Chosen
    requires depth { depth ≤ length identity.now.qualifiers }
    requires number { number ≡ anchor_number (first_qualifiers depth identity.now) }
    requires index { IsIndexOf index.now links.now }
    requires room { length links.now ≤ length out.now }
    ensures most { chosen_depth links.now identity.now want.entry ≤ result.depth }
    ensures some { (result.depth ≡ depth) ⊎ (0 < result.count) }
    ensures count { result.count ≡ length (chosen_at links.now identity.now want.entry result.depth) }
    ensures numbers { take result.count out.new ≡ chosen_at links.now identity.now want.entry result.depth }
{
    let Some(pair) = identity.qualifiers().get(depth) else {
        return choose_at(links, index, identity, want, depth, number, out);
    };
    let next = number_with(number, pair);
    let deeper = choose_from(links, index, identity, want, depth + 1, next, out);
    if 0 < deeper.count {
        return deeper;
    }
    choose_at(links, index, identity, want, depth, number, out)
}

/// Returns whether pairs are before others.
fn are_first(first: &[OwnedPair], pairs: &[Pair<'_>]) -> bool
    ensures { result ≡ are_first first.now pairs.now }
{
    first.len() <= pairs.len() && first.iter().zip(pairs).all(|(own, pair)| own.is_same(pair))
}

/// Returns whether an anchor is a prefix of an identity.
#[tactic(auto, unfolding(crate::specs::Choices::is_prefix))]
fn is_prefix(prefix: &Anchor, identity: &Identity<'_>) -> bool
    ensures { result ≡ is_prefix prefix.now identity.now }
{
    prefix.key().is_same(identity.key()) && are_first(prefix.qualifiers(), identity.qualifiers())
}

/// Returns whether the relation is wanted.
fn is_wanted(want: Want<'_>, relation: &[u8]) -> bool
    ensures { result ≡ is_wanted want.entry relation.now }
{
    match want {
        Want::All => true,
        Want::Relation(wanted) => wanted == relation,
    }
}

/// Returns whether a link is a candidate.
#[tactic(auto, unfolding(crate::specs::Choices::is_candidate))]
fn is_candidate(identity: &Identity<'_>, want: Want<'_>, link: &Link) -> bool
    ensures { result ≡ is_candidate identity.now want.entry link.now }
{
    is_prefix(&link.anchor, identity) && is_wanted(want, link.relation.as_bytes())
}

/// Returns whether a link is a candidate with that many qualifiers.
fn is_chosen(identity: &Identity<'_>, want: Want<'_>, depth: usize, link: &Link) -> bool
    ensures { result ≡ is_chosen identity.now want.entry depth link.now }
{
    is_candidate(identity, want, link) && link.anchor.qualifiers().len() == depth
}

/// Puts at the start those of the numbers that are of candidates with that many qualifiers. Returns their number.
fn put_chosen(
    links: &[Link],
    numbers: &[u32],
    identity: &Identity<'_>,
    want: Want<'_>,
    depth: usize,
    out: &mut [u32],
) -> usize
    requires known { All (λ i. i < length links.now) numbers.now }
    requires room { length numbers.now ≤ length out.now }
    ensures count { result ≡ length (chosen_among links.now identity.now want.entry depth numbers.now) }
    ensures numbers { take result out.new ≡ chosen_among links.now identity.now want.entry depth numbers.now }
{
    let mut count = 0;
    for number in numbers {
        if !is_chosen(identity, want, depth, &links[*number as usize]) {
            continue;
        }
        out[count] = *number;
        count += 1;
    }
    count
}
