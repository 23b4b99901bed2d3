ghost use Rattle.std.specs.Prelude.{◌≡◌, ◌≤◌, ◌^◌, [], IfOk, ℕ, length};
ghost use Rattle.gs_links.specs.Index.{IsIndexOf, anchor_number, hash_with, listed, number_with, with_last};

use crate::kept_anchor::Anchor;
use crate::link::Link;
use gs_ai::Pair;
use gs_chars::Memory;
use indexmap::IndexMap;
use std::alloc::Global;

/// The number of no pair.
const OFFSET: u64 = 14_695_981_039_346_656_037;

/// The number by which a hash is multiplied at each byte.
const PRIME: u64 = 1_099_511_628_211;

/// Returns the hash of bytes after others with a hash.
fn hash_with(before: u64, bytes: &[u8]) -> u64
    ensures { result ≡ hash_with before bytes.now }
{
    let mut hash = before;
    for byte in bytes {
        hash = (hash ^ (*byte as u64)).wrapping_mul(PRIME);
    }
    hash
}

/// Returns the number of pairs and one more, after those with a number.
#[tactic(auto, unfolding(crate::specs::Index::number_with))]
pub(crate) fn number_with(before: u64, pair: &Pair<'_>) -> u64
    ensures { result ≡ number_with before pair.now }
{
    hash_with(
        hash_with(before, pair.code.as_bytes()),
        pair.value.as_bytes(),
    )
}

/// Returns the number of a key without qualifiers.
pub(crate) fn key_number(key: &Pair<'_>) -> u64
    ensures { result ≡ number_with 14695981039346656037 key.now }
{
    number_with(OFFSET, key)
}

/// Returns the number of an anchor.
fn number_of(anchor: &Anchor) -> u64
    ensures { result ≡ anchor_number anchor.now }
{
    let mut number = key_number(&anchor.key().lent());
    for pair in anchor.qualifiers() {
        number = number_with(number, &pair.lent());
    }
    number
}

/// The numbers of links by the numbers of their anchors.
#[derive(Drop)]
pub struct Index {
    lists: IndexMap<u64, Vec<u32>>,
}

impl Index {
    /// Returns no number.
    fn new(alloc: Global) -> Index
        ensures { (n : ℕ) → listed result n ≡ [] }
    {
        Index {
            lists: IndexMap::new(alloc),
        }
    }

    /// Appends a link's index to its anchor's list.
    fn push(&mut self, alloc: Global, number: u64, i: u32) -> Result<(), Memory>
        ensures { IfOk result (λ _. (n : ℕ) → listed self.new n ≡ with_last (listed self.old n) number i n) }
    {
        if let Some(list) = self.lists.get_mut(&number) {
            list.push(i)?;
            return Ok(());
        }
        let list = Vec::from_slice(alloc, &[i])?;
        self.lists.insert(number, list)?;
        Ok(())
    }

    /// Returns the numbers of the links whose anchors have the number.
    pub(crate) fn list(&self, number: u64) -> &[u32]
        ensures { result.now ≡ listed self.now number }
    {
        match self.lists.get(&number) {
            Some(list) => list.as_slice(),
            None => &[],
        }
    }
}

/// Returns the index of links.
pub(crate) fn index_of(alloc: Global, links: &[Link]) -> Result<Index, Memory>
    requires { length links.now ≤ 2 ^ 32 }
    ensures { IfOk result (λ index. IsIndexOf index links.now) }
{
    let mut index = Index::new(alloc);
    for (i, link) in links.iter().enumerate() {
        index.push(alloc, number_of(&link.anchor), i as u32)?;
    }
    Ok(index)
}
