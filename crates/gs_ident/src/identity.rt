ghost use Rattle.std.specs.Prelude.{◌≡◌, ◌≤◌, ◌∷◌, IfOk, Ok, filter, length, take, ◌+◌, ◌-◌, ◌^◌, min};
ghost use Rattle.gs_ident.specs.Elements.{elements_with, first_qualifiers, is_coded, key_alone, with_qualifier, pairs_of};
ghost use Rattle.gs_ident.specs.Identities.{IsMadeWith, counted, identity_of_pairs};
ghost use Rattle.gs_ident.specs.QualifiedKeys.{IsQualifiedKey, pairs_in};
ghost use Rattle.gs_ident.specs.Room.{room_of_pair, room_of_pairs};

use crate::pairs::{same_code, stands_for_none};
use gs_ai::{AiTable, Pair};
use gs_chars::{List, Memory};
use std::alloc::Global;
use std::marker::Model;

/// The identity of an element string or a link: the pair of its key, the pairs that qualify the key, and all other pairs. It lends
/// its pairs from the text that they were read from, or owns them.
pub struct Identity<'a> {
    key: Pair<'a>,
    qualifiers: List<Pair<'a>>,
    attributes: List<Pair<'a>>,
}

// by hand, so that a function that drops an identity calls this: a derived drop is written out at each of its exits
impl Drop for Identity<'_> {
    fn drop(self) {
        let Identity {
            key: _,
            qualifiers: _,
            attributes: _,
        } = self;
    }
}

impl<'a> Model for Identity<'a> {
    ghost use Rattle.gs_ident.specs.Elements.{Elements};

    ghost Value = { Elements };

    ghost view = { λ a. record { key = a.key; qualifiers = a.qualifiers; attributes = a.attributes } };
}

impl<'a> Identity<'a> {
    /// Returns the identity of exactly these pairs: the key, its qualifiers in the order of the key's path, and the attributes. No
    /// table is asked: `make` gives it by a table if and only if they are the pairs of such an identity.
    pub fn from_pairs(
        key: Pair<'a>,
        qualifiers: Vec<Pair<'a>>,
        attributes: Vec<Pair<'a>>,
    ) -> Identity<'a>
        ensures { result
            ≡ elements_with key.entry qualifiers.entry.items attributes.entry.items }
    {
        Identity {
            key,
            qualifiers: List::from_vec(qualifiers),
            attributes: List::from_vec(attributes),
        }
    }

    /// Returns the identity of a key and its one qualifier, if there is one, as `make` does. Drops a qualifier whose value means
    /// none. Fails only with `Memory`. Key and qualifier are valid by the table; the row of the key is that of a key, and lists
    /// the qualifier's code.
    pub fn of_key(
        alloc: Global,
        table: &AiTable,
        key: Pair<'a>,
        qualifier: Option<Pair<'a>>,
    ) -> Result<Identity<'a>, Memory>
        requires { IsQualifiedKey table.now key qualifier }
        ensures made { IfOk result (λ identity.
            identity_of_pairs table.now (key.entry ∷ pairs_in qualifier.entry) ≡ Ok identity) }
        ensures with_table { IfOk result (λ identity. IsMadeWith table.now identity) }
    {
        // only for the proof: the rows satisfy the rules
        let _ = table.rows();
        let qualifiers = counted_pairs(alloc, table, qualifier)?;
        Ok(Identity::from_pairs(key, qualifiers, Vec::new(alloc)))
    }

    /// Returns the identity of the key and the first `k` qualifiers, which lends none. Fails only with `Memory`. `k`, the
    /// number of qualifiers that are kept, is at most theirs.
    pub fn prefix(&self, alloc: Global, k: usize) -> Result<Identity<'static>, Memory>
        requires { k ≤ length self.now.qualifiers }
        ensures { IfOk result (λ identity. identity ≡ first_qualifiers k self.now) }
    {
        let key = self.key().copy(alloc)?;
        let qualifiers = copies(alloc, &self.qualifiers()[..k])?;
        Ok(Identity::from_pairs(key, qualifiers, Vec::new(alloc)))
    }

    /// Returns an identity of the same pairs that lends none. Fails only with `Memory`.
    pub fn copy(&self, alloc: Global) -> Result<Identity<'static>, Memory>
        ensures { IfOk result (λ identity. identity ≡ self.now) }
    {
        let key = self.key().copy(alloc)?;
        let qualifiers = copies(alloc, self.qualifiers())?;
        let attributes = copies(alloc, self.attributes())?;
        Ok(Identity::from_pairs(key, qualifiers, attributes))
    }

    /// Returns only the key. Drops all other pairs and copies none.
    pub fn key_alone(self) -> Identity<'a>
        ensures { result ≡ key_alone self.entry }
    {
        let Identity {
            key,
            qualifiers,
            attributes,
        } = self;
        let mut qualifiers = qualifiers.into_vec();
        qualifiers.clear();
        let mut attributes = attributes.into_vec();
        attributes.clear();
        Identity::from_pairs(key, qualifiers, attributes)
    }

    /// Returns the key with its qualifier of the code, if it has one. Drops all other pairs and copies none.
    pub fn with_qualifier(self, code: &[u8]) -> Identity<'a>
        ensures { result ≡ with_qualifier code.now self.entry }
    {
        let Identity {
            key,
            qualifiers,
            attributes,
        } = self;
        let mut qualifiers = qualifiers.into_vec();
        keep_coded(&mut qualifiers, code);
        let mut attributes = attributes.into_vec();
        attributes.clear();
        Identity::from_pairs(key, qualifiers, attributes)
    }

    /// Returns the pair of the key.
    pub fn key(&self) -> &Pair<'a>
        ensures { result.now ≡ self.now.key }
    {
        &self.key
    }

    /// Returns the pairs that qualify the key, in the order of the key's path.
    pub fn qualifiers(&self) -> &[Pair<'a>]
        ensures { result.now ≡ self.now.qualifiers }
    {
        self.qualifiers.items()
    }

    /// Returns all other pairs.
    pub fn attributes(&self) -> &[Pair<'a>]
        ensures { result.now ≡ self.now.attributes }
    {
        self.attributes.items()
    }
}

/// Returns the pair, if there is one that counts.
fn counted_pairs<'a>(
    alloc: Global,
    table: &AiTable,
    pair: Option<Pair<'a>>,
) -> Result<Vec<Pair<'a>>, Memory>
    ensures { IfOk result (λ pairs. pairs.items ≡ counted table.now (pairs_in pair.entry)) }
{
    let Some(pair) = pair else {
        return Ok(Vec::new(alloc));
    };
    if stands_for_none(table, &pair) {
        return Ok(Vec::new(alloc));
    }
    let mut pairs = Vec::with_capacity(alloc, 1)?;
    pairs.push(pair)?;
    Ok(pairs)
}

/// Returns whether the pair has the code.
pub fn is_coded(code: &[u8], pair: &Pair<'_>) -> bool
    ensures { result ≡ is_coded code.now pair.now }
{
    same_code(code, pair.code.as_bytes())
}

/// Drops the pairs that have another code.
fn keep_coded(pairs: &mut Vec<Pair<'_>>, code: &[u8])
    ensures { pairs.new.items ≡ filter (is_coded code.now) pairs.old.items }
{
    pairs.retain(|pair| is_coded(code, pair));
}

/// Copies of the pairs.
fn copies(alloc: Global, pairs: &[Pair<'_>]) -> Result<Vec<Pair<'static>>, Memory>
    ensures { IfOk result (λ list. list.items ≡ pairs.now) }
{
    let mut list = Vec::with_capacity(alloc, pairs.len())?;
    for pair in pairs {
        list.push(pair.copy(alloc)?)?;
    }
    Ok(list)
}

/// Returns the number of bytes of a pair, and two for the separators of its code.
fn pair_room(pair: &Pair<'_>) -> usize
    ensures { result ≡ min (room_of_pair pair.now) (2 ^ 64 - 1) }
{
    let code = pair.code.as_bytes().len();
    code.saturating_add(pair.value.as_bytes().len())
        .saturating_add(2)
}

/// Returns the number of bytes of pairs after others, whose number is given.
fn add_room(before: usize, pairs: &[Pair<'_>]) -> usize
    ensures { result ≡ min (before + room_of_pairs pairs.now) (2 ^ 64 - 1) }
{
    let mut room = before;
    for pair in pairs {
        room = room.saturating_add(pair_room(pair));
    }
    room
}

impl Identity<'_> {
    /// Returns the number of bytes of the codes and values of the pairs, with two more for each pair. This is the memory that
    /// is taken for a text of them. It is 2 to the 64 less 1 if they are more.
    pub fn room(&self) -> usize
        ensures { result ≡ min (room_of_pairs (pairs_of self.now)) (2 ^ 64 - 1) }
    {
        let path = add_room(pair_room(self.key()), self.qualifiers());
        add_room(path, self.attributes())
    }
}
