ghost use Rattle.std.specs.Prelude.{◌≡◌, [], IfOk};
ghost use Rattle.gs_ident.specs.Links.{canonical_link};
ghost use Rattle.gs_links.specs.Choices.{is_same_pair};

use gs_ai::Pair;
use gs_chars::{CowText, List, Memory, Text};
use gs_ident::{Identity, canonical};
use std::alloc::Global;
use std::marker::Model;

/// A pair that owns its code and its value. Contracts see the pair.
#[derive(Drop)]
pub struct OwnedPair {
    code: Text,
    value: Text,
}

impl Model for OwnedPair {
    ghost use Rattle.gs_ai.specs.declared.pair.Pair.{Pair};

    ghost Value = { Pair };

    ghost view = { λ a. record { code = a.code; value = a.value } };
}

impl OwnedPair {
    /// Returns a copy of a pair. Fails only with `Memory`.
    fn of(alloc: Global, pair: &Pair<'_>) -> Result<OwnedPair, Memory>
        ensures { IfOk result (λ owned. owned ≡ pair.now) }
    {
        Ok(OwnedPair {
            code: Text::from_bytes(alloc, pair.code.as_bytes())?,
            value: Text::from_bytes(alloc, pair.value.as_bytes())?,
        })
    }

    /// Returns a pair of the same code and value. Fails only with `Memory`.
    fn copy(&self, alloc: Global) -> Result<OwnedPair, Memory>
        ensures { IfOk result (λ owned. owned ≡ self.now) }
    {
        Ok(OwnedPair {
            code: self.code.copy(alloc)?,
            value: self.value.copy(alloc)?,
        })
    }

    /// Returns the code.
    pub fn code(&self) -> &[u8]
        ensures { result.now ≡ self.now.code }
    {
        self.code.as_bytes()
    }

    /// Returns the value.
    pub fn value(&self) -> &[u8]
        ensures { result.now ≡ self.now.value }
    {
        self.value.as_bytes()
    }

    /// Lends the pair.
    pub(crate) fn lent(&self) -> Pair<'_>
        ensures { result ≡ self.now }
    {
        Pair {
            code: CowText::lent(self.code()),
            value: CowText::lent(self.value()),
        }
    }

    /// Returns whether a pair has this code and this value.
    pub(crate) fn is_same(&self, pair: &Pair<'_>) -> bool
        ensures { result ≡ is_same_pair self.now pair.now }
    {
        self.code() == pair.code.as_bytes() && self.value() == pair.value.as_bytes()
    }
}

/// The anchor of a link of a store: a key and qualifiers that own their bytes. Contracts see the identity, which has no attributes.
pub struct Anchor {
    key: OwnedPair,
    qualifiers: List<OwnedPair>,
}

// by hand, so that a function that drops an anchor calls this: a derived drop is written out at each of its exits
impl Drop for Anchor {
    fn drop(self) {
        let Anchor {
            key: _,
            qualifiers: _,
        } = self;
    }
}

impl Model for Anchor {
    ghost use Rattle.std.specs.Prelude.{[]};
    ghost use Rattle.gs_ident.specs.Elements.{Elements};

    ghost Value = { Elements };

    ghost view = { λ a. record { key = a.key; qualifiers = a.qualifiers; attributes = [] } };
}

impl Anchor {
    /// Returns the anchor of an identity that has no attributes. Fails only with `Memory`.
    pub(crate) fn of(alloc: Global, identity: &Identity<'_>) -> Result<Anchor, Memory>
        requires { identity.now.attributes ≡ [] }
        ensures { IfOk result (λ anchor. anchor ≡ identity.now) }
    {
        let key = OwnedPair::of(alloc, identity.key())?;
        let qualifiers = owned_pairs(alloc, identity.qualifiers())?;
        Ok(Anchor {
            key,
            qualifiers: List::from_vec(qualifiers),
        })
    }

    /// Returns an equal anchor. Fails only with `Memory`.
    pub(crate) fn copy(&self, alloc: Global) -> Result<Anchor, Memory>
        ensures { IfOk result (λ anchor. anchor ≡ self.now) }
    {
        let key = self.key.copy(alloc)?;
        let qualifiers = copies(alloc, self.qualifiers.items())?;
        Ok(Anchor {
            key,
            qualifiers: List::from_vec(qualifiers),
        })
    }

    /// Returns the identity, whose pairs this anchor lends. Fails only with `Memory`.
    pub fn identity(&self, alloc: Global) -> Result<Identity<'_>, Memory>
        ensures { IfOk result (λ identity. identity ≡ self.now) }
    {
        let qualifiers = lent_pairs(alloc, self.qualifiers.items())?;
        Ok(Identity::from_pairs(self.key.lent(), qualifiers, Vec::new(alloc)))
    }

    /// Returns the canonical link of the identity. Fails only with `Memory`.
    pub fn canonical(&self, alloc: Global) -> Result<Text, Memory>
        ensures { IfOk result (λ text. text ≡ canonical_link self.now) }
    {
        let identity = self.identity(alloc)?;
        canonical(alloc, &identity)
    }

    /// Returns the pair of the key. There are no attributes.
    pub fn key(&self) -> &OwnedPair
        ensures key { result.now ≡ self.now.key }
        ensures alone { self.now.attributes ≡ [] }
    {
        &self.key
    }

    /// Returns the pairs that qualify the key, in the order of the key's path.
    pub fn qualifiers(&self) -> &[OwnedPair]
        ensures { result.now ≡ self.now.qualifiers }
    {
        self.qualifiers.items()
    }
}

/// Returns pairs that own their codes and values.
fn owned_pairs(alloc: Global, pairs: &[Pair<'_>]) -> Result<Vec<OwnedPair>, Memory>
    ensures { IfOk result (λ list. list.items ≡ pairs.now) }
{
    let mut list = Vec::with_capacity(alloc, pairs.len())?;
    for pair in pairs {
        list.push(OwnedPair::of(alloc, pair)?)?;
    }
    Ok(list)
}

/// Returns copies of pairs.
fn copies(alloc: Global, pairs: &[OwnedPair]) -> Result<Vec<OwnedPair>, Memory>
    ensures { IfOk result (λ list. list.items ≡ pairs.now) }
{
    let mut list = Vec::with_capacity(alloc, pairs.len())?;
    for pair in pairs {
        list.push(pair.copy(alloc)?)?;
    }
    Ok(list)
}

/// Returns pairs that are lent.
fn lent_pairs<'a>(alloc: Global, pairs: &'a [OwnedPair]) -> Result<Vec<Pair<'a>>, Memory>
    ensures { IfOk result (λ list. list.items ≡ pairs.now) }
{
    let mut list = Vec::with_capacity(alloc, pairs.len())?;
    for pair in pairs {
        list.push(pair.lent())?;
    }
    Ok(list)
}
