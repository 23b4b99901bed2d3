ghost use Rattle.std.specs.Prelude.{◌≡◌, IfOk, ◌∷◌, ◌++◌, []};
ghost use Rattle.std.specs.List.{cons_option};
ghost use Rattle.gs_linkset.specs.LentLinks.{relation_lent};

use crate::link_types::{Attr, AttrValue, Relation, RelationRef, Target};
use gs_chars::{List, Memory, Text};
use std::alloc::Global;

/// A value that can be copied.
trait Copied: Drop {
    /// Returns an equal value.
    fn copied(&self, alloc: Global) -> Result<Self, Memory>
        ensures { IfOk result (λ copy. copy ≡ self.now) };
}

/// Returns a list of equal items.
fn copy_list<T: Copied>(alloc: Global, items: &[T]) -> Result<List<T>, Memory>
    ensures { IfOk result (λ copies. copies ≡ items.now) }
{
    let mut copies = Vec::with_capacity(alloc, items.len())?;
    for item in items {
        copies.push(item.copied(alloc)?)?;
    }
    Ok(List::from_vec(copies))
}

impl Copied for Text {
    fn copied(&self, alloc: Global) -> Result<Text, Memory> {
        self.copy(alloc)
    }
}

impl Copied for (Text, Text) {
    fn copied(&self, alloc: Global) -> Result<(Text, Text), Memory> {
        Ok((self.0.copy(alloc)?, self.1.copy(alloc)?))
    }
}

impl Copied for Attr {
    fn copied(&self, alloc: Global) -> Result<Attr, Memory> {
        Ok(Attr {
            name: self.name.copy(alloc)?,
            value: copy_value(alloc, &self.value)?,
        })
    }
}

/// Returns an equal value.
fn copy_value(alloc: Global, value: &AttrValue) -> Result<AttrValue, Memory>
    ensures { IfOk result (λ copy. copy ≡ value.now) }
{
    match value {
        AttrValue::One(text) => Ok(AttrValue::One(text.copy(alloc)?)),
        AttrValue::Many(texts) => Ok(AttrValue::Many(copy_list(alloc, texts.items())?)),
        AttrValue::Tagged(pairs) => Ok(AttrValue::Tagged(copy_list(alloc, pairs.items())?)),
    }
}

impl Target {
    /// Returns an equal target. Fails only with `Memory`.
    pub fn copy(&self, alloc: Global) -> Result<Target, Memory>
        ensures { IfOk result (λ target. target ≡ self.now) }
    {
        Ok(Target {
            href: self.href.copy(alloc)?,
            attrs: copy_list(alloc, self.attrs.items())?,
        })
    }
}

impl RelationRef<'_> {
    /// Returns an equal relation, which owns its links. Fails only with `Memory`.
    pub fn copy(&self, alloc: Global) -> Result<Relation, Memory>
        ensures { IfOk result (λ relation. relation ≡ relation_lent self.now) }
    {
        let mut targets = Vec::with_capacity(alloc, self.targets.len())?;
        for target in self.targets {
            targets.push(target.copy(alloc)?)?;
        }
        Ok(Relation {
            name: self.name.copy(alloc)?,
            targets: List::from_vec(targets),
        })
    }
}

/// Returns an empty list with room for `count` items.
pub(crate) fn with_room<T: Drop>(alloc: Global, count: usize) -> Result<Vec<T>, Memory>
    ensures { IfOk result (λ items. items.items ≡ []) }
{
    Ok(Vec::with_capacity(alloc, count)?)
}

/// Adds an item.
pub(crate) fn push<T: Drop>(items: &mut Vec<T>, item: T) -> Result<(), Memory>
    ensures { IfOk result (λ _. items.new.items ≡ items.old.items ++ item ∷ []) }
{
    items.push(item)?;
    Ok(())
}

/// Adds an item, if there is one.
pub(crate) fn push_some<T: Drop>(items: &mut Vec<T>, item: Option<T>) -> Result<(), Memory>
    ensures { IfOk result (λ _. items.new.items ≡ items.old.items ++ cons_option item []) }
{
    match item {
        Some(item) => push(items, item),
        None => Ok(()),
    }
}
