ghost use Rattle.std.specs.Prelude.{◌≡◌, ◌∷◌, [], IfOk, true};
ghost use Rattle.gs_linkset.specs.LinkShapes.{is_context};
ghost use Rattle.gs_linkset.specs.LentLinks.{context_lent};
ghost use Rattle.gs_linkset.specs.WrittenTrees.{written};

use crate::link_types::{ContextRef, RelationRef};
use crate::writer::{Member, ToJson, characters, put_array, put_document, put_object};
use gs_chars::{Memory, Text};
use json::Writer;
use std::alloc::Global;

/// The bytes that a written document has room for in the beginning, in addition to those of its links.
const ROOM: usize = 128;

/// The bytes that a written document has room for in the beginning for each of its links.
const LINK_ROOM: usize = 64;

impl<T: ToJson> ToJson for &T {
    ghost shape = { λ lent. T.shape lent.now };

    ghost tree = { λ lent. T.tree lent.now };

    fn append(&self, out: &mut Writer) -> Result<(), Memory> {
        (**self).append(out)
    }
}

impl ToJson for RelationRef<'_> {
    ghost use Rattle.gs_linkset.specs.LinkShapes.{is_relation};
    ghost use Rattle.gs_linkset.specs.LentLinks.{relation_lent};
    ghost use Rattle.gs_linkset.specs.WrittenTrees.{array_by, target_tree};

    ghost shape = { λ relation. is_relation (relation_lent relation) };

    ghost tree = { λ relation. array_by target_tree (relation_lent relation).targets };

    fn append(&self, out: &mut Writer) -> Result<(), Memory> {
        put_array(out, self.targets)
    }
}

impl Member for RelationRef<'_> {
    ghost key_of = { λ relation. relation.name.now };

    fn key(&self) -> &str {
        characters(self.name)
    }
}

impl ToJson for ContextRef<'_> {
    ghost use Rattle.gs_linkset.specs.WrittenTrees.{context_tree};

    ghost shape = { λ context. is_context (context_lent context) };

    ghost tree = { λ context. context_tree (context_lent context) };

    fn append(&self, out: &mut Writer) -> Result<(), Memory> {
        put_object(out, self.relations, "anchor", self.anchor)
    }
}

/// Returns the bytes that a document of relations has room for in the beginning.
fn room_for(relations: &[RelationRef<'_>]) -> usize {
    let mut links: usize = 0;
    for relation in relations {
        links = links.saturating_add(relation.targets.len());
    }
    links.saturating_mul(LINK_ROOM).saturating_add(ROOM)
}

/// Writes the linkset of one context in JSON, as `write` does, and copies none of its links. The context must have the shape of
/// a linkset's contexts. Fails only with `Memory`.
pub fn write_context(alloc: Global, context: &ContextRef<'_>) -> Result<Text, Memory>
    requires { is_context (context_lent context.now) ≡ true }
    ensures { IfOk result (λ text. text ≡ written (context_lent context.now ∷ [])) }
{
    let mut out = Writer::new(Vec::with_capacity(alloc, room_for(context.relations))?);
    put_document(&mut out, &[*context])?;
    Ok(Text::from_vec(out.into_inner()))
}
