ghost use Rattle.std.specs.Prelude.{◌≡◌, ◌++◌, ◌∷◌, ℕ, List, [], IfOk};
ghost use Rattle.gs_linkset.specs.declared.link_types.Target.{Target};
ghost use Rattle.gs_linktext.specs.Contexts.{last_name, IsCut};
ghost use Rattle.gs_linktext.specs.Cuts.{context_with, relation_with, takes, IsMore};

use gs_chars::{List, Memory, Text};
use gs_linkset::{Context, Relation, Target};
use std::alloc::Global;

/// Returns a relation with one target.
fn relation_with(alloc: Global, name: &[u8], target: Target) -> Result<Relation, Memory>
    ensures { IfOk result (λ relation. relation ≡ relation_with name.now target) }
{
    let mut targets = Vec::new(alloc);
    targets.push(target)?;
    let name = Text::from_bytes(alloc, name)?;
    let targets = List::from_vec(targets);
    Ok(Relation { name, targets })
}

/// Returns a context with one link.
fn context_with(
    alloc: Global,
    anchor: &[u8],
    name: &[u8],
    target: Target,
) -> Result<Context, Memory>
    ensures { IfOk result (λ context. context ≡ context_with anchor.now name.now target) }
{
    let mut relations = Vec::new(alloc);
    relations.push(relation_with(alloc, name, target)?)?;
    let anchor = Text::from_bytes(alloc, anchor)?;
    let relations = List::from_vec(relations);
    Ok(Context { anchor, relations })
}

/// Returns the name of the last relation.
fn last_name(relations: &[Relation]) -> &[u8]
    ensures { result.now ≡ last_name relations.now }
{
    match relations.split_last() {
        Some((last, _)) => last.name.as_bytes(),
        None => b"",
    }
}

/// Returns whether the context can go on with a link of this anchor and relation.
fn takes(context: &Context, anchor: &[u8], name: &[u8]) -> bool
    ensures { result ≡ takes context.now anchor.now name.now }
{
    context.anchor.as_bytes() == anchor && !name.cmp(last_name(context.relations.items())).is_lt()
}

/// Returns the relation with one target more.
fn with_target(relation: Relation, target: Target) -> Result<Relation, Memory>
    ensures name { IfOk result (λ more. more.name ≡ relation.name) }
    ensures targets { IfOk result (λ more. more.targets ≡ relation.targets ++ target ∷ []) }
{
    let Relation { name, targets } = relation;
    let mut targets = targets.into_vec();
    targets.push(target)?;
    let targets = List::from_vec(targets);
    Ok(Relation { name, targets })
}

/// Returns the context with one link more, whose relation is not below the last one.
fn with_link(
    alloc: Global,
    context: Context,
    name: &[u8],
    target: Target,
) -> Result<Context, Memory>
    ensures { IfOk result (λ more. IsMore context more name.now target) }
{
    let Context { anchor, relations } = context;
    let mut relations = relations.into_vec();
    let Some(last) = relations.pop() else {
        relations.push(relation_with(alloc, name, target)?)?;
        let relations = List::from_vec(relations);
        return Ok(Context { anchor, relations });
    };
    if last.name.as_bytes() == name {
        relations.push(with_target(last, target)?)?;
        let relations = List::from_vec(relations);
        return Ok(Context { anchor, relations });
    }
    relations.push(last)?;
    relations.push(relation_with(alloc, name, target)?)?;
    let relations = List::from_vec(relations);
    Ok(Context { anchor, relations })
}

/// Adds a link after the others.
pub(crate) fn push_link(
    alloc: Global,
    contexts: &mut Vec<Context>,
    anchor: &[u8],
    name: &[u8],
    target: Target,
) -> Result<(), Memory>
    ensures { IfOk result (λ _. (links : List (List ℕ × List ℕ × Target))
        → IsCut links contexts.old.items
        → IsCut (links ++ (anchor.now, name.now, target) ∷ []) contexts.new.items) }
{
    let Some(last) = contexts.pop() else {
        contexts.push(context_with(alloc, anchor, name, target)?)?;
        return Ok(());
    };
    if takes(&last, anchor, name) {
        contexts.push(with_link(alloc, last, name, target)?)?;
        return Ok(());
    }
    contexts.push(last)?;
    contexts.push(context_with(alloc, anchor, name, target)?)?;
    Ok(())
}
