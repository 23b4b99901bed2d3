ghost use Rattle.std.specs.Prelude.{◌≡◌, ◌<◌, Err, IfOk, IfSome, codes, false, length, map, true};
ghost use Rattle.std.specs.List.{list_all};
ghost use Rattle.std.specs.Option.{option_map_or};
ghost use Rattle.std.specs.Str.{bytes_eq};
ghost use Rattle.serde_json.specs.Read.{read as read_text};
ghost use Rattle.serde_json.specs.View.{view};
ghost use Rattle.gs_json.specs.Answers.{items_count};
ghost use Rattle.gs_json.specs.Members.{items_of};
ghost use Rattle.gs_json.specs.Places.{item_place};
ghost use Rattle.gs_chars.specs.Answers.{first_or, OrError};
ghost use Rattle.gs_linkset.specs.Answers.{document_answer, read_answer};
ghost use Rattle.gs_linkset.specs.AnswersSupport.{ItemAnswer, linkset_place, member_answer};
ghost use Rattle.gs_linkset.specs.Documents.{context_errors, context_of, item_errors};
ghost use Rattle.gs_linkset.specs.LinkShapes.{is_context, is_relation};

use crate::copies::{push, with_room};
use crate::doc::LinkDoc;
use crate::document::{must_text, read_document};
use crate::link_shapes::Shaped;
use crate::link_types::{Context, Relation, Target};
use crate::read_attrs::{ReadMember, read_members};
use gs_chars::{List, Text};
use gs_json::{JsonFault, Node};
use serde_json::Value;
use std::alloc::Global;
use std::str;

/// An item of an array.
trait ReadItem: Shaped + Drop {
    ghost use Rattle.std.specs.Prelude.{List, ℕ};
    ghost use Rattle.serde_json.specs.Data.{Data};
    ghost use Rattle.gs_json.specs.declared.error.JsonFault.{JsonFault};

    /// The errors of an item at a place.
    ghost errors: { List ℕ → Data → List JsonFault };

    /// The value of an item without error.
    ghost made: { Data → Self };

    /// Reads an item, or returns its first error.
    fn read(alloc: Global, item: &Node<'_>) -> Result<Self, JsonFault>
        ensures answer { OrError JsonFault.Memory result
            (first_or (errors item.now.place (view item.now.tree)) (made (view item.now.tree))) }
        ensures shape { IfOk result (λ read. Self.shape read ≡ true) };
}

/// Reads the item of an array at an index.
fn item_at<T: ReadItem>(alloc: Global, array: &Node<'_>, i: usize) -> Result<T, JsonFault>
    requires { i < items_count (view array.now.tree) }
    ensures answer { ItemAnswer (λ place d. first_or (T.errors place d) (T.made d))
        array.now.place i (view array.now.tree) result }
    ensures shape { IfOk result (λ read. T.shape read ≡ true) }
{
    match array.item(alloc, i) {
        Ok(item) => T::read(alloc, &item),
        Err(_) => Err(JsonFault::Memory),
    }
}

/// Reads the items of an array in their order.
fn read_items<T: ReadItem>(
    alloc: Global,
    array: &Node<'_>,
    count: usize,
) -> Result<List<T>, JsonFault>
    requires { count ≡ items_count (view array.now.tree) }
    ensures answer { OrError JsonFault.Memory result (first_or
        (item_errors T.errors array.now.place (items_of (view array.now.tree)))
        (map T.made (items_of (view array.now.tree)))) }
    ensures shape { IfOk result (λ read. list_all T.shape read ≡ true) }
{
    let mut items = with_room(alloc, count)?;
    for i in 0..count {
        let item = item_at(alloc, array, i)?;
        push(&mut items, item)?;
    }
    Ok(List::from_vec(items))
}

impl ReadItem for Target {
    ghost use Rattle.gs_linkset.specs.Documents.{target_errors, target_of};

    ghost errors = { target_errors };

    ghost made = { target_of };

    fn read(alloc: Global, item: &Node<'_>) -> Result<Target, JsonFault> {
        let href = must_text(alloc, item, "href")?;
        let attrs = read_members(alloc, item)?;
        Ok(Target { href, attrs })
    }
}

/// Returns whether the name is `anchor`, the member of a context that is not a relation.
pub fn is_anchor(name: &[u8]) -> bool
    ensures { result ≡ bytes_eq name.now (codes "anchor") }
{
    name == b"anchor".as_slice()
}

/// Reads the relation of a name. Returns `None` if the member is not one.
fn relation_at(alloc: Global, member: &Node<'_>, name: &str) -> Result<Option<Relation>, JsonFault>
    requires { bytes_eq name.now (codes "anchor") ≡ false }
    ensures answer { OrError JsonFault.Memory result
        (member_answer name.now member.now.place (view member.now.tree)) }
    ensures shape { IfOk result (λ relation. IfSome relation (λ relation. is_relation relation ≡ true)) }
{
    let Some(count) = member.items_len() else {
        return Ok(None);
    };
    let targets = read_items(alloc, member, count)?;
    Ok(Some(Relation {
        name: Text::from_bytes(alloc, name.as_bytes())?,
        targets,
    }))
}

impl ReadMember for Relation {
    ghost use Rattle.gs_linkset.specs.Documents.{relation_errors, relation_of};
    ghost use Rattle.gs_linkset.specs.Names.{relation_has_name};

    ghost errors = { relation_errors };

    ghost made = { relation_of };

    ghost has_name = { relation_has_name };

    fn read(alloc: Global, object: &Node<'_>, name: &str) -> Result<Option<Relation>, JsonFault> {
        if is_anchor(name.as_bytes()) {
            return Ok(None);
        }
        match object.find(alloc, name)? {
            Some(member) => relation_at(alloc, &member, name),
            None => Ok(None),
        }
    }
}

impl ReadItem for Context {
    ghost use Rattle.gs_linkset.specs.Documents.{context_errors, context_of};

    ghost errors = { context_errors };

    ghost made = { context_of };

    #[tactic(auto, unfolding(crate::specs::Documents::context_errors, crate::specs::Documents::context_of))]
    fn read(alloc: Global, item: &Node<'_>) -> Result<Context, JsonFault> {
        let anchor = must_text(alloc, item, "anchor")?;
        let relations = read_members(alloc, item)?;
        Ok(Context { anchor, relations })
    }
}

/// Reads the context of the item of the array `linkset` at an index.
pub(crate) fn context_at(alloc: Global, item: &Value, i: usize) -> Result<Context, JsonFault>
    ensures answer { OrError JsonFault.Memory result (first_or
        (context_errors (item_place linkset_place i) (view item.now)) (context_of (view item.now))) }
    ensures shape { IfOk result (λ context. is_context context ≡ true) }
{
    let item = Node::of_item(alloc, item, "linkset", i)?;
    Context::read(alloc, &item)
}

/// Reads a linkset from a document in JSON (RFC 9264, section 4.2). It is an object with the array `linkset` of objects with
/// the text `anchor`. Their other arrays are relations of objects with the text `href`. Ignores members of other kinds. Returns
/// the first error in this order, or `Memory` instead of any answer.
///
/// 1. `Syntax`: the bytes are not JSON that `serde_json` reads.
/// 2. `Kind`: the document is not an object. `Lacks` or `Kind`: it has no `linkset`, or one of another kind.
/// 3. Context by context, depth first, `anchor` before the relations, and these in ascending order of name. `Lacks`: a context has
///    no `anchor` or a target no `href`. `Kind`: one of these, a context or a target is of another kind.
///
/// Never returns `Unknown`.
pub fn read(alloc: Global, bytes: &[u8]) -> Result<LinkDoc, JsonFault>
    ensures { OrError JsonFault.Memory result (read_answer bytes.now) }
{
    match str::from_utf8(bytes) {
        Ok(text) => read_linkset(alloc, text),
        Err(_) => Err(JsonFault::Syntax),
    }
}

/// Reads a linkset from a text in JSON.
fn read_linkset(alloc: Global, text: &str) -> Result<LinkDoc, JsonFault>
    ensures { OrError JsonFault.Memory result
        (option_map_or document_answer (read_text text.now) (Err (JsonFault.Syntax))) }
{
    let contexts = read_document(alloc, text)?;
    Ok(LinkDoc::of_contexts(contexts))
}
