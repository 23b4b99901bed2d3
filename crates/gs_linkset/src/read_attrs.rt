ghost use Rattle.std.specs.Prelude.{◌≡◌, IfOk, IfSome, codes, false, map, option_and_then, option_map, true};
ghost use Rattle.std.specs.List.{list_all, filter_map, flat_map};
ghost use Rattle.std.specs.Str.{bytes_eq};
ghost use Rattle.serde_json.specs.View.{view};
ghost use Rattle.gs_json.specs.Members.{array_in};
ghost use Rattle.gs_linkset.specs.Attributes.{every, language_of, tagged_text, value_of};
ghost use Rattle.gs_linkset.specs.Documents.{attr_named, names_in};
ghost use Rattle.gs_linkset.specs.LinkShapes.{is_attr, is_value, ascend};
ghost use Rattle.gs_json.specs.Answers.{AscendByBytes};
ghost use Rattle.gs_chars.specs.Answers.{first_or, OrError};

use crate::copies::{push_some, with_room};
use crate::link_shapes::{Named, Shaped, is_single, is_tagged};
use crate::link_types::{Attr, AttrValue};
use gs_chars::{List, Memory, Text};
use gs_json::{JsonFault, Node};
use serde_json::Value;
use std::alloc::Global;

/// An item of an attribute's array.
trait ReadEntry: Shaped + Drop {
    ghost use Rattle.std.specs.Prelude.{Option};
    ghost use Rattle.serde_json.specs.Data.{Data};

    /// The entry of an item, if it is one.
    ghost known: { Data → Option Self };

    /// Reads an item. Returns `None` if it is not an entry.
    fn read(alloc: Global, item: &Value) -> Result<Option<Self>, Memory>
        ensures known { IfOk result (λ entry. entry ≡ known (view item.now)) }
        ensures shape { IfOk result (λ entry. IfSome entry (λ entry. Self.shape entry ≡ true)) };
}

/// Reads the items. Returns `None` if one is not an entry.
fn all_entries<T: ReadEntry>(alloc: Global, items: &[Value]) -> Result<Option<List<T>>, Memory>
    ensures entries { IfOk result (λ entries. entries ≡ every T.known (map view items.now)) }
    ensures shape { IfOk result (λ entries. IfSome entries (λ entries. list_all T.shape entries ≡ true)) }
{
    let mut entries = Vec::with_capacity(alloc, items.len())?;
    for item in items {
        let Some(entry) = T::read(alloc, item)? else {
            return Ok(None);
        };
        entries.push(entry)?;
    }
    Ok(Some(List::from_vec(entries)))
}

/// Reads an array. Returns `None` if it is not an array of only entries.
fn read_entries<T: ReadEntry>(alloc: Global, part: &Value) -> Result<Option<List<T>>, Memory>
    ensures entries { IfOk result (λ entries.
        entries ≡ option_and_then (every T.known) (array_in (view part.now))) }
    ensures shape { IfOk result (λ entries. IfSome entries (λ entries. list_all T.shape entries ≡ true)) }
{
    match part.as_array() {
        Some(items) => all_entries(alloc, items.as_slice()),
        None => Ok(None),
    }
}

impl ReadEntry for Text {
    ghost use Rattle.serde_json.specs.Find.{as_str};

    ghost known = { as_str };

    fn read(alloc: Global, item: &Value) -> Result<Option<Text>, Memory> {
        match item.as_str() {
            Some(text) => Ok(Some(Text::from_bytes(alloc, text.as_bytes())?)),
            None => Ok(None),
        }
    }
}

/// Returns the language of an object, or the empty text if it has none.
fn language_of(object: &Value) -> Option<&str>
    ensures { option_map (λ language. language.now) result ≡ language_of (view object.now) }
{
    match object.get("language") {
        Some(member) => member.as_str(),
        None => Some(""),
    }
}

/// Returns the text and the language of an object.
fn tagged_text(object: &Value) -> Option<(&str, &str)>
    ensures { option_map (λ pair. (pair.0.now, pair.1.now)) result ≡ tagged_text (view object.now) }
{
    let text = object.get("value")?.as_str()?;
    let language = language_of(object)?;
    Some((text, language))
}

impl ReadEntry for (Text, Text) {
    ghost known = { tagged_text };

    fn read(alloc: Global, item: &Value) -> Result<Option<(Text, Text)>, Memory> {
        match tagged_text(item) {
            Some((text, language)) => Ok(Some((
                Text::from_bytes(alloc, text.as_bytes())?,
                Text::from_bytes(alloc, language.as_bytes())?,
            ))),
            None => Ok(None),
        }
    }
}

/// Reads the value of an attribute. Returns `None` if it is not of the kind that the name has.
#[tactic(auto, unfolding(crate::specs::Attributes::value_of))]
fn read_attr(alloc: Global, name: &[u8], part: &Value) -> Result<Option<AttrValue>, Memory>
    ensures value { IfOk result (λ value. value ≡ value_of name.now (view part.now)) }
    ensures shape { IfOk result (λ value. IfSome value (λ value. is_value name.now value ≡ true)) }
{
    if is_tagged(name) {
        let Some(pairs) = read_entries(alloc, part)? else {
            return Ok(None);
        };
        return Ok(Some(AttrValue::Tagged(pairs)));
    }
    if is_single(name) {
        let Some(text) = Text::read(alloc, part)? else {
            return Ok(None);
        };
        return Ok(Some(AttrValue::One(text)));
    }
    let Some(texts) = read_entries(alloc, part)? else {
        return Ok(None);
    };
    Ok(Some(AttrValue::Many(texts)))
}

/// Returns whether the name is `href`, the member that is not an attribute.
fn is_href(name: &[u8]) -> bool
    ensures { result ≡ bytes_eq name.now (codes "href") }
{
    name == b"href".as_slice()
}

/// Reads the attribute of a name. Returns `None` if the member's value is not of its kind.
#[tactic(auto, unfolding(crate::specs::LinkShapes::is_attr))]
fn attr_at(alloc: Global, member: &Value, name: &str) -> Result<Option<Attr>, Memory>
    requires { bytes_eq name.now (codes "href") ≡ false }
    ensures attr { IfOk result (λ attr. attr ≡ attr_named name.now (view member.now)) }
    ensures shape { IfOk result (λ attr. IfSome attr (λ attr. is_attr attr ≡ true)) }
{
    let Some(value) = read_attr(alloc, name.as_bytes(), member)? else {
        return Ok(None);
    };
    Ok(Some(Attr {
        name: Text::from_bytes(alloc, name.as_bytes())?,
        value,
    }))
}

impl ReadMember for Attr {
    ghost use Rattle.std.specs.Prelude.{[]};
    ghost use Rattle.gs_linkset.specs.Documents.{attr_of};
    ghost use Rattle.gs_linkset.specs.Names.{attr_has_name};

    ghost errors = { λ _ _ _. [] };

    ghost made = { attr_of };

    ghost has_name = { attr_has_name };

    #[tactic(auto, unfolding(crate::specs::Documents::attr_of))]
    fn read(alloc: Global, object: &Node<'_>, name: &str) -> Result<Option<Attr>, JsonFault> {
        if is_href(name.as_bytes()) {
            return Ok(None);
        }
        match object.value().get(name) {
            Some(member) => Ok(attr_at(alloc, member, name)?),
            None => Ok(None),
        }
    }
}

/// A member of an object.
pub(crate) trait ReadMember: Named + Drop {
    ghost use Rattle.std.specs.Prelude.{List, Option, Some, ℕ};
    ghost use Rattle.serde_json.specs.Data.{Data};
    ghost use Rattle.gs_json.specs.declared.error.JsonFault.{JsonFault};

    /// The errors of the member of a name, in an object at a place.
    ghost errors: { List ℕ → Data → List ℕ → List JsonFault };

    /// The value of the member of a name, if it has this form.
    ghost made: { Data → List ℕ → Option Self };

    /// Reads the member of a name. Returns `None` if it is not such a member.
    fn read(alloc: Global, object: &Node<'_>, name: &str) -> Result<Option<Self>, JsonFault>
        ensures answer { OrError JsonFault.Memory result (first_or
            (errors object.now.place (view object.now.tree) name.now)
            (made (view object.now.tree) name.now)) }
        ensures shape { IfOk result (λ read. IfSome read (λ read. Self.shape read ≡ true)) };

    /// The value that is read of the member of a name has that name.
    ghost has_name: { (d : Data) (name : List ℕ) (read : Self) → made d name ≡ Some read
        → Self.name_of read ≡ name };
}

/// Reads the members of an object in ascending order of their names.
pub(crate) fn read_members<M: ReadMember>(
    alloc: Global,
    object: &Node<'_>,
) -> Result<List<M>, JsonFault>
    ensures answer { OrError JsonFault.Memory result (first_or
        (flat_map (M.errors object.now.place (view object.now.tree)) (names_in (view object.now.tree)))
        (filter_map (M.made (view object.now.tree)) (names_in (view object.now.tree)))) }
    ensures shape { IfOk result (λ all. list_all M.shape all ≡ true) }
    ensures ascending { IfOk result (λ all. ascend (map M.name_of all) ≡ true) }
{
    match object.names(alloc) {
        Ok(names) => named_members(alloc, object, names.items()),
        Err(JsonFault::Memory) => Err(JsonFault::Memory),
        Err(_) => Ok(List::from_vec(Vec::new(alloc))),
    }
}

/// Reads the members of an object, which have these names, in the order of the names.
fn named_members<M: ReadMember>(
    alloc: Global,
    object: &Node<'_>,
    names: &[&str],
) -> Result<List<M>, JsonFault>
    requires names { map (λ name. name.now) names.now ≡ names_in (view object.now.tree) }
    requires ascending { AscendByBytes (map (λ name. name.now) names.now) }
    ensures answer { OrError JsonFault.Memory result (first_or
        (flat_map (M.errors object.now.place (view object.now.tree)) (names_in (view object.now.tree)))
        (filter_map (M.made (view object.now.tree)) (names_in (view object.now.tree)))) }
    ensures shape { IfOk result (λ all. list_all M.shape all ≡ true) }
    ensures ascending { IfOk result (λ all. ascend (map M.name_of all) ≡ true) }
{
    // one name is that of the `href` or the `anchor`
    let mut all = with_room(alloc, names.len().saturating_sub(1))?;
    for i in 0..names.len() {
        let read = M::read(alloc, object, names[i])?;
        push_some(&mut all, read)?;
    }
    Ok(List::from_vec(all))
}
