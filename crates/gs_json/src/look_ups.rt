ghost use Rattle.std.specs.Prelude.{◌≡◌, option_map, IfOk, IfSome, map};
ghost use Rattle.serde_json.specs.Find.{as_array, get};
ghost use Rattle.serde_json.specs.View.{view};
ghost use Rattle.gs_json.specs.Places.{member_place};
ghost use Rattle.gs_json.specs.Members.{items_in, items_of, number_in, text_in, truth_in};
ghost use Rattle.serde_json.specs.Events.{items_len};

use crate::node::Node;
use crate::place::Step;
use gs_chars::Memory;
use serde_json::Value;
use std::alloc::Global;

impl<'a> Node<'a> {
    /// Returns the value of `serde_json` here, which the document lends.
    pub fn value(&self) -> &'a Value
        ensures { result.now ≡ self.now.tree }
    {
        self.value
    }

    /// Looks up the member of a name. Returns `None` if this is not an object or has no such member. Fails only with `Memory`.
    pub fn find(&self, alloc: Global, name: &str) -> Result<Option<Node<'a>>, Memory>
        ensures part { IfOk result (λ member. option_map (λ part. view part.tree) member
            ≡ get name.now (view self.now.tree)) }
        ensures place { IfOk result (λ member. IfSome member (λ part. part.place
            ≡ member_place self.now.place name.now)) }
    {
        let value: &'a Value = self.value;
        let Some(map) = value.as_object() else {
            return Ok(None);
        };
        match map.get_key_value(name) {
            Some((key, value)) => Ok(Some(Node {
                value,
                place: self.place.then(alloc, Step::Member(key.as_str()))?,
            })),
            None => Ok(None),
        }
    }

    /// Returns the number of items, or `None` if this is not an array.
    pub fn items_len(&self) -> Option<usize>
        ensures { result ≡ option_map items_len (as_array (view self.now.tree)) }
    {
        match self.value.as_array() {
            Some(items) => Some(items.len()),
            None => None,
        }
    }
}

/// Returns the text of the member of a name, or the empty text if there is none.
pub fn text_in<'a>(object: &'a Value, name: &str) -> &'a str
    ensures { result.now ≡ text_in name.now (view object.now) }
{
    match object.get(name) {
        Some(member) => member.as_str().unwrap_or(""),
        None => "",
    }
}

/// Returns the number of the member of a name, or 0 if it is not only digits and at most 2^64 - 1.
pub fn number_in(object: &Value, name: &str) -> u64
    ensures { result ≡ number_in name.now (view object.now) }
{
    match object.get(name) {
        Some(member) => member.as_u64().unwrap_or(0),
        None => 0,
    }
}

/// Returns the truth value of the member of a name, or false if there is none.
pub fn truth_in(object: &Value, name: &str) -> bool
    ensures { result ≡ truth_in name.now (view object.now) }
{
    match object.get(name) {
        Some(member) => member.as_bool().unwrap_or(false),
        None => false,
    }
}

/// Returns the items of an array, or none if the value is not an array.
pub fn items_of(array: &Value) -> &[Value]
    ensures { map view result.now ≡ items_of (view array.now) }
{
    match array.as_array() {
        Some(items) => items.as_slice(),
        None => &[],
    }
}

/// Returns the items of the array that is the member of a name, or none if there is no such array.
pub fn items_in<'a>(object: &'a Value, name: &str) -> &'a [Value]
    ensures { map view result.now ≡ items_in name.now (view object.now) }
{
    match object.get(name) {
        Some(array) => items_of(array),
        None => &[],
    }
}
