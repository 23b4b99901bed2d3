ghost use Rattle.std.specs.Prelude.{◌≡◌, ◌<◌, map, Some, option_map, string_bytes, IfOk, IfErr, option_and_then};
ghost use Rattle.serde_json.specs.Find.{as_array, as_bool, as_number, as_object, as_str, as_u64, at};
ghost use Rattle.serde_json.specs.View.{view};
ghost use Rattle.std.specs.BTreeMap.{keys};
ghost use Rattle.gs_json.specs.Answers.{AscendByBytes, names_lent};
ghost use Rattle.gs_json.specs.Places.{item_place, member_place};
ghost use Rattle.gs_chars.specs.Answers.{OrError};
ghost use Rattle.serde_json.specs.Events.{items_len};

use crate::error::JsonFault;
use crate::place::{Place, Step};
use crate::plan::{Entry, judge};
use gs_chars::{List, Memory, Text};
use serde_json::{Map, Value};
use std::alloc::Global;
use std::marker::Model;

/// A part of a document, which lends it, with its place. Contracts see the part's tree and its JSON Pointer (RFC 6901).
pub struct Node<'a> {
    pub(crate) value: &'a Value,
    pub(crate) place: Place<'a>,
}

// by hand, so that a function that drops one calls this one: a derived drop is written out at each of its exits
impl Drop for Node<'_> {
    fn drop(self) {
        let Node { value: _, place: _ } = self;
    }
}

impl<'a> Model for Node<'a> {
    ghost use Rattle.gs_json.specs.Parts.{Part};
    ghost use Rattle.gs_json.specs.PartsSupport.{part_code};

    ghost Value = { Part };

    ghost coded = { part_code };

    ghost view = { λ n. record { tree = n.value.now; place = n.place } };
}

impl<'a> Node<'a> {
    ghost use Rattle.gs_json.specs.Answers.{asked, items_count, maybe_of, member_of, names_at, result_map, seen};
    ghost use Rattle.gs_json.specs.AnswersSupport.{IsError};
    ghost use Rattle.gs_json.specs.Members.{array_errors};
    ghost use Rattle.gs_json.specs.Shapes.{IsFirst, shape_errors};
    ghost use Rattle.std.specs.Prelude.{[]};

    /// Returns a whole tree as a part.
    pub(crate) fn of_root(alloc: Global, value: &'a Value) -> Node<'a>
        ensures tree { result.tree ≡ value.now }
        ensures place { result.place ≡ [] }
    {
        Node {
            value,
            place: Place::root(alloc),
        }
    }

    /// Returns a tree as the item at an index of the array that is the document's member of a name. Fails only with `Memory`.
    pub fn of_item(
        alloc: Global,
        value: &'a Value,
        name: &'a str,
        i: usize,
    ) -> Result<Node<'a>, Memory>
        ensures tree { IfOk result (λ node. node.tree ≡ value.now) }
        ensures place { IfOk result (λ node. node.place ≡ item_place (member_place [] name.now) i) }
    {
        let root = Place::root(alloc);
        let array = root.then(alloc, Step::Member(name))?;
        let place = array.then(alloc, Step::Item(i))?;
        Ok(Node { value, place })
    }

    /// Looks up the member of a name, which the object must have. Returns `Kind` if and only if this is not an object. Returns
    /// `Lacks` with the member's place if and only if the object has no such member. May return `Memory` instead.
    pub fn member(&self, alloc: Global, name: &str) -> Result<Node<'a>, JsonFault>
        ensures { OrError JsonFault.Memory (result_map seen result) (member_of self.now name.now) }
    {
        match self.maybe(alloc, name)? {
            Some(node) => Ok(node),
            None => Err(self.no_member(alloc, name)),
        }
    }

    /// Looks up the member of a name. Returns `None` if the object has no such member, and `Kind` if and only if this is not an
    /// object. May return `Memory` instead.
    pub fn maybe(&self, alloc: Global, name: &str) -> Result<Option<Node<'a>>, JsonFault>
        ensures { OrError JsonFault.Memory (result_map (option_map seen) result)
            (maybe_of self.now name.now) }
    {
        if self.value.is_object() {
            Ok(self.find(alloc, name)?)
        } else {
            Err(self.other_kind(alloc))
        }
    }

    /// Returns the text, or `Kind` if this is not a text. May return `Memory` instead.
    pub fn text(&self, alloc: Global) -> Result<Text, JsonFault>
        ensures { OrError JsonFault.Memory result (asked self.now.place (as_str (view self.now.tree))) }
    {
        match self.value.as_str() {
            Some(text) => Ok(Text::from_bytes(alloc, text.as_bytes())?),
            None => Err(self.other_kind(alloc)),
        }
    }

    /// Returns the number, or `Kind` if this is not a number of only digits and at most 2^64 - 1. May return `Memory`
    /// instead of `Kind`.
    pub fn number(&self, alloc: Global) -> Result<u64, JsonFault>
        ensures { OrError JsonFault.Memory result
            (asked self.now.place (option_and_then as_u64 (as_number (view self.now.tree)))) }
    {
        match self.value.as_u64() {
            Some(number) => Ok(number),
            None => Err(self.other_kind(alloc)),
        }
    }

    /// Returns the truth value, or `Kind` if this is not one. May return `Memory` instead of `Kind`.
    pub fn truth(&self, alloc: Global) -> Result<bool, JsonFault>
        ensures { OrError JsonFault.Memory result (asked self.now.place (as_bool (view self.now.tree))) }
    {
        match self.value.as_bool() {
            Some(truth) => Ok(truth),
            None => Err(self.other_kind(alloc)),
        }
    }

    /// Returns the number of items, or `Kind` if this is not an array. May return `Memory` instead of `Kind`.
    pub fn count(&self, alloc: Global) -> Result<usize, JsonFault>
        ensures answer { OrError JsonFault.Memory result
            (asked self.now.place (option_map items_len (as_array (view self.now.tree)))) }
        ensures items { IfOk result (λ count. count ≡ items_count (view self.now.tree)) }
    {
        match self.items_len() {
            Some(count) => Ok(count),
            None => Err(self.other_kind(alloc)),
        }
    }

    /// Returns the item of an array at an index, counted from 0. Fails only with `Memory`. This must be an array with more
    /// items than the index.
    pub fn item(&self, alloc: Global, i: usize) -> Result<Node<'a>, JsonFault>
        requires { i < items_count (view self.now.tree) }
        ensures item { IfOk result (λ node. Some (view node.tree) ≡ at i (view self.now.tree)) }
        ensures place { IfOk result (λ node. node.place ≡ item_place self.now.place i) }
        ensures memory { IfErr result (λ e. e ≡ JsonFault.Memory) }
    {
        let value: &'a Value = self.value;
        let items = value.as_array().unwrap();
        Ok(Node {
            value: &items[i],
            place: self.place.then(alloc, Step::Item(i))?,
        })
    }

    /// Returns the names of an object's members, which ascend strictly by their bytes. The document lends them. Returns
    /// `Kind` if and only if this is not an object. May return `Memory` instead.
    pub fn names(&self, alloc: Global) -> Result<List<&'a str>, JsonFault>
        ensures answer { OrError JsonFault.Memory (result_map names_lent result) (names_at self.now) }
        ensures ascending { IfOk result (λ names. AscendByBytes (names_lent names)) }
    {
        let value: &'a Value = self.value;
        let Some(map) = value.as_object() else {
            return Err(self.other_kind(alloc));
        };
        Ok(List::from_vec(keys_of(alloc, map)?))
    }

    /// Checks an object against a plan and returns the first error in this order. May return `Memory` instead.
    ///
    /// 1. `Kind` with this place, if this is not an object. 2. For each entry of the plan it is `Lacks` with the member's
    /// place, if a required member is missing. It is `Kind` with the member's place, if the member is not of the entry's sort.
    /// An array of texts or arrays gives the place of its first item of another kind. 3. `Unknown` with the place of the first
    /// member, in ascending order, that the plan does not name.
    pub fn shaped(&self, alloc: Global, plan: &[Entry]) -> Result<(), JsonFault>
        ensures { IsFirst result (shape_errors self.now plan.now) }
    {
        judge(alloc, self.value, &self.place, plan)
    }

    /// Checks each item of the array that is the member of a name against a plan, item by item, and returns the first error as
    /// `shaped` does. Returns `Ok` if there is no such array. May return `Memory` instead.
    pub fn items_shaped(&self, alloc: Global, name: &str, plan: &[Entry]) -> Result<(), JsonFault>
        ensures { IsFirst result (array_errors self.now.place name.now plan.now (view self.now.tree)) }
    {
        let Some(array) = self.find(alloc, name)? else {
            return Ok(());
        };
        let count = array.items_len().unwrap_or(0);
        for i in 0..count {
            let item = array.item(alloc, i)?;
            item.shaped(alloc, plan)?;
        }
        Ok(())
    }

    /// Returns the error that this is of another kind.
    fn other_kind(&self, alloc: Global) -> JsonFault
        ensures { IsError result (JsonFault.Kind self.now.place) }
    {
        match self.place.text(alloc) {
            Ok(place) => JsonFault::Kind(place),
            Err(Memory) => JsonFault::Memory,
        }
    }

    /// Returns the error that the member of this name is missing.
    fn no_member(&self, alloc: Global, name: &str) -> JsonFault
        ensures { IsError result (JsonFault.Lacks (member_place self.now.place name.now)) }
    {
        match self.place.member_text(alloc, name.as_bytes()) {
            Ok(place) => JsonFault::Lacks(place),
            Err(Memory) => JsonFault::Memory,
        }
    }
}

/// Returns the keys of a map in ascending order. The map lends them.
fn keys_of<'v>(alloc: Global, members: &'v Map<String, Value>) -> Result<Vec<&'v str>, Memory>
    ensures names { IfOk result (λ names. names_lent names.items ≡ map string_bytes (keys members.now)) }
    ensures ascending { IfOk result (λ names. AscendByBytes (names_lent names.items)) }
{
    let mut names = Vec::with_capacity(alloc, members.len())?;
    for name in members.keys() {
        names.push(name.as_str())?;
    }
    Ok(names)
}
