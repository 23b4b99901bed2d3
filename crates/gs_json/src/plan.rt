ghost use Rattle.std.specs.Prelude.{◌≡◌, IfOk, map, slice_get, option_map};
ghost use Rattle.gs_json.specs.Plans.{entry_of};
ghost use Rattle.serde_json.specs.View.{view, items_view, members_view};
ghost use Rattle.gs_json.specs.Fits.{FitsAs, fit_but, fit_if};
ghost use Rattle.gs_json.specs.Shapes.{failing_from, is_array, is_text, items_list, IsFirst, entry_errors, is_named};
ghost use Rattle.gs_json.specs.Shapes.{members_errors, unknown_errors};
ghost use Rattle.serde_json.specs.Find.{as_object, get_member};

use crate::error::JsonFault;
use crate::place::Place;
use gs_chars::{List, Memory, Text};
use serde_json::{Map, Value};
use std::alloc::Global;

/// The required sort of a member.
#[derive(Clone, Copy)]
pub enum Sort {
    /// A text.
    Text,
    /// A number of only digits, at most 2^64 - 1.
    Number,
    /// `true` or `false`.
    Truth,
    /// An array of any items.
    Array,
    /// An array of texts.
    Texts,
    /// An array of arrays.
    Arrays,
}

/// A member that an object must or may have, and its sort.
#[derive(Drop)]
pub struct Entry {
    /// The member's name.
    pub name: Text,
    /// Whether the object must have it.
    pub required: bool,
    /// The required sort of its value.
    pub sort: Sort,
}

/// Makes a plan of members, each with its name, whether the object must have it, and its sort. Fails only with `Memory`.
pub fn plan_of(alloc: Global, members: &[(&[u8], bool, Sort)]) -> Result<List<Entry>, Memory>
    ensures { IfOk result (λ plan. plan ≡ map entry_of members.now) }
{
    let mut plan = Vec::with_capacity(alloc, members.len())?;
    for (name, required, sort) in members {
        plan.push(Entry {
            name: Text::from_bytes(alloc, name)?,
            required: *required,
            sort: *sort,
        })?;
    }
    Ok(List::from_vec(plan))
}

/// How a part fits a sort.
#[derive(Clone, Copy)]
pub(crate) enum Fit {
    /// It fits.
    Whole,
    /// It is of another kind.
    Not,
    /// It is an array, whose first item of another kind has this index.
    AllBut(usize),
}

/// Returns how a part fits a sort.
pub(crate) fn fit_of(value: &Value, sort: Sort) -> Fit
    ensures { FitsAs sort (view value.now) result }
{
    match sort {
        Sort::Text => whole(value.is_string()),
        Sort::Number => whole(value.is_u64()),
        Sort::Truth => whole(value.is_boolean()),
        Sort::Array => whole(value.is_array()),
        Sort::Texts => match value.as_array() {
            Some(items) => all_but(first_no_text(items.as_slice())),
            None => Fit::Not,
        },
        Sort::Arrays => match value.as_array() {
            Some(items) => all_but(first_no_array(items.as_slice())),
            None => Fit::Not,
        },
    }
}

fn whole(fits: bool) -> Fit
    ensures { result ≡ fit_if fits }
{
    if fits { Fit::Whole } else { Fit::Not }
}

fn all_but(failing: Option<usize>) -> Fit
    ensures { result ≡ fit_but failing }
{
    match failing {
        Some(i) => Fit::AllBut(i),
        None => Fit::Whole,
    }
}

fn first_no_text(items: &[Value]) -> Option<usize>
    ensures { result ≡ slice_get (failing_from 0 is_text (items_list (items_view items.now))) 0 }
{
    for (i, item) in items.iter().enumerate() {
        if !item.is_string() {
            return Some(i);
        }
    }
    None
}

fn first_no_array(items: &[Value]) -> Option<usize>
    ensures { result ≡ slice_get (failing_from 0 is_array (items_list (items_view items.now))) 0 }
{
    for (i, item) in items.iter().enumerate() {
        if !item.is_array() {
            return Some(i);
        }
    }
    None
}

/// Checks the value at a place against a plan and returns the first error.
pub(crate) fn judge(
    alloc: Global,
    value: &Value,
    place: &Place<'_>,
    plan: &[Entry],
) -> Result<(), JsonFault>
    ensures { IsFirst result (members_errors place.now plan.now (as_object (view value.now))) }
{
    let Some(map) = value.as_object() else {
        return Err(JsonFault::Kind(place.text(alloc)?));
    };
    for entry in plan {
        judge_member(alloc, map, place, entry)?;
    }
    judge_names(alloc, map, place, plan)?;
    Ok(())
}

/// Checks the member that an entry names.
fn judge_member(
    alloc: Global,
    map: &Map<String, Value>,
    place: &Place<'_>,
    entry: &Entry,
) -> Result<(), JsonFault>
    ensures { IsFirst result (entry_errors place.now (members_view map.now.entries) entry.now) }
{
    let name = entry.name.as_bytes();
    match member_named(map, name) {
        Some(value) => match fit_of(value, entry.sort) {
            Fit::Whole => Ok(()),
            Fit::Not => Err(JsonFault::Kind(place.member_text(alloc, name)?)),
            Fit::AllBut(i) => Err(JsonFault::Kind(place.member_item_text(alloc, name, i)?)),
        },
        None if entry.required => Err(JsonFault::Lacks(place.member_text(alloc, name)?)),
        None => Ok(()),
    }
}

/// Looks up the member of a name. No member has a name that is not valid UTF-8.
fn member_named<'v>(map: &'v Map<String, Value>, name: &[u8]) -> Option<&'v Value>
    ensures { option_map (λ v. view v.now) result ≡ get_member name.now (members_view map.now.entries) }
{
    match str::from_utf8(name) {
        Ok(name) => map.get(name),
        Err(_) => None,
    }
}

/// Checks that the plan names each member.
fn judge_names(
    alloc: Global,
    map: &Map<String, Value>,
    place: &Place<'_>,
    plan: &[Entry],
) -> Result<(), JsonFault>
    ensures { IsFirst result (unknown_errors place.now plan.now (members_view map.now.entries)) }
{
    for name in map.keys() {
        if !names(plan, name.as_bytes()) {
            return Err(JsonFault::Unknown(place.member_text(alloc, name.as_bytes())?));
        }
    }
    Ok(())
}

/// Returns whether a plan names a member.
fn names(plan: &[Entry], name: &[u8]) -> bool
    ensures { result ≡ is_named plan.now name.now }
{
    plan.iter().any(|entry| entry.name.as_bytes() == name)
}
