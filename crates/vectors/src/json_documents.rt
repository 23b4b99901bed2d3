//! Calls of gs_json. STEPs from the whole find the part of a document DOC: `.NAME` is the member of this name, `?NAME` the same
//! if it may be missing, and `#I` the item of this number. `~NAME` is `?NAME` if the value may also be another than an object.
//!
//! - `parse DOC`: `Ok`, or the error.
//! - `text DOC STEP..`, `number`, `truth`, `count`, `names`: the value of the part, or the error; `None` if a step finds none.
//! - `value DOC STEP..`: the part, as JSON without spaces. `items_len DOC STEP..`: how many items it has, if it is an array.
//! - `shaped DOC PLAN..`: `Ok`, or the error. PLAN is pairs of a name after `+` if it is required, otherwise after `-`, and its
//!   sort: `Text`, `Number`, `Truth`, `Array`, `Texts`, `Arrays`.
//!
//! An error is `Syntax`, or `Lacks`, `Kind` or `Unknown` and the place.

use crate::case::{Rejection, behind, bytes_at, named, number_in, push};
use crate::line::{Done, Line};
use gs_chars::{Memory, Text};
use gs_json::{Doc, JsonFault, Node, Sort, plan_of};
use std::alloc::Global;
use std::fmt::Debug;

#[derive(Clone, Copy)]
enum Call {
    Parse,
    Part(Asked),
    Shaped,
}

/// The question about a part.
#[derive(Clone, Copy)]
enum Asked {
    Count,
    ItemsLen,
    Names,
    Number,
    Text,
    Truth,
    Value,
}

const CALLS: [(&str, Call); 9] = [
    ("count", Call::Part(Asked::Count)),
    ("items_len", Call::Part(Asked::ItemsLen)),
    ("names", Call::Part(Asked::Names)),
    ("number", Call::Part(Asked::Number)),
    ("parse", Call::Parse),
    ("shaped", Call::Shaped),
    ("text", Call::Part(Asked::Text)),
    ("truth", Call::Part(Asked::Truth)),
    ("value", Call::Part(Asked::Value)),
];

/// Makes a call of gs_json.
pub fn answer(alloc: Global, line: &mut Line, call: &[u8], args: &[Text]) -> Done {
    match Doc::parse(alloc, bytes_at(args, 0)) {
        Ok(doc) => answer_over(alloc, line, &doc, call, behind(args, 1)),
        Err(error) => {
            line.error(error);
            Ok(())
        }
    }
}

/// Makes a call over a document, which is lent so that it is dropped at one exit.
fn answer_over(alloc: Global, line: &mut Line, doc: &Doc, call: &[u8], others: &[Text]) -> Done {
    match named(&CALLS, call) {
        Some(Call::Parse) => {
            line.plain("Ok");
            Ok(())
        }
        Some(Call::Shaped) => shaped(alloc, line, doc, others),
        Some(Call::Part(asked)) => asked_behind(alloc, line, doc, asked, others),
        None => Err(Rejection::NoCase),
    }
}

/// Writes the answer for the part at the end of the steps.
fn asked_behind(alloc: Global, line: &mut Line, doc: &Doc, asked: Asked, steps: &[Text]) -> Done {
    match followed(alloc, doc, steps) {
        Ok(Walked::At(node)) => add_asked(alloc, line, asked, &node),
        Ok(Walked::Absent) => line.plain("None"),
        Ok(Walked::Refused(error)) => line.error(error),
        Err(rejection) => return Err(rejection),
    }
    Ok(())
}

/// The part to which steps lead.
#[derive(Drop)]
enum Walked<'a> {
    At(Node<'a>),
    Absent,
    Refused(JsonFault),
}

/// Returns the end of a step that finds a part or rejects.
fn walk_to<'a>(found: Result<Node<'a>, JsonFault>) -> Walked<'a> {
    match found {
        Ok(part) => Walked::At(part),
        Err(error) => Walked::Refused(error),
    }
}

/// Returns the end of a step that may find nothing.
fn walk_maybe<'a>(found: Result<Option<Node<'a>>, JsonFault>) -> Walked<'a> {
    match found {
        Ok(Some(part)) => Walked::At(part),
        Ok(None) => Walked::Absent,
        Err(error) => Walked::Refused(error),
    }
}

/// Returns the end of a step that may find nothing and never rejects.
fn walk_found(found: Result<Option<Node<'_>>, Memory>) -> Result<Walked<'_>, Rejection> {
    match found? {
        Some(part) => Ok(Walked::At(part)),
        None => Ok(Walked::Absent),
    }
}

/// Returns the part to which a step leads from a part.
fn stepped<'a>(alloc: Global, node: &Node<'a>, step: &[u8]) -> Result<Walked<'a>, Rejection> {
    let [kind, rest @ ..] = step else {
        return Err(Rejection::NoCase);
    };
    let Ok(word) = str::from_utf8(rest) else {
        return Err(Rejection::NoCase);
    };
    match *kind {
        b'.' => Ok(walk_to(node.member(alloc, word))),
        b'?' => Ok(walk_maybe(node.maybe(alloc, word))),
        b'~' => walk_found(node.find(alloc, word)),
        b'#' => item_at(alloc, node, rest),
        _ => Err(Rejection::NoCase),
    }
}

/// Returns the item of a number.
fn item_at<'a>(alloc: Global, node: &Node<'a>, i: &[u8]) -> Result<Walked<'a>, Rejection> {
    let Some(i) = number_in(i) else {
        return Err(Rejection::NoCase);
    };
    match node.count(alloc) {
        Ok(count) if i < count as u64 => Ok(walk_to(node.item(alloc, i as usize))),
        Ok(_) => Err(Rejection::NoCase),
        Err(error) => Ok(Walked::Refused(error)),
    }
}

/// Returns the part to which the steps lead from the whole document.
fn followed<'a>(alloc: Global, doc: &'a Doc, steps: &[Text]) -> Result<Walked<'a>, Rejection> {
    let mut node = doc.root(alloc);
    for step in steps {
        match stepped(alloc, &node, step.as_bytes()) {
            Ok(Walked::At(part)) => node = part,
            other => return other,
        }
    }
    Ok(Walked::At(node))
}

/// Writes the answer about a part.
fn add_asked(alloc: Global, line: &mut Line, asked: Asked, node: &Node<'_>) {
    match asked {
        Asked::Count => add_value(line, node.count(alloc)),
        Asked::ItemsLen => line.debug(node.items_len()),
        Asked::Names => add_names(alloc, line, node),
        Asked::Number => add_value(line, node.number(alloc)),
        Asked::Text => add_text(alloc, line, node),
        Asked::Truth => add_value(line, node.truth(alloc)),
        Asked::Value => add_json(alloc, line, node),
    }
}

/// Writes a value, or the error.
fn add_value<T: Debug + Drop>(line: &mut Line, found: Result<T, JsonFault>) {
    match found {
        Ok(value) => line.debug(value),
        Err(error) => line.error(error),
    }
}

fn add_text(alloc: Global, line: &mut Line, node: &Node<'_>) {
    match node.text(alloc) {
        Ok(text) => line.bytes(text.as_bytes()),
        Err(error) => line.error(error),
    }
}

/// Writes the part as JSON without spaces.
fn add_json(alloc: Global, line: &mut Line, node: &Node<'_>) {
    match node.value().to_vec(alloc) {
        Ok(text) => line.bytes(text.as_slice()),
        Err(_) => line.want_memory(),
    }
}

fn add_names(alloc: Global, line: &mut Line, node: &Node<'_>) {
    match node.names(alloc) {
        Ok(names) => {
            for name in names.items() {
                line.bytes(name.as_bytes());
            }
        }
        Err(error) => line.error(error),
    }
}

const SORTS: [(&str, Sort); 6] = [
    ("Array", Sort::Array),
    ("Arrays", Sort::Arrays),
    ("Number", Sort::Number),
    ("Text", Sort::Text),
    ("Texts", Sort::Texts),
    ("Truth", Sort::Truth),
];

/// Returns the name of a member, whether it is required, and its sort.
fn planned(pair: &[Text]) -> Result<(&[u8], bool, Sort), Rejection> {
    let [kind, name @ ..] = bytes_at(pair, 0) else {
        return Err(Rejection::NoCase);
    };
    match named(&SORTS, bytes_at(pair, 1)) {
        Some(sort) => Ok((name, *kind == b'+', sort)),
        None => Err(Rejection::NoCase),
    }
}

/// Returns the members that these pairs plan.
fn members_of(alloc: Global, words: &[Text]) -> Result<Vec<(&[u8], bool, Sort)>, Rejection> {
    let mut members = Vec::new(alloc);
    for pair in words.chunks(2) {
        push(&mut members, planned(pair))?;
    }
    Ok(members)
}

/// Writes whether a document is of a plan.
fn shaped(alloc: Global, line: &mut Line, doc: &Doc, words: &[Text]) -> Done {
    let members = members_of(alloc, words)?;
    let plan = plan_of(alloc, members.as_slice())?;
    match doc.root(alloc).shaped(alloc, plan.items()) {
        Ok(()) => line.plain("Ok"),
        Err(error) => line.error(error),
    }
    Ok(())
}
