ghost use Rattle.std.specs.Prelude.{◌≡◌, ℕ, [], ◌++◌, List, IfOk, OnOk};
ghost use Rattle.gs_json.specs.Places.{escaped, escaped_byte, item_place, member_place};

use gs_chars::{Memory, Text};
use smallvec::SmallVec;
use std::alloc::{AllocError, Global};
use std::marker::Model;

/// A step from a part of a document to one that it holds.
#[derive(Clone, Copy)]
pub(crate) enum Step<'a> {
    /// To the member of this name.
    Member(&'a str),
    /// To the item at this index, counted from 0.
    Item(usize),
}

impl Default for Step<'_> {
    fn default() -> Self {
        Step::Item(0)
    }
}

/// A place in a document, kept as its steps, whose names the document lends. Up to eight steps need no allocation. Contracts
/// see the JSON Pointer.
#[derive(Drop)]
pub(crate) struct Place<'a> {
    steps: SmallVec<Step<'a>, 8>,
}

impl<'a> Model for Place<'a> {
    ghost use Rattle.std.specs.Prelude.{List, ℕ};

    ghost Value = { List ℕ };

    ghost use Rattle.gs_json.specs.Steps.{place_of};

    ghost view = { λ p. place_of p.steps.items };
}

impl<'a> Place<'a> {
    ghost use Rattle.gs_json.specs.Steps.{step_text};

    /// Returns the place of the whole document. Does not allocate.
    pub(crate) fn root(alloc: Global) -> Place<'a>
        ensures { result ≡ [] }
    {
        Place {
            steps: SmallVec::new(alloc),
        }
    }

    /// Returns the JSON Pointer of the place.
    pub(crate) fn text(&self, alloc: Global) -> Result<Text, Memory>
        ensures { IfOk result (λ text. text ≡ self.now) }
    {
        Ok(Text::from_vec(self.pointer(alloc)?))
    }

    /// Returns the JSON Pointer of the member of this name, which the document need not lend.
    pub(crate) fn member_text(&self, alloc: Global, name: &[u8]) -> Result<Text, Memory>
        ensures { IfOk result (λ text. text ≡ member_place self.now name.now) }
    {
        let mut text = self.pointer(alloc)?;
        push_member(&mut text, name)?;
        Ok(Text::from_vec(text))
    }

    /// Returns the JSON Pointer of an item of the member of this name.
    pub(crate) fn member_item_text(
        &self,
        alloc: Global,
        name: &[u8],
        i: usize,
    ) -> Result<Text, Memory>
        ensures { IfOk result (λ text. text ≡ item_place (member_place self.now name.now) i) }
    {
        let mut text = self.pointer(alloc)?;
        push_member(&mut text, name)?;
        push_item(alloc, &mut text, i)?;
        Ok(Text::from_vec(text))
    }

    /// Returns the place one step further.
    pub(crate) fn then(&self, alloc: Global, step: Step<'a>) -> Result<Place<'a>, Memory>
        ensures { IfOk result (λ place. place ≡ self.now ++ step_text step.entry) }
    {
        let mut steps = SmallVec::from_slice(alloc, self.steps.as_slice())?;
        steps.push(step)?;
        Ok(Place { steps })
    }

    fn pointer(&self, alloc: Global) -> Result<Vec<u8>, Memory>
        ensures { IfOk result (λ text. text.items ≡ self.now) }
    {
        let mut text = Vec::new(alloc);
        for step in self.steps.as_slice().iter() {
            match *step {
                Step::Member(name) => push_member(&mut text, name.as_bytes())?,
                Step::Item(i) => push_item(alloc, &mut text, i)?,
            }
        }
        Ok(text)
    }
}

/// Appends a slash and the name, with its escapes.
fn push_member(text: &mut Vec<u8>, name: &[u8]) -> Result<(), Memory>
    ensures { OnOk result (text.new.items ≡ member_place text.old.items name.now) }
{
    text.push(b'/')?;
    for c in name.iter() {
        push_escaped(text, *c)?;
    }
    Ok(())
}

/// Appends a byte of a name, with its escape.
fn push_escaped(text: &mut Vec<u8>, c: u8) -> Result<(), Memory>
    ensures { OnOk result (text.new.items ≡ text.old.items ++ escaped_byte c) }
{
    match c {
        b'~' => text.extend_from_slice(b"~0")?,
        b'/' => text.extend_from_slice(b"~1")?,
        plain => text.push(plain)?,
    }
    Ok(())
}

/// Appends a slash and the item's number.
fn push_item(alloc: Global, text: &mut Vec<u8>, i: usize) -> Result<(), Memory>
    ensures { OnOk result (text.new.items ≡ item_place text.old.items i) }
{
    let number = i.to_string(alloc)?;
    text.push(b'/')?;
    text.extend_from_slice(number.as_bytes())?;
    Ok(())
}
