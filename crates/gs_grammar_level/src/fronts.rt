ghost use Rattle.std.specs.Prelude.{◌≡◌, ◌↔◌, ◌++◌, All, IfOk, IsTrue, OnOk, map, replicate};
ghost use Rattle.gs_grammar.specs.Items.{IsItem, size_of};
ghost use Rattle.gs_grammar_level.specs.Fronts.{place_of, places_of, AreApart, ArePlacesApart, AreFrontsOf, HavePlaces};
ghost use Rattle.gs_grammar_level.specs.Fronts.{IsFrontOf};

use crate::cuttings::has_one_length;
use gs_chars::{List, Memory, Text};
use gs_grammar::{Item, Opt};
use std::alloc::Global;

/// Appends a place with only one symbol for each symbol of a literal.
fn add_literal(places: &mut Vec<Place>, literal: &[u8]) -> Result<(), Memory>
    ensures { OnOk result (places.new.items
        ≡ places.old.items ++ map (λ symbol. place_of symbol symbol) literal.now) }
{
    for symbol in literal {
        places.push(Place {
            least: *symbol,
            most: *symbol,
        })?;
    }
    Ok(())
}

/// Appends this many places of the symbols from the least to the most.
fn add_places(places: &mut Vec<Place>, count: usize, least: u8, most: u8) -> Result<(), Memory>
    ensures { OnOk result (places.new.items ≡ places.old.items ++ replicate count (place_of least most)) }
{
    let mut left = count;
    while left > 0 {
        places.push(Place { least, most })?;
        left -= 1;
    }
    Ok(())
}

/// Appends the places of the words of an item whose longest word has this size.
fn add_item(places: &mut Vec<Place>, item: &Item, size: usize) -> Result<(), Memory>
    requires { size ≡ size_of item.now }
    ensures { OnOk result (places.new.items ≡ places.old.items ++ places_of item.now) }
{
    match item {
        Item::Lit(literal) => add_literal(places, literal.as_bytes()),
        Item::Pad { .. } | Item::Digits { .. } | Item::Int { .. } => {
            add_places(places, size, b'0', b'9')
        }
        Item::Esc { .. } => add_places(places, size, 0, u8::MAX),
        Item::NumPad { .. } | Item::Num { .. } | Item::NumStr { .. } | Item::Ascii7 { .. } => {
            add_places(places, size, 0, 1)
        }
        Item::Fill { .. } => add_places(places, size, 0, 0),
    }
}

/// Returns the places of the items up to the first whose words have several lengths.
fn first_places(alloc: Global, items: &[Item]) -> Result<List<Place>, Memory>
    requires { All IsItem items.now }
    ensures { IfOk result (λ places. HavePlaces items.now places) }
{
    let mut places = Vec::new(alloc);
    let mut left = items;
    while let Some((item, others)) = left.split_first() {
        let size = item.size();
        if !has_one_length(item, size) {
            break;
        }
        add_item(&mut places, item, size)?;
        left = others;
    }
    Ok(List::from_vec(places))
}

/// Makes the `Front` of an option.
fn front_of(alloc: Global, option: &Opt) -> Result<Front, Memory>
    ensures { IfOk result (λ front. IsFrontOf front option.now) }
{
    let items = option.items();
    Ok(Front {
        places: first_places(alloc, items)?,
    })
}

/// Makes the `Front` of each option, in their order.
pub fn fronts_of(alloc: Global, options: &[Opt]) -> Result<List<Front>, Memory>
    ensures { IfOk result (λ fronts. AreFrontsOf fronts options.now) }
{
    let mut fronts = Vec::with_capacity(alloc, options.len())?;
    for option in options {
        fronts.push(front_of(alloc, option)?)?;
    }
    Ok(List::from_vec(fronts))
}

/// Returns whether no symbol may be at both places.
fn are_places_apart(place: Place, other: Place) -> bool
    ensures { IsTrue result → ArePlacesApart place other }
{
    place.most < other.least || other.most < place.least
}

/// Returns whether no symbol may be at the same place of both.
pub fn are_apart(places: &[Place], others: &[Place]) -> bool
    ensures { IsTrue result → AreApart places.now others.now }
{
    for number in 0..places.len().min(others.len()) {
        if are_places_apart(places[number], others[number]) {
            return true;
        }
    }
    false
}

/// The symbols that may be at a place: from the least to the most.
#[derive(Clone, Copy)]
pub struct Place {
    pub least: u8,
    pub most: u8,
}

/// The symbols at the first places of an option's texts, up to the first item whose words have several lengths.
#[derive(Drop)]
pub struct Front {
    pub places: List<Place>,
}

/// A literal that is at a place in every text of an option. An empty one is at every place.
#[derive(Drop)]
pub struct Probe {
    pub place: usize,
    pub literal: Text,
}

/// Consecutive options whose texts all begin with a literal: those before the number `end`.
#[derive(Drop)]
pub struct Group {
    pub literal: Text,
    pub end: usize,
}
