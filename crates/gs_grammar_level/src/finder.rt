ghost use Rattle.std.specs.Prelude.{◌≡◌, ◌↔◌, ◌≤◌, ◌<◌, ◌+◌, IsTrue, IfOk, false, length};
ghost use Rattle.gs_grammar_level.specs.Guides.{StandsAt, BeginAll};
ghost use Rattle.gs_grammar_level.specs.Finders.{IsFound, NoneFound, NoneReads, NothingFound};

use crate::cuttings::{Cutting, read_by_widths};
use crate::fronts::Group;
use crate::level::Level;
use crate::read::{Scratch, read_by_machine};
use gs_chars::{CowText, List, Memory};
use std::alloc::Global;

/// An option that derives a list of symbols, and the values of a derivation.
#[derive(Drop)]
pub struct Found<'a> {
    pub option: usize,
    pub values: List<CowText<'a>>,
}

/// Returns whether the literal is in the symbols at this place.
fn stands_at(symbols: &[u8], place: usize, literal: &[u8]) -> bool
    ensures { IsTrue result ↔ StandsAt place literal.now symbols.now }
{
    match symbols.get(place..) {
        Some(rest) => rest.starts_with(literal),
        None => literal.is_empty(),
    }
}

/// Returns whether the first symbol of the literal is at this place. An empty literal is at every place.
pub fn begins_at(symbols: &[u8], place: usize, literal: &[u8]) -> bool
    ensures { StandsAt place literal.now symbols.now → IsTrue result }
{
    match literal.first() {
        Some(first) => symbols.get(place) == Some(first),
        None => true,
    }
}

/// Returns whether the probe of an option is in the symbols. The option derives them only if it does.
fn is_probed(level: &Level, option: usize, symbols: &[u8]) -> bool
    requires { option < length level.now.options }
    ensures { result ≡ false → NoneReads level.now.options option (option + 1) symbols.now }
{
    let probe = &level.probes()[option];
    let literal = probe.literal.as_bytes();
    begins_at(symbols, probe.place, literal) && stands_at(symbols, probe.place, literal)
}

/// Reads the symbols by the option of this number.
fn read_option<'a>(
    alloc: Global,
    level: &Level,
    option: usize,
    symbols: &'a [u8],
    scratch: &mut Scratch,
) -> Result<Option<Found<'a>>, Memory>
    requires { option < length level.now.options }
    ensures found { IfOk result (λ found. IsFound level.now.options symbols.now found) }
    ensures none { IfOk result (λ found. NoneFound level.now.options option (option + 1) symbols.now found) }
{
    let items = level.options()[option].items();
    let values = match &level.cuttings()[option] {
        Cutting::Widths(places) => read_by_widths(alloc, places.items(), items, symbols)?,
        Cutting::Machine => {
            let machine = &level.machines()[option];
            read_by_machine(alloc, machine, items, symbols, scratch)?
        }
    };
    match values {
        Some(values) => Ok(Some(Found { option, values })),
        None => Ok(None),
    }
}

/// Reads the symbols by the first option of the group that derives them. The group has the options from this number on.
fn read_group<'a>(
    alloc: Global,
    level: &Level,
    from: usize,
    group: &Group,
    symbols: &'a [u8],
    scratch: &mut Scratch,
) -> Result<Option<Found<'a>>, Memory>
    requires within { group.now.end ≤ length level.now.options }
    requires begin { BeginAll level.now.options from group.now.end group.now.literal }
    ensures found { IfOk result (λ found. IsFound level.now.options symbols.now found) }
    ensures none { IfOk result (λ found. NoneFound level.now.options from group.now.end symbols.now found) }
{
    if !stands_at(symbols, 0, group.literal.as_bytes()) {
        return Ok(None);
    }
    for option in from..group.end {
        if !is_probed(level, option, symbols) {
            continue;
        }
        if let Some(found) = read_option(alloc, level, option, symbols, scratch)? {
            return Ok(Some(found));
        }
    }
    Ok(None)
}

/// Reads the symbols by the first option of the level that derives them.
pub fn find<'a>(
    alloc: Global,
    level: &Level,
    symbols: &'a [u8],
) -> Result<Option<Found<'a>>, Memory>
    ensures found { IfOk result (λ found. IsFound level.now.options symbols.now found) }
    ensures none { IfOk result (λ found. NothingFound level.now.options symbols.now found) }
{
    let mut scratch = Scratch::new(alloc);
    let mut from = 0;
    for group in level.groups() {
        if let Some(found) = read_group(alloc, level, from, group, symbols, &mut scratch)? {
            return Ok(Some(found));
        }
        from = group.end;
    }
    Ok(None)
}
