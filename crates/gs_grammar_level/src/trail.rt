ghost use Rattle.std.specs.Prelude.{◌≡◌, ◌++◌, OnOk, IfOk, IfSome, IfNone};
ghost use Rattle.gs_ambig.specs.Machines.{IsMachine};
ghost use Rattle.gs_grammar_level.specs.Trails.{leads_with, successors, with_layer, AreInside, IsEntryOf, HasNoEntryOf, IsTrail, HasNoRun};

use gs_ambig::{Auto, Edge};
use gs_chars::Memory;

/// A state that a machine can be at after a symbol, and the number of the entry that it was reached from.
#[derive(Clone, Copy)]
pub struct Entry {
    pub state: usize,
    pub back: usize,
}

/// Returns whether the edge leads with this symbol.
fn leads_with(edge: &Edge, symbol: u8) -> bool
    ensures { result ≡ leads_with edge.now symbol }
{
    edge.lo <= symbol && symbol <= edge.hi
}

/// Appends an entry for each edge that leads with this symbol.
fn push_successors(
    trail: &mut Vec<Entry>,
    edges: &[Edge],
    symbol: u8,
    back: usize,
) -> Result<(), Memory>
    ensures { OnOk result (trail.new.items ≡ trail.old.items ++ successors edges.now symbol back) }
{
    for edge in edges {
        if !leads_with(edge, symbol) {
            continue;
        }
        trail.push(Entry {
            state: edge.to,
            back,
        })?;
    }
    Ok(())
}

/// Appends the entries that the symbol leads to from those of the number `from` on.
fn push_layer(machine: &Auto, trail: &mut Vec<Entry>, from: usize, symbol: u8) -> Result<(), Memory>
    requires { AreInside machine.now trail.old.items }
    ensures { OnOk result (trail.new.items ≡ with_layer machine.now symbol from trail.old.items) }
{
    for number in from..trail.len() {
        let entry = trail[number];
        push_successors(trail, machine.edges(entry.state), symbol, number)?;
    }
    Ok(())
}

/// Returns the number of an entry of this state, from the number `from` on.
fn entry_of(trail: &[Entry], from: usize, state: usize) -> Option<usize>
    ensures some { IfSome result (IsEntryOf trail.now from state) }
    ensures none { IfNone result (HasNoEntryOf trail.now from state) }
{
    for number in from..trail.len() {
        if trail[number].state == state {
            return Some(number);
        }
    }
    None
}

/// Writes the trail anew, and returns the number of the entry in which an accepting run on the symbols ends. Returns `None` if
/// and only if the symbols have no accepting run.
pub fn follow(
    machine: &Auto,
    symbols: &[u8],
    trail: &mut Vec<Entry>,
) -> Result<Option<usize>, Memory>
    requires { IsMachine machine.now }
    ensures found { IfOk result (λ found. IfSome found (IsTrail machine.now trail.new.items symbols.now)) }
    ensures none { IfOk result (λ found. IfNone found (HasNoRun machine.now symbols.now)) }
{
    trail.clear();
    trail.push(Entry {
        state: machine.start(),
        back: 0,
    })?;
    let mut from = 0;
    for symbol in symbols {
        let end = trail.len();
        push_layer(machine, trail, from, *symbol)?;
        if trail.len() == end {
            return Ok(None);
        }
        from = end;
    }
    Ok(entry_of(trail.as_slice(), from, machine.accept()))
}
