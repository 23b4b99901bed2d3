ghost use Rattle.std.specs.Prelude.{◌≡◌, ◌+◌, ◌-◌, ◌^◌, ◌<◌, ◌≤◌, ◌++◌, ◌∷◌, [], IfOk, OnOk, length};
ghost use Rattle.gs_grammar_compile.specs.Tables.{edge, lit_table, run_table, fork_edges, fill_table, lower_edges, bound_rest, bound_edges, bound_table};

use gs_ambig::{Edge, Table};
use gs_chars::Memory;

/// Returns the state `steps` after the last. A number that overflows is too great for memory.
pub fn state_ahead(table: &Table, steps: usize) -> Result<usize, Memory>
    ensures { IfOk result (λ state. state ≡ length table.now + steps) }
{
    match table.len().checked_add(steps) {
        Some(state) => Ok(state),
        None => Err(Memory),
    }
}

/// Adds a state with one edge, to the next state.
fn add_step(table: &mut Table, lo: u8, hi: u8) -> Result<(), Memory>
    ensures { OnOk result (table.new ≡ table.old ++ (edge lo hi (length table.old + 1) ∷ []) ∷ []) }
{
    let to = state_ahead(table, 1)?;
    table.push_state(&[Edge { lo, hi, to }])
}

/// Adds the states of a literal.
pub fn add_literal(table: &mut Table, symbols: &[u8]) -> Result<(), Memory>
    ensures { OnOk result (table.new ≡ table.old ++ lit_table symbols.now (length table.old)) }
{
    for symbol in symbols {
        add_step(table, *symbol, *symbol)?;
    }
    Ok(())
}

/// Adds the states of a run of symbols of one range.
pub fn add_run(table: &mut Table, lo: u8, hi: u8, count: usize) -> Result<(), Memory>
    ensures { OnOk result (table.new ≡ table.old ++ run_table lo hi count (length table.old)) }
{
    for _place in 0..count {
        add_step(table, lo, hi)?;
    }
    Ok(())
}

/// Adds the last state of the shorter of two runs of zeros. The longer has `more` zeros more.
fn add_fork(table: &mut Table, more: usize) -> Result<(), Memory>
    requires { 0 < more }
    ensures { OnOk result (table.new ≡ table.old ++ fork_edges more (length table.old) ∷ []) }
{
    let next = state_ahead(table, 1)?;
    let Some(end) = next.checked_add(more) else {
        return Err(Memory);
    };
    let forth = Edge {
        lo: 0,
        hi: 0,
        to: next,
    };
    let out = Edge {
        lo: 0,
        hi: 0,
        to: end,
    };
    table.push_state(&[forth, out])
}

/// Adds the states of a run of zeros of either of two lengths. The lengths ascend, and the least is not 0.
pub fn add_fill(table: &mut Table, least: usize, most: usize) -> Result<(), Memory>
    requires some { 0 < least }
    requires order { least ≤ most }
    ensures { OnOk result (table.new ≡ table.old ++ fill_table least (most - least) (length table.old)) }
{
    if least == most {
        return add_run(table, 0, 0, least);
    }
    add_run(table, 0, 0, least - 1)?;
    add_fork(table, most - least)?;
    add_run(table, 0, 0, most - least)
}

/// Adds the state at which the bits so far are those of the greatest number. `left` bits follow this one.
fn add_first(table: &mut Table, left: u8, greatest: u64) -> Result<(), Memory>
    requires { left < 64 }
    ensures { OnOk result (table.new ≡ table.old ++ bound_edges left greatest (length table.old + 2) ∷ []) }
{
    let next = state_ahead(table, 2)?;
    if greatest < 1 << left {
        return table.push_state(&[Edge {
            lo: 0,
            hi: 0,
            to: next,
        }]);
    }
    let lower = state_ahead(table, if left == 0 { 2 } else { 3 })?;
    let one = Edge {
        lo: 1,
        hi: 1,
        to: next,
    };
    let zero = Edge {
        lo: 0,
        hi: 0,
        to: lower,
    };
    table.push_state(&[one, zero])
}

/// Adds the state at which the bits so far are lower than those of the greatest number. `left` bits follow this one.
fn add_second(table: &mut Table, left: u8) -> Result<(), Memory>
    ensures { OnOk result (table.new ≡ table.old ++ lower_edges left (length table.old + 1) ∷ []) }
{
    let to = state_ahead(table, if left == 0 { 1 } else { 2 })?;
    table.push_state(&[Edge { lo: 0, hi: 1, to }])
}

/// Returns the rest of the greatest number after its first bit.
fn rest_of(greatest: u64, left: u8) -> u64
    requires { left < 64 }
    ensures { result ≡ bound_rest left greatest }
{
    if greatest < 1 << left {
        greatest
    } else {
        greatest - (1 << left)
    }
}

/// Adds the states of a number of at most 64 bits, up to a greatest.
pub fn add_bound(table: &mut Table, bits: u8, greatest: u64) -> Result<(), Memory>
    requires { bits ≤ 64 }
    ensures { OnOk result (table.new ≡ table.old ++ bound_table bits greatest (length table.old)) }
{
    let mut left = bits;
    let mut bound = greatest;
    while left > 0 {
        left -= 1;
        add_first(table, left, bound)?;
        add_second(table, left)?;
        bound = rest_of(bound, left);
    }
    Ok(())
}
