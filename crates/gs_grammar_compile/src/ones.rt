ghost use Rattle.std.specs.Prelude.{◌≡◌, ◌+◌, ◌-◌, ◌*◌, ◌^◌, ◌<◌, ◌≤◌, ◌++◌, ◌∷◌, ◌&&◌, nat_lt, [], IfOk, OnOk, length};
ghost use Rattle.gs_grammar_compile.specs.OnesTables.{count_rows, counts_rows, free_bits_edges, from_edges, has_bit, is_highest, layer_rows, layer_state, lead_edges, leads_edges, ones_table, up_to_edges, zeros_edges};

use crate::additions::state_ahead;
use crate::code_states::{bit_edge, push_where};
use gs_ambig::{Edge, Table};
use gs_chars::Memory;
use std::alloc::Global;

/// Returns the state at this place of the layer with `left` bits left, and the end if no bits are left.
fn layer_state(left: u8, next: usize, place: usize) -> Result<usize, Memory>
    ensures { IfOk result (λ state. state ≡ layer_state left next place) }
{
    if left == 0 {
        return Ok(next);
    }
    match next.checked_add(place) {
        Some(state) => Ok(state),
        None => Err(Memory),
    }
}

/// Returns whether the number has the bit that `left` others follow.
fn has_bit(left: u8, number: u64) -> bool
    requires { left < 64 }
    ensures { result ≡ has_bit left number }
{
    (number >> left) % 2 == 1
}

/// Returns whether the bit that `left` others follow is the highest of the number.
fn is_highest(left: u8, number: u64) -> bool
    requires { left < 64 }
    ensures { result ≡ is_highest left number }
{
    let half = 1 << left;
    half <= number && number - half < half
}

/// Returns whether the bit that `left` others follow is above the number, and not above one less than its double.
fn is_highest_of_double(left: u8, number: u64) -> bool
    requires bit { left < 64 }
    requires small { number < 2 ^ 63 }
    ensures { result ≡ (nat_lt number (2 ^ left) && nat_lt (2 ^ left) (2 * number)) }
{
    let half = 1 << left;
    number < half && half < 2 * number
}

/// Appends the edges with a first 1 to the states of a count of digits.
fn push_lead(row: &mut Vec<Edge>, left: u8, next: usize, count: u8) -> Result<(), Memory>
    requires bit { left < 64 }
    requires few { count ≤ 12 }
    ensures { OnOk result (row.new.items ≡ row.old.items ++ lead_edges left next (10 ^ count) count) }
{
    let power = 10u64.pow(u32::from(count));
    let place = 2 * usize::from(count);
    let least = layer_state(left, next, place)?;
    let greatest = layer_state(left, next, place + 1)?;
    push_where(row, is_highest(left, power), 1, least)?;
    push_where(row, is_highest_of_double(left, power), 1, greatest)
}

/// Appends such edges for each count of digits, the greatest count first.
fn push_leads(row: &mut Vec<Edge>, left: u8, next: usize, hi: u8) -> Result<(), Memory>
    requires bit { left < 64 }
    requires few { hi ≤ 12 }
    ensures { OnOk result (row.new.items ≡ row.old.items ++ leads_edges left next hi) }
{
    let mut count = hi;
    while count > 0 {
        push_lead(row, left, next, count)?;
        count -= 1;
    }
    Ok(())
}

/// Makes the edges of the first state of a layer: with a zero, if more bits follow, and with the first 1.
fn zeros_row(alloc: Global, left: u8, next: usize, hi: u8) -> Result<Vec<Edge>, Memory>
    requires bit { left < 64 }
    requires few { hi ≤ 12 }
    ensures { IfOk result (λ row. row.items ≡ zeros_edges left next hi) }
{
    let mut row = Vec::new(alloc);
    push_where(&mut row, left > 0, 0, next)?;
    push_leads(&mut row, left, next, hi)?;
    Ok(row)
}

/// Adds a state at which the bits so far are those of the least number, by the next bit of that number.
fn add_from(table: &mut Table, one: bool, same: usize, free: usize) -> Result<(), Memory>
    ensures { OnOk result (table.new ≡ table.old ++ from_edges one same free ∷ []) }
{
    if one {
        return table.push_state(&[bit_edge(1, same)]);
    }
    table.push_state(&[bit_edge(0, same), bit_edge(1, free)])
}

/// Adds a state at which the bits so far are those of the greatest number, by the next bit of that number.
fn add_up_to(table: &mut Table, one: bool, same: usize, free: usize) -> Result<(), Memory>
    ensures { OnOk result (table.new ≡ table.old ++ up_to_edges one same free ∷ []) }
{
    if one {
        return table.push_state(&[bit_edge(0, free), bit_edge(1, same)]);
    }
    table.push_state(&[bit_edge(0, same)])
}

/// Adds the two states of a count of digits.
fn add_count(table: &mut Table, left: u8, next: usize, count: u8) -> Result<(), Memory>
    requires bit { left < 64 }
    requires few { count ≤ 12 }
    ensures { OnOk result (table.new ≡ table.old ++ count_rows left next (10 ^ count) count) }
{
    let power = 10u64.pow(u32::from(count));
    let place = 2 * usize::from(count);
    let least = layer_state(left, next, place)?;
    let greatest = layer_state(left, next, place + 1)?;
    let free = layer_state(left, next, 1)?;
    add_from(table, has_bit(left, power), least, free)?;
    add_up_to(table, has_bit(left, 2 * power - 1), greatest, free)
}

/// Adds the states of the counts of digits, from one on.
fn add_counts(table: &mut Table, left: u8, next: usize, hi: u8) -> Result<(), Memory>
    requires bit { left < 64 }
    requires few { hi ≤ 12 }
    ensures { OnOk result (table.new ≡ table.old ++ counts_rows left next 1 hi) }
{
    let mut count = 1;
    while count <= hi {
        add_count(table, left, next, count)?;
        count += 1;
    }
    Ok(())
}

/// Adds the states of a layer whose bit `left` others follow.
fn add_layer(alloc: Global, table: &mut Table, left: u8, next: usize, hi: u8) -> Result<(), Memory>
    requires bit { left < 64 }
    requires few { hi ≤ 12 }
    ensures { OnOk result (table.new ≡ table.old ++ layer_rows left next hi) }
{
    let zeros = zeros_row(alloc, left, next, hi)?;
    let to = layer_state(left, next, 1)?;
    table.push_state(zeros.as_slice())?;
    table.push_state(&[Edge { lo: 0, hi: 1, to }])?;
    add_counts(table, left, next, hi)
}

/// Adds the states of a number of at most 64 bits whose digits are a 1 and from 1 to `hi` others.
pub fn add_ones(alloc: Global, table: &mut Table, bits: u8, hi: u8) -> Result<(), Memory>
    requires bits { bits ≤ 64 }
    requires few { hi ≤ 12 }
    ensures { OnOk result (table.new ≡ table.old ++ ones_table bits hi (length table.old)) }
{
    let states = 2 + 2 * usize::from(hi);
    let mut left = bits;
    while left > 0 {
        left -= 1;
        let next = state_ahead(table, states)?;
        add_layer(alloc, table, left, next, hi)?;
    }
    Ok(())
}
