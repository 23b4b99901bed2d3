ghost use Rattle.std.specs.Prelude.{◌≡◌, ◌+◌, ◌-◌, ◌*◌, ◌++◌, ◌≤◌, IfOk, OnOk, length};
ghost use Rattle.gs_grammar_compile.specs.EscapeTables.{with_ranges, last_or_next, front_edges, four_states, character_states, esc_table};

use crate::additions::state_ahead;
use gs_ambig::{Edge, Table};
use gs_chars::Memory;
use std::alloc::Global;

/// Appends an edge to one state for each of the ranges.
fn push_ranges(row: &mut Vec<Edge>, ranges: &[(u8, u8)], to: usize) -> Result<(), Memory>
    ensures { OnOk result (row.new.items ≡ row.old.items ++ with_ranges ranges.now to) }
{
    for range in ranges {
        row.push(Edge {
            lo: range.0,
            hi: range.1,
            to,
        })?;
    }
    Ok(())
}

/// Makes the edges of the last symbol of a character. They lead to the end if this may be the last character, and to the next
/// character if `more` may follow.
fn last_row(
    alloc: Global,
    lo: usize,
    more: usize,
    ranges: &[(u8, u8)],
    next: usize,
    end: usize,
) -> Result<Vec<Edge>, Memory>
    ensures { IfOk result (λ row. row.items ≡ last_or_next lo more ranges.now next end) }
{
    let mut row = Vec::with_capacity(alloc, 16)?;
    if more == 0 {
        push_ranges(&mut row, ranges, end)?;
        return Ok(row);
    }
    if lo <= 1 {
        push_ranges(&mut row, ranges, end)?;
        push_ranges(&mut row, ranges, next)?;
        return Ok(row);
    }
    push_ranges(&mut row, ranges, next)?;
    Ok(row)
}

/// Makes the edges before a character.
fn first_row(
    alloc: Global,
    lo: usize,
    more: usize,
    base: usize,
    next: usize,
    end: usize,
) -> Result<Vec<Edge>, Memory>
    requires { base + 4 ≡ next }
    ensures { IfOk result (λ row. row.items ≡ front_edges lo more base next end) }
{
    let plain = [
        (65, 90),
        (97, 122),
        (48, 59),
        (39, 46),
        (33, 33),
        (61, 61),
        (95, 95),
    ];
    let mut row = last_row(alloc, lo, more, &plain, next, end)?;
    row.push(Edge {
        lo: 37,
        hi: 37,
        to: base + 1,
    })?;
    Ok(row)
}

/// Adds four states.
fn add_four(
    table: &mut Table,
    first: &[Edge],
    second: &[Edge],
    third: &[Edge],
    fourth: &[Edge],
) -> Result<(), Memory>
    ensures { OnOk result (table.new ≡ table.old ++ four_states first.now second.now third.now fourth.now) }
{
    table.push_state(first)?;
    table.push_state(second)?;
    table.push_state(third)?;
    table.push_state(fourth)
}

/// Adds the four states of a character. At least `lo` characters are to come, with this one, and `more` may follow it.
fn add_character(
    alloc: Global,
    table: &mut Table,
    lo: usize,
    more: usize,
    end: usize,
) -> Result<(), Memory>
    ensures { OnOk result (table.new ≡ table.old ++ character_states lo more (length table.old) end) }
{
    let base = table.len();
    let next = state_ahead(table, 4)?;
    let front = first_row(alloc, lo, more, base, next, end)?;
    let two = last_row(
        alloc,
        lo,
        more,
        &[(50, 50), (53, 54), (70, 70), (102, 102)],
        next,
        end,
    )?;
    let three = last_row(
        alloc,
        lo,
        more,
        &[(67, 67), (69, 70), (99, 99), (101, 102)],
        next,
        end,
    )?;
    let percent = [
        Edge {
            lo: 50,
            hi: 50,
            to: base + 2,
        },
        Edge {
            lo: 51,
            hi: 51,
            to: base + 3,
        },
    ];
    add_four(
        table,
        front.as_slice(),
        &percent,
        two.as_slice(),
        three.as_slice(),
    )
}

/// Adds the states of at least `lo` and at most `hi` characters in the spellings of EPC URIs.
pub fn add_spelled(alloc: Global, table: &mut Table, lo: u8, hi: u8) -> Result<(), Memory>
    ensures { OnOk result (table.new
        ≡ table.old ++ esc_table lo hi (length table.old) (length table.old + 4 * hi)) }
{
    let end = state_ahead(table, 4 * usize::from(hi))?;
    let mut least = usize::from(lo);
    let mut left = usize::from(hi);
    while left > 0 {
        left -= 1;
        add_character(alloc, table, least, left, end)?;
        least = least.saturating_sub(1);
    }
    Ok(())
}
