ghost use Rattle.std.specs.Prelude.{◌≡◌, ◌+◌, ◌-◌, ◌*◌, ◌^◌, ◌<◌, ◌≤◌, ◌++◌, ◌∷◌, [], IfOk, OnOk, length};
ghost use Rattle.gs_grammar_compile.specs.CodeTables.{edge_where, code_target, code_edge, code_row, code_block, code_states, root_edges, next_character, code_rows, characters_table, ascii_table};

use crate::additions::{add_run, state_ahead};
use gs_ambig::{Edge, Table};
use gs_chars::Memory;

/// Makes an edge with one bit.
pub fn bit_edge(bit: u8, to: usize) -> Edge
    ensures { result ≡ record { lo = bit; hi = bit; to = to } }
{
    Edge {
        lo: bit,
        hi: bit,
        to,
    }
}

/// Appends an edge if `is_so`.
pub fn push_where(row: &mut Vec<Edge>, is_so: bool, bit: u8, to: usize) -> Result<(), Memory>
    ensures { OnOk result (row.new.items ≡ row.old.items ++ edge_where is_so bit to) }
{
    if is_so {
        row.push(bit_edge(bit, to))?;
    }
    Ok(())
}

/// Returns the state that a number of 1 and more stands for: the end of the code, or one of its states.
fn target_of(target: u8, base: usize, next: usize) -> Result<usize, Memory>
    ensures { IfOk result (λ to. to ≡ code_target target base next) }
{
    if target < 2 {
        return Ok(next);
    }
    match base.checked_add(usize::from(target - 2)) {
        Some(state) => Ok(state),
        None => Err(Memory),
    }
}

/// Adds a state with the edge of one bit, if the number of its target is not 0.
fn add_bit(table: &mut Table, bit: u8, target: u8, base: usize, next: usize) -> Result<(), Memory>
    ensures { OnOk result (table.new ≡ table.old ++ code_edge bit base next target ∷ []) }
{
    if target == 0 {
        return table.push_state(&[]);
    }
    let to = target_of(target, base, next)?;
    table.push_state(&[bit_edge(bit, to)])
}

/// Adds a state of a code, by the numbers of the states that a zero and a one lead to.
fn add_bits(table: &mut Table, zero: u8, one: u8, base: usize, next: usize) -> Result<(), Memory>
    ensures { OnOk result (table.new ≡ table.old ++ code_row base next (zero, one) ∷ []) }
{
    if zero == 0 {
        return add_bit(table, 1, one, base, next);
    }
    if one == 0 {
        return add_bit(table, 0, zero, base, next);
    }
    let low = target_of(zero, base, next)?;
    let high = target_of(one, base, next)?;
    table.push_state(&[bit_edge(0, low), bit_edge(1, high)])
}

/// Adds a state for each pair of numbers.
fn add_block(table: &mut Table, rows: &[(u8, u8)], base: usize, next: usize) -> Result<(), Memory>
    ensures { OnOk result (table.new ≡ table.old ++ code_block rows.now base next) }
{
    for row in rows {
        add_bits(table, row.0, row.1, base, next)?;
    }
    Ok(())
}

/// Adds the states below the first bit of a code. Fronts that the same bits make characters are one state.
fn add_rest(table: &mut Table, next: usize) -> Result<(), Memory>
    ensures { OnOk result (table.new ≡ table.old ++ code_block code_states (length table.old) next) }
{
    let base = table.len();
    let rows = [
        (0, 4),
        (5, 6),
        (7, 8),
        (9, 10),
        (9, 11),
        (12, 13),
        (13, 13),
        (14, 13),
        (13, 15),
        (13, 16),
        (17, 18),
        (19, 19),
        (18, 19),
        (20, 21),
        (20, 0),
        (22, 23),
        (22, 24),
        (24, 24),
        (24, 23),
        (0, 22),
        (0, 1),
        (1, 0),
        (1, 1),
    ];
    add_block(table, &rows, base, next)
}

/// Adds the state of the first bit of a character. `left` bits are left.
fn add_root(table: &mut Table, lo: usize, left: usize, end: usize) -> Result<(), Memory>
    requires some { 0 < left }
    requires room { left ≤ end }
    ensures { OnOk result (table.new ≡ table.old ++ root_edges lo left (length table.old) end ∷ []) }
{
    let zero = state_ahead(table, 1)?;
    let one = state_ahead(table, 2)?;
    if lo > 0 {
        return table.push_state(&[bit_edge(0, zero), bit_edge(1, one)]);
    }
    table.push_state(&[
        bit_edge(0, zero),
        bit_edge(1, one),
        bit_edge(0, end - (left - 1)),
    ])
}

/// Returns the state that follows a character: the next character's, or that of the zeros if no more may follow.
fn next_of(table: &Table, more: usize, left: usize, end: usize) -> Result<usize, Memory>
    requires few { 7 ≤ left }
    requires room { left ≤ end }
    ensures { IfOk result (λ next. next ≡ next_character more left (length table.now) end) }
{
    if more == 0 {
        return Ok(end - (left - 7));
    }
    state_ahead(table, 24)
}

/// Adds the states of a character. At least `lo` characters are to come, with this one, `more` may follow it, and `left` bits
/// are left.
fn add_code(
    table: &mut Table,
    lo: usize,
    more: usize,
    left: usize,
    end: usize,
) -> Result<(), Memory>
    requires few { 7 ≤ left }
    requires room { left ≤ end }
    ensures { OnOk result (table.new ≡ table.old ++ code_rows lo more left (length table.old) end) }
{
    let next = next_of(table, more, left, end)?;
    add_root(table, lo, left, end)?;
    add_rest(table, next)
}

/// Adds the states of characters, at least `lo` and at most `hi`.
fn add_codes(table: &mut Table, lo: usize, hi: usize, bits: usize, end: usize) -> Result<(), Memory>
    requires few { 7 * hi ≤ bits }
    requires room { bits ≤ end }
    ensures { OnOk result (table.new ≡ table.old ++ characters_table lo hi bits (length table.old) end) }
{
    let mut least = lo;
    let mut more = hi;
    let mut left = bits;
    while more > 0 {
        more -= 1;
        add_code(table, least, more, left, end)?;
        least = least.saturating_sub(1);
        left -= 7;
    }
    Ok(())
}

/// Adds the states of at least `lo` and at most `hi` packed characters, and of zeros up to the width. `lo` is at most `hi`,
/// and `hi` characters have room in the width.
pub fn add_packed(table: &mut Table, lo: u8, hi: u8, bits: u16) -> Result<(), Memory>
    requires order { lo ≤ hi }
    requires room { 7 * hi ≤ bits }
    ensures { OnOk result (table.new ≡ table.old ++ ascii_table lo hi bits (length table.old)) }
{
    let least = usize::from(lo);
    let most = usize::from(hi);
    let width = usize::from(bits);
    let zeros = width - 7 * least;
    let end = state_ahead(table, 24 * most + zeros)?;
    add_codes(table, least, most, width, end)?;
    add_run(table, 0, 0, zeros)
}
