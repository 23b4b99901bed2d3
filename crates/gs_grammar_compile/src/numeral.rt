ghost use Rattle.std.specs.Prelude.{◌≡◌, ◌+◌, ◌^◌, ◌<◌, ◌≤◌, ◌++◌, ◌∷◌, [], OnOk, length};
ghost use Rattle.gs_grammar_compile.specs.NumeralTables.{digits_table, free_edges, free_table, above_digit, tight_state, tight_table};
ghost use Rattle.gs_grammar_compile.specs.NumeralTablesSupport.{AddsNumeral};

use crate::additions::{add_run, state_ahead};
use gs_ambig::{Edge, Table};
use gs_chars::Memory;
use gs_grammar::digits_behind;

/// Makes an edge with each digit from one to another, as bytes.
fn digits(lo: u8, hi: u8, to: usize) -> Edge
    ensures { result ≡ record { lo = lo; hi = hi; to = to } }
{
    Edge { lo, hi, to }
}

/// Adds a state at which one digit follows, and up to `more` after it.
fn add_free_state(table: &mut Table, more: usize) -> Result<(), Memory>
    ensures { OnOk result (table.new ≡ table.old ++ free_edges more (length table.old) ∷ []) }
{
    let next = state_ahead(table, 1)?;
    if more == 0 {
        return table.push_state(&[digits(48, 57, next)]);
    }
    let Some(end) = next.checked_add(more) else {
        return Err(Memory);
    };
    table.push_state(&[digits(48, 57, next), digits(48, 57, end)])
}

/// Adds the states at which any digits may follow.
fn add_free(table: &mut Table, count: usize) -> Result<(), Memory>
    ensures { OnOk result (table.new ≡ table.old ++ free_table count (length table.old)) }
{
    let mut left = count;
    while left > 0 {
        left -= 1;
        add_free_state(table, left)?;
    }
    Ok(())
}

/// Adds the states of digits, at least `least` of them and at most `most`.
pub fn add_digits(table: &mut Table, least: usize, most: usize) -> Result<(), Memory>
    requires some { 0 < least }
    requires order { least ≤ most }
    ensures { OnOk result (table.new ≡ table.old ++ digits_table least most (length table.old)) }
{
    add_run(table, 48, 57, least - 1)?;
    add_free(table, most - (least - 1))
}

/// Returns the byte of the lowest digit above this one if `left` digits may follow it. Otherwise returns a byte above all
/// digits.
fn above(left: usize, digit: u8) -> u8
    requires { digit ≤ 9 }
    ensures { result ≡ above_digit left digit }
{
    if left == 0 { 58 } else { 49 + digit }
}

/// Adds a state at which the digits so far are those of the greatest number. Its next digit is this one, and `left` follow it.
fn add_tight_state(
    table: &mut Table,
    low: u8,
    left: usize,
    digit: u8,
    end: usize,
) -> Result<(), Memory>
    requires digit { digit ≤ 9 }
    requires room { left ≤ end }
    ensures { OnOk result (table.new ≡ table.old ++ tight_state low left digit (length table.old) end ∷ []) }
{
    if left == 0 {
        return table.push_state(&[digits(48, 48 + digit, end)]);
    }
    let next = state_ahead(table, 1)?;
    table.push_state(&[
        digits(low, 47 + digit, end - left),
        digits(48 + digit, 48 + digit, next),
        digits(above(left - 1, digit), 57, end - (left - 1)),
        digits(48, 57, end),
    ])
}

/// Adds the states at which the digits so far are those of the greatest number. `rest` has its other `count` digits.
fn add_tight(table: &mut Table, count: u32, rest: u64, end: usize) -> Result<(), Memory>
    requires few { count ≤ 19 }
    requires digits { rest < 10 ^ count }
    requires room { count ≤ end }
    ensures { OnOk result (table.new ≡ table.old ++ tight_table count rest (length table.old) end) }
{
    let mut left = count;
    let mut number = rest;
    while left > 0 {
        left -= 1;
        let power = 10u64.pow(left);
        let digit = number / power;
        add_tight_state(table, 48, left as usize, digit as u8, end)?;
        number %= power;
    }
    Ok(())
}

/// Adds the states of decimal texts, without leading zeros, up to a greatest number.
pub fn add_numeral(table: &mut Table, greatest: u64) -> Result<(), Memory>
    ensures { OnOk result (AddsNumeral greatest table.old table.new) }
{
    let behind = digits_behind(greatest);
    let count = behind as usize;
    let end = state_ahead(table, 1 + count + count)?;
    let power = 10u64.pow(behind);
    let digit = greatest / power;
    add_tight_state(table, 49, count, digit as u8, end)?;
    add_tight(table, behind, greatest % power, end)?;
    add_free(table, count)
}
