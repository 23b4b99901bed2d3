ghost use Rattle.std.specs.Prelude.{◌≡◌, ◌≤◌, All, IfOk, ◌++◌, OnOk, length};
ghost use Rattle.gs_grammar.specs.Items.{IsItem};
ghost use Rattle.gs_ambig.specs.Machines.{IsMachine, states_of};
ghost use Rattle.gs_grammar_compile.specs.Readers.{ReadsItems, most_states};
ghost use Rattle.gs_grammar_compile.specs.ItemTables.{machine_of, item_table};
ghost use Rattle.gs_grammar_compile.specs.Tables.{digits_greatest};

use crate::additions::{add_bound, add_fill, add_literal, add_run};
use crate::code_states::add_packed;
use crate::numeral::{add_digits, add_numeral};
use crate::ones::add_ones;
use crate::spelling_states::add_spelled;
use gs_ambig::{Auto, Table};
use gs_chars::Memory;
use gs_grammar::{Item, Opt, digits_behind};
use std::alloc::Global;

/// Makes the machine of a list of items.
fn machine_of_items(alloc: Global, items: &[Item]) -> Result<Auto, Memory>
    requires { All IsItem items.now }
    ensures { IfOk result (λ auto. auto ≡ machine_of items.now) }
{
    let (states, edges) = room_of_all(items);
    let mut table = Table::with_capacity(alloc, states, edges)?;
    let mut borders = Vec::with_capacity(alloc, items.len() + 1)?;
    borders.push(0)?;
    let mut left = items;
    while let Some((item, others)) = left.split_first() {
        add_item(alloc, &mut table, item)?;
        borders.push(table.len())?;
        left = others;
    }
    table.push_state(&[])?;
    Ok(Auto::of_table(table, borders))
}

/// Makes the machine of an option: its items in order, with a border before each and one after the last. Exactly one walk leads
/// from border k to the next on each word of item k, and none on any other list of symbols. The machine has at most 32 states
/// for each symbol of the option's size, and one if there are no items.
pub fn compile(alloc: Global, option: &Opt) -> Result<Auto, Memory>
    ensures rules { IfOk result IsMachine }
    ensures reads { IfOk result (λ auto. ReadsItems auto option.now.items) }
    ensures few { IfOk result (λ auto. states_of auto ≤ most_states option.now.items) }
{
    machine_of_items(alloc, option.items())
}

/// Returns the greatest number of at most n digits that fits in the bits.
fn greatest_number(bits: u8, n: u8) -> u64
    requires bits { bits ≤ 64 }
    requires digits { n ≤ 18 }
    ensures { result ≡ digits_greatest bits n }
{
    let most = 10u64.pow(u32::from(n)) - 1;
    if bits < 64 {
        most.min((1 << bits) - 1)
    } else {
        most
    }
}

/// Adds the states of an item that is within its bounds.
pub fn add_item(alloc: Global, table: &mut Table, item: &Item) -> Result<(), Memory>
    requires { IsItem item.now }
    ensures { OnOk result (table.new ≡ table.old ++ item_table item.now (length table.old)) }
{
    match item {
        Item::Lit(literal) => add_literal(table, literal.as_bytes()),
        Item::Pad { n } => add_run(table, 48, 57, usize::from(*n)),
        Item::Digits { lo, hi } => add_digits(table, usize::from(*lo), usize::from(*hi)),
        Item::Int { max } => add_numeral(table, *max),
        Item::Esc { lo, hi } => add_spelled(alloc, table, *lo, *hi),
        Item::NumPad { bits, n } => add_bound(table, *bits, greatest_number(*bits, *n)),
        Item::Num { bits, max } => add_bound(table, *bits, *max),
        Item::NumStr { bits, hi } => add_ones(alloc, table, *bits, *hi),
        Item::Ascii7 { lo, hi, bits } => add_packed(table, *lo, *hi, *bits),
        Item::Fill { a, b } => add_fill(table, usize::from(*a), usize::from(*b)),
    }
}

/// Returns the number of an item's states, and of its edges at most.
fn room_of(item: &Item) -> (usize, usize) {
    match item {
        Item::Lit(literal) => (literal.as_bytes().len(), literal.as_bytes().len()),
        Item::Pad { n } => (usize::from(*n), usize::from(*n)),
        Item::Digits { lo: _, hi } => (usize::from(*hi), 2 * usize::from(*hi)),
        Item::Int { max } => {
            let more = digits_behind(*max) as usize;
            (1 + 2 * more, 4 + 6 * more)
        }
        Item::Esc { lo: _, hi } => (4 * usize::from(*hi), 33 * usize::from(*hi)),
        Item::NumPad { bits, .. } | Item::Num { bits, .. } => {
            (2 * usize::from(*bits), 3 * usize::from(*bits))
        }
        Item::NumStr { bits, hi } => {
            let layer = 2 + 2 * usize::from(*hi);
            (layer * usize::from(*bits), 2 * layer * usize::from(*bits))
        }
        Item::Ascii7 { lo: _, hi, bits } => {
            let zeros = usize::from(*bits);
            (24 * usize::from(*hi) + zeros, 44 * usize::from(*hi) + zeros)
        }
        Item::Fill { a: _, b } => (usize::from(*b), 1 + usize::from(*b)),
    }
}

/// Returns the number of states of a machine of the items and the most edges, both as `usize` values that saturate.
pub fn room_of_all(items: &[Item]) -> (usize, usize) {
    let mut states = 1usize;
    let mut edges = 0usize;
    for item in items {
        let room = room_of(item);
        states = states.saturating_add(room.0);
        edges = edges.saturating_add(room.1);
    }
    (states, edges)
}
