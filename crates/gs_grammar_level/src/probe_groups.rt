ghost use Rattle.std.specs.Prelude.{◌≡◌, ◌≤◌, ◌<◌, ◌+◌, All, IfOk, [], length};
ghost use Rattle.gs_grammar.specs.Items.{IsItem, size_of_all};
ghost use Rattle.gs_grammar.specs.Limits.{most_symbols};
ghost use Rattle.gs_grammar_level.specs.Guides.{HasLiteral, BeginAll, AreGroupsFrom, AreProbesOf};

use crate::fronts::{Group, Probe};
use gs_chars::{List, Memory, Text};
use gs_grammar::{Item, Opt};
use std::alloc::Global;

/// Returns the literal that the items begin with, and an empty one if they begin with none.
fn first_literal(items: &[Item]) -> &[u8]
    ensures { HasLiteral items.now 0 result.now }
{
    match items.first() {
        Some(Item::Lit(literal)) => literal.as_bytes(),
        _ => &[],
    }
}

/// Returns the first literal that is at one place in every text of the items, after an item of more than one symbol. A literal
/// after a single symbol, such as a filter value, does not distinguish the options of one encoding.
fn probe_of(alloc: Global, items: &[Item]) -> Result<Probe, Memory>
    requires each { All IsItem items.now }
    requires small { size_of_all items.now ≤ most_symbols }
    ensures { IfOk result (λ probe. HasLiteral items.now probe.place probe.literal) }
{
    let mut left = items;
    let mut place = 0;
    let mut before = 0;
    while let Some((item, others)) = left.split_first() {
        let size = item.size();
        if before > 1 {
            if let Item::Lit(literal) = item {
                let literal = literal.copy(alloc)?;
                return Ok(Probe { place, literal });
            }
        }
        if item.shortest() != size {
            break;
        }
        place += size;
        before = size;
        left = others;
    }
    Ok(Probe {
        place: 0,
        literal: Text::from_vec(Vec::new(alloc)),
    })
}

/// Makes the probe of an option.
fn probe_of_option(alloc: Global, option: &Opt) -> Result<Probe, Memory>
    ensures { IfOk result (λ probe. HasLiteral option.now.items probe.place probe.literal) }
{
    probe_of(alloc, option.items())
}

/// Makes the probe of each option, in their order.
pub fn probes_of(alloc: Global, options: &[Opt]) -> Result<List<Probe>, Memory>
    ensures { IfOk result (λ probes. AreProbesOf probes options.now) }
{
    let mut probes = Vec::with_capacity(alloc, options.len())?;
    for option in options {
        probes.push(probe_of_option(alloc, option)?)?;
    }
    Ok(List::from_vec(probes))
}

/// Returns the number of the first option after `from` that does not begin with its literal.
fn group_end(options: &[Opt], from: usize, literal: &[u8]) -> usize
    requires from { from < length options.now }
    requires first { BeginAll options.now from (from + 1) literal.now }
    ensures within { result ≤ length options.now }
    ensures more { from < result }
    ensures all { BeginAll options.now from result literal.now }
{
    for number in from + 1..options.len() {
        if first_literal(options[number].items()) != literal {
            return number;
        }
    }
    options.len()
}

/// Makes the groups of the options.
pub fn groups_of(alloc: Global, options: &[Opt]) -> Result<List<Group>, Memory>
    ensures { IfOk result (λ groups. AreGroupsFrom 0 groups options.now) }
{
    let mut groups = Vec::new(alloc);
    let mut from = 0;
    while from < options.len() {
        let literal = first_literal(options[from].items());
        let end = group_end(options, from, literal);
        let literal = Text::from_bytes(alloc, literal)?;
        groups.push(Group { literal, end })?;
        from = end;
    }
    Ok(List::from_vec(groups))
}
