ghost use Rattle.std.specs.Prelude.{◌≡◌, ◌<◌, ◌≤◌, IfSome, length, take, drop};
ghost use Rattle.gs_grammar_level.specs.Cuttings.{IsFixedCut};

use crate::cuttings::Cutting;
use crate::finder::begins_at;
use crate::fronts::Group;
use crate::level::Level;
use gs_grammar::Item;

/// Returns the symbols after the first `n`.
pub fn skip_first(symbols: &[u8], n: usize) -> &[u8]
    ensures { result.now ≡ drop n symbols.now }
{
    match symbols.get(n..) {
        Some(rest) => rest,
        None => &[],
    }
}

/// Returns the first `n` symbols.
pub fn take_first(symbols: &[u8], n: usize) -> &[u8]
    ensures { result.now ≡ take n symbols.now }
{
    match symbols.get(..n) {
        Some(front) => front,
        None => symbols,
    }
}

/// Returns whether the probe of an option is in the symbols. The option derives them only if it is.
fn is_begun(level: &Level, option: usize, symbols: &[u8]) -> bool
    requires { option < length level.now.options }
{
    let probe = &level.probes()[option];
    let literal = probe.literal.as_bytes();
    if literal.len() < 2 {
        return begins_at(symbols, probe.place, literal);
    }
    take_first(skip_first(symbols, probe.place), literal.len()) == literal
}

/// Returns the first option of the group whose probe is in the symbols. The group has the options from this number on.
fn option_of_group(level: &Level, from: usize, group: &Group, symbols: &[u8]) -> Option<usize>
    requires { group.now.end ≤ length level.now.options }
    ensures { IfSome result (λ option. option < length level.now.options) }
{
    for option in from..group.end {
        if is_begun(level, option, symbols) {
            return Some(option);
        }
    }
    None
}

/// Returns whether the symbols begin with the last and the first bytes of a group's literal, 8 of each. These distinguish the
/// groups; a literal of at most 16 bytes is compared whole.
fn is_told(group: &Group, symbols: &[u8]) -> bool {
    let literal = group.literal.as_bytes();
    let Some(front) = symbols.get(..literal.len()) else {
        return false;
    };
    if literal.len() < 8 {
        return front == literal;
    }
    front.last_chunk::<8>() == literal.last_chunk::<8>()
        && front.first_chunk::<8>() == literal.first_chunk::<8>()
}

/// Returns the option that the symbols seem to have: of the first group whose literal they seem to begin with, the first whose
/// probe is in them. A symbol more may differ: the words decide.
pub fn likely_option(level: &Level, symbols: &[u8]) -> Option<usize>
    ensures { IfSome result (λ option. option < length level.now.options) }
{
    let mut from = 0;
    for group in level.groups() {
        if is_told(group, symbols) {
            return option_of_group(level, from, group, symbols);
        }
        from = group.end;
    }
    None
}

/// Returns the items of an option, and the places at which their words begin, if it cuts each of its texts at the same places.
pub fn fixed_cut(level: &Level, option: usize) -> Option<(&[Item], &[usize])>
    requires { option < length level.now.options }
    ensures { IfSome result (λ cut. IsFixedCut level.now.options option cut.0.now cut.1.now) }
{
    let Cutting::Widths(places) = &level.cuttings()[option] else {
        return None;
    };
    let items = level.options()[option].items();
    let places = places.items();
    Some((items, places))
}
