ghost use Rattle.std.specs.Prelude.{◌≡◌, ◌≤◌, All, IfOk, IsTrue, ◌↔◌, IfNone, IfSome, OnOk};
ghost use Rattle.gs_grammar.specs.Items.{IsItem, size_of_all, shortest_of, size_of};
ghost use Rattle.gs_grammar.specs.Limits.{most_symbols};
ghost use Rattle.gs_grammar_level.specs.Fronts.{CutsAreFixed};
ghost use Rattle.gs_grammar_level.specs.Cuttings.{AreCuttingsOf, IsCuttingOf, starts_of};
ghost use Rattle.gs_grammar.specs.Derivations.{IsDerived};
ghost use Rattle.gs_grammar.specs.DerivationsSupport.{HasValues};
ghost use Rattle.gs_grammar_level.specs.Widths.{HasNextCut, width_by};
ghost use Rattle.gs_grammar_compile.specs.Places.{is_border};
ghost use Rattle.gs_grammar_level.specs.Trails.{IsTrail, AreCuts, with_cut};

use crate::trail::Entry;
use gs_ambig::Auto;
use gs_chars::{CowText, List, Memory};
use gs_grammar::{Item, Opt, read_word};
use std::alloc::Global;

/// The way in which the texts of an option are cut into the words of its items.
#[derive(Drop)]
pub enum Cutting {
    /// At the start places of the items: the words of each item before the last have one length.
    Widths(List<usize>),
    /// By the option's machine.
    Machine,
}

/// Returns whether the words of each item before the last have one length.
fn cuts_are_fixed(items: &[Item]) -> bool
    ensures { IsTrue result → CutsAreFixed items.now }
{
    let mut left = items;
    while let Some((item, others)) = left.split_first() {
        if others.is_empty() {
            return true;
        }
        if !has_one_length(item, item.size()) {
            return false;
        }
        left = others;
    }
    true
}

/// Returns the start places of the items if each word has the size of its item.
fn starts_of(alloc: Global, items: &[Item]) -> Result<List<usize>, Memory>
    requires each { All IsItem items.now }
    requires small { size_of_all items.now ≤ most_symbols }
    ensures { IfOk result (λ starts. starts ≡ starts_of 0 items.now) }
{
    let mut starts = Vec::with_capacity(alloc, items.len())?;
    let mut place = 0;
    let mut left = items;
    while let Some((item, others)) = left.split_first() {
        starts.push(place)?;
        place += item.size();
        left = others;
    }
    Ok(List::from_vec(starts))
}

/// Chooses the way in which the texts of an option are cut.
fn cutting_of(alloc: Global, option: &Opt) -> Result<Cutting, Memory>
    ensures { IfOk result (λ cutting. IsCuttingOf cutting option.now) }
{
    let items = option.items();
    if !cuts_are_fixed(items) {
        return Ok(Cutting::Machine);
    }
    Ok(Cutting::Widths(starts_of(alloc, items)?))
}

/// Chooses the way for each option, in their order.
pub fn cuttings_of(alloc: Global, options: &[Opt]) -> Result<List<Cutting>, Memory>
    ensures { IfOk result (λ cuttings. AreCuttingsOf cuttings options.now) }
{
    let mut cuttings = Vec::with_capacity(alloc, options.len())?;
    for option in options {
        cuttings.push(cutting_of(alloc, option)?)?;
    }
    Ok(List::from_vec(cuttings))
}

/// Returns whether each word of the item is as long as the longest.
pub fn has_one_length(item: &Item, size: usize) -> bool
    requires { size ≡ size_of item.now }
    ensures { IsTrue result ↔ shortest_of item.now ≡ size }
{
    match item {
        Item::Digits { .. } | Item::Int { .. } | Item::Esc { .. } | Item::Fill { .. } => {
            item.shortest() == size
        }
        Item::Lit(_)
        | Item::Pad { .. }
        | Item::NumPad { .. }
        | Item::Num { .. }
        | Item::NumStr { .. }
        | Item::Ascii7 { .. } => true,
    }
}

/// Returns the length of a word that other items follow. It extends from the first cut to the second, and for the last item
/// over all of the rest.
pub fn width_by(cuts: &[usize], others: &[Item], rest: &[u8]) -> usize
    requires { HasNextCut cuts.now others.now }
    ensures { result ≡ width_by cuts.now others.now rest.now }
{
    if others.is_empty() {
        return rest.len();
    }
    cuts[1] - cuts[0]
}

/// Returns the values of a derivation of the symbols by items that begin at these places. Returns `None` if and only if there is
/// no derivation.
pub fn read_by_widths<'a>(
    alloc: Global,
    places: &[usize],
    items: &[Item],
    symbols: &'a [u8],
) -> Result<Option<List<CowText<'a>>>, Memory>
    requires each { All IsItem items.now }
    requires fixed { CutsAreFixed items.now }
    requires places { places.now ≡ starts_of 0 items.now }
    ensures found { IfOk result (λ found. IfSome found (λ values. HasValues items.now symbols.now values)) }
    ensures none { IfOk result (λ found. IfNone found (IsDerived items.now symbols.now → ⊥)) }
{
    let mut values = Vec::with_capacity(alloc, items.len())?;
    let mut left = items;
    let mut ahead = places;
    let mut rest = symbols;
    while let Some((item, others)) = left.split_first() {
        let width = width_by(ahead, others, rest);
        if rest.len() < width {
            return Ok(None);
        }
        let (word, behind) = rest.split_at(width);
        let Some(value) = read_word(alloc, item, word)? else {
            return Ok(None);
        };
        values.push(value)?;
        left = others;
        ahead = &ahead[1..];
        rest = behind;
    }
    if !rest.is_empty() {
        return Ok(None);
    }
    Ok(Some(List::from_vec(values)))
}

/// Returns whether the state is one of the borders.
fn is_border(borders: &[usize], state: usize) -> bool
    ensures { result ≡ is_border borders.now state }
{
    borders.contains(&state)
}

/// Inserts the place before the cuts if the state is a border.
fn push_cut(
    cuts: &mut Vec<usize>,
    borders: &[usize],
    state: usize,
    place: usize,
) -> Result<(), Memory>
    ensures { OnOk result (cuts.new.items ≡ with_cut borders.now state place cuts.old.items) }
{
    if is_border(borders, state) {
        cuts.insert(0, place)?;
    }
    Ok(())
}

/// Writes anew the cuts of the accepting run whose last entry has this number.
pub fn cut_back(
    machine: &Auto,
    trail: &[Entry],
    number: usize,
    symbols: &[u8],
    cuts: &mut Vec<usize>,
) -> Result<(), Memory>
    requires { IsTrail machine.now trail.now symbols.now number }
    ensures { OnOk result (AreCuts machine.now symbols.now cuts.new.items) }
{
    cuts.clear();
    let borders = machine.borders();
    let mut entry = number;
    let mut place = symbols.len();
    push_cut(cuts, borders, trail[entry].state, place)?;
    while place > 0 {
        entry = trail[entry].back;
        place -= 1;
        push_cut(cuts, borders, trail[entry].state, place)?;
    }
    Ok(())
}
