ghost use Rattle.std.specs.Prelude.{◌≡◌, ◌+◌, ◌<◌, true, Some, IfOk, IsTrue, length, map};
ghost use Rattle.gs_bits.specs.Bits.{AreBits};
ghost use Rattle.gs_grammar.specs.Ambiguity.{IsFirstShare, ShareList, shown_symbols};
ghost use Rattle.gs_grammar.specs.Levels.{item_lists};
ghost use Rattle.gs_ambig.specs.Searches.{IfFound, IfNotFound};
ghost use Rattle.gs_grammar_level.specs.FirstShares.{IsFirstShared};
ghost use Rattle.gs_grammar_level.specs.ShareSearches.{IsFirstWith, ShareNoList, SharesNoneBefore};

use crate::cuttings::Cutting;
use crate::fronts::are_apart;
use crate::level::Level;
use gs_ambig::PairSearch;
use gs_chars::{Memory, Text};
use std::alloc::Global;

/// Two options of a level that share a list of symbols, and a text that shows one.
#[derive(Drop)]
pub struct Shared {
    /// The number of the first option.
    pub first: usize,
    /// The number of the second option, which is the same one if an option shares a list with itself.
    pub second: usize,
    /// A list that they share: the bytes `0` and `1` for the numbers of a bit level, and the unchanged symbols of any other.
    pub text: Text,
}

/// Returns the digit of each bit.
fn digits_of(alloc: Global, bits: &[u8]) -> Result<Text, Memory>
    requires { AreBits bits.now }
    ensures { IfOk result (λ text. text ≡ map (λ bit. bit + 48) bits.now) }
{
    let mut digits = Vec::new(alloc);
    for bit in bits {
        digits.push(*bit + b'0')?;
    }
    Ok(Text::from_vec(digits))
}

/// Returns a text that shows the symbols.
fn shown(alloc: Global, bit_level: bool, symbols: Text) -> Result<Text, Memory>
    requires { bit_level ≡ true → AreBits symbols }
    ensures { IfOk result (λ text. text ≡ shown_symbols bit_level symbols) }
{
    if bit_level {
        return digits_of(alloc, symbols.as_bytes());
    }
    Ok(symbols)
}

/// Returns whether the first places, or the fixed cuts of a single option, show that these options share no list.
fn are_told_apart(level: &Level, i: usize, j: usize) -> bool
    requires first { i < length level.now.options }
    requires second { j < length level.now.options }
    ensures { IsTrue result → ShareNoList (item_lists level.now.options) i j }
{
    if i == j {
        return match &level.cuttings()[i] {
            Cutting::Widths(_) => true,
            Cutting::Machine => false,
        };
    }
    let fronts = level.fronts();
    are_apart(fronts[i].places.items(), fronts[j].places.items())
}

/// Returns a list of symbols that the options of these numbers share. Searches their machines if no simpler test decides.
fn shared_list(
    alloc: Global,
    level: &Level,
    i: usize,
    j: usize,
    search: &mut PairSearch,
) -> Result<Option<Vec<u8>>, Memory>
    requires first { i < length level.now.options }
    requires second { j < length level.now.options }
    ensures found { IfFound result (λ w. ShareList (item_lists level.now.options) i j w.items) }
    ensures none { IfNotFound result (ShareNoList (item_lists level.now.options) i j) }
{
    if are_told_apart(level, i, j) {
        return Ok(None);
    }
    let machines = level.machines();
    if i == j {
        return search.find_ambiguous_word(alloc, &machines[i]);
    }
    search.find_shared_word(alloc, &machines[i], &machines[j])
}

/// Returns the first option, from this number on, that shares a list with the option of this number, and such a list.
fn first_with(
    alloc: Global,
    level: &Level,
    i: usize,
    search: &mut PairSearch,
) -> Result<Option<(usize, Vec<u8>)>, Memory>
    requires { i < length level.now.options }
    ensures found { IfFound result (λ first.
        IsFirstWith (item_lists level.now.options) i first.0 first.1.items) }
    ensures none { IfNotFound result
        (SharesNoneBefore (item_lists level.now.options) i (length level.now.options)) }
{
    for j in i..level.options().len() {
        if let Some(list) = shared_list(alloc, level, i, j, search)? {
            return Ok(Some((j, list)));
        }
    }
    Ok(None)
}

/// Makes the answer of a first share: the two options, and a text that shows the list.
fn shared_text(
    alloc: Global,
    level: &Level,
    first: usize,
    second: usize,
    list: Vec<u8>,
) -> Result<Shared, Memory>
    requires { IsFirstShare (item_lists level.now.options) first second list.items }
    ensures { IfOk result (λ shared. IsFirstShared level.now (Some shared)) }
{
    // The contract of `items` gives that they are within their bounds.
    let _items = level.options()[first].items();
    let text = shown(alloc, level.bit_level(), Text::from_vec(list))?;
    Ok(Shared {
        first,
        second,
        text,
    })
}

impl Level {
    /// Returns the first two options of the level, or one with itself, that share a list of symbols. The order is that of the
    /// first option and then of the second. A text shows such a list. Returns `None` if and only if the level is not ambiguous.
    /// Fails only with `Memory`.
    pub fn first_share(&self, alloc: Global) -> Result<Option<Shared>, Memory>
        ensures { IfOk result (IsFirstShared self.now) }
    {
        let mut search = PairSearch::new(alloc);
        for i in 0..self.options().len() {
            if let Some((j, list)) = first_with(alloc, self, i, &mut search)? {
                return Ok(Some(shared_text(alloc, self, i, j, list)?));
            }
        }
        Ok(None)
    }
}
