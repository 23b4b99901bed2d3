ghost use Rattle.std.specs.Prelude.{◌≡◌, All, IsTrue, length, ◌∷◌, ◌↔◌};
ghost use Rattle.std.specs.Bool.{MatchBool};
ghost use Rattle.gs_grammar.specs.Items.{IsItem};
ghost use Rattle.gs_grammar.specs.Derivations.{GivesNumbers, HasNumbers, IsDerived};
ghost use Rattle.gs_grammar.specs.Searches.{AtCut};

use crate::bit_words::unpack;
use crate::item::Item;
use crate::opt::{MOST_SYMBOLS, Opt};
use crate::word_tests::is_word;
use crate::words::number_of_word;
use gs_bits::BitBuf;

/// Writes the numbers of a derivation of the symbols by the items.
fn tally(items: &[Item], symbols: &[u8], out: &mut [u64])
    requires items { All IsItem items.now }
    requires derived { IsDerived items.now symbols.now }
    requires room { length out.old ≡ length items.now }
    ensures { HasNumbers items.now symbols.now out.new }
{
    let mut left = items;
    let mut rest = symbols;
    let mut number = 0;
    while let Some((item, others)) = left.split_first() {
        let (word, behind) = rest.split_at(first_cut(item, others, rest));
        out[number] = number_of_word(item, word);
        number += 1;
        left = others;
        rest = behind;
    }
}

/// Reads the bits as one option of a bit level. Number k of `out` becomes the number that the whole word of item k writes. It
/// is that of its bits if the item is `NumPad`, `Num` or `NumStr`, and 0 for any other item. Returns `false` if and only if the
/// bits have no derivation by the option; `out` is then unchanged. Does not allocate. Tries at most 2^k splits for k items
/// `Fill`, the only ones of bits with words of two lengths. The option is one of bits, and `out` has as many numbers as it has
/// items.
pub fn read_option<const N: usize>(option: &Opt, bits: &BitBuf<N>, out: &mut [u64]) -> bool
    requires bit_level { IsTrue option.now.bit_level }
    requires room { length out.old ≡ length option.now.items }
    ensures numbers { GivesNumbers result option.now.items bits.now out.new }
    ensures unchanged { MatchBool result (length out.new ≡ length out.old) (out.new ≡ out.old) }
{
    let mut symbols = [0; MOST_SYMBOLS];
    let count = unpack(bits, &mut symbols);
    let items = option.items();
    if !is_derived(items, &symbols[..count]) {
        return false;
    }
    tally(items, &symbols[..count], out);
    true
}

/// Returns whether the items derive the symbols. It tries each split into a word of the first item and the rest, and stops at the
/// first derivation. Each item is within its bounds.
pub fn is_derived(items: &[Item], symbols: &[u8]) -> bool
    requires { All IsItem items.now }
    ensures { IsTrue result ↔ IsDerived items.now symbols.now }
{
    let Some((item, others)) = items.split_first() else {
        return symbols.is_empty();
    };
    if others.is_empty() {
        return is_word(item, symbols);
    }
    let longest = item.size().min(symbols.len());
    for cut in item.shortest()..longest + 1 {
        let (word, rest) = symbols.split_at(cut);
        if !is_word(item, word) {
            continue;
        }
        if is_derived(others, rest) {
            return true;
        }
    }
    false
}

/// Returns the length of a word of the item with which the items derive the symbols. Each item is within its bounds, and they
/// derive the symbols.
pub fn first_cut(item: &Item, others: &[Item], symbols: &[u8]) -> usize
    requires item { IsItem item.now }
    requires others { All IsItem others.now }
    requires derived { IsDerived (item.now ∷ others.now) symbols.now }
    ensures { AtCut item.now others.now symbols.now result }
{
    let shortest = item.shortest();
    let longest = item.size();
    if shortest == longest {
        return shortest;
    }
    for cut in shortest..longest.min(symbols.len()) + 1 {
        let (word, rest) = symbols.split_at(cut);
        if !is_word(item, word) {
            continue;
        }
        if is_derived(others, rest) {
            return cut;
        }
    }
    unreachable!()
}
