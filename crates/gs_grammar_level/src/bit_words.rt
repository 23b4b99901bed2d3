ghost use Rattle.std.specs.Prelude.{◌≡◌, ◌<◌, ◌≤◌, ◌+◌, All, IsTrue, IfSome, [], length, take, drop};
ghost use Rattle.std.specs.List.{slice_index_or};
ghost use Rattle.gs_grammar.specs.Ambiguity.{IsUnambiguous};
ghost use Rattle.gs_grammar.specs.DerivationsSupport.{HasValues};
ghost use Rattle.gs_grammar.specs.Items.{IsItem};
ghost use Rattle.gs_grammar.specs.Levels.{item_lists};
ghost use Rattle.gs_grammar.specs.Words.{Word};
ghost use Rattle.gs_grammar_level.specs.Cuttings.{starts_of};
ghost use Rattle.gs_grammar_level.specs.OwnWords.{FindsWords, bit_value, bit_values};

use crate::choice::{fixed_cut, likely_option};
use crate::cuttings::width_by;
use crate::level::Level;
use gs_bits::BitBuf;
use gs_grammar::{Item, is_filling, is_number_word, number_value};
use std::marker::Model;

/// The words of bits by an option that cuts them at fixed places into literals and numbers. Contracts see the option and the
/// values.
#[derive(Drop)]
pub struct BitWords<'a> {
    option: usize,
    items: &'a [Item],
    places: &'a [usize],
    bits: &'a BitBuf<64>,
}

impl<'a> Model for BitWords<'a> {
    ghost use Rattle.gs_grammar_level.specs.Cuttings.{IsCutAt};
    ghost use Rattle.gs_grammar_level.specs.OwnWords.{WordsForm, bit_values};

    ghost Value = { WordsForm };

    ghost view = { λ t. record { option = t.option; values = bit_values t.items.now t.places.now t.bits.now } };

    ghost invariant = { λ t. IsCutAt t.items.now t.places.now t.bits.now };
}

impl<'a> BitWords<'a> {
    /// Returns the number of the option.
    pub fn option(&self) -> usize
        ensures { result ≡ self.now.option }
    {
        self.option
    }

    /// Returns the value of the item of this number, and an empty text after the last. Digits are written to the room.
    pub fn value<'r>(&self, number: usize, room: &'r mut [u8; 20]) -> &'r [u8]
        ensures { result.now ≡ slice_index_or self.now.values number [] }
    {
        let Some(item) = self.items.get(number) else {
            return &[];
        };
        match item {
            Item::NumPad { bits, .. } | Item::Num { bits, .. } | Item::NumStr { bits, .. } => {
                let place = self.places[number];
                let whole = self.bits.number_at(place, u32::from(*bits));
                number_value(item, whole, room)
            }
            _ => &[],
        }
    }
}

/// Returns `true` only if the word, which begins at this place in the bits, is a word of the item, which is a literal, a number
/// or zeros.
fn is_bit_word(item: &Item, bits: &BitBuf<64>, from: usize, word: &[u8]) -> bool
    requires item { IsItem item.now }
    requires within { from + length word.now ≤ length bits.now }
    requires word { word.now ≡ take (length word.now) (drop from bits.now) }
    ensures { IsTrue result → Word item.now (bit_value item.now word.now) word.now }
{
    match item {
        Item::Lit(literal) => literal.as_bytes() == word,
        Item::NumPad { bits: width, .. }
        | Item::Num { bits: width, .. }
        | Item::NumStr { bits: width, .. } => {
            // Its contract says that they are bits.
            let _count = bits.len();
            word.len() == usize::from(*width)
                && is_number_word(item, bits.number_at(from, u32::from(*width)))
        }
        Item::Fill { a, b } => is_filling(word, *a, *b),
        _ => false,
    }
}

/// Returns `true` only if the symbols, which are the bits, are words of the items, which begin at these places, and each is a
/// literal, a number or zeros.
#[inline(never)]
fn are_bit_words(items: &[Item], places: &[usize], bits: &BitBuf<64>, symbols: &[u8]) -> bool
    requires each { All IsItem items.now }
    requires places { places.now ≡ starts_of 0 items.now }
    requires same { symbols.now ≡ bits.now }
    ensures { IsTrue result → HasValues items.now bits.now (bit_values items.now places.now bits.now) }
{
    let mut left = items;
    let mut ahead = places;
    let mut rest = symbols;
    while let Some((item, others)) = left.split_first() {
        let width = width_by(ahead, others, rest);
        if rest.len() < width {
            return false;
        }
        let (word, behind) = rest.split_at(width);
        if !is_bit_word(item, bits, ahead[0], word) {
            return false;
        }
        left = others;
        ahead = &ahead[1..];
        rest = behind;
    }
    rest.is_empty()
}

/// Returns the words of the bits by the option of this number, if it cuts them at fixed places into literals and numbers.
fn words_by<'a>(
    level: &'a Level,
    option: usize,
    bits: &'a BitBuf<64>,
    symbols: &[u8],
) -> Option<BitWords<'a>>
    requires within { option < length level.now.options }
    requires same { symbols.now ≡ bits.now }
    requires unambiguous { IsUnambiguous (item_lists level.now.options) }
    ensures { IfSome result (λ words. FindsWords level.now.options bits.now words) }
{
    let (items, places) = fixed_cut(level, option)?;
    if !are_bit_words(items, places, bits, symbols) {
        return None;
    }
    Some(BitWords {
        option,
        items,
        places,
        bits,
    })
}

/// Finds the option that cuts bits of a level that is not ambiguous at fixed places into literals, numbers and zeros. The symbols
/// are the same bits, one to a symbol. Only the option that they seem to have is tried. `None` says nothing: `read_bits_within`
/// decides then. Does not allocate.
pub fn find_bits<'a>(level: &'a Level, bits: &'a BitBuf<64>, symbols: &[u8]) -> Option<BitWords<'a>>
    requires same { symbols.now ≡ bits.now }
    requires unambiguous { IsUnambiguous (item_lists level.now.options) }
    ensures { IfSome result (λ words. FindsWords level.now.options bits.now words) }
{
    words_by(level, likely_option(level, symbols)?, bits, symbols)
}
