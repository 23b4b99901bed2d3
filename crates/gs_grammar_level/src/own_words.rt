ghost use Rattle.std.specs.Prelude.{◌≡◌, IsTrue, IfSome, [], take, drop, length, ◌<◌};
ghost use Rattle.std.specs.List.{slice_index_or};
ghost use Rattle.gs_grammar.specs.Levels.{item_lists};
ghost use Rattle.gs_grammar.specs.Ambiguity.{IsUnambiguous};
ghost use Rattle.gs_grammar.specs.DerivationsSupport.{HasValues};
ghost use Rattle.gs_grammar_level.specs.Cuttings.{starts_of};
ghost use Rattle.gs_grammar_level.specs.OwnWords.{FindsWords, own_values, word_at};

use crate::choice::{fixed_cut, likely_option, skip_first, take_first};
use crate::cuttings::width_by;
use crate::level::Level;
use gs_grammar::{Item, is_own_word};
use std::marker::Model;

/// The words of a text by an option that cuts it at fixed places, each its own value. Contracts see the option and the values.
#[derive(Drop)]
pub struct Words<'a> {
    option: usize,
    items: &'a [Item],
    places: &'a [usize],
    symbols: &'a [u8],
}

impl<'a> Model for Words<'a> {
    ghost use Rattle.gs_grammar_level.specs.OwnWords.{WordsForm, own_values};

    ghost Value = { WordsForm };

    ghost view = { λ t. record { option = t.option; values = own_values t.items.now t.places.now t.symbols.now } };
}

/// Returns the part of the symbols from the first place up to the second, and to the end if there is no second.
fn word_at<'a>(places: &[usize], symbols: &'a [u8]) -> &'a [u8]
    ensures { result.now ≡ word_at places.now symbols.now }
{
    let Some((from, others)) = places.split_first() else {
        return &[];
    };
    let rest = skip_first(symbols, *from);
    match others.first() {
        Some(to) => take_first(rest, to.saturating_sub(*from)),
        None => rest,
    }
}

impl<'a> Words<'a> {
    /// Returns the number of the option.
    pub fn option(&self) -> usize
        ensures { result ≡ self.now.option }
    {
        self.option
    }

    /// Returns the value of the item of this number, and an empty text after the last.
    pub fn value(&self, number: usize) -> &'a [u8]
        ensures { result.now ≡ slice_index_or self.now.values number [] }
    {
        let Some(item) = self.items.get(number) else {
            return &[];
        };
        if let Item::Lit(_) = item {
            return &[];
        }
        match self.places.get(number..) {
            Some(ahead) => word_at(ahead, self.symbols),
            None => &[],
        }
    }
}

/// Returns `true` only if the symbols are words of the items, which begin at these places, and each is its own value.
#[inline(never)]
fn are_own_words(items: &[Item], places: &[usize], symbols: &[u8]) -> bool
    requires { places.now ≡ starts_of 0 items.now }
    ensures { IsTrue result → HasValues items.now symbols.now (own_values items.now places.now symbols.now) }
{
    let mut left = items;
    let mut ahead = places;
    let mut rest = symbols;
    while let Some((item, others)) = left.split_first() {
        let width = width_by(ahead, others, rest);
        if rest.len() < width {
            return false;
        }
        let (word, behind) = rest.split_at(width);
        if !is_own_word(item, word) {
            return false;
        }
        left = others;
        ahead = &ahead[1..];
        rest = behind;
    }
    rest.is_empty()
}

/// Returns the words of the symbols by the option of this number, if it cuts them at fixed places into their own values.
fn words_by<'a>(level: &'a Level, option: usize, symbols: &'a [u8]) -> Option<Words<'a>>
    requires within { option < length level.now.options }
    requires unambiguous { IsUnambiguous (item_lists level.now.options) }
    ensures { IfSome result (λ words. FindsWords level.now.options symbols.now words) }
{
    let (items, places) = fixed_cut(level, option)?;
    if !are_own_words(items, places, symbols) {
        return None;
    }
    Some(Words {
        option,
        items,
        places,
        symbols,
    })
}

/// Finds the option that cuts a text of a level that is not ambiguous at fixed places into words that are their own values. Only
/// the option that the text seems to have is tried. `None` says nothing: `read_text` decides then. Does not allocate.
pub fn find_words<'a>(level: &'a Level, text: &'a [u8]) -> Option<Words<'a>>
    requires { IsUnambiguous (item_lists level.now.options) }
    ensures { IfSome result (λ words. FindsWords level.now.options text.now words) }
{
    words_by(level, likely_option(level, text)?, text)
}
