ghost use Rattle.std.specs.Prelude.{◌≡◌, IsTrue};
ghost use Rattle.std.specs.List.{list_all};
ghost use Rattle.gs_chars.specs.Escapes.{is_plain};
ghost use Rattle.gs_grammar.specs.Words.{Word, own_value};

use crate::item::{Item, is_within};
use crate::word_tests::{are_digits_within, are_n_digits, is_integer};
use gs_chars::is_plain_in_uri;

/// Returns whether an EPC URI spells each byte as itself.
fn are_plain(symbols: &[u8]) -> bool
    ensures { result ≡ list_all is_plain symbols.now }
{
    symbols.iter().all(|c| is_plain_in_uri(*c))
}

/// Returns `true` only if the symbols are a word of an item of a text level whose value is empty for a literal, and otherwise the
/// symbols themselves. A word with escapes, or of an item in bits, is left to `read_word`. Does not allocate.
pub fn is_own_word(item: &Item, symbols: &[u8]) -> bool
    ensures { IsTrue result → Word item.now (own_value item.now symbols.now) symbols.now }
{
    match item {
        Item::Lit(literal) => literal.as_bytes() == symbols,
        Item::Pad { n } => are_n_digits(symbols, usize::from(*n)),
        Item::Digits { lo, hi } => are_digits_within(symbols, *lo, *hi),
        Item::Int { max } => is_integer(symbols, *max),
        Item::Esc { lo, hi } => {
            is_within(usize::from(*lo), usize::from(*hi), symbols.len()) && are_plain(symbols)
        }
        _ => false,
    }
}
