ghost use Rattle.std.specs.Prelude.{◌≡◌, ◌≤◌, ℕ, IsTrue, List};
ghost use Rattle.gs_grammar.specs.Items.{IsItem, size_of};
ghost use Rattle.gs_grammar.specs.NumberWords.{digits_of, number_value};
ghost use Rattle.gs_grammar.specs.Words.{Word, WritesNumber};

use crate::item::Item;
use crate::numerals::{
    digit_count, digits_behind, digits_behind_one, has_at_most_digits, write_digits,
};

/// Returns `true` only if the number, in the bits of the item, is a word of it. Does not allocate.
pub fn is_number_word(item: &Item, number: u64) -> bool
    ensures { IsTrue result → (w : List ℕ)
        → WritesNumber (size_of item.now) number w → Word item.now (number_value item.now number) w }
{
    match item {
        Item::NumPad { n, .. } => *n <= 18 && has_at_most_digits(number, *n),
        Item::Num { max, .. } => number <= *max,
        Item::NumStr { hi, .. } => *hi <= 12 && digits_behind_one(number, *hi).is_some(),
        _ => false,
    }
}

/// Returns the number of digits of the value of the item whose word is this number.
fn digit_count_of_value(item: &Item, number: u64) -> usize
    requires { IsItem item.now }
    ensures few { result ≤ 20 }
    ensures digits { number_value item.now number ≡ digits_of result number }
{
    match item {
        Item::NumPad { n, .. } => usize::from(*n),
        Item::Num { .. } => digit_count(number),
        Item::NumStr { .. } => digits_behind(number) as usize,
        _ => 0,
    }
}

/// Writes the value of the item whose word is this number to the start of the room, and returns it. The item is within its bounds.
/// Does not allocate.
pub fn number_value<'r>(item: &Item, number: u64, room: &'r mut [u8; 20]) -> &'r [u8]
    requires { IsItem item.now }
    ensures { result.now ≡ number_value item.now number }
{
    let digits = &mut room[..digit_count_of_value(item, number)];
    write_digits(number, digits);
    digits
}
