ghost use Rattle.std.specs.Prelude.{◌≡◌, ◌≤◌, All, IfOk, IfErr, SomeIff, position};
ghost use Rattle.gs_grammar.specs.Items.{IsItem, is_bad, size_of_all};
ghost use Rattle.gs_grammar.specs.Levels.{KeepBounds, IsErrorOf};
ghost use Rattle.gs_grammar.specs.Limits.{most_symbols};

use crate::error::OptFault;
use crate::item::Item;
use gs_chars::List;
use std::alloc::Global;
use std::marker::Model;

/// The most symbols that the words of an option have together.
pub const MOST_SYMBOLS: usize = 512;

/// An option of a level: items one after another, of at most `MOST_SYMBOLS` symbols.
#[derive(Drop)]
pub struct Opt {
    bit_level: bool,
    items: List<Item>,
    size: usize,
}

impl Model for Opt {
    ghost use Rattle.std.specs.Prelude.{◌≡◌};
    ghost use Rattle.gs_grammar.specs.Items.{size_of_all};
    ghost use Rattle.gs_grammar.specs.Levels.{OptionForm};
    ghost use Rattle.gs_grammar.specs.LevelsSupport.{IsOption};

    ghost Value = { OptionForm };

    ghost view = { λ a. record { bit_level = a.bit_level; items = a.items } };

    ghost invariant = { λ a. IsOption a.bit_level a.items a.size };
}

/// Returns the number of the first item that is not of the level or breaks a bound.
fn first_bad(bit_level: bool, items: &[Item]) -> Option<usize>
    ensures { result ≡ position (is_bad bit_level) items.now }
{
    items.iter().position(|item| !item.is_in_bounds(bit_level))
}

/// Returns the sum of the sizes of the items, if it is at most `MOST_SYMBOLS`.
fn size_within_limit(items: &[Item]) -> Option<usize>
    ensures { SomeIff result (size_of_all items.now ≤ most_symbols) (size_of_all items.now) }
{
    let mut size = 0;
    for item in items {
        size += item.size();
        if size > MOST_SYMBOLS {
            return None;
        }
    }
    Some(size)
}

impl Opt {
    /// Returns the option of these items. `BadItem(k)` is returned if and only if item k is the first that is not of the level
    /// or breaks a bound. `Size` is returned if and only if no item does, and the sizes add up to more than `MOST_SYMBOLS`.
    pub fn new(_alloc: Global, bit_level: bool, items: Vec<Item>) -> Result<Opt, OptFault>
        ensures bit_level { IfOk result (λ option. option.bit_level ≡ bit_level) }
        ensures items { IfOk result (λ option. option.items ≡ items.items) }
        ensures in_bounds { IfOk result (λ option. KeepBounds bit_level items.items) }
        ensures rejected { IfErr result (λ error. IsErrorOf bit_level items.items error) }
    {
        if let Some(k) = first_bad(bit_level, items.as_slice()) {
            return Err(OptFault::BadItem(k));
        }
        let Some(size) = size_within_limit(items.as_slice()) else {
            return Err(OptFault::Size);
        };
        Ok(Opt {
            bit_level,
            items: List::from_vec(items),
            size,
        })
    }

    /// Returns the option of these items, which are within every bound.
    pub fn of_items(bit_level: bool, items: Vec<Item>) -> Opt
        requires { KeepBounds bit_level items.items }
        ensures { result ≡ record { bit_level = bit_level; items = items.items } }
    {
        match size_within_limit(items.as_slice()) {
            Some(size) => Opt {
                bit_level,
                items: List::from_vec(items),
                size,
            },
            None => unreachable!(),
        }
    }

    /// Returns the items, in their order.
    pub fn items(&self) -> &[Item]
        ensures items { result.now ≡ self.now.items }
        ensures in_bounds { KeepBounds self.now.bit_level self.now.items }
        ensures each { All IsItem result.now }
    {
        self.items.items()
    }

    /// Returns the most symbols that a text of the option has: the sizes of the items, added up.
    pub fn size(&self) -> usize
        ensures { result ≡ size_of_all self.now.items }
    {
        self.size
    }

    /// Returns whether the option's symbols are bits.
    pub fn bit_level(&self) -> bool
        ensures { result ≡ self.now.bit_level }
    {
        self.bit_level
    }
}
