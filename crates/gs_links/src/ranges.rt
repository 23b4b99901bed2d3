ghost use Rattle.std.specs.Prelude.{◌≡◌, ◌≤◌, ℕ, IfOk, List, OnOk, Some, codes, slice_get};
ghost use Rattle.gs_links.specs.Numbers.{IsLeast, IsLeastOfLowered, IsNumbered, number_at};

use gs_chars::{List, Memory, Text};
use std::alloc::Global;
use std::collections::BTreeMap;
use std::marker::Model;

/// The most bytes of a tag that is looked up.
const LONGEST_TAG: usize = 64;

/// The numbers of ranges by their bytes in lower case.
#[derive(Drop)]
pub struct Numbers {
    first: BTreeMap<Vec<u8>, usize>,
}

impl Numbers {
    /// Returns the numbers of ranges. Fails only with `Memory`.
    fn of(alloc: Global, ranges: &[Text]) -> Result<Numbers, Memory>
        ensures { IfOk result (λ numbers. IsNumbered numbers ranges.now) }
    {
        let mut numbers = Numbers {
            first: BTreeMap::new(alloc),
        };
        for (k, range) in ranges.iter().enumerate() {
            numbers.put(range.as_bytes().to_ascii_lowercase(alloc)?, k)?;
        }
        Ok(numbers)
    }

    /// Puts a number at bytes, unless a lower one is there. Fails only with `Memory`.
    fn put(&mut self, bytes: Vec<u8>, number: usize) -> Result<(), Memory>
        ensures lower { OnOk result ((text : List ℕ) → number_at self.new text ≤ number_at self.old text) }
        ensures put { OnOk result (number_at self.new bytes.items ≤ number) }
    {
        let least = self.at(bytes.as_slice()).min(number);
        self.first.insert(bytes, least)?;
        Ok(())
    }

    /// Returns the number at bytes, and 2^64 - 1 if there is none.
    fn at(&self, bytes: &[u8]) -> usize
        ensures { result ≡ number_at self.now bytes.now }
    {
        match self.first.get(bytes) {
            Some(number) => *number,
            None => usize::MAX,
        }
    }

    /// Returns at most the number of a range that a tag in lower case is in.
    fn least_of_lowered(&self, tag: &[u8]) -> usize
        ensures { IsLeastOfLowered self.now tag.now result }
    {
        let mut least = self.at(tag);
        for (i, byte) in tag.iter().enumerate() {
            if *byte == b'-' {
                least = least.min(self.at(&tag[..i]));
            }
        }
        least
    }

    /// Returns at most the number of a range that a tag is in: 0 if the tag has more than 64 bytes.
    fn least_of_tag(&self, tag: &[u8]) -> usize
        ensures { IsLeast self.now tag.now result }
    {
        if LONGEST_TAG < tag.len() {
            return 0;
        }
        let mut room = [0; LONGEST_TAG];
        let lowered = &mut room[..tag.len()];
        lowered.copy_from_slice(tag);
        lowered.make_ascii_lowercase();
        self.least_of_lowered(lowered)
    }

    /// Returns at most the number of a range that is `*`, or that one of the tags is in.
    pub(crate) fn least_of_tags(&self, tags: &[Text]) -> usize
        ensures any { result ≤ number_at self.now (codes "*") }
        ensures tags { (t : ℕ) (tag : List ℕ) → slice_get tags.now t ≡ Some tag
            → IsLeast self.now tag result }
    {
        let mut least = self.at(b"*");
        for tag in tags {
            least = least.min(self.least_of_tag(tag.as_bytes()));
        }
        least
    }
}

/// Language ranges, which contracts see as their list, in the order of the wish.
#[derive(Drop)]
pub struct Ranges {
    ranges: List<Text>,
    numbers: Numbers,
}

impl Model for Ranges {
    ghost use Rattle.std.specs.Prelude.{List, ℕ};
    ghost use Rattle.gs_links.specs.Numbers.{IsNumbered};

    ghost Value = { List (List ℕ) };

    ghost view = { λ a. a.ranges };

    ghost invariant = { λ a. IsNumbered a.numbers a.ranges };
}

impl Ranges {
    /// Returns the ranges for `Store::narrow`, sorted beside their order. Fails only with `Memory`.
    pub fn new(alloc: Global, ranges: List<Text>) -> Result<Ranges, Memory>
        ensures { IfOk result (λ made. made ≡ ranges) }
    {
        let numbers = Numbers::of(alloc, ranges.items())?;
        Ok(Ranges { ranges, numbers })
    }

    /// Returns the ranges, in their order.
    pub(crate) fn items(&self) -> &[Text]
        ensures { result.now ≡ self.now }
    {
        self.ranges.items()
    }

    /// Returns the numbers of the ranges.
    pub(crate) fn numbers(&self) -> &Numbers
        ensures { IsNumbered result.now self.now }
    {
        &self.numbers
    }
}
