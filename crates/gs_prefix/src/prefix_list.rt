ghost use Rattle.std.specs.Prelude.{◌≡◌, ◌≤◌, [], IfSome, length, false, IfOk, find};
ghost use Rattle.serde_json.specs.View.{view};
ghost use Rattle.gs_chars.specs.Answers.{first_or, OrError};
ghost use Rattle.gs_prefix.specs.Answers.{document_answer, load_answer};
ghost use Rattle.gs_prefix.specs.AnswersSupport.{AddsEntry};
ghost use Rattle.gs_prefix.specs.Lengths.{prefix_length, has_prefix, longest_entry};
ghost use Rattle.gs_prefix.specs.Rules.{rejections};
ghost use Rattle.std.specs.List.{list_any};
ghost use Rattle.std.specs.Option.{option_map};
ghost use Rattle.gs_prefix.specs.LengthsSupport.{with_entry};

use crate::document::{judge_form, read_entries};
use crate::entry::{PrefixEntry, check_entry};
use crate::error::PrefixFault;
use gs_chars::Memory;
use gs_json::{Doc, Node};
use indexmap::IndexMap;
use std::alloc::Global;
use std::marker::Model;

/// The most entries that a list has.
const MOST_ENTRIES: usize = 65_536;

/// A list of company prefix lengths, which contracts see as its entries in the order of the document. Each prefix is 1 to 12
/// digits, each length is at most 12.
#[derive(Drop)]
pub struct PrefixList {
    entries: Index,
}

impl Model for PrefixList {
    ghost use Rattle.std.specs.Prelude.{◌≡◌, List, true};
    ghost use Rattle.std.specs.List.{list_all};
    ghost use Rattle.gs_prefix.specs.declared.entry.PrefixEntry.{PrefixEntry};
    ghost use Rattle.gs_prefix.specs.LengthsSupport.{is_entry};

    ghost Value = { List PrefixEntry };

    ghost view = { λ a. a.entries };

    ghost invariant = { λ a. list_all is_entry a.entries ≡ true };
}

impl PrefixList {
    /// Returns the list of no entry, which gives no length. Does not allocate.
    pub fn empty(alloc: Global) -> PrefixList
        ensures { result ≡ [] }
    {
        PrefixList {
            entries: Index::new(alloc),
        }
    }

    /// Returns the list of a document in JSON. It is an object with exactly `version`, the number 1, and `prefixes`, an array
    /// of objects with exactly `prefix`, a text, and `length`, a number. Of the rejections the first in this order is the
    /// answer. `Json`: the bytes are not JSON text; the document, its version or an entry has not this form. `Limit`: more than
    /// 65,536 entries. Then entry by entry `BadPrefix`, `BadLength`, `Twice`. May return `Memory` instead.
    pub fn load(alloc: Global, bytes: &[u8]) -> Result<PrefixList, PrefixFault>
        ensures { OrError PrefixFault.Memory result (load_answer bytes.now) }
    {
        let doc = Doc::parse(alloc, bytes)?;
        PrefixList::of_root(alloc, &doc.root(alloc))
    }

    /// Returns the list that the document of this tree gives, or its first rejection.
    fn of_root(alloc: Global, root: &Node<'_>) -> Result<PrefixList, PrefixFault>
        requires { root.now.place ≡ [] }
        ensures { OrError PrefixFault.Memory result (document_answer (view root.now.tree)) }
    {
        judge_form(alloc, root)?;
        let entries = read_entries(alloc, root.value())?;
        PrefixList::of_entries(alloc, entries.as_slice())
    }

    /// Returns the list of the entries, or their first rejection.
    fn of_entries(alloc: Global, entries: &[PrefixEntry]) -> Result<PrefixList, PrefixFault>
        ensures { OrError PrefixFault.Memory result (first_or (rejections entries.now) entries.now) }
    {
        if entries.len() > MOST_ENTRIES {
            return Err(PrefixFault::Limit);
        }
        let mut index = Index::new(alloc);
        for (i, entry) in entries.iter().enumerate() {
            add_entry(alloc, &mut index, i, entry)?;
        }
        Ok(PrefixList { entries: index })
    }

    /// Returns the number of entries.
    pub fn len(&self) -> usize
        ensures { result ≡ length self.now }
    {
        self.entries.len()
    }

    /// Returns the length of the company prefix with which the digits begin: that of the longest entry that is a prefix of
    /// them. `None` is returned if and only if no entry is one, or the length of the longest is 0. Does not allocate, and looks
    /// into the list at most twelve times.
    #[tactic(auto, unfolding(crate::specs::Lengths::prefix_length))]
    pub fn length_of(&self, digits: &[u8]) -> Option<u8>
        ensures length { result ≡ prefix_length self.now digits.now }
        ensures range { IfSome result (λ n. (1 ≤ n) × (n ≤ 12)) }
    {
        let length = self.longest(digits)?;
        if length == 0 { None } else { Some(length) }
    }

    /// Returns the length of the longest entry that is a prefix of the digits.
    fn longest(&self, digits: &[u8]) -> Option<u8>
        ensures length { result ≡ option_map (λ entry. entry.length) (longest_entry self.now digits.now) }
        ensures range { IfSome result (λ n. n ≤ 12) }
    {
        for n in (1..13).rev() {
            if n <= digits.len() {
                let length = self.entries.length_of(&digits[..n]);
                if length.is_some() {
                    return length;
                }
            }
        }
        None
    }
}

/// Adds an entry to the index, unless it breaks a rule given the earlier entries.
fn add_entry(
    alloc: Global,
    index: &mut Index,
    i: usize,
    entry: &PrefixEntry,
) -> Result<(), PrefixFault>
    ensures { AddsEntry result i index.old index.new entry.now }
{
    check_entry(index, i, entry)?;
    index.push(alloc, entry.prefix.as_bytes(), entry.length as u8)?;
    Ok(())
}

/// Entries whose prefixes differ, in the order of insertion and found by their prefixes.
pub struct Index {
    lengths: IndexMap<Vec<u8>, u8>,
}

// by hand, so that a function that drops an index calls this: a derived drop is written out at each of its exits
impl Drop for Index {
    fn drop(self) {
        let Index { lengths: _ } = self;
    }
}

impl Model for Index {
    ghost use Rattle.std.specs.Prelude.{List};
    ghost use Rattle.gs_prefix.specs.LengthsSupport.{entries_of};
    ghost use Rattle.gs_prefix.specs.declared.entry.PrefixEntry.{PrefixEntry};

    ghost Value = { List PrefixEntry };

    ghost view = { λ a. entries_of a.lengths.entries };
}

impl Index {
    /// Returns an empty index. Does not allocate.
    pub fn new(alloc: Global) -> Index
        ensures { result ≡ [] }
    {
        Index {
            lengths: IndexMap::new(alloc),
        }
    }

    /// Returns the number of entries.
    pub fn len(&self) -> usize
        ensures { result ≡ length self.now }
    {
        self.lengths.len()
    }

    /// Adds an entry, whose prefix is not there yet.
    pub fn push(&mut self, alloc: Global, prefix: &[u8], length: u8) -> Result<(), Memory>
        requires { list_any (has_prefix prefix.now) self.old ≡ false }
        ensures { IfOk result (λ _. self.new ≡ with_entry self.old prefix.now length) }
    {
        self.lengths
            .insert(Vec::from_slice(alloc, prefix)?, length)?;
        Ok(())
    }

    /// Returns the length of the entry of a prefix. `None` is returned if and only if there is no such entry.
    pub fn length_of(&self, prefix: &[u8]) -> Option<u8>
        ensures { result ≡ option_map (λ entry. entry.length) (find (has_prefix prefix.now) self.now) }
    {
        self.lengths.get(prefix).copied()
    }
}
