ghost use Rattle.std.specs.Prelude.{◌≡◌, IfOk, length};
ghost use Rattle.gs_tables.specs.Numbers.{is_of, numbers_of};
ghost use Rattle.gs_tables.specs.NumbersSupport.{AreOfKinds, AreWithin, OfKind};

use gs_chars::{List, Memory};
use gs_grammar_level::Level;
use gs_tables_document::{OptInfo, OptionRow};
use std::alloc::Global;
use std::marker::Model;

/// The rows of the options of the three levels.
pub struct OptionRows {
    pub binary: List<OptionRow>,
    pub tag: List<OptionRow>,
    pub pure: List<OptionRow>,
}

// by hand, so that a function that drops them calls this one: a derived drop is written out at each of its exits
impl Drop for OptionRows {
    fn drop(self) {
        let OptionRows {
            binary: _,
            tag: _,
            pure: _,
        } = self;
    }
}

impl OptionRows {
    /// Returns the rows of each level: binary, tag, pure.
    pub fn into_lists(self) -> (List<OptionRow>, List<OptionRow>, List<OptionRow>)
        ensures { result ≡ (self.binary, self.tag, self.pure) }
    {
        let OptionRows { binary, tag, pure } = self;
        (binary, tag, pure)
    }
}

/// The three levels of a table set.
pub struct LevelTables {
    pub binary: LevelTable,
    pub tag: LevelTable,
    pub pure: LevelTable,
}

// by hand, so that a function that drops them calls this one: a derived drop is written out at each of its exits
impl Drop for LevelTables {
    fn drop(self) {
        let LevelTables {
            binary: _,
            tag: _,
            pure: _,
        } = self;
    }
}

/// A level of a table set: its options, and the facts of each apart from its items, in the same order.
pub struct LevelTable {
    pub level: Level,
    pub info: IndexedInfo,
}

// by hand, so that a function that drops one calls this one: a derived drop is written out at each of its exits
impl Drop for LevelTable {
    fn drop(self) {
        let LevelTable { level: _, info: _ } = self;
    }
}

/// The facts of each option of a level except its items, in the order of the options. An index finds them by kind and company
/// prefix length. Contracts see the list of facts.
pub struct IndexedInfo {
    info: List<OptInfo>,
    /// The numbers of the options of each kind and, within it, of each prefix length from 0 to 12, ascending.
    numbers: List<List<List<usize>>>,
}

// by hand, so that a function that drops one calls this one: a derived drop is written out at each of its exits
impl Drop for IndexedInfo {
    fn drop(self) {
        let IndexedInfo {
            info: _,
            numbers: _,
        } = self;
    }
}

impl Model for IndexedInfo {
    ghost use Rattle.std.specs.Prelude.{List as ListOf};
    ghost use Rattle.gs_tables_document.specs.declared.document.OptInfo.{OptInfo as Said};
    ghost use Rattle.gs_tables.specs.NumbersSupport.{AreNumbered};

    ghost Value = { ListOf Said };

    ghost view = { λ a. a.info };

    ghost invariant = { λ a. AreNumbered a.info a.numbers };
}

/// Returns whether the option is of the kind and prefix length.
fn is_of(kind: usize, gcp: u8, info: &OptInfo) -> bool
    ensures { result ≡ is_of kind gcp info.now }
{
    info.kind == kind && info.gcp == gcp
}

/// Returns the numbers of the options of a kind and prefix length, ascending.
fn numbers_of(alloc: Global, info: &[OptInfo], kind: usize, gcp: u8) -> Result<List<usize>, Memory>
    ensures { IfOk result (λ numbers. numbers ≡ numbers_of kind gcp info.now) }
{
    let mut numbers = Vec::new(alloc);
    for (number, said) in info.iter().enumerate() {
        if is_of(kind, gcp, said) {
            numbers.push(number)?;
        }
    }
    Ok(List::from_vec(numbers))
}

/// Returns the numbers of the options of a kind, by their prefix length.
fn numbers_of_kind(
    alloc: Global,
    info: &[OptInfo],
    kind: usize,
) -> Result<List<List<usize>>, Memory>
    ensures { IfOk result (OfKind info.now kind) }
{
    let mut lists = Vec::with_capacity(alloc, 13)?;
    for gcp in 0..13 {
        lists.push(numbers_of(alloc, info, kind, gcp)?)?;
    }
    Ok(List::from_vec(lists))
}

/// Returns the numbers of the options, by their kind and prefix length.
fn numbers_of_kinds(
    alloc: Global,
    info: &[OptInfo],
    count: usize,
) -> Result<List<List<List<usize>>>, Memory>
    ensures count { IfOk result (λ kinds. length kinds ≡ count) }
    ensures numbers { IfOk result (AreOfKinds info.now) }
{
    let mut kinds = Vec::new(alloc);
    for kind in 0..count {
        kinds.push(numbers_of_kind(alloc, info, kind)?)?;
    }
    Ok(List::from_vec(kinds))
}

impl IndexedInfo {
    /// Returns the index of the facts of a level's options, for `count` kinds. Each names a kind below that number. Fails only
    /// with `Memory`.
    pub fn new(alloc: Global, count: usize, info: Vec<OptInfo>) -> Result<IndexedInfo, Memory>
        requires { AreWithin info.items count }
        ensures { IfOk result (λ made. made ≡ info.items) }
    {
        let numbers = numbers_of_kinds(alloc, info.as_slice(), count)?;
        Ok(IndexedInfo {
            info: List::from_vec(info),
            numbers,
        })
    }

    /// Returns the facts of each option, in their order.
    pub fn items(&self) -> &[OptInfo]
        ensures { result.now ≡ self.now }
    {
        self.info.items()
    }

    /// Returns the numbers of the options of a kind and prefix length, ascending.
    pub fn numbers(&self, kind: usize, gcp: u8) -> &[usize]
        ensures { result.now ≡ numbers_of kind gcp self.now }
    {
        let Some(lists) = self.numbers.items().get(kind) else {
            return &[];
        };
        match lists.items().get(usize::from(gcp)) {
            Some(numbers) => numbers.items(),
            None => &[],
        }
    }
}
