ghost use Rattle.std.specs.Prelude.{◌≡◌, ◌+◌, ◌*◌, ◌^◌, ◌<◌, ◌∷◌, IfSome, IfNone, IsTrue, ◌↔◌, ◌++◌, [], OnOk, OnErr};
ghost use Rattle.std.specs.Prelude.{◌/◌, ℕ, length};
ghost use Rattle.gs_ambig.specs.Machines.{states_of, accept_of};
ghost use Rattle.gs_ambig.specs.Walks.{edges_at};
ghost use Rattle.gs_ambig.specs.Searches.{BothHave, HaveNoneInCommon, IfFound, IfNotFound, Leads, LeadsBehind, IsDead};
ghost use Rattle.gs_ambig.specs.Searches.{IsDeadBehind, MarksDead, HasNoForkAt, IsSingle, MarksSingle, HasTwoWalks};
ghost use Rattle.std.specs.List.{Contains};
ghost use Rattle.gs_ambig.specs.Marks.{IsSet, SameBesides, WordIsCleared};

use crate::machine::{Auto, Edge};
use gs_chars::Memory;
use std::alloc::Global;
use std::marker::Model;

/// Returns the number of a pair of states, if the second machine has this many.
fn pair_number(p: usize, q: usize, states: usize, others: usize) -> usize
    requires first { p < states }
    requires second { q < others }
    requires room { states * others < 2 ^ 64 }
    ensures { result ≡ p * others + q }
{
    p * others + q
}

/// Returns the least symbol that both edges have.
fn common_symbol(edge: &Edge, other: &Edge) -> Option<u8>
    ensures some { IfSome result (λ symbol. BothHave edge.now other.now symbol) }
    ensures none { IfNone result (HaveNoneInCommon edge.now other.now) }
{
    let symbol = edge.lo.max(other.lo);
    if symbol <= edge.hi && symbol <= other.hi {
        Some(symbol)
    } else {
        None
    }
}

/// Inserts the symbol at the start of the word that was found after it.
fn with_front(symbol: u8, mut word: Vec<u8>) -> Result<Option<Vec<u8>>, Memory>
    ensures found { IfFound result (λ whole. whole.items ≡ symbol ∷ word.items) }
    ensures some { IfNotFound result ⊥ }
{
    word.insert(0, symbol)?;
    Ok(Some(word))
}

/// Returns whether both states are the accepting ones.
fn are_accepting(m: &Auto, n: &Auto, p: usize, q: usize) -> bool
    ensures { IsTrue result ↔ ((p ≡ accept_of m.now) × (q ≡ accept_of n.now)) }
{
    p == m.accept() && q == n.accept()
}

/// Returns a list of symbols that leads both machines from these states to their accepting states. `None` is returned if and
/// only if there is none. Pairs of states from which none leads are marked, and are not visited again.
#[cycle(search)]
pub fn search(
    alloc: Global,
    m: &Auto,
    n: &Auto,
    p: usize,
    q: usize,
    dead: &mut Marks,
) -> Result<Option<Vec<u8>>, Memory>
    requires first { p < states_of m.now }
    requires second { q < states_of n.now }
    requires room { states_of m.now * states_of n.now < 2 ^ 64 }
    requires marked { MarksDead m.now n.now dead.old }
    ensures found { IfFound result (λ word. Leads m.now n.now p q word.items) }
    ensures none { IfNotFound result (IsDead m.now n.now p q) }
    ensures marks { MarksDead m.now n.now dead.new }
{
    if are_accepting(m, n, p, q) {
        return Ok(Some(Vec::new(alloc)));
    }
    let pair = pair_number(p, q, m.states(), n.states());
    if dead.contains(pair) {
        return Ok(None);
    }
    let edges = m.edges(p);
    for edge in edges {
        if let Some(word) = search_behind(alloc, m, n, p, edge, q, 0, dead)? {
            return Ok(Some(word));
        }
    }
    dead.insert(pair)?;
    Ok(None)
}

/// Returns the same for lists of symbols that take this edge in the first machine. In the second they take an edge from q to a
/// state that is not below the least. The state p, which the edge leaves, bounds how far the search can still go.
#[cycle(search)]
fn search_behind(
    alloc: Global,
    m: &Auto,
    n: &Auto,
    p: usize,
    edge: &Edge,
    q: usize,
    least: usize,
    dead: &mut Marks,
) -> Result<Option<Vec<u8>>, Memory>
    requires onward { p < edge.now.to }
    requires first { edge.now.to < states_of m.now }
    requires second { q < states_of n.now }
    requires room { states_of m.now * states_of n.now < 2 ^ 64 }
    requires marked { MarksDead m.now n.now dead.old }
    ensures found { IfFound result (λ word. LeadsBehind m.now n.now edge.now q least word.items) }
    ensures none { IfNotFound result (IsDeadBehind m.now n.now edge.now (edges_at n.now.table q) least) }
    ensures marks { MarksDead m.now n.now dead.new }
{
    let edges = n.edges(q);
    for other in edges {
        if other.to < least {
            continue;
        }
        let Some(symbol) = common_symbol(edge, other) else {
            continue;
        };
        if let Some(word) = search(alloc, m, n, edge.to, other.to, dead)? {
            return with_front(symbol, word);
        }
    }
    Ok(None)
}

/// A set of numbers, a bit for each. Emptying it takes the time of the insertions. Contracts see the numbers in the order of
/// insertion.
#[derive(Drop)]
pub struct Marks {
    bits: Vec<u64>,
    numbers: Vec<usize>,
}

impl Model for Marks {
    ghost use Rattle.std.specs.Prelude.{List, ℕ};
    ghost use Rattle.gs_ambig.specs.Marks.{AreMarked};

    ghost Value = { List ℕ };

    ghost view = { λ a. a.numbers.items };

    ghost invariant = { λ a. AreMarked a.bits.items a.numbers.items };
}

impl Marks {
    /// Returns the set of no number.
    pub fn new(alloc: Global) -> Marks
        ensures { result ≡ [] }
    {
        Marks {
            bits: Vec::new(alloc),
            numbers: Vec::new(alloc),
        }
    }

    /// Returns whether a number is in the set.
    fn contains(&self, number: usize) -> bool
        ensures { IsTrue result ↔ Contains self.now number }
    {
        is_set(self.bits.as_slice(), number)
    }

    /// Makes room for the numbers up to this one, so that putting them in makes none.
    pub fn make_room(&mut self, number: usize) -> Result<(), Memory>
        ensures { self.new ≡ self.old }
    {
        make_room(&mut self.bits, number)
    }

    /// Puts a number in.
    fn insert(&mut self, number: usize) -> Result<(), Memory>
        ensures inserted { OnOk result (self.new ≡ self.old ++ number ∷ []) }
        ensures unchanged { OnErr result (self.new ≡ self.old) }
    {
        make_room(&mut self.bits, number)?;
        self.numbers.push(number)?;
        set(&mut self.bits, number);
        Ok(())
    }

    /// Empties the set.
    pub fn clear(&mut self)
        ensures { self.new ≡ [] }
    {
        clear(&mut self.bits, self.numbers.as_slice());
        self.numbers.clear();
    }
}

/// Returns whether a bit is set.
fn is_set(bits: &[u64], number: usize) -> bool
    ensures { IsTrue result ↔ IsSet bits.now number }
{
    match bits.get(number / 64) {
        Some(word) => (*word >> (number % 64)) % 2 == 1,
        None => false,
    }
}

/// Sets a bit. There is room for it.
fn set(bits: &mut Vec<u64>, number: usize)
    requires { number / 64 < length bits.old.items }
    ensures set { IsSet bits.new.items number }
    ensures others { SameBesides number bits.old.items bits.new.items }
{
    bits[number / 64] |= 1 << (number % 64);
}

/// Makes room for the bits below and up to a number. No bit is set or cleared by it.
pub fn make_room(bits: &mut Vec<u64>, number: usize) -> Result<(), Memory>
    ensures room { OnOk result (number / 64 < length bits.new.items) }
    ensures same { (other : ℕ) → (IsSet bits.new.items other ↔ IsSet bits.old.items other) }
{
    let words = number / 64 + 1;
    if bits.len() < words {
        bits.resize(words, 0)?;
    }
    Ok(())
}

/// Clears the word of a bit.
fn clear_word(bits: &mut Vec<u64>, number: usize)
    ensures { WordIsCleared number bits.old.items bits.new.items }
{
    if number / 64 < bits.len() {
        bits[number / 64] = 0;
    }
}

/// Clears the bits of these numbers, which are all that are set. No other bit is set.
pub fn clear(bits: &mut Vec<u64>, numbers: &[usize])
    requires { (number : ℕ) → IsSet bits.old.items number → Contains numbers.now number }
    ensures { (number : ℕ) → IsSet bits.new.items number → ⊥ }
{
    for number in numbers {
        clear_word(bits, *number);
    }
}

/// Returns a list of symbols with two walks from this state to the accepting one that part at once. `None` is returned if and
/// only if no two edges that part lead on to one list.
fn search_fork(
    alloc: Global,
    m: &Auto,
    p: usize,
    dead: &mut Marks,
) -> Result<Option<Vec<u8>>, Memory>
    requires state { p < states_of m.now }
    requires room { states_of m.now * states_of m.now < 2 ^ 64 }
    requires marked { MarksDead m.now m.now dead.old }
    ensures found { IfFound result (λ word. HasTwoWalks m.now p word.items) }
    ensures none { IfNotFound result (HasNoForkAt m.now p) }
    ensures marks { MarksDead m.now m.now dead.new }
{
    let edges = m.edges(p);
    for edge in edges {
        if let Some(word) = search_behind(alloc, m, m, p, edge, p, edge.to + 1, dead)? {
            return Ok(Some(word));
        }
    }
    Ok(None)
}

/// Returns a list of symbols with two different walks from this state to the accepting one. `None` is returned if and only if
/// there is none. States from which there is none are marked, and are not visited again.
pub fn search_forks(
    alloc: Global,
    m: &Auto,
    p: usize,
    single: &mut Marks,
    dead: &mut Marks,
) -> Result<Option<Vec<u8>>, Memory>
    requires state { p < states_of m.now }
    requires room { states_of m.now * states_of m.now < 2 ^ 64 }
    requires marked_single { MarksSingle m.now single.old }
    requires marked { MarksDead m.now m.now dead.old }
    ensures found { IfFound result (λ word. HasTwoWalks m.now p word.items) }
    ensures none { IfNotFound result (IsSingle m.now p) }
    ensures marks_single { MarksSingle m.now single.new }
    ensures marks { MarksDead m.now m.now dead.new }
{
    if single.contains(p) {
        return Ok(None);
    }
    if let Some(word) = search_fork(alloc, m, p, dead)? {
        return Ok(Some(word));
    }
    let edges = m.edges(p);
    for edge in edges {
        if edge.hi < edge.lo {
            continue;
        }
        if let Some(word) = search_forks(alloc, m, edge.to, single, dead)? {
            return with_front(edge.lo, word);
        }
    }
    single.insert(p)?;
    Ok(None)
}
