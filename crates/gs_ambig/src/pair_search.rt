ghost use Rattle.std.specs.Prelude.{◌≡◌, ◌<◌, ◌*◌, ◌^◌, [], OnOk, IfOk, length};
ghost use Rattle.gs_ambig.specs.Machines.{states_of};
ghost use Rattle.gs_ambig.specs.MachinesSupport.{start_of};
ghost use Rattle.gs_ambig.specs.Searches.{BothAccept, IfFound, IfNotFound, IsSingle, NoneInCommon, HasTwoWalks};
ghost use Rattle.gs_ambig.specs.Shares.{IsFirstFrom, IsVerdict, Share, ShareNothing, SharesNone};

use crate::machine::Auto;
use crate::search::{Marks, search, search_forks};
use gs_chars::{Memory, Text};
use std::alloc::Global;

/// The search of machines for lists of symbols that they share. The room that it marks states in is kept from one search to
/// the next.
#[derive(Drop)]
pub struct PairSearch {
    dead: Marks,
    single: Marks,
}

/// Empties a set, and makes room for the pairs of the machines' states. If their number exceeds a `usize`, it also exceeds
/// memory.
fn make_ready(dead: &mut Marks, m: &Auto, n: &Auto) -> Result<(), Memory>
    ensures { OnOk result ((dead.new ≡ []) × (states_of m.now * states_of n.now < 2 ^ 64)) }
{
    let Some(pairs) = m.states().checked_mul(n.states()) else {
        return Err(Memory);
    };
    dead.clear();
    dead.make_room(pairs)
}

impl PairSearch {
    /// Returns a search that has marked nothing yet. Does not allocate.
    pub fn new(alloc: Global) -> PairSearch {
        PairSearch {
            dead: Marks::new(alloc),
            single: Marks::new(alloc),
        }
    }

    /// Returns a list of symbols that both machines accept. `None` is returned if and only if there is none. Fails only with
    /// `Memory`.
    pub fn find_shared_word(
        &mut self,
        alloc: Global,
        m: &Auto,
        n: &Auto,
    ) -> Result<Option<Vec<u8>>, Memory>
        ensures found { IfFound result (λ word. BothAccept m.now n.now word.items) }
        ensures none { IfNotFound result (NoneInCommon m.now n.now) }
    {
        make_ready(&mut self.dead, m, n)?;
        search(alloc, m, n, m.start(), n.start(), &mut self.dead)
    }

    /// Returns a list of symbols with two different accepting runs of the machine. `None` is returned if and only if there is
    /// none. Fails only with `Memory`.
    pub fn find_ambiguous_word(
        &mut self,
        alloc: Global,
        m: &Auto,
    ) -> Result<Option<Vec<u8>>, Memory>
        ensures found { IfFound result (λ word. HasTwoWalks m.now (start_of m.now) word.items) }
        ensures none { IfNotFound result (IsSingle m.now (start_of m.now)) }
    {
        make_ready(&mut self.dead, m, m)?;
        self.single.clear();
        search_forks(alloc, m, m.start(), &mut self.single, &mut self.dead)
    }
}

/// Returns a list of symbols that machine i and machine j share.
fn shared_word(
    alloc: Global,
    machines: &[Auto],
    i: usize,
    j: usize,
    search: &mut PairSearch,
) -> Result<Option<Vec<u8>>, Memory>
    requires first { i < length machines.now }
    requires second { j < length machines.now }
    ensures found { IfFound result (λ word. Share machines.now i j word.items) }
    ensures none { IfNotFound result (ShareNothing machines.now i j) }
{
    if i == j {
        return search.find_ambiguous_word(alloc, &machines[i]);
    }
    search.find_shared_word(alloc, &machines[i], &machines[j])
}

/// Returns the first machine, from i on, that shares a list of symbols with machine i, and such a list.
fn first_from(
    alloc: Global,
    machines: &[Auto],
    i: usize,
    search: &mut PairSearch,
) -> Result<Option<(usize, Vec<u8>)>, Memory>
    requires { i < length machines.now }
    ensures found { IfFound result (λ double. IsFirstFrom machines.now i double.0 double.1.items) }
    ensures none { IfNotFound result (SharesNone machines.now i (length machines.now)) }
{
    for j in i..machines.len() {
        if let Some(word) = shared_word(alloc, machines, i, j, search)? {
            return Ok(Some((j, word)));
        }
    }
    Ok(None)
}

/// Returns the answer for the machines, by the pairs in the order of i and then of j.
fn verdict_of(alloc: Global, machines: &[Auto], search: &mut PairSearch) -> Result<Verdict, Memory>
    ensures { IfOk result (λ verdict. IsVerdict machines.now verdict) }
{
    for i in 0..machines.len() {
        if let Some((j, word)) = first_from(alloc, machines, i, search)? {
            let word = Text::from_vec(word);
            return Ok(Verdict::Double { i, j, word });
        }
    }
    Ok(Verdict::Clear)
}

/// Returns whether some list of symbols has two different accepting runs, in one machine or in two. `Clear` is returned if and
/// only if none has. `Double` names the first pair i, j that shares a list, with i at most j, in the order of i and then of j.
/// Its symbols are such a list. May return `Memory` instead.
pub fn check(alloc: Global, machines: &[Auto]) -> Result<Verdict, Memory>
    ensures { IfOk result (λ verdict. IsVerdict machines.now verdict) }
{
    let mut search = PairSearch::new(alloc);
    verdict_of(alloc, machines, &mut search)
}

/// Whether machines share a list of symbols.
#[derive(Drop)]
pub enum Verdict {
    /// No list of symbols has two different accepting runs, in one machine or in two.
    Clear,
    /// The machines i and j, i at most j, are the first pair that shares a list of symbols. This word has an accepting run of i
    /// and a different one of j. Runs of two machines are different.
    Double { i: usize, j: usize, word: Text },
}
