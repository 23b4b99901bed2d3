ghost use Rattle.std.specs.Prelude.{◌≡◌, ◌<◌, ◌-◌, ◌≤◌, ◌++◌, ◌∷◌, [], IfOk, OnOk, length, slice_index, take, drop};
ghost use Rattle.gs_ambig.specs.Machines.{IsMachine, states_of, accept_of};
ghost use Rattle.gs_ambig.specs.MachinesSupport.{auto_form, start_of};
ghost use Rattle.gs_ambig.specs.Walks.{edges_at};

use gs_chars::Memory;
use std::alloc::Global;
use std::marker::Model;

/// A machine: states, which are the numbers below `states`, the edges that leave each, and borders, which are states. A run
/// begins at the first border, and is accepting if it ends at the last.
pub struct Auto {
    table: Table,
    borders: Vec<usize>,
}

// by hand, so that a function that drops a machine calls this: a derived drop is written out at each of its exits
impl Drop for Auto {
    fn drop(self) {
        let Auto {
            table: _,
            borders: _,
        } = self;
    }
}

impl Model for Auto {
    ghost use Rattle.gs_ambig.specs.Machines.{AutoForm, IsMachine};

    ghost Value = { AutoForm };

    ghost view = { λ a. record { table = a.table; borders = a.borders.items } };

    ghost invariant = { λ a. IsMachine (record { table = a.table; borders = a.borders.items }) };
}

impl Auto {
    /// Makes the machine of a table and borders that satisfy the rules. Does not allocate.
    pub fn of_table(table: Table, borders: Vec<usize>) -> Auto
        requires { IsMachine (auto_form table borders.items) }
        ensures { result ≡ auto_form table borders.items }
    {
        Auto { table, borders }
    }

    /// Returns the number of states.
    pub fn states(&self) -> usize
        ensures count { result ≡ states_of self.now }
        ensures rules { IsMachine self.now }
    {
        self.table.len()
    }

    /// Returns the start: the first border.
    pub fn start(&self) -> usize
        ensures start { result ≡ start_of self.now }
        ensures inside { result < states_of self.now }
    {
        self.borders[0]
    }

    /// Returns the accepting state: the last border.
    pub fn accept(&self) -> usize
        ensures accept { result ≡ accept_of self.now }
        ensures inside { result < states_of self.now }
    {
        self.borders[self.borders.len() - 1]
    }

    /// Returns the edges that leave a state of the machine. Each leads to a higher state of the machine and over no border.
    pub fn edges(&self, state: usize) -> &[Edge]
        requires { state < states_of self.now }
        ensures edges { result.now ≡ edges_at self.now.table state }
        ensures rules { IsMachine self.now }
    {
        self.table.edges(state)
    }

    /// Returns the borders, which are states in ascending order.
    pub fn borders(&self) -> &[usize]
        ensures { result.now ≡ self.now.borders }
    {
        self.borders.as_slice()
    }
}

/// An edge of a machine: it leads to a state with each symbol from `lo` to `hi`.
#[derive(Clone, Copy)]
pub struct Edge {
    pub lo: u8,
    pub hi: u8,
    pub to: usize,
}

/// The edges that leave each state, in one array, state by state. Contracts see the list of the lists of edges.
pub struct Table {
    edges: Vec<Edge>,
    ends: Vec<usize>,
}

// by hand, so that a function that drops a table calls this: a derived drop is written out at each of its exits
impl Drop for Table {
    fn drop(self) {
        let Table { edges: _, ends: _ } = self;
    }
}

impl Model for Table {
    ghost use Rattle.std.specs.Prelude.{List, length};
    ghost use Rattle.gs_ambig.specs.declared.machine.Edge.{Edge};
    ghost use Rattle.gs_ambig.specs.Cuts.{cut, Cuts};

    ghost Value = { List (List Edge) };

    ghost view = { λ a. cut 0 a.ends.items a.edges.items };

    ghost invariant = { λ a. Cuts 0 a.ends.items (length a.edges.items) };
}

/// Returns the index at which the edges of a state begin: the end of those of the state before it.
fn start_of(ends: &[usize], state: usize) -> usize
    requires { state < length ends.now }
    ensures { result ≡ slice_index (0 ∷ ends.now) state }
{
    if state == 0 { 0 } else { ends[state - 1] }
}

/// Returns the edges from one place up to another.
fn part(edges: &[Edge], from: usize, to: usize) -> &[Edge]
    requires ascend { from ≤ to }
    requires within { to ≤ length edges.now }
    ensures { result.now ≡ take (to - from) (drop from edges.now) }
{
    &edges[from..to]
}

impl Table {
    /// Returns a table without states, with room for this many states and edges.
    pub fn with_capacity(alloc: Global, states: usize, edges: usize) -> Result<Table, Memory>
        ensures { IfOk result (λ table. table ≡ []) }
    {
        Ok(Table {
            edges: Vec::with_capacity(alloc, edges)?,
            ends: Vec::with_capacity(alloc, states)?,
        })
    }

    /// Appends a state with these edges.
    pub fn push_state(&mut self, row: &[Edge]) -> Result<(), Memory>
        ensures { OnOk result (self.new ≡ self.old ++ row.now ∷ []) }
    {
        self.ends.reserve(1)?;
        self.edges.extend_from_slice(row)?;
        let end = self.edges.len();
        self.ends.push_reserved(end);
        Ok(())
    }

    /// Returns the number of states.
    pub fn len(&self) -> usize
        ensures { result ≡ length self.now }
    {
        self.ends.len()
    }

    /// Returns the edges that leave a state of the table.
    pub fn edges(&self, state: usize) -> &[Edge]
        requires { state < length self.now }
        ensures { result.now ≡ edges_at self.now state }
    {
        let ends = self.ends.as_slice();
        part(self.edges.as_slice(), start_of(ends, state), ends[state])
    }
}
