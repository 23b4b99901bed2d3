ghost use Rattle.std.specs.Prelude.{◌≡◌, IfOk};
ghost use Rattle.gs_grammar.specs.Levels.{AreOfKind};
ghost use Rattle.gs_grammar_level.specs.Fronts.{AreFrontsOf};
ghost use Rattle.gs_grammar_level.specs.Guides.{AreProbesOf, AreGroupsFrom};
ghost use Rattle.gs_grammar_level.specs.Cuttings.{AreCuttingsOf};
ghost use Rattle.gs_grammar_level.specs.OptionMachines.{AreMachinesOf};

use crate::cuttings::{Cutting, cuttings_of};
use crate::fronts::{Front, Group, Probe, fronts_of};
use crate::probe_groups::{groups_of, probes_of};
use gs_ambig::Auto;
use gs_chars::{List, Memory};
use gs_grammar::Opt;
use gs_grammar_compile::compile;
use std::alloc::Global;
use std::marker::Model;

/// The options of one level, in the order of the table. Each has its machine and the known facts of its texts.
pub struct Level {
    bit_level: bool,
    options: List<Opt>,
    fronts: List<Front>,
    machines: List<Auto>,
    cuttings: List<Cutting>,
    probes: List<Probe>,
    groups: List<Group>,
}

// by hand, so that a function that drops a level calls this: a derived drop is written out at each of its exits
impl Drop for Level {
    fn drop(self) {
        let Level {
            bit_level: _,
            options: _,
            fronts: _,
            machines: _,
            cuttings: _,
            probes: _,
            groups: _,
        } = self;
    }
}

impl Model for Level {
    ghost use Rattle.gs_grammar.specs.Levels.{LevelForm};

    ghost Value = { LevelForm };

    ghost view = { λ a. record { bit_level = a.bit_level; options = a.options } };

    ghost use Rattle.gs_grammar_level.specs.Whole.{IsLevel};

    ghost invariant = { λ a. IsLevel a.bit_level a.options a.fronts a.machines a.cuttings a.probes a.groups };
}

impl Level {
    /// Makes the level of these options, and compiles the machine of each. Fails only with `Memory`.
    pub fn new(alloc: Global, bit_level: bool, options: Vec<Opt>) -> Result<Level, Memory>
        requires { AreOfKind bit_level options.items }
        ensures bit_level { IfOk result (λ level. level.bit_level ≡ bit_level) }
        ensures options { IfOk result (λ level. level.options ≡ options.items) }
    {
        let fronts = fronts_of(alloc, options.as_slice())?;
        let machines = machines_of(alloc, options.as_slice())?;
        let cuttings = cuttings_of(alloc, options.as_slice())?;
        let probes = probes_of(alloc, options.as_slice())?;
        let groups = groups_of(alloc, options.as_slice())?;
        Ok(Level {
            bit_level,
            options: List::from_vec(options),
            fronts,
            machines,
            cuttings,
            probes,
            groups,
        })
    }

    /// Returns the options, in their order. Each is of the level's kind.
    pub fn options(&self) -> &[Opt]
        ensures options { result.now ≡ self.now.options }
        ensures of_kind { AreOfKind self.now.bit_level self.now.options }
    {
        self.options.items()
    }

    /// Returns whether the level's symbols are bits.
    pub fn bit_level(&self) -> bool
        ensures is { result ≡ self.now.bit_level }
        ensures of_kind { AreOfKind self.now.bit_level self.now.options }
    {
        self.bit_level
    }

    /// Returns the fronts of the options, one for each, in their order.
    pub(crate) fn fronts(&self) -> &[Front]
        ensures { AreFrontsOf result.now self.now.options }
    {
        self.fronts.items()
    }

    /// Returns the machines of the options, one for each, in their order. Each satisfies the rules of machines and reads its
    /// option's items one by one. It has at most 32 states for each symbol of the option's size, and one if there are no items.
    pub fn machines(&self) -> &[Auto]
        ensures { AreMachinesOf result.now self.now.options }
    {
        self.machines.items()
    }

    /// Returns the ways in which the texts of the options are cut, one for each, in their order.
    pub(crate) fn cuttings(&self) -> &[Cutting]
        ensures { AreCuttingsOf result.now self.now.options }
    {
        self.cuttings.items()
    }

    /// Returns the probes of the options, one for each, in their order.
    pub(crate) fn probes(&self) -> &[Probe]
        ensures { AreProbesOf result.now self.now.options }
    {
        self.probes.items()
    }

    /// Returns the groups of the options, which have all of them.
    pub(crate) fn groups(&self) -> &[Group]
        ensures { AreGroupsFrom 0 result.now self.now.options }
    {
        self.groups.items()
    }
}

/// Makes the machine of each option, in their order.
pub fn machines_of(alloc: Global, options: &[Opt]) -> Result<List<Auto>, Memory>
    ensures { IfOk result (λ machines. AreMachinesOf machines options.now) }
{
    let mut machines = Vec::with_capacity(alloc, options.len())?;
    for option in options {
        machines.push(compile(alloc, option)?)?;
    }
    Ok(List::from_vec(machines))
}
