ghost use Rattle.gs_grammar_compile.specs.Places.{RunsAreDerivations};

/// States that each derivation by the items is exactly one accepting run of a machine that reads the items one by one. The
/// derivation's cuts give the run: its border places are those between the words.
pub fn cuts_of_runs_are_those_of_derivations()
    ensures { RunsAreDerivations }
{}
