// The laws that tie the graph of a program to its walk.
// A function here does nothing at run time: its contract is a theorem, which a caller gets by the call. Rattle proves a
// statement only as the contract of a function, so a law is a function that computes nothing.

ghost use Rattle.grc_solutions_laws.specs.Laws.{CodesAreShown, EquationsAreTheWalk, NextStateIsKept, RegionsRest};
ghost use Rattle.grc_solutions_laws.specs.Laws.{RegionsRestInRuns, SolutionsAreWalks, WalksKeepStates};

/// A solution of a program's graph is the walk of the program's state, wire by wire.
pub fn solutions_are_walks()
    ensures { SolutionsAreWalks }
{}

/// The valuations that solve a program's graph are just those of the walk under coherent statuses.
pub fn equations_are_the_walk()
    ensures { EquationsAreTheWalk }
{}

/// The code of the walk is the one that a solution shows.
pub fn codes_are_shown()
    ensures { CodesAreShown }
{}

/// The pauses that a walk of a state keeps are a state again.
pub fn walks_keep_states()
    ensures { WalksKeepStates }
{}

/// The next formulas of a solution select the pauses that the walk keeps, they are a state of leaves
/// again, and the graph shows whether the walk pauses.
pub fn next_state_is_kept()
    ensures { NextStateIsKept }
{}

/// In a solution each region whose head does not run is at rest: all its wires are false.
pub fn regions_rest()
    ensures { RegionsRest }
{}

/// In each instant of a run from the first one on, each region whose head does not run is at rest.
pub fn regions_rest_in_runs()
    ensures { RegionsRestInRuns }
{}
