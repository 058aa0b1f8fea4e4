// The laws of encoded states.
// A function here does nothing at run time: its contract is a theorem, which a caller gets by the call. Rattle proves a
// statement only as the contract of a function, so a law is a function that computes nothing.

ghost use Rattle.net_state_enc_laws.specs.Laws.{GraphsKeepStates, KeptStatesAreFormed, LatchesAreFormed};

use grc_solutions_laws::next_state_is_kept;

/// The graph of a program keeps its states: after each instant is a state of the body again.
pub fn graphs_keep_states()
    ensures { GraphsKeepStates }
{
    next_state_is_kept();
}

/// The latches of a netlist that follows a graph that keeps its program's states, its own graph or that of its shared
/// wires, select, in each instant of a run, leaves as the selection tree wants.
pub fn kept_states_are_formed()
    ensures { KeptStatesAreFormed }
{}

/// The latches of a netlist that follows a program's graph select, in each instant of a run, leaves as the selection
/// tree wants.
pub fn latches_are_formed()
    ensures { LatchesAreFormed }
{
    next_state_is_kept();
}
