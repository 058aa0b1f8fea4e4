// The laws of kernel expansion.
// A function here does nothing at run time: its contract is a theorem, which a caller gets by the call. Rattle proves a
// statement only as the contract of a function, so a law is a function that computes nothing.

ghost use Rattle.est_dismantle.specs.Laws.{ExpansionsAreWellFormed, ExpansionsHaveNames};
ghost use Rattle.est_dismantle.specs.Laws.{ImmediateAbortionsRunTheirRest};
ghost use Rattle.est_dismantle.specs.Laws.{ImmediateAwaitsEndAtOnce, RepetitionsAreSequences, SustainedSignalsStay};
ghost use Rattle.est_dismantle.specs.Laws.{LoopsEachStartAnew};

/// The kernel program of a flat program that keeps what a flat program keeps is well formed: it is within
/// the limits, its exits are in their traps and its signals in their scopes, and no input is emitted.
pub fn expansions_are_well_formed()
    ensures well_formed { ExpansionsAreWellFormed }
    ensures names { ExpansionsHaveNames }
{}

/// Where e is there at the start, `abort p when immediate e do q end` does what q does, in the trap around it.
pub fn immediate_abortions_run_their_rest()
    ensures { ImmediateAbortionsRunTheirRest }
{}

/// Where e is there, `await immediate e` terminates at once.
pub fn immediate_awaits_end_at_once()
    ensures { ImmediateAwaitsEndAtOnce }
{}

/// `repeat 2 times p end` is `p; p`.
pub fn repetitions_are_sequences()
    ensures { RepetitionsAreSequences }
{}

/// `sustain s` emits s in each instant and never ends.
pub fn sustained_signals_stay()
    ensures { SustainedSignalsStay }
{}

/// `loop p each e` starts anew in each later instant in which e is there.
pub fn loops_each_start_anew()
    ensures { LoopsEachStartAnew }
{}
