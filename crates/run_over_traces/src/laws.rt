// Laws for callers.
// A function here does nothing at run time: its contract is a theorem, which a caller gets by the call. Rattle proves a
// statement only as the contract of a function, so a law is a function that computes nothing.

ghost use Rattle.run_over_traces.specs.Laws.{NetsAreWritten, TracesBegin, EventsFit};

/// A run of a net's text that is cut off leaves a prefix of the lines of the whole trace, and one that is not leaves
/// all of them.
pub fn runs_are_written()
    ensures { NetsAreWritten }
{}

/// The items of a trace, all or the first ones: each event has a value for each input and meets every relation.
pub fn events_fit()
    ensures whole { TracesBegin }
    ensures each { EventsFit }
{}
