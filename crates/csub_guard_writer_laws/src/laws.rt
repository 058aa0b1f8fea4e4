// The laws of regions.
// A function here does nothing at run time: its contract is a theorem, which a caller gets by the call. Rattle proves a
// statement only as the contract of a function, so a law is a function that computes nothing.

ghost use Rattle.csub_guard_writer_laws.specs.Laws.{NetlistsRest, GuardedTextsRun};

/// In each instant of a run of a netlist that follows a program's graph, the regions whose heads do not run are at
/// rest.
pub fn netlists_rest()
    ensures { NetlistsRest }
{}

/// A guarded text that means such a netlist wherever its regions are at rest means it over all items.
pub fn guarded_texts_run()
    ensures { GuardedTextsRun }
{}
