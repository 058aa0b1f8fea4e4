// The laws of shared instances.
// A function here does nothing at run time: its contract is a theorem, which a caller gets by the call. Rattle proves a
// statement only as the contract of a function, so a law is a function that computes nothing.

ghost use Rattle.grc_share_laws.specs.Laws.{KeysTellApart, MembersExcludeEachOther, NamesTellSharedWires, StartsAreFew};
ghost use Rattle.grc_share_laws.specs.SharedReactions.{
  RunsAreShared,
  SharedGraphsRun,
  SharedReactionsAreGiven,
  SharedRunsAnswer,
  SharedRunsAreRuns,
  SharedSolutionsAreMembers,
  SharedWiresAreMembers,
};
ghost use Rattle.grc_share_laws.specs.SharedSolutions.{
  SharedGraphsHaveOneSolution,
  SharedGraphsReadUp,
  SharedOrdersAreReadingOrders,
  SharedRanksGoUp,
  SharedReadsHaveWalks,
  SharedWiresDiffer,
};

use grc_solutions::edges_join_wires;

/// Of two members of a shared instance no two run in one instant.
pub fn members_exclude_each_other()
    ensures { MembersExcludeEachOther }
{}

/// Of two instances of a statement that have one key no two run in one instant.
pub fn keys_tell_apart()
    ensures { KeysTellApart }
{}

/// Two wires of a program's graph are one shared wire exactly where they have one shared name.
pub fn names_tell_shared_wires()
    ensures { NamesTellSharedWires }
{}

/// A statement has at most one shared started instance more than there are loop bodies around it.
pub fn starts_are_few()
    ensures { StartsAreFew }
{}

/// From each shared wire that a shared equation reads a walk of edges leads to its own wire.
pub fn shared_reads_have_walks()
    ensures { SharedReadsHaveWalks }
{}

/// Where the edges between shared wires go up in some rank, the equations of the shared wires read up in it.
pub fn shared_graphs_read_up()
    ensures { SharedGraphsReadUp }
{}

/// The ranks that a shared graph is answered with are such ranks.
pub fn shared_ranks_go_up()
    ensures { SharedRanksGoUp }
{
    edges_join_wires();
}

/// An evaluation order along the edges that a shared graph is answered with is one along which its equations read.
pub fn shared_orders_are_reading_orders()
    ensures { SharedOrdersAreReadingOrders }
{
    edges_join_wires();
}

/// No shared wire stands twice.
pub fn shared_wires_differ()
    ensures { SharedWiresDiffer }
{}

/// So the equations of the shared wires have one solution in each state and event.
pub fn shared_graphs_have_one_solution()
    ensures { SharedGraphsHaveOneSolution }
{}

/// A solution of the program's equations, in a state, gives one of the shared wires' equations: a shared wire is true
/// exactly where a member is.
pub fn shared_wires_are_members()
    ensures { SharedWiresAreMembers }
{}

/// Where the edges between shared wires go up in some rank, the shared equations have no other solution.
pub fn shared_solutions_are_members()
    ensures { SharedSolutionsAreMembers }
{}

/// The outgoing signals, the completion and the next state of a shared solution are those of the program's.
pub fn shared_reactions_are_given()
    ensures { SharedReactionsAreGiven }
{}

/// Where the edges between shared wires go up in some rank, the runs of the shared graph are those of the program's.
pub fn shared_runs_are_runs()
    ensures { SharedRunsAreRuns }
{}

/// Each run of a program's graph is one of its shared graph.
pub fn runs_are_shared()
    ensures { RunsAreShared }
{}

/// Where the edges between shared wires go up in some rank, the shared graph has one run over all items that fit.
pub fn shared_graphs_run()
    ensures { SharedGraphsRun }
{}

/// That run is the run of the program, which answers what the shared graph shows.
pub fn shared_runs_answer()
    ensures { SharedRunsAnswer }
{}
