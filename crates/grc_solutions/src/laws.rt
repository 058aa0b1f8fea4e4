// The laws of a graph's equations.
// A function here does nothing at run time: its contract is a theorem, which a caller gets by the call. Rattle proves a
// statement only as the contract of a function, so a law is a function that computes nothing.

ghost use Rattle.grc_solutions.specs.GraphWires.{EdgesAreReads, EdgesJoinWires, ReadsAreEdges, WiresDiffer};
ghost use Rattle.grc_solutions.specs.NumberedGraphs.{ClosedWalksHaveNoRanks, ReadingOrdersReadUp};
ghost use Rattle.grc_solutions.specs.NumberedGraphs.{WireOrdersAreReadingOrders, WireRanksGoUp};
ghost use Rattle.grc_solutions.specs.Solutions.{GraphRunsExist, GraphsHaveOneSolution, GraphsReadUp, OneRun};
ghost use Rattle.grc_solutions.specs.Solutions.{OneSolution};

/// The graph of a program has one equation for each of its wires, and no wire stands twice.
pub fn wires_differ()
    ensures { WiresDiffer }
{}

/// Each edge of a program's graph joins two of its wires.
pub fn edges_join_wires()
    ensures { EdgesJoinWires }
{}

/// Each wire of a program's graph that an equation reads has an edge to the equation's wire.
pub fn reads_are_edges()
    ensures { ReadsAreEdges }
{}

/// Each edge of a program's graph ends at a wire whose equation reads the wire that the edge begins at.
pub fn edges_are_reads()
    ensures { EdgesAreReads }
{}

/// Where the equations of a graph read from lower ranks to higher ones, they have one solution in each state
/// and event.
pub fn one_solution()
    ensures { OneSolution }
{}

/// A graph whose equations have one solution in each state and event has one run over each list of items.
pub fn one_run()
    ensures { OneRun }
{}

/// Where the edges of a program's graph go up in some rank, its equations read up in it.
pub fn graphs_read_up()
    ensures { GraphsReadUp }
{}

/// Where the edges of a program's graph go up in some rank, its equations have one solution in each state and
/// event.
pub fn graphs_have_one_solution()
    ensures { GraphsHaveOneSolution }
{}

/// Where the edges of a program's graph go up in some rank, the graph has one run over each list of items.
pub fn graph_runs_exist()
    ensures { GraphRunsExist }
{}

/// An evaluation order along the edges of a program's graph, by number, is one along which its equations read.
pub fn wire_orders_are_reading_orders()
    ensures { WireOrdersAreReadingOrders }
{}

/// Ranks by number that grow along the edges of a program's graph are ranks of its wires.
pub fn wire_ranks_go_up()
    ensures { WireRanksGoUp }
{}

/// Edges along which some walk closes go up in no rank.
pub fn closed_walks_have_no_ranks()
    ensures { ClosedWalksHaveNoRanks }
{}

/// Equations that read along an order read up in some rank.
pub fn reading_orders_read_up()
    ensures { ReadingOrdersReadUp }
{}
