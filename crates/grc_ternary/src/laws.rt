// The laws that tie the least three-valued solution of a graph to the reaction of its program.
// A function here does nothing at run time: its contract is a theorem, which a caller gets by the call. Rattle proves a
// statement only as the contract of a function, so a law is a function that computes nothing.

ghost use Rattle.grc_ternary.specs.AcyclicLaws.{GraphRunsAreRuns, ProgramsRun};
ghost use Rattle.grc_ternary.specs.AcyclicLaws.{SolutionsAreReactions, SolutionsReact};
ghost use Rattle.grc_ternary.specs.Laws.{AcyclicKnown, KnownReacts, LeastIsThere, ReactsKnown};
ghost use Rattle.grc_ternary.specs.RunLaws.{ProgramsRunByLeastSolutions};

/// The graph of a program has a least solution by Kleene's tables, in each state and event.
pub fn least_solution_is_there()
    ensures { LeastIsThere }
{}

/// Where nothing of the least solution is unknown, the wires that are true solve the graph, and what the state leaves
/// of the program reacts constructively: with the outputs and the code that they show, and to what the next state of
/// the graph leaves of the body. The dependency relation may have cycles.
pub fn known_solutions_react()
    ensures { KnownReacts }
{}

/// Where what a state leaves of the program reacts constructively, nothing of the least solution is unknown.
pub fn reactions_are_known()
    ensures { ReactsKnown }
{}

/// Where the equations of a graph read up in some rank, nothing of a solution is unknown.
pub fn acyclic_solutions_are_known()
    ensures { AcyclicKnown }
{}

/// Over items, a program and the machine of least solutions of its graph follow each other: the one has an instant
/// where the other one has, and both show the same. So a run of least solutions shows the program's answers, up to the
/// first instant in which some wire is unknown, and that is the first one in which the program does not react.
pub fn programs_run_by_least_solutions()
    ensures { ProgramsRunByLeastSolutions }
{}

/// Where the edges of a graph go up in rank, a solution in a state is a constructive reaction of what
/// the state leaves of the program.
pub fn solutions_react()
    ensures { SolutionsReact }
{}

/// Where the edges of a graph go up in rank, a reaction of the program is read off a solution alone: its outputs,
/// its code, and what it leaves of the program.
pub fn solutions_are_reactions()
    ensures { SolutionsAreReactions }
{}

/// Where the edges of a graph go up in rank, a run of the graph from the first instant is the run of
/// the program, and every reaction in it is constructive.
pub fn graph_runs_are_runs()
    ensures { GraphRunsAreRuns }
{}

/// Where the edges of a graph go up in some rank, the program has a run over all items of the right width, and the
/// graph has one that shows it.
pub fn programs_run()
    ensures { ProgramsRun }
{}
