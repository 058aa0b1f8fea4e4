//! The three-valued meaning of a graph, cyclic or not.
//!
//! A graph whose equations depend on one another in a circle has a least solution by Kleene's tables, in which
//! each wire is true, false or not known. Where nothing stays unknown, the program is constructive in this
//! state and event (Berry, "The Constructive Semantics of Pure Esterel"), and the solution tells its reaction.
#![tactic(auto)]

mod laws;

pub use laws::{
    acyclic_solutions_are_known, graph_runs_are_runs, known_solutions_react,
    least_solution_is_there, programs_run, programs_run_by_least_solutions, reactions_are_known,
    solutions_are_reactions, solutions_react,
};
