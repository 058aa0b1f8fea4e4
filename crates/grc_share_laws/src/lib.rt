//! Laws of shared instances: of the instances that are one no two run in one instant. So a shared wire is true exactly
//! where a member is, and the reactions and runs of the shared graph are those of the program's.
//!
//! What starts an instance is in the equations of `go` alone, and what they let run is found from the outside in:
//! where two layers of a statement run, those of the statement around do, so that they differ in their keys. Where a
//! sequence or a loop starts a part at a root of its own, it is resumed, and the state holds one part of a sequence
//! alone. Where an instance runs, then, what it reads of its parts, of the statement around it and of statuses is what
//! its shared instance reads.
#![tactic(auto)]

mod laws;

pub use laws::{
    keys_tell_apart, members_exclude_each_other, names_tell_shared_wires, runs_are_shared,
    shared_graphs_have_one_solution, shared_graphs_read_up, shared_graphs_run,
    shared_orders_are_reading_orders, shared_ranks_go_up, shared_reactions_are_given,
    shared_reads_have_walks, shared_runs_answer, shared_runs_are_runs,
    shared_solutions_are_members, shared_wires_are_members, shared_wires_differ, starts_are_few,
};
