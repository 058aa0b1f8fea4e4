//! What the equations of a graph read, and that they have one solution.
//!
//! A graph has one equation a wire, and its dependency relation has an edge from each wire that an equation reads.
//! Where the edges go up in some rank, as they do unless some of them close a walk, the equations have one solution
//! in each state and event.
#![tactic(auto)]

mod laws;

pub use laws::{
    closed_walks_have_no_ranks, edges_are_reads, edges_join_wires, graph_runs_exist,
    graphs_have_one_solution, graphs_read_up, one_run, one_solution, reading_orders_read_up,
    reads_are_edges, wire_orders_are_reading_orders, wire_ranks_go_up, wires_differ,
};
