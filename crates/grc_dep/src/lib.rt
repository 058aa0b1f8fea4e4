//! The dependency edges of a graph, and whether they have a cycle.
//!
//! An edge leads from a wire to one that may depend on it. Where the edges have no closed walk, ranks that grow along
//! each edge show it, and the wires can be evaluated one by one; else a closed walk is shown.
#![tactic(auto)]

mod forms;
mod graph_edges;
mod instance_edges;
mod linking;
mod lookups;
mod names;
mod part_edges;
mod parts;
mod ranking;
mod sorting;
mod statuses;
mod tested;

pub use graph_edges::edges;
pub use ranking::{Ranked, cycle_or_rank};
pub use sorting::edges_of;
