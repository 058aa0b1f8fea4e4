//! Evaluation orders of a graph's wires.
//!
//! An order has each wire once, and no wire before one that has a dependency edge to it. `order` makes one, wire
//! by wire, by Kahn's method ("Topological Sorting of Large Networks"): a picker chooses among the wires that are
//! not placed yet and whose predecessors all are. So each interleaving of parallel branches that keeps the
//! dependencies is an order that some picker gives. `is_order` tells whether a list is an order.
#![tactic(auto)]

mod checking;
mod edge_runs;
mod picking;
mod schedule;
mod scheduling;

pub use checking::is_order;
pub use picking::{Drawn, First, Last, Picker};
pub use scheduling::order;
