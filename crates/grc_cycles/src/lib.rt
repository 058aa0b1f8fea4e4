//! The cycles of a dependency relation: in how many components they lie, and how many wires cut them.
//!
//! The wires get places, component by component (Tarjan, "Depth-First Search and Linear Graph Algorithms"). What is
//! counted is exact for these places. That they are good ones is not proved.
#![tactic(auto)]

mod counting;
mod places;

pub use counting::{CycleCounts, cycle_counts};
