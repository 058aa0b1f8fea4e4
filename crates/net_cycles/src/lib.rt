//! The netlist of a graph whose equations may have a cycle.
//!
//! `draw` makes the gates of a netlist along a schedule of the graph's system of three-valued gates (`net_unroll`):
//! the rows that read no wire, then a gate for each place of the schedule, then the other rows, and at last the
//! formulas of the next state. Where no node of the system stays unknown along the schedule, the outputs and the next
//! state are those of the graph's least solution.
#![tactic(auto)]

mod base;
mod drawing;
mod following;
mod formulas;
mod laws;
mod packing;
mod rows;

pub use packing::{CycleNets, cycle_nets};
