//! From a graph to a netlist.
//!
//! Each wire of the graph is carried by one gate, which computes its equation; the gates are in an evaluation order
//! of the wires. What formulas say of many places at once is built once, as the table of `grc_formulas`. One latch says
//! that the instant is the first, and one for each leaf of the selection tree that it is selected (Berry, "The
//! Constructive Semantics of Pure Esterel"). The netlist follows the graph in each instant and over items
//! (`specs/Generated`).
#![tactic(auto)]

mod assembly;
mod begin;
mod circuit;
mod formulas;
mod generation;
mod making;
mod names;
mod whole;

pub use assembly::make_latches;
pub use generation::generate;
pub use names::{copied_name, input_names};
