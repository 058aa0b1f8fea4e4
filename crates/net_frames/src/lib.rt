//! Transition systems of netlists, and questions about them.
//!
//! `TransitionSystem` is the cone of a question: the part of a netlist that it depends on, as an and-inverter graph in
//! which no two nodes have the same operands (Kuehlmann, Paruthi, Krohm and Ganai, "Robust Boolean Reasoning for
//! Equivalence Checking and Functional Property Verification"). `Questions` asks a clause-learning search about edges
//! of a graph. `Unrolling` is bounded model checking (Biere, Cimatti, Clarke and Zhu, "Symbolic Model Checking without
//! BDDs"): it looks for traces of one instant, of two, and so on. `Simulation` makes random runs. Nothing here is
//! trusted: what is found is checked by the crates above.
#![tactic(auto)]

mod graphs;
mod questions;
mod simulation;
mod systems;
mod unrolling;

pub use graphs::{AndGraph, AndNode, FALSE, TRUE};
pub use questions::{Questions, Reply};
pub use simulation::Simulation;
pub use systems::{State, TransitionSystem};
pub use unrolling::Unrolling;
