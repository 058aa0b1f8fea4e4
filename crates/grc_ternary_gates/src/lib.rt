//! Systems of three-valued gates, and their least solutions.
//!
//! A system has one gate a node, and a gate may read any nodes, itself too. By Kleene's tables each
//! node is true, false or not known, and each system has a least solution, from nothing known upwards:
//! the simulation of cyclic circuits by Malik ("Analysis of Cyclic Combinational Circuits") and by
//! Shiple, Berry and Touati ("Constructive Analysis of Cyclic Circuits"). It is found by a list of nodes
//! whose readers must be looked at, in time linear in the gates.
#![tactic(auto)]

mod gates;
mod links;
mod solver;
mod tables;

pub use gates::{Gate, Side, System, Value};
pub use links::Links;
pub use solver::Solver;
pub use tables::push_gate;
