//! Netlists made smaller.
//!
//! A first pass over the gates, from the front, finds for each net of the old netlist one of a draft that has
//! the same value in each instant: constants are folded, double negations and absorbed operands go, and gates
//! of one operator are one (`folding`). A pass from the back marks the gates that are needed (`needs`), and a
//! last one leaves out the others (`packing`). What the netlist shows, and the values of the wires that its
//! gates carry, stay.
#![tactic(auto)]

mod folding;
mod forms;
mod gates;
mod needs;
mod netlist;
mod packing;
mod rules;

pub use gates::{renamed_op, stand_in};
pub use netlist::{copied_names, simplify};
