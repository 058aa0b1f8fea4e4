//! Netlists: inputs, latches and gates over numbered nets, and what they compute.
//!
//! A net is a signal line that is true or false in each instant. The nets are numbered: the inputs,
//! then the latches, then the gates in order. A gate reads nets of lower numbers alone, so the
//! latch values and the inputs of an instant settle every net, and the nets that the latches read
//! give the latch values of the next instant. This is the synchronous circuit of Berry, "The
//! Constructive Semantics of Pure Esterel", in the order in which it is evaluated.
#![tactic(auto)]

mod netlist;
mod writing;

pub use netlist::{Gate, Latch, Net, NetOut, Op};
pub use writing::look_at_wires;
