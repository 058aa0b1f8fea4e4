//! The netlist of a program whose dependencies may have a cycle, with the netlist that checks it.
//!
//! `loop_nets` evaluates the program's graph along a schedule (`grc_ternary_schedule`, `net_cycles`). In an instant in
//! which the output of the check is false, the least solution of the graph knows each wire, and the netlist does what
//! that solution says. So over items in no instant of which the check raises the alarm the program is constructive, and
//! the netlist shows its reactions.
#![tactic(auto)]

mod laws;
mod nets;

pub use nets::loop_nets;
