//! Whether a literal over the nets of a netlist is ever true.
//!
//! The search is bounded model checking, pairs of latch literals that are inductive together, and property directed
//! reachability (Bradley, "SAT-Based Model Checking without Unrolling"; Eén, Mishchenko and Brayton, "Efficient
//! Implementation of Property Directed Reachability"), all over one effort. It need not be believed: `net_never` checks
//! the invariant or runs the events that it finds.
#![tactic(auto)]

mod candidates;
mod cubes;
mod deciding;
mod decisions;
mod frames;
mod lifting;
mod obligations;
mod reaching;

pub use deciding::decide;
pub use decisions::Decision;
