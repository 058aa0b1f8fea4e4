//! The pair of two netlists: one netlist that runs both over the same inputs and says in each instant whether they
//! show the same.
//!
//! The pair is the product machine of Coudert, Berthet and Madre, "Verification of Synchronous Sequential Machines
//! Based on Symbolic Execution". Its inputs are those of the two netlists. Its latches and gates are those of the first
//! one, then those of the second, and then gates that compare the outputs and `paused`.
#![tactic(auto)]

mod assembling;
mod comparing;
mod moving;
mod pairing;

pub use pairing::paired_net;
