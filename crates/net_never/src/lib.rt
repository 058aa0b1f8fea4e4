//! Nets of a netlist that are never true, by induction over instants.
//!
//! The caller gives an invariant, clauses over the latches. That it holds in the first instant is computed. That it
//! leads from each instant to the next one and rules out the net is asked of `sat_search`, and `sat_kernel` checks each
//! clause that the search learns. So whoever found the invariant is not trusted, and neither is the search. The rule is
//! the induction over transitions of Sheeran, Singh and Stålmarck, "Checking Safety Properties Using Induction and a
//! SAT-Solver"; invariants of clauses over latches are those of Bradley, "SAT-Based Model Checking without Unrolling".
#![tactic(auto)]

mod gate_clauses;
mod invariants;
mod proving;
mod runs;

pub use proving::is_never;
pub use runs::is_reached;
