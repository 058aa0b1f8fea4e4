//! Checks, by induction over instants, that one netlist follows another.
//!
//! The caller claims equations between nets of both netlists. They are proved of the first instant, and of every other
//! one where they hold one instant before. `sat_search` refutes the denial of each claim, and `sat_kernel` checks every
//! clause of the refutation. How the claims were found does not matter; where the check is made, the two netlists show
//! the same over every list of items. Induction over instants from claims that are guessed is the method of van Eijk
//! ("Sequential equivalence checking based on structural similarities", 2000).
#![tactic(auto)]

mod checking;
mod coding;
mod frames;
mod inducing;
mod literals;
mod nearby;
mod parting;
mod proving;
mod replaying;

pub use checking::unshown_places;
pub use inducing::{Instant, Parted, inductive_claims};
pub use literals::{Equation, Literal, Side};
