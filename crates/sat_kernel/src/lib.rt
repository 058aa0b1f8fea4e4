//! A checker of clausal derivations.
//!
//! A kernel holds clauses that were assumed and clauses that were derived from them. A clause is derived by reverse
//! unit propagation along hints: its literals are assigned false, and each cited clause assigns one more literal true,
//! until all literals of a cited clause are false (Goldberg and Novikov, "Verification of Proofs of Unsatisfiability
//! for CNF Formulas"; the hints are those of LRAT: Cruz-Filipe, Heule, Hunt, Kaufmann and Schneider-Kamp, "Efficient
//! Certified RAT Verification"). So each derived clause is true wherever the assumed ones are, whoever made the hints.
#![tactic(auto)]

mod kernel;
mod literals;
mod marks;
mod propagation;

pub use kernel::Kernel;
pub use literals::{Clause, Literal, Premise};
