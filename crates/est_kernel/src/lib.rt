//! Kernel programs of Pure Esterel and their meaning.
//!
//! The trees (`Test`, `Kernel`, `KernelProgram`) are in src/, and their meaning is in specs/:
//! terms, statuses, the potentials Must and Can, the constructive step, a reaction, a run, and the
//! static completion codes. They are written after Berry, "The Constructive Semantics of Pure
//! Esterel"; where another wording is found there, the tables of specs/ hold. The laws that tie the
//! tables to one another are contracts of this crate's functions.
#![tactic(auto)]

mod code_lists;
mod laws;
mod measures;
mod programs;
mod signal_tests;
mod statements;

pub use code_lists::Codes;
pub use laws::{
    exits_stay_in_traps, must_has_one_code, potentials_are_monotone, potentials_nest,
    preorder_has_each_statement, preorder_has_parts_behind, residuals_complete_as_resumed,
    runs_are_reactions, static_codes_cover_potentials, steps_follow_potentials,
};
pub use measures::{height, size};
pub use programs::KernelProgram;
pub use signal_tests::Test;
pub use statements::Kernel;
