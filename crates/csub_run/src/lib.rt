//! The machine of the C subset.
//!
//! `CRunner` runs a program over calls and resets as csub_text defines its machine, and a trace drives it. Its names
//! are resolved once, its assignments are steps of a plan of `run_steps`, and a call neither hashes nor allocates.
//! `CTexts` is the subset as a language of texts that are run over traces.
#![tactic(auto)]

mod interface;
mod language;
mod plan;
mod runner;

pub use interface::globals_interface;
pub use language::CTexts;
pub use plan::{input_slots, output_slots, push_assign, push_assigns, variable_values};
pub use runner::{CRunner, put_front, put_values};
