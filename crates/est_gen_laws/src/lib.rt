//! Laws of generated sources: the interface of the program that each one stands for.
#![tactic(auto)]

mod laws;

pub use laws::generated_sources_have_eight_inputs;
