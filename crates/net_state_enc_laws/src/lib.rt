//! Laws of encoded states: the netlists of programs meet what the encoding of their states asks for.
#![tactic(auto)]

mod laws;

pub use laws::{graphs_keep_states, kept_states_are_formed, latches_are_formed};
