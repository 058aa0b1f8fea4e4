//! The prover of properties as a program: the top call, from the words of a command line on.
//!
//! `cec_prove` reads the words and a source, and answers whether an outgoing signal of it is never, or always, present,
//! surveys all of its outgoing signals, or compares it with another source (`cec_prove_sources`). Its contract says
//! that `Proved` holds of every run of the source, and that the trace of `Refuted` leads to a reaction that shows
//! otherwise. With `--text` it answers the same questions about BLIF texts (`cec_prove_texts`).
#![tactic(auto)]

mod answers;
mod command;
mod lines;
mod outcome;
mod search;
mod sources;
mod stopping;
mod texts;
mod words;
mod writing;

pub use cec_words::Which;
pub use command::cec_prove;
pub use outcome::{InputFault, ProveOutcome};
