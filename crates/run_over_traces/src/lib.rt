//! Runs of machines over traces, for every language of texts.
//!
//! `run_trace` drives a machine by the items of a trace, and writes one line after each reaction, right after it.
//! `Runner` is what a machine has to be for that, and `Language` what a language of texts is: which texts it has, what
//! each means, and the machine that runs it. `run_text` runs a text that was read, by its own names, and `run_written`
//! the text that was written of a netlist. The languages are implemented in crates of their own.
#![tactic(auto)]

mod language;
mod laws;
mod machine;
mod running;
mod texts;
mod words;

pub use language::Language;
pub use laws::{events_fit, runs_are_written};
pub use machine::Runner;
pub use running::{Interface, RunFault, run_trace};
pub use texts::{copied_names, net_interface, run_text, run_written};
pub use words::{listed_count, tells_pause, told_word, word_of};
