//! The commands, and the top call that the program makes.
//!
//! `cec` reads the words of a command line, reads the source, has it compiled (`cec_compile`), and writes the text or
//! runs it over a trace. Its contract carries what the compiler promises of each text, and says of each command what it
//! writes, how it ends, and why.
#![tactic(auto)]

mod answers;
mod command;
mod commands;
mod fault_lines;
mod jobs;
mod laws;
mod lines;
mod outcome;
mod reactions;
mod steady;
mod targets;
mod text_faults;
mod unknown_wires;
mod writing;

pub use cec_compile::{
    Compiled, Cycle, Graphed, Limit, Refusal, blif_of, c_of, compile, encoded_blif_of, graph_of,
    guarded_c_of, source_graph, verilog_of,
};
pub use cec_words::Which;
pub use command::cec;
pub use laws::{
    accepted_requests_are_done, compiling_sources_are_not_refused, stopping_runs_are_told,
};
pub use outcome::Outcome;
pub use steady::cec_steadily;
pub use text_faults::TextFault;
pub use unknown_wires::UnknownWires;
