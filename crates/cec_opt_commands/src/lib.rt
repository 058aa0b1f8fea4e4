//! The optimizer as a program: the top call, from the words of a command line on.
//!
//! `cec_opt` reads the words and a BLIF text, makes its circuit's netlist, optimizes it (`net_opt`), and writes it as
//! BLIF (Berkeley), in the C subset, or as structural Verilog, with the interface of the text. Its contract says that
//! over every list of items, resets included, the text that is written shows what the text shows that was read. With
//! `--source` it reads a source in place of a text, and compiles it first (`cec_opt_sources`): then the text that is
//! written does what the source means. With `--embed` after `c` it writes embedded C (`cec_opt_embed`): a header in
//! which any number of instances of the circuit run, or one of two files. With `--reset` after `verilog` it writes
//! Verilog for synthesis, with a reset (`cec_opt_reset`). With `--never` and `--implies` the inputs of a text meet
//! relations, and only events that meet them count.
#![tactic(auto)]

mod command;
mod counts;
mod depths;
mod embedded;
mod laws;
mod layouts;
mod lines;
mod outcome;
mod relations;
mod resets;
mod resetting;
mod sources;
mod steady;
mod texts;
mod words;

pub use command::cec_opt;
pub use laws::accepted_texts_are_done;
pub use outcome::OptOutcome;
pub use steady::cec_opt_steadily;
