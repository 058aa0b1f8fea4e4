//! Verilog with a reset, of sources and of BLIF texts: from bytes to a module for synthesis.
//!
//! A source is compiled by `cec_cycles`, and a BLIF text is read and optimized by `cec_opt_texts`. The text of the
//! netlist is written by `vlog_reset`, with the names and the reset that are asked for. At each edge of its clock after
//! a reset, the module shows what the program's reactions are, or what the BLIF text shows.
#![tactic(auto)]

mod net_texts;
mod sources;
mod texts;

pub use sources::reset_verilog_of;
pub use texts::optimized_reset;
