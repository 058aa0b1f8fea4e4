//! Structural Verilog: what its texts mean, their trees, and the text of a net.
//!
//! A text is one module of IEEE 1364 with a clock, inputs, outputs, wires that are assigned and regs that get a new
//! value at each rising edge. `specs/` says for every list of bytes which module it describes, or why it describes
//! none, and what the machine of a module does over events and resets.
#![tactic(auto)]

mod parts;
mod pieces;
mod trees;
mod writer;

pub use parts::VerilogSection;
pub use pieces::{VlogWriter, write_verilog};
pub use trees::{Assign, Module, Register};
