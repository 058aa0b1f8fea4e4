//! Verilog with a reset: the text of a net as a module for synthesis, with a port for a reset.
//!
//! `specs/` says which module a text describes, what such a module does at the edges of its clock and of its reset, and
//! what it means that a text does what a net does. `reset_fault` says why a net has no such text, `write_reset` writes
//! the text of a net that has one, and `reset_text` does both.
#![tactic(auto)]

mod ends;
mod fault;
mod names;
mod naming;
mod options;
mod parts;
mod pieces;
mod words;
mod writer;

pub use fault::ResetFault;
pub use naming::reset_fault;
pub use options::{Manner, ResetOptions};
pub use parts::ResetSection;
pub use pieces::{ResetPieces, ResetWriter, reset_pieces, reset_text, write_reset};
