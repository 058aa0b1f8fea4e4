//! The guarded text of a netlist, where the wires that its gates carry lie in regions: the gates of a head are in
//! blocks, which a call skips where the head does not run. The text is read back as a program that shows what the
//! netlist shows, and runs fewer assignments.
#![tactic(auto)]

mod gate_regions;
mod writer;

pub use writer::{GuardedPieces, guarded_pieces, write_guarded};
