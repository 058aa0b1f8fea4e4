//! Guarded programs of the C subset: straight-line assignments, some of which are in blocks that a call skips.
//!
//! `specs/` says which texts are guarded texts, which rules their names keep, and what the machine of a guarded program
//! does over events and resets, with the number of assignments that each call runs.
#![tactic(auto)]

mod names;
mod trees;

pub use names::declared_names;
pub use trees::{GuardedProgram, Piece};
