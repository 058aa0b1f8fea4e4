//! The lines about a source that does not compile, and about a BLIF text that is refused, for the three programs.
//!
//! `cec` writes its own lines about a source. `cec-opt` and `cec-prove`, which compile a source on the way, write this
//! one: a static fault has the line of `cec`, and a cycle or a limit a line with the program's own name.
#![tactic(auto)]

mod faults;
mod lines;

pub use faults::put_blif_fault;
pub use lines::{RefusedSource, put_refusal};
