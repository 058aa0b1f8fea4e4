//! The machine of guarded programs, and guarded texts as a language of texts that are run over traces.
//!
//! `GuardedRunner` runs a program over calls and resets as csub_guard defines its machine, and counts the assignments
//! of each call: the assignments between blocks, and those of each half of a block, are a plan of `run_steps`, and a
//! call runs one half of each block. It neither hashes nor allocates, and a trace drives it. `GuardedTexts` is the
//! language, and `run_counted` writes the number of assignments of all calls after the lines of a trace.
#![tactic(auto)]

mod language;
mod plan;
mod run;
mod runner;
mod running;
mod total;
mod track;

pub use language::{GuardedTexts, read_machine, written_machine};
pub use runner::GuardedRunner;
pub use running::{run_counted, run_written_counted};
