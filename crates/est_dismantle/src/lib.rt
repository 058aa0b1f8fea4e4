//! Kernel expansion: what the derived statements of a flat program stand for.
//!
//! The kernel is that of Berry, "The Constructive Semantics of Pure Esterel", and the derived statements are
//! those of Esterel V5. `specs/Kernels.antt` has the expansion, one row a form, `specs/Counts.antt` the counts
//! that are refused, and `specs/Expansions.antt` the order of the faults.
#![tactic(auto)]

mod choices;
mod counts;
mod derived;
mod events;
mod expansion;
mod extent;
mod forms;
mod laws;
mod measure;
mod measured_events;
mod measured_rows;
mod programs;
mod refusal;
mod signals;
mod terms;
mod traps;

pub use laws::{
    expansions_are_well_formed, immediate_abortions_run_their_rest, immediate_awaits_end_at_once,
    loops_each_start_anew, repetitions_are_sequences, sustained_signals_stay,
};
pub use programs::dismantle;
pub use refusal::DismantleFault;
