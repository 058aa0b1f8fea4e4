//! Coverings of sources: for each point of a source a trace that reaches it, or the answer that no trace does.
//!
//! The source is flattened by `est_front`. `est_cover` makes a program of it that shows which of its points are
//! reached, portion by portion. Each of these programs is compiled by `cec_compile` and optimized by
//! `net_opt`, and `cec_prove_sources` decides whether the signal of a point is ever present.
#![tactic(auto)]

mod coverings;
mod cycles;
mod lines;
mod nets;
mod portions;
mod reaching;
mod sources;

pub use coverings::{Covering, covering_of};
