//! Netlists that do the same with fewer gates and latches, wherever the inputs meet relations.
//!
//! What the environment keeps of the inputs leaves the optimizer more freedom: events that break a relation do not
//! count.
#![tactic(auto)]

mod implications;
mod implying;
mod optimizing;
mod stripping;

pub use optimizing::optimize_under;
