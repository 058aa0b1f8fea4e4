//! From a kernel body to its static completion codes.
//!
//! `codes` answers, for each statement of a body, the set of codes with which it may complete in the
//! instant in which it is started, and the set of those with which it may complete in later instants.
//! They are est_kernel's tables of static codes, after Berry, "The Constructive Semantics of Pure
//! Esterel". A body with a loop that may terminate in the instant in which it starts is refused.
#![tactic(auto)]

mod entries;
mod places;
mod refusal;
mod rows;
mod walk;

pub use refusal::CodeFault;
pub use walk::codes;
