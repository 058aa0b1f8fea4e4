//! Makes clauses fewer and shorter before a search, with each new clause derived in a kernel.
//!
//! As in Eén and Biere, "Effective Preprocessing in SAT Through Variable and Clause Elimination": a clause goes where
//! another one has a part of its literals. A literal goes where another clause shows that it is needless. A variable
//! goes where the resolvents of its clauses are no more than the clauses. A valuation of what is left is completed to
//! one of all clauses.
#![tactic(auto)]

mod elimination;
mod marks;
mod parts;
mod resolvents;
mod simplified;
mod simplifier;
mod subsumption;

pub use simplified::{Known, Simplified};
pub use simplifier::simplified_clauses;
