//! A SAT solver that derives each clause it learns in a kernel.
//!
//! Conflict-driven clause learning as in Eén and Sörensson, "An Extensible SAT-solver": clauses learned at the first
//! unique implication point and minimized, decisions by activity, saved signs. Learned clauses over many levels are
//! forgotten, and restarts follow the levels of recent clauses (Audemard and Simon, "Predicting Learnt Clauses
//! Quality in Modern SAT Solvers") in turn with Luby's sequence. Each learned clause is derived in the kernel along
//! the reasons of its conflict, in the order in which they forced their literals. So the answer that no valuation
//! exists is proved, whatever the search does.
#![tactic(auto)]

mod adding;
mod analysis;
mod evidence;
mod models;
mod outcomes;
mod restarts;
mod search;
mod solving;

pub use models::is_model;
pub use outcomes::{Refutation, SearchOutcome};
pub use search::Search;
