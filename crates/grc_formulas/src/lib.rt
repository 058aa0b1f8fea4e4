//! What the words of a graph's formulas are made of.
//!
//! `Selected`, `Kept` and `Held` speak of many places of a body at once: of all pauses in a statement, of all
//! parallels and suspensions around an instance. Their values are made here once for each place, in rows that
//! read the leaves of the selection tree, the event, wires and earlier rows, so that whoever evaluates a graph
//! computes each row once.
#![tactic(auto)]

mod assembly;
mod building;
mod held;
mod questions;
mod selected;
mod table;
mod tests_of;

pub use assembly::words;
pub use questions::{is_end_upto, selected_source};
pub use table::{Row, Source, Words};
