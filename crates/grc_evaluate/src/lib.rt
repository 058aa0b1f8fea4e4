//! The value of a graph's formula in an instant, where its wires have given values.
//!
//! The words of formulas that depend on many places at once come from a table of rows, each of which is computed once
//! (`grc_formulas`).
#![tactic(auto)]

mod formulas;
mod rows;

pub use formulas::evaluate;
pub use rows::{Start, row_value, source_value};
