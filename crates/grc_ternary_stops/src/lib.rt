//! Where the run of a program stops, because an instant is not constructive.
//!
//! `first_stop` runs a graph over events by three-valued reactions (`grc_ternary_run`), up to the first one to which
//! there is no reaction, and gives the wires that stay unknown there, by their names.
#![tactic(auto)]

mod marks;
mod stops;

pub use marks::unknown_names;
pub use stops::{StuckEvent, first_stop};
