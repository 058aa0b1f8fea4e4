//! Runs of a graph, cyclic or not, by three-valued reactions.
//!
//! The equations of a graph are a system of gates, whose least solution by Kleene's tables reports of each
//! wire whether it is true, false or not known. Where nothing stays unknown, the program is constructive in
//! this state and event (Berry, "The Constructive Semantics of Pure Esterel"), and the solution tells its
//! reaction: what goes out, whether the program pauses, and the next state.
#![tactic(auto)]

mod chains;
mod formulas;
mod numbers;
mod room;
mod runner;
mod state;
mod systems;

pub use runner::TriRunner;
pub use state::NotConstructive;
pub use systems::graph_system;
