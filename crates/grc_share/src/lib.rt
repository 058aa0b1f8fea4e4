//! Shared wires of a program's graph: started instances of a statement that cannot run in one instant are one.
//!
//! A statement of a kernel body is started at each root that can start it, and has an instance for each. Where one
//! of two roots stands above the other and no loop body between them, they never start the statement in one
//! instant, so that one instance can stand for both. The graph follows Potop-Butucaru, Edwards and Berry,
//! "Compiling Esterel", where the surface of a statement is drawn once. `share` makes the graph of the shared wires, or
//! finds a closed walk of the edges between them.
#![tactic(auto)]

mod edges;
mod emissions;
mod equations;
mod formulas;
mod graphs;
mod guards;
mod instances;
mod least_members;
mod loop_counts;
mod naming;
mod next;
mod numbering;
mod placing;
mod renaming;
mod shared_graph;
mod sharing;
mod tables;
mod walking;

pub use graphs::{SharedOrFull, share};
pub use shared_graph::SharedGraph;
