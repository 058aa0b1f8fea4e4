// A graph of shared wires, with the edges between them.

use grc_graph::{Edges, Graph, Ranks};

/// The graph of a program's shared wires, with the edges between them.
#[derive(Drop)]
pub struct SharedGraph {
    /// The graph: an equation for each shared wire. Each shared instance and each shared wire has the name of its least
    /// member.
    pub graph: Graph,
    /// The edges between the shared wires, and ranks that grow along them.
    pub edges: Edges,
    pub ranks: Ranks,
}
