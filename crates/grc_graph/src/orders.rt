// Dependency edges, ranks and evaluation orders, by wire numbers.

ghost use Rattle.grc_graph.specs.WireOrders.{AreEdges};

use base_types::WireId;

/// The dependency edges of a graph with `count` wires, each as the pair of the wires that it leads from and
/// to. They ascend: by their beginnings, and edges from one wire by their ends.
#[derive(Drop)]
pub struct Edges {
    pub count: u32,
    pub pairs: Vec<(WireId, WireId)>,

    ghost are_edges: { AreEdges count pairs.items },
}

/// One rank for each wire of a graph.
#[derive(Drop)]
pub struct Ranks {
    pub of: Vec<u32>,
}

/// Wires in an order in which they can be evaluated.
#[derive(Drop)]
pub struct Order {
    pub list: Vec<WireId>,
}
