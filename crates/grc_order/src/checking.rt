// Whether a list is an order.

ghost use Rattle.std.specs.Prelude.{◌≡◌, ◌↔◌, length, IsTrue};
ghost use Rattle.grc_graph.specs.WireOrders.{IsWireOrder};
ghost use Rattle.grc_order.specs.Checks.{LeadToMarked};
ghost use Rattle.grc_order.specs.Schedules.{edges_from};

use crate::edge_runs::edges_from;
use base_types::WireId;
use grc_graph::Edges;

/// Whether the list has each wire once and no wire before one that has an edge to it. The marks, one for each
/// wire, are the caller's memory: what they hold before the call does not matter. It takes no memory.
pub fn is_order(edges: &Edges, list: &[WireId], marks: &mut [bool]) -> bool
    requires { length marks.old ≡ edges.now.count }
    ensures { IsTrue result ↔ IsWireOrder edges.now.count edges.now.pairs.items list.now }
{
    if list.len() != edges.count as usize {
        return false;
    }
    for mark in marks.iter_mut() {
        *mark = false;
    }
    for wire in list {
        if wire.0 >= edges.count || marks[wire.0 as usize] {
            return false;
        }
        marks[wire.0 as usize] = true;
        if leads_to_marked(edges, *wire, marks) {
            return false;
        }
    }
    true
}

// Whether a wire has an edge to a marked one.
fn leads_to_marked(edges: &Edges, wire: WireId, marks: &[bool]) -> bool
    requires { length marks.now ≡ edges.now.count }
    ensures { IsTrue result ↔ LeadToMarked (edges_from wire.0 edges.now.pairs.items) marks.now }
{
    for edge in edges_from(edges, wire) {
        if marks[edge.1.0 as usize] {
            return true;
        }
    }
    false
}
