// The edges from one wire, which stand side by side.

ghost use Rattle.std.specs.Prelude.{◌≡◌, ◌<◌, ◌≤◌, length, IfOk};
ghost use Rattle.std.specs.List.Sorted.{IsNonDecreasingBy};
ghost use Rattle.grc_graph.specs.WireOrders.{WireEdge};
ghost use Rattle.grc_order.specs.Schedules.{edges_from};
ghost use Rattle.grc_order.specs.Runs.{AreBegins, BeginBelow, SplitsBelow, SplitsAbove};

use base_types::WireId;
use grc_graph::Edges;
use std::alloc::{AllocError, Global};

// For each wire the number of edges that begin below it, and at last the number of edges.
pub fn edge_begins(alloc: Global, edges: &Edges) -> Result<Vec<usize>, AllocError>
    ensures { IfOk result (λ begins. AreBegins edges.now.count edges.now.pairs.items begins.items) }
{
    let pairs = edges.pairs.as_slice();
    let mut begins = Vec::new(alloc);
    let mut begin = 0;
    for wire in 0..edges.count {
        begin = begin_behind(pairs, begin, WireId(wire));
        begins.push(begin)?;
    }
    begins.push(pairs.len())?;
    Ok(begins)
}

// The edges from this wire, where it is known where those of each wire begin.
pub fn edges_between<'a>(edges: &'a Edges, begins: &[usize], wire: WireId) -> &'a [(WireId, WireId)]
    requires begins { AreBegins edges.now.count edges.now.pairs.items begins.now }
    requires low { wire.0 < edges.now.count }
    ensures { result.now ≡ edges_from wire.0 edges.now.pairs.items }
{
    let pairs = edges.pairs.as_slice();
    let begin = begins[wire.0 as usize];
    let end = begins[wire.0 as usize + 1];
    &pairs[begin..end]
}

// The number of edges that begin below this wire, where those before a place do.
fn begin_behind(pairs: &[(WireId, WireId)], from: usize, wire: WireId) -> usize
    requires rise { IsNonDecreasingBy (λ e. e.0.0) pairs.now }
    requires within { from ≤ length pairs.now }
    requires below { BeginBelow wire.0 pairs.now from }
    ensures bound { result ≤ length pairs.now }
    ensures point { SplitsBelow wire.0 pairs.now result }
{
    for place in from..pairs.len() {
        if pairs[place].0.0 >= wire.0 {
            return place;
        }
    }
    pairs.len()
}

// The edges from this wire.
pub fn edges_from(edges: &Edges, wire: WireId) -> &[(WireId, WireId)]
    ensures { result.now ≡ edges_from wire.0 edges.now.pairs.items }
{
    let pairs = edges.pairs.as_slice();
    let begin = begin_of(pairs, wire);
    let end = end_of(pairs, wire);
    &pairs[begin..end]
}

// The number of edges that begin below this wire.
fn begin_of(pairs: &[(WireId, WireId)], wire: WireId) -> usize
    requires { IsNonDecreasingBy (λ e. e.0.0) pairs.now }
    ensures bound { result ≤ length pairs.now }
    ensures point { SplitsBelow wire.0 pairs.now result }
{
    pairs.partition_point(|e| e.0.0 < wire.0)
}

// The number of edges that begin at this wire or below it.
fn end_of(pairs: &[(WireId, WireId)], wire: WireId) -> usize
    requires { IsNonDecreasingBy (λ e. e.0.0) pairs.now }
    ensures bound { result ≤ length pairs.now }
    ensures point { SplitsAbove wire.0 pairs.now result }
{
    pairs.partition_point(|e| e.0.0 <= wire.0)
}
