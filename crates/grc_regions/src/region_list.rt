// The region of each wire.

ghost use Rattle.std.specs.Prelude.{◌≡◌, ◌<◌, Some, length, slice_index_or, IfOk, Contains};
ghost use Rattle.est_kernel.specs.Plain.{program_of};
ghost use Rattle.grc_graph.specs.BuiltGraphs.{IsGraphOf};
ghost use Rattle.grc_graph.specs.Neighbouring.{instances_in, names_in};
ghost use Rattle.grc_graph.specs.PlainGraphs.{instances_of, names_of, wire_at};
ghost use Rattle.grc_graph.specs.PlainInstances.{layer_of};
ghost use Rattle.grc_graph.specs.Wires.{Go};
ghost use Rattle.grc_solutions_laws.specs.Heads.{region_of};
ghost use Rattle.grc_regions.specs.HeadLists.{heads_of, head_number};
ghost use Rattle.grc_regions.specs.Regions.{AreRegions, HeadsAreFree, IsRegion};

use crate::heads::resumed_heads;
use base_types::{NoMemory, WireId};
use grc_graph::{Graph, Instance, Layer, Neighbours, Wire};
use std::alloc::Global;

/// For each wire, by its number, the wire that says whether the head of its region runs; None where it lies in no
/// region. The memory is linear in the graph, and so is the time except for a search of one instance a wire. Its only
/// error is out of memory.
pub fn regions(alloc: Global, graph: &Graph) -> Result<Vec<Option<WireId>>, NoMemory>
    requires { IsGraphOf graph.now (program_of graph.now.program) }
    ensures are { IfOk result (λ regions. AreRegions graph.now regions.items) }
    ensures free { IfOk result (λ regions. HeadsAreFree regions.items) }
{
    let heads = resumed_heads(alloc, &graph.program.body)?;
    let near = graph.neighbours();
    let mut regions = Vec::new(alloc);
    for w in 0..graph.wires.len() {
        regions.push(region_of(graph, &near, &heads, w))?;
    }
    Ok(regions)
}

// The region of the wire with this number.
fn region_of(graph: &Graph, near: &Neighbours<'_>, heads: &[u32], w: usize) -> Option<WireId>
    requires built { IsGraphOf graph.now (program_of graph.now.program) }
    requires instances { instances_in near.now ≡ instances_of graph.now }
    requires names { names_in near.now ≡ names_of graph.now }
    requires heads { heads.now ≡ heads_of 0 (program_of graph.now.program).body 0 }
    requires within { w < length graph.now.wires.items }
    ensures { IsRegion (names_of graph.now)
        (region_of (program_of graph.now.program).body (wire_at (names_of graph.now) w)) result }
{
    match graph.wires[w] {
        Wire::Out(_) | Wire::Local(_) => None,
        Wire::Go(i) => {
            let own = near.instance(i);
            let head = head_of(heads, own);
            if head == own.path.0 {
                None
            } else {
                find_head(near, head, own.layer)
            }
        }
        Wire::End(i, _) => {
            let own = near.instance(i);
            find_head(near, head_of(heads, own), own.layer)
        }
    }
}

// The wire that says whether a head runs, which is live.
fn find_head(near: &Neighbours<'_>, head: u32, layer: Layer) -> Option<WireId>
    requires { Contains (instances_in near.now) (record { path = head; layer = layer_of layer }) }
    ensures { IsRegion (names_in near.now) (Some (Go head (layer_of layer))) result }
{
    match near.find_instance(head, layer) {
        Some(i) => Some(near.go(i)),
        None => None,
    }
}

// The number of the head of an instance, which is in the instance's layer.
fn head_of(heads: &[u32], own: Instance) -> u32
    requires { own.path.0 < length heads.now }
    ensures { result ≡ head_number (slice_index_or heads.now own.path.0 0) (layer_of own.layer) }
{
    match own.layer {
        Layer::Resumed => heads[own.path.0 as usize],
        Layer::Started(root) => root.0,
    }
}
