// The edges between shared wires by number.

ghost use Rattle.std.specs.Prelude.{◌≡◌, ◌<◌, length, All, IfOk};
ghost use Rattle.est_kernel.specs.Plain.{program_of};
ghost use Rattle.grc_graph.specs.BuiltGraphs.{IsGraphOf};
ghost use Rattle.grc_graph.specs.GraphRuns.{program_edges};
ghost use Rattle.grc_graph.specs.NumberedEdges.{AreEdgesOf};
ghost use Rattle.grc_graph.specs.PlainGraphs.{names_of};
ghost use Rattle.grc_share.specs.SharedNumbers.{AreSharedWires};
ghost use Rattle.grc_share.specs.SharedPairs.{numbered_edges};
ghost use Rattle.grc_share.specs.SharedWires.{shared_edges, shared_wires};

use crate::sharing::SharedWires;
use base_types::{NoMemory, WireId};
use grc_dep::edges_of;
use grc_graph::{Edges, Graph};
use grc_solutions::edges_join_wires;
use std::alloc::{AllocError, Global};

/// The edges between the shared wires of a graph, each once, in ascending order. The given edges are those of the
/// graph.
pub(crate) fn shared_edges(
    alloc: Global,
    graph: &Graph,
    edges: &Edges,
    shared: &SharedWires,
) -> Result<Edges, NoMemory>
    requires built { IsGraphOf graph.now (program_of graph.now.program) }
    requires edges { AreEdgesOf (names_of graph.now) (program_edges (program_of graph.now.program))
        edges.now.pairs.items }
    requires wires { AreSharedWires (program_of graph.now.program) shared.now.least.items shared.now.numbers.items }
    ensures count { IfOk result (λ e. e.count ≡ length (shared_wires (program_of graph.now.program))) }
    ensures edges { IfOk result (λ e. AreEdgesOf (shared_wires (program_of graph.now.program))
        (shared_edges (program_of graph.now.program)) e.pairs.items) }
{
    edges_join_wires();
    let pairs = numbered_edges(alloc, &shared.numbers, &edges.pairs)?;
    let made = edges_of(shared.least.len() as u32, pairs)?;
    Ok(made)
}

// For each edge that between the shared wires with these numbers.
fn numbered_edges(
    alloc: Global,
    numbers: &[u32],
    edges: &[(WireId, WireId)],
) -> Result<Vec<(WireId, WireId)>, AllocError>
    requires { All (λ e. (e.0.0 < length numbers.now) × (e.1.0 < length numbers.now)) edges.now }
    ensures { IfOk result (λ v. v.items ≡ numbered_edges numbers.now edges.now) }
{
    let mut pairs: Vec<(WireId, WireId)> = Vec::with_capacity(alloc, edges.len())?;
    for (from, to) in edges {
        pairs.push((
            WireId(numbers[from.0 as usize]),
            WireId(numbers[to.0 as usize]),
        ))?;
    }
    Ok(pairs)
}
