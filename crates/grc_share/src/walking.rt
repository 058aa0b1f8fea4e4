// Whether the edges between shared wires have a closed walk.

ghost use Rattle.std.specs.Prelude.{◌≡◌, ◌↔◌, ◌<◌, ℕ, List, length, map, All, IfOk, IsTrue};
ghost use Rattle.base_digraph.specs.Answers.{is_cycle};
ghost use Rattle.est_kernel.specs.Plain.{program_of};
ghost use Rattle.grc_graph.specs.BuiltGraphs.{IsGraphOf};
ghost use Rattle.grc_graph.specs.GraphRuns.{program_edges};
ghost use Rattle.grc_graph.specs.NumberedEdges.{AreEdgesOf};
ghost use Rattle.grc_graph.specs.PlainGraphs.{names_of};
ghost use Rattle.grc_share.specs.SharedNumbers.{AreSharedWires, IsSharedAnswer, IsSharedWalk};
ghost use Rattle.grc_share.specs.SharedPairs.{numbered_pairs};

use crate::sharing::SharedWires;
use base_digraph::{RanksOrCycle, ranks_or_cycle};
use base_types::{NoMemory, WireId};
use grc_graph::{Edges, Graph};
use grc_solutions::edges_join_wires;
use std::alloc::{AllocError, Global};

/// Ranks of the shared wires of a graph, which each edge between them goes up in, or a closed walk, exactly where there
/// is one. The edges are those of the graph. The time is linear in the wires and edges; the error is out of memory.
pub(crate) fn ranks_or_walk(
    alloc: Global,
    graph: &Graph,
    edges: &Edges,
    shared: &SharedWires,
) -> Result<RanksOrCycle, NoMemory>
    requires built { IsGraphOf graph.now (program_of graph.now.program) }
    requires edges { AreEdgesOf (names_of graph.now) (program_edges (program_of graph.now.program))
        edges.now.pairs.items }
    requires wires { AreSharedWires (program_of graph.now.program) shared.now.least.items shared.now.numbers.items }
    ensures found { IfOk result (IsSharedAnswer (program_of graph.now.program)) }
    ensures cyclic { IfOk result (λ r. IsTrue (is_cycle r)
        ↔ ((walk : List ℕ) × IsSharedWalk (program_of graph.now.program) walk)) }
{
    edges_join_wires();
    let pairs = pairs_between(alloc, &shared.numbers, &edges.pairs)?;
    Ok(ranks_or_cycle(alloc, shared.least.len() as u32, &pairs)?)
}

// The edges between those with these numbers: one for each edge.
fn pairs_between(
    alloc: Global,
    numbers: &[u32],
    edges: &[(WireId, WireId)],
) -> Result<Vec<(u32, u32)>, AllocError>
    requires { All (λ e. (e.0.0 < length numbers.now) × (e.1.0 < length numbers.now)) edges.now }
    ensures { IfOk result (λ v. v.items ≡ numbered_pairs numbers.now edges.now) }
{
    let mut pairs: Vec<(u32, u32)> = Vec::with_capacity(alloc, edges.len())?;
    for (from, to) in edges {
        pairs.push((numbers[from.0 as usize], numbers[to.0 as usize]))?;
    }
    Ok(pairs)
}
