// A cycle of dependencies by the names of its wires.

ghost use Rattle.std.specs.Prelude.{◌≡◌, length, map, IfOk};
ghost use Rattle.est_kernel.specs.Plain.{program_of};
ghost use Rattle.base_digraph.specs.Walks.{IsClosedWalk};
ghost use Rattle.grc_dep.specs.Cycles.{numbered, numbers_of};
ghost use Rattle.grc_graph.specs.GraphRuns.{program_edges, program_wires};
ghost use Rattle.grc_graph.specs.NumberedEdges.{AreEdgesOf};
ghost use Rattle.grc_graph.specs.PlainGraphs.{names_of};
ghost use Rattle.grc_graph.specs.PlainWireNames.{wire_name_of};
ghost use Rattle.cec_compile.specs.Cycles.{ShowsCycle, cycle_text};

use crate::wire_texts::joined_texts;
use base_types::{NoMemory, WireId};
use grc_graph::{Edges, Graph, WireName};
use grc_list::names_of;
use std::alloc::Global;

/// A cycle of dependencies: each wire has an edge to the next, and the last to the first.
#[derive(Debug, Drop)]
pub struct Cycle {
    pub wires: Vec<WireName>,
    /// The texts of the wires, joined by ` -> `.
    pub text: Vec<u8>,

    ghost is_text: { text.items ≡ cycle_text (map wire_name_of wires.items) },
}

/// The cycle of a graph's edges that a closed walk by number is.
pub(crate) fn cycle_of(
    alloc: Global,
    graph: &Graph,
    edges: &Edges,
    walk: &[WireId],
) -> Result<Cycle, NoMemory>
    requires wires { names_of graph.now ≡ program_wires (program_of graph.now.program) }
    requires count { edges.now.count ≡ length graph.now.wires.items }
    requires edges { AreEdgesOf (names_of graph.now)
        (program_edges (program_of graph.now.program)) edges.now.pairs.items }
    requires closed { IsClosedWalk (numbered edges.now.pairs.items) (numbers_of walk.now) }
    ensures { IfOk result (λ c. ShowsCycle (program_of graph.now.program) (map wire_name_of c.wires.items)) }
{
    let wires = names_of(alloc, graph, walk)?;
    let text = joined_texts(alloc, &wires, b" -> ")?;
    Ok(Cycle { wires, text })
}
