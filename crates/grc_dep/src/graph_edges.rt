// The dependency edges of a graph.

ghost use Rattle.std.specs.Prelude.{◌≡◌, ◌++◌, length, map, IfOk, OnOk};
ghost use Rattle.est_kernel.specs.Plain.{program_of};
ghost use Rattle.grc_graph.specs.BuiltGraphs.{IsGraphOf};
ghost use Rattle.grc_graph.specs.PlainGraphs.{names_of};
ghost use Rattle.grc_graph.specs.GraphRuns.{program_spots};
ghost use Rattle.grc_graph.specs.Edges.{edges};
ghost use Rattle.grc_graph.specs.NumberedEdges.{AreEdgesOf};
ghost use Rattle.grc_graph.specs.Statements.{program_listed};
ghost use Rattle.grc_graph.specs.StatementViews.{view_of};
ghost use Rattle.grc_dep.specs.Found.{found_by};

use crate::instance_edges::push_edges_at;
use crate::lookups::Lookups;
use crate::sorting::sort_pairs;
use base_types::{NoMemory, WireId};
use grc_graph::{Edges, Graph, Statement, list_statements};
use std::alloc::Global;

/// The dependency edges between the wires of a graph, each once, in ascending order. The time is linear in the edges
/// except for a logarithm; the error is out of memory.
///
/// Example: in `present S then emit O end` the wire that starts `emit O` depends on the status of S.
pub fn edges(alloc: Global, graph: &Graph) -> Result<Edges, NoMemory>
    requires { IsGraphOf graph.now (program_of graph.now.program) }
    ensures count { IfOk result (λ e. e.count ≡ length graph.now.wires.items) }
    ensures edges { IfOk result (λ e. AreEdgesOf (names_of graph.now)
        (edges (program_spots (program_of graph.now.program))) e.pairs.items) }
{
    let program = &graph.program;
    let statements = list_statements(alloc, program)?;
    let tables = graph.neighbours();
    let lookups = Lookups { tables: &tables };
    let mut pairs = Vec::with_capacity(alloc, graph.wires.len())?;
    push_edges(alloc, graph, &lookups, &statements, &mut pairs)?;
    sort_pairs(&mut pairs)?;
    Ok(Edges {
        count: graph.wires.len() as u32,
        pairs,
    })
}

// The edges at each instance.
fn push_edges(
    alloc: Global,
    graph: &Graph,
    lookups: &Lookups,
    statements: &[Statement],
    pairs: &mut Vec<(WireId, WireId)>,
) -> Result<(), NoMemory>
    requires built { IsGraphOf graph.now (program_of graph.now.program) }
    requires statements { map view_of statements.now ≡ program_listed (program_of graph.now.program) }
    ensures { OnOk result (pairs.new.items ≡ pairs.old.items
        ++ found_by lookups.now (edges (program_spots (program_of graph.now.program)))) }
{
    for instance in &graph.instances.list {
        let statement = &statements[instance.path.0 as usize];
        push_edges_at(alloc, lookups, &graph.codes, statement, *instance, pairs)?;
    }
    Ok(())
}
