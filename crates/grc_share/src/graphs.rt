// The graph of a program's shared wires.

ghost use Rattle.std.specs.Prelude.{◌≡◌, ◌↔◌, ℕ, List, IfOk, IsTrue};
ghost use Rattle.est_kernel.specs.Plain.{program_of};
ghost use Rattle.grc_graph.specs.BuiltGraphs.{IsGraphOf};
ghost use Rattle.grc_graph.specs.GraphRuns.{program_edges};
ghost use Rattle.grc_graph.specs.NumberedEdges.{AreEdgesOf};
ghost use Rattle.grc_graph.specs.PlainGraphs.{names_of};
ghost use Rattle.grc_share.specs.Renamings.{AreLeastMembers, AreNumbersOf};
ghost use Rattle.grc_share.specs.SharedGraphForms.{IsSharedGraphOf, IsSharedOrFull, is_full};
ghost use Rattle.grc_share.specs.SharedNumbers.{IsSharedWalk};
ghost use Rattle.grc_share.specs.SharedParts.{AreFormulas, AreFound, AreGraphParts, AreNamed, AreParts};
ghost use Rattle.grc_share.specs.SharedParts.{ArePartsOrWalk, IsGraphOfShared, is_walk};

use crate::edges::shared_edges;
use crate::equations::shared_equations;
use crate::instances::shared_instances;
use crate::naming::{shared_node_list, shared_wire_list};
use crate::next::next_formulas;
use crate::renaming::Numbers;
use crate::shared_graph::SharedGraph;
use crate::sharing::{SharedWires, shared_wires};
use crate::tables::{Tables, place_tables};
use crate::walking::ranks_or_walk;
use base_digraph::RanksOrCycle;
use base_types::{NoMemory, WireId};
use grc_graph::{Edges, Formula, Graph, Instance, Instances, Node, Ranks, Wire};
use std::alloc::Global;

/// The graph of a program's shared wires, or why there is none.
#[derive(Drop)]
pub enum SharedOrFull {
    /// The edges between shared wires have no closed walk.
    Shared(SharedGraph),
    /// The given graph, unchanged, and the shared wires, by number, of a closed walk of the edges
    /// between them.
    Full(Graph, Vec<u32>),
}

/// The shared graph of a graph, where the edges between its shared wires have no closed walk; else such a walk, with
/// the graph as it was. The given edges are those of the graph. The time is linear in the wires, in the edges and in
/// the graph's formulas, except for searches of instances and of status wires, which are logarithmic. The only error is
/// out of memory.
///
/// Example: the graph of `present A then pause end`, three times in a sequence, has 69 wires, and its shared graph
/// has 45.
pub fn share(alloc: Global, graph: Graph, edges: &Edges) -> Result<SharedOrFull, NoMemory>
    requires built { IsGraphOf graph (program_of graph.program) }
    requires edges { AreEdgesOf (names_of graph) (program_edges (program_of graph.program)) edges.now.pairs.items }
    ensures found { IfOk result (IsSharedOrFull graph) }
    // The answer is a closed walk exactly where there is one.
    ensures full { IfOk result (λ r. IsTrue (is_full r)
        ↔ ((walk : List ℕ) × IsSharedWalk (program_of graph.program) walk)) }
{
    match shared_parts(alloc, &graph, edges)? {
        PartsOrWalk::Parts(parts) => Ok(SharedOrFull::Shared(joined(graph, parts))),
        PartsOrWalk::Walk(walk) => Ok(SharedOrFull::Full(graph, walk)),
    }
}

// What a shared graph is made of in addition to its program, or a closed walk.
#[derive(Drop)]
enum PartsOrWalk {
    Parts(Parts),
    Walk(Vec<u32>),
}

// A shared graph without its program, its codes and its tree.
#[derive(Drop)]
struct Parts {
    graph: GraphParts,
    edges: Edges,
    ranks: Ranks,
}

// What is made of a graph.
fn shared_parts(alloc: Global, graph: &Graph, edges: &Edges) -> Result<PartsOrWalk, NoMemory>
    requires built { IsGraphOf graph.now (program_of graph.now.program) }
    requires edges { AreEdgesOf (names_of graph.now) (program_edges (program_of graph.now.program))
        edges.now.pairs.items }
    ensures found { IfOk result (ArePartsOrWalk graph.now) }
    ensures full { IfOk result (λ r. IsTrue (is_walk r)
        ↔ ((walk : List ℕ) × IsSharedWalk (program_of graph.now.program) walk)) }
{
    let shared = shared_wires(alloc, graph)?;
    match ranks_or_walk(alloc, graph, edges, &shared)? {
        RanksOrCycle::Cycle(walk) => Ok(PartsOrWalk::Walk(walk)),
        RanksOrCycle::Ranks(ranking) => {
            let edges = shared_edges(alloc, graph, edges, &shared)?;
            let parts = graph_parts(alloc, graph, shared)?;
            let ranks = Ranks { of: ranking.ranks };
            Ok(PartsOrWalk::Parts(Parts {
                graph: parts,
                edges,
                ranks,
            }))
        }
    }
}

// The lists of a shared graph.
#[derive(Drop)]
struct GraphParts {
    instances: Vec<Instance>,
    named: Named,
    formulas: Formulas,
    tables: Tables,
}

// The lists of a shared graph, from its shared wires.
fn graph_parts(alloc: Global, graph: &Graph, shared: SharedWires) -> Result<GraphParts, NoMemory>
    requires built { IsGraphOf graph.now (program_of graph.now.program) }
    requires found { AreFound graph.now shared }
    ensures { IfOk result (AreGraphParts graph.now) }
{
    let SharedWires {
        least,
        numbers,
        instances: own,
        loops,
    } = shared;
    let instances = shared_instances(alloc, graph, &own)?;
    let numbers = Numbers {
        least: &own,
        instances: &instances.numbers,
        wires: &numbers,
    };
    let named = name_parts(alloc, graph, &least, &numbers)?;
    let formulas = shared_formulas(alloc, graph, &least, &numbers)?;
    let tables = place_tables(
        alloc,
        graph,
        &numbers,
        &instances.list,
        least.len() as u32,
        loops,
    )?;
    Ok(GraphParts {
        instances: instances.list,
        named,
        formulas,
        tables,
    })
}

// The wires and nodes of a shared graph.
#[derive(Drop)]
struct Named {
    wires: Vec<Wire>,
    nodes: Vec<Node>,
}

// The wires with these least members, and the nodes.
fn name_parts(
    alloc: Global,
    graph: &Graph,
    least: &[WireId],
    numbers: &Numbers,
) -> Result<Named, NoMemory>
    requires built { IsGraphOf graph.now (program_of graph.now.program) }
    requires numbers { AreNumbersOf graph.now numbers.now.least.now numbers.now.instances.now numbers.now.wires.now }
    requires least { AreLeastMembers graph.now least.now }
    ensures { IfOk result (AreNamed (program_of graph.now.program)) }
{
    let wires = shared_wire_list(alloc, graph, least, numbers)?;
    let nodes = shared_node_list(alloc, graph, numbers)?;
    Ok(Named { wires, nodes })
}

// The formulas of a shared graph.
#[derive(Drop)]
struct Formulas {
    equations: Vec<Formula>,
    next: Vec<Formula>,
}

// The formulas of the shared wires with these least members, and those of the next state.
fn shared_formulas(
    alloc: Global,
    graph: &Graph,
    least: &[WireId],
    numbers: &Numbers,
) -> Result<Formulas, NoMemory>
    requires built { IsGraphOf graph.now (program_of graph.now.program) }
    requires numbers { AreNumbersOf graph.now numbers.now.least.now numbers.now.instances.now numbers.now.wires.now }
    requires least { AreLeastMembers graph.now least.now }
    ensures { IfOk result (AreFormulas (program_of graph.now.program)) }
{
    let equations = shared_equations(alloc, graph, least, numbers)?;
    let next = next_formulas(alloc, graph, numbers)?;
    Ok(Formulas { equations, next })
}

// The shared graph of a graph, of these parts.
fn joined(graph: Graph, parts: Parts) -> SharedGraph
    requires built { IsGraphOf graph (program_of graph.program) }
    requires parts { AreParts graph parts }
    ensures { IsSharedGraphOf (program_of graph.program) result }
{
    let Parts {
        graph: lists,
        edges,
        ranks,
    } = parts;
    SharedGraph {
        graph: joined_graph(graph, lists),
        edges,
        ranks,
    }
}

// The program, the codes and the tree of a graph, with the lists of its shared graph.
fn joined_graph(graph: Graph, lists: GraphParts) -> Graph
    requires built { IsGraphOf graph (program_of graph.program) }
    requires lists { AreGraphParts graph lists }
    ensures program { program_of result.program ≡ program_of graph.program }
    ensures graph { IsGraphOfShared (program_of graph.program) result }
{
    let Graph {
        program,
        codes,
        tree,
        ..
    } = graph;
    let GraphParts {
        instances,
        named,
        formulas,
        tables,
    } = lists;
    Graph {
        program,
        codes,
        instances: Instances { list: instances },
        tree,
        nodes: named.nodes,
        wires: named.wires,
        equations: formulas.equations,
        next: formulas.next,
        first_wires: tables.first_wires,
        first_instances: tables.first_instances,
        loops: Some(tables.loops),
    }
}
