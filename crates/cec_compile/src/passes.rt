// The passes, in their order, from the bytes of a source to its netlist.
//
// | pass | crate | what is kept |
// |---|---|---|
// | `analyse`: the kernel program, and the static codes of its statements | `est_front` | `StandsFor` |
// | `built_graph`: instances, selection tree, wires and their equations | `grc_layout`, `grc_build` | `IsGraphOf` |
// | `edges`, `cycle_or_rank`: which wires a wire reads, and ranks along that | `grc_dep` | `AreEdgesOf`, `AreRanks` |
// | `share`: wires that are never true in one instant are one | `grc_share` | `IsSharedGraphOf` |
// | `order`: an evaluation order of the wires | `grc_order` | `IsWireOrder` |
// | `generate`: the gates of the equations, in that order | `net_gen` | `FollowsInstants`, `FollowsRuns` |
// | `simplify`: constants, copies and equal gates go | `net_simp` | `SameRuns`, `IsSimple` |
//
// `made` encodes the state where that is asked for, and `source_texts` writes the netlist in a form.

ghost use Rattle.std.specs.Prelude.{◌≡◌, ◌≤◌, false, length, IfOk, IfErr, option_map};
ghost use Rattle.est_kernel.specs.CodeLists.{AreCodesOf};
ghost use Rattle.est_kernel.specs.Plain.{program_of, term_of};
ghost use Rattle.est_kernel.specs.StaticCodes.{NoInstantLoop};
ghost use Rattle.est_kernel.specs.WellFormed.{IsWellFormed, HasNames};
ghost use Rattle.grc_graph.specs.GraphRuns.{program_edges};
ghost use Rattle.grc_graph.specs.NumberedEdges.{AreEdgesOf};
ghost use Rattle.grc_graph.specs.PlainGraphs.{names_of};
ghost use Rattle.grc_graph.specs.WireOrders.{AreRanks};
ghost use Rattle.cec_compile.specs.Compiling.{IsGraphed, IsCompiled, StandsForGraph, StandsForNet};
ghost use Rattle.cec_compile.specs.Following.{FollowsGraph};
ghost use Rattle.cec_compile.specs.Graphs.{IsBuilt};
ghost use Rattle.cec_compile.specs.GraphsMade.{IsRanked};
ghost use Rattle.cec_compile.specs.Refusals.{DoesNotCompile, IsRefused};
ghost use Rattle.cec_compile.specs.WireGroups.{SharesWires, is_shared};

use crate::cycles::cycle_of;
use crate::graphs::built_graph;
use crate::refusal::Refusal;
use base_types::{Limits, NoMemory};
use est_front::{Analysed, analyse};
use grc_dep::{Ranked, cycle_or_rank, edges};
use grc_graph::{Edges, Graph, Order, Ranks};
use grc_order::{Picker, order};
use grc_share::{SharedGraph, SharedOrFull, share};
use grc_share_laws::{shared_orders_are_reading_orders, shared_ranks_go_up};
use net_gen::generate;
use net_ir::Net;
use net_simp::simplify;
use std::alloc::Global;

/// The graph of a program, or that of its shared wires, the edges between its wires, and ranks that grow along them.
#[derive(Drop)]
pub struct Graphed {
    pub graph: Graph,
    pub edges: Edges,
    pub ranks: Ranks,
}

/// A compiled program: its graph, or that of its shared wires, which has the kernel program, the instances and the
/// selection tree, an evaluation order of the graph's wires, and the simplified netlist.
#[derive(Drop)]
pub struct Compiled {
    pub graph: Graph,
    pub order: Order,
    pub net: Net,
}

/// A source compiled: its graph, an evaluation order, and its simplified netlist, which has the graph's values in each
/// state. The graph is that of the program's shared wires where the edges between these have no cycle, else the
/// program's own. The errors are those of `blif_of`.
pub fn compile<P: Picker>(
    alloc: Global,
    text: &[u8],
    main: Option<&[u8]>,
    picker: &mut P,
) -> Result<Compiled, Refusal>
    requires { length text.now ≤ Limits.SOURCE_BYTES }
    ensures compiles { IfOk result (StandsForNet text.now (option_map (λ m. m.now) main.entry)) }
    ensures shares { IfOk result (λ c. SharesWires (program_of c.graph.program) (is_shared c.graph)) }
    ensures follows { IfOk result FollowsGraph }
    ensures refuses { IfErr result (IsRefused text.now (option_map (λ m. m.now) main.entry)) }
{
    let analysed = analyse(alloc, text, main)?;
    compile_program(alloc, analysed, picker)
}

/// A kernel program with its static codes, compiled: the same, from the pass after `analyse` on. It is refused where a
/// limit of its graph is passed, or the graph's dependencies have a cycle.
pub fn compile_program<P: Picker>(
    alloc: Global,
    analysed: Analysed,
    picker: &mut P,
) -> Result<Compiled, Refusal>
    requires formed { IsWellFormed (program_of analysed.program) }
    requires names { HasNames (program_of analysed.program) }
    requires no_loop { NoInstantLoop (term_of analysed.program.body) }
    requires codes { AreCodesOf analysed.codes (term_of analysed.program.body) }
    ensures compiled { IfOk result (λ c. IsCompiled c (program_of analysed.program)) }
    ensures shares { IfOk result (λ c. SharesWires (program_of c.graph.program) (is_shared c.graph)) }
    ensures follows { IfOk result FollowsGraph }
    ensures refuses { IfErr result (DoesNotCompile (program_of analysed.program)) }
{
    let found = program_graph(alloc, analysed)?;
    let shared = shared_where_possible(alloc, found)?;
    let compiled = compile_graph(alloc, shared, picker)?;
    Ok(compiled)
}

/// A source compiled by its program's own graph, whose wires are not shared. The errors are those of `blif_of`.
pub fn compile_unshared<P: Picker>(
    alloc: Global,
    text: &[u8],
    main: Option<&[u8]>,
    picker: &mut P,
) -> Result<Compiled, Refusal>
    requires { length text.now ≤ Limits.SOURCE_BYTES }
    ensures compiles { IfOk result (StandsForNet text.now (option_map (λ m. m.now) main.entry)) }
    ensures own { IfOk result (λ c. is_shared c.graph ≡ false) }
    ensures follows { IfOk result FollowsGraph }
    ensures refuses { IfErr result (IsRefused text.now (option_map (λ m. m.now) main.entry)) }
{
    let found = source_graph(alloc, text, main)?;
    let compiled = compile_graph(alloc, found, picker)?;
    Ok(compiled)
}

// The graph of the shared wires, where the edges between these have no cycle, else the program's own as it is.
fn shared_where_possible(alloc: Global, found: Graphed) -> Result<Graphed, NoMemory>
    requires { IsGraphed found (program_of found.graph.program) }
    ensures program { IfOk result (λ g. program_of g.graph.program ≡ program_of found.graph.program) }
    ensures ranked { IfOk result (λ g. IsRanked g (program_of found.graph.program)) }
    ensures shares { IfOk result (λ g. SharesWires (program_of found.graph.program) (is_shared g.graph)) }
{
    shared_ranks_go_up();
    shared_orders_are_reading_orders();
    let Graphed {
        graph,
        edges,
        ranks,
    } = found;
    match share(alloc, graph, &edges)? {
        SharedOrFull::Shared(shared) => Ok(ranked_of(shared)),
        SharedOrFull::Full(graph, _) => Ok(Graphed {
            graph,
            edges,
            ranks,
        }),
    }
}

// A graph of shared wires, with the edges between them.
fn ranked_of(shared: SharedGraph) -> Graphed
    ensures { result ≡ record { graph = shared.graph; edges = shared.edges; ranks = shared.ranks } }
{
    let SharedGraph {
        graph,
        edges,
        ranks,
    } = shared;
    Graphed {
        graph,
        edges,
        ranks,
    }
}

// A graph with an evaluation order, which the picker chooses, and its simplified netlist.
fn compile_graph<P: Picker>(
    alloc: Global,
    found: Graphed,
    picker: &mut P,
) -> Result<Compiled, NoMemory>
    requires { IsRanked found (program_of found.graph.program) }
    ensures graph { IfOk result (λ c. c.graph ≡ found.graph) }
    ensures compiled { IfOk result (λ c. IsCompiled c (program_of found.graph.program)) }
    ensures follows { IfOk result FollowsGraph }
{
    let order = order(alloc, &found.edges, &found.ranks, picker)?;
    let drawn = generate(alloc, &found.graph, &order)?;
    let net = simplify(alloc, drawn)?;
    let Graphed { graph, .. } = found;
    Ok(Compiled { graph, order, net })
}

/// The graph of a source, whose dependencies have no cycle. The errors are those of `blif_of`.
pub fn source_graph(alloc: Global, text: &[u8], main: Option<&[u8]>) -> Result<Graphed, Refusal>
    requires { length text.now ≤ Limits.SOURCE_BYTES }
    ensures compiles { IfOk result (StandsForGraph text.now (option_map (λ m. m.now) main.entry)) }
    ensures refuses { IfErr result (IsRefused text.now (option_map (λ m. m.now) main.entry)) }
{
    let analysed = analyse(alloc, text, main)?;
    program_graph(alloc, analysed)
}

// The graph of a kernel program, whose dependencies have no cycle.
fn program_graph(alloc: Global, analysed: Analysed) -> Result<Graphed, Refusal>
    requires formed { IsWellFormed (program_of analysed.program) }
    requires names { HasNames (program_of analysed.program) }
    requires no_loop { NoInstantLoop (term_of analysed.program.body) }
    requires codes { AreCodesOf analysed.codes (term_of analysed.program.body) }
    ensures graphed { IfOk result (λ g. IsGraphed g (program_of analysed.program)) }
    ensures refuses { IfErr result (DoesNotCompile (program_of analysed.program)) }
{
    let graph = built_graph(alloc, analysed)?;
    let ranked = ranked_edges(alloc, &graph)?;
    Ok(Graphed {
        graph,
        edges: ranked.edges,
        ranks: ranked.ranks,
    })
}

/// The dependency edges of a graph, and ranks that grow along them.
#[derive(Drop)]
struct RankedEdges {
    edges: Edges,
    ranks: Ranks,
}

// The edges of a graph where they have no cycle.
fn ranked_edges(alloc: Global, graph: &Graph) -> Result<RankedEdges, Refusal>
    requires { IsBuilt graph.now (program_of graph.now.program) }
    ensures count { IfOk result (λ made. made.edges.count ≡ length graph.now.wires.items) }
    ensures edges { IfOk result (λ made. AreEdgesOf (names_of graph.now)
        (program_edges (program_of graph.now.program)) made.edges.pairs.items) }
    ensures ranks { IfOk result (λ made. AreRanks made.edges.count made.edges.pairs.items made.ranks.of.items) }
    ensures refuses { IfErr result (DoesNotCompile (program_of graph.now.program)) }
{
    let edges = edges(alloc, graph)?;
    match cycle_or_rank(alloc, &edges)? {
        Ranked::Acyclic(ranks) => Ok(RankedEdges { edges, ranks }),
        Ranked::Cycle(walk) => {
            let cycle = cycle_of(alloc, graph, &edges, &walk)?;
            Err(Refusal::Cyclic(cycle))
        }
    }
}
