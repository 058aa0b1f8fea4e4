// What is counted of edges along places of the wires.

ghost use Rattle.std.specs.Prelude.{◌≡◌, ◌==◌, ◌&&◌, ◌||◌, ℕ, ◌<◌, false, length, map, max, slice_index};
ghost use Rattle.std.specs.Prelude.{slice_index_or, count_by, cond, All, IfOk};
ghost use Rattle.std.specs.List.{range_with_len};
ghost use Rattle.est_kernel.specs.Plain.{program_of};
ghost use Rattle.grc_graph.specs.BuiltGraphs.{IsGraphOf};
ghost use Rattle.grc_cycles.specs.Cuts.{HaveCounts, component_count, is_cut, top_at, top_of};
ghost use Rattle.grc_cycles.specs.CycleCounts.{HasCycleCounts};

use crate::places::places_of;
use base_types::{NoMemory, WireId};
use grc_dep::edges;
use grc_graph::{Edges, Graph};
use std::alloc::Global;

/// How many components the cycles of a dependency relation lie in, and how many wires cut them.
#[derive(Clone, Copy)]
pub struct CycleCounts {
    pub components: usize,
    pub cuts: usize,
}

/// What is counted of the cycles of the dependencies between the wires of a graph, along places of the wires
/// (`HasCycleCounts`). Each cycle lies in one of the components and goes through one of the cuts. The time is linear in
/// the wires and edges, once these are found. The error is out of memory.
///
/// Example: in `present A then emit B end || present B then emit A end` there is one component, with one cut.
pub fn cycle_counts(alloc: Global, graph: &Graph) -> Result<CycleCounts, NoMemory>
    requires { IsGraphOf graph.now (program_of graph.now.program) }
    ensures { IfOk result (λ c. HasCycleCounts (program_of graph.now.program) c.components c.cuts) }
{
    let edges = edges(alloc, graph)?;
    let counts = counts_of(alloc, &edges)?;
    Ok(counts)
}

// The same of edges.
fn counts_of(alloc: Global, edges: &Edges) -> Result<CycleCounts, NoMemory>
    ensures { IfOk result (λ c. HaveCounts edges.now.count edges.now.pairs.items c.components c.cuts) }
{
    let places = places_of(alloc, edges)?;
    let tops = tops_of(alloc, &places, &edges.pairs)?;
    let cuts = cuts_of(alloc, &places, &edges.pairs)?;
    Ok(CycleCounts {
        components: count_ends(&places, &edges.pairs, &tops),
        cuts: count_true(&cuts),
    })
}

// For each place the first one above the back edges that come down to it.
fn tops_of(
    alloc: Global,
    places: &[usize],
    pairs: &[(WireId, WireId)],
) -> Result<Vec<usize>, NoMemory>
    requires low { All (λ p. p < length places.now) places.now }
    requires join { All (λ e. (e.0.0 < length places.now) × (e.1.0 < length places.now)) pairs.now }
    ensures { IfOk result (λ tops. tops.items
        ≡ map (top_at places.now pairs.now) (range_with_len 0 (length places.now))) }
{
    let mut tops = vec![in alloc; 0usize; places.len()]?;
    for pair in pairs {
        raise(
            &mut tops,
            places[pair.0.0 as usize],
            places[pair.1.0 as usize],
        );
    }
    Ok(tops)
}

// The same after an edge from one place to another.
fn raise(tops: &mut Vec<usize>, from: usize, to: usize)
    requires from { from < length tops.old.items }
    requires to { to < length tops.old.items }
    ensures length { length tops.new.items ≡ length tops.old.items }
    ensures raised { (k : ℕ) → k < length tops.old.items
        → slice_index tops.new.items k ≡ max (slice_index tops.old.items k) (top_of from to k) }
{
    if to <= from {
        tops[to] = tops[to].max(from + 1);
    }
}

// Which wires are cuts.
fn cuts_of(
    alloc: Global,
    places: &[usize],
    pairs: &[(WireId, WireId)],
) -> Result<Vec<bool>, NoMemory>
    requires join { All (λ e. (e.0.0 < length places.now) × (e.1.0 < length places.now)) pairs.now }
    ensures { IfOk result (λ cuts. cuts.items
        ≡ map (is_cut places.now pairs.now) (range_with_len 0 (length places.now))) }
{
    let mut cuts = vec![in alloc; false; places.len()]?;
    for pair in pairs {
        let to = pair.1.0 as usize;
        let back = places[to] <= places[pair.0.0 as usize];
        mark(&mut cuts, to, back);
    }
    Ok(cuts)
}

// A wire is a cut if it is one or if this edge to it leads back.
fn mark(cuts: &mut Vec<bool>, wire: usize, back: bool)
    requires { wire < length cuts.old.items }
    ensures length { length cuts.new.items ≡ length cuts.old.items }
    ensures marked { (k : ℕ) → k < length cuts.old.items → slice_index_or cuts.new.items k false
        ≡ (slice_index_or cuts.old.items k false || (back && wire == k)) }
{
    if back {
        cuts[wire] = true;
    }
}

// The number of places at which a component ends.
fn count_ends(places: &[usize], pairs: &[(WireId, WireId)], tops: &[usize]) -> usize
    requires { tops.now ≡ map (top_at places.now pairs.now) (range_with_len 0 (length places.now)) }
    ensures { result ≡ component_count places.now pairs.now }
{
    let mut count = 0;
    let mut reached = 0;
    for (place, top) in tops.iter().enumerate() {
        reached = reached.max(*top);
        count += one_if(reached == place + 1);
    }
    count
}

fn one_if(test: bool) -> usize
    ensures { result ≡ cond test 1 0 }
{
    if test { 1 } else { 0 }
}

fn count_true(marks: &[bool]) -> usize
    ensures { result ≡ count_by (λ m. m) marks.now }
{
    let mut count = 0;
    for mark in marks {
        if *mark {
            count += 1;
        }
    }
    count
}
