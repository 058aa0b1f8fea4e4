// Ranks of wires, or a cycle.

ghost use Rattle.std.specs.Prelude.{◌≡◌, ◌↔◌, ℕ, List, IfOk, IsTrue};
ghost use Rattle.base_digraph.specs.Walks.{IsClosedWalk};
ghost use Rattle.grc_dep.specs.Cycles.{numbers_of, numbered, IsAnswer, is_cycle};

use base_digraph::{RanksOrCycle, ranks_or_cycle};
use base_types::{NoMemory, WireId};
use grc_graph::{Edges, Ranks};
use std::alloc::{AllocError, Global};

/// What dependency edges have.
#[derive(Drop)]
pub enum Ranked {
    /// Ranks that grow along each edge.
    Acyclic(Ranks),
    /// A closed walk: each wire has an edge to the next, and the last one to the first.
    Cycle(Vec<WireId>),
}

/// Ranks of the wires that grow along each edge, or a closed walk, exactly where there is one. The time is linear in
/// the wires and edges; the error is out of memory.
pub fn cycle_or_rank(alloc: Global, edges: &Edges) -> Result<Ranked, NoMemory>
    ensures found { IfOk result (IsAnswer edges.now.count edges.now.pairs.items) }
    // The answer is a closed walk exactly where there is one.
    ensures cyclic { IfOk result (λ r. IsTrue (is_cycle r)
        ↔ ((walk : List ℕ) × IsClosedWalk (numbered edges.now.pairs.items) walk)) }
{
    let pairs = number_pairs(alloc, &edges.pairs)?;
    match ranks_or_cycle(alloc, edges.count, &pairs)? {
        RanksOrCycle::Ranks(ranking) => Ok(Ranked::Acyclic(Ranks { of: ranking.ranks })),
        RanksOrCycle::Cycle(walk) => Ok(Ranked::Cycle(wires(alloc, &walk)?)),
    }
}

// The edges as pairs of numbers.
fn number_pairs(alloc: Global, pairs: &[(WireId, WireId)]) -> Result<Vec<(u32, u32)>, AllocError>
    ensures { IfOk result (λ v. v.items ≡ numbered pairs.now) }
{
    pairs.iter().map(|edge| (edge.0.0, edge.1.0)).collect(alloc)
}

// The wires with these numbers.
fn wires(alloc: Global, numbers: &[u32]) -> Result<Vec<WireId>, AllocError>
    ensures { IfOk result (λ v. numbers_of v.items ≡ numbers.now) }
{
    let mut wires = Vec::with_capacity(alloc, numbers.len())?;
    for number in numbers {
        wires.push(WireId(*number))?;
    }
    Ok(wires)
}
