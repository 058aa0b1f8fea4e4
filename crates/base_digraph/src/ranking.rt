// Ranks or a closed walk, of nodes whose numbers have 32 bits.

ghost use Rattle.std.specs.Prelude.{◌≡◌, ◌↔◌, ◌<◌, ◌^◌, ℕ, List, All, IfOk, IsTrue};
ghost use Rattle.base_digraph.specs.Walks.{JoinsNodes, IsClosedWalk};
ghost use Rattle.base_digraph.specs.Answers.{IsAnswer, is_cycle};

use crate::wide::{WideRanksOrCycle, wide_ranks_or_cycle};
use std::alloc::{AllocError, Global};

/// The nodes of a graph in an order along which each edge leads forward.
#[derive(Drop)]
pub struct Ranking {
    /// The rank of each node, by the node's number.
    pub ranks: Vec<u32>,
    /// The nodes, by their ranks.
    pub order: Vec<u32>,
}

/// What a finite directed graph has.
#[derive(Drop)]
pub enum RanksOrCycle {
    /// Ranks that grow along each edge.
    Ranks(Ranking),
    /// A closed walk: each node has an edge to the next, and the last one to the first.
    Cycle(Vec<u32>),
}

/// The ranks of the nodes of a graph, or a closed walk, where there is one. The nodes are numbered
/// from 0 to `count` - 1, and an edge is the pair of the nodes that it leads from and to. The time is
/// linear in the nodes and edges.
///
/// The error is out of memory.
pub fn ranks_or_cycle(
    alloc: Global,
    count: u32,
    edges: &[(u32, u32)],
) -> Result<RanksOrCycle, AllocError>
    requires { JoinsNodes count edges.now }
    ensures found { IfOk result (IsAnswer count edges.now) }
    // The answer is a closed walk exactly where there is one.
    ensures cyclic { IfOk result (λ r. IsTrue (is_cycle r) ↔ ((walk : List ℕ) × IsClosedWalk edges.now walk)) }
{
    let pairs = widened(alloc, edges)?;
    match wide_ranks_or_cycle(alloc, count as usize, &pairs)? {
        WideRanksOrCycle::Ranks(ranking) => Ok(RanksOrCycle::Ranks(Ranking {
            ranks: narrowed(alloc, &ranking.ranks)?,
            order: narrowed(alloc, &ranking.order)?,
        })),
        WideRanksOrCycle::Cycle(walk) => Ok(RanksOrCycle::Cycle(narrowed(alloc, &walk)?)),
    }
}

fn widened(alloc: Global, edges: &[(u32, u32)]) -> Result<Vec<(usize, usize)>, AllocError>
    ensures { IfOk result (λ pairs. pairs.items ≡ edges.now) }
{
    let mut pairs = Vec::with_capacity(alloc, edges.len())?;
    for edge in edges {
        pairs.push((edge.0 as usize, edge.1 as usize))?;
    }
    Ok(pairs)
}

fn narrowed(alloc: Global, numbers: &[usize]) -> Result<Vec<u32>, AllocError>
    requires { All (λ number. number < 2 ^ 32) numbers.now }
    ensures { IfOk result (λ narrow. narrow.items ≡ numbers.now) }
{
    let mut narrow = Vec::with_capacity(alloc, numbers.len())?;
    for number in numbers {
        narrow.push(*number as u32)?;
    }
    Ok(narrow)
}
