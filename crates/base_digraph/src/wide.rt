// Ranks or a closed walk, of any number of nodes.

ghost use Rattle.std.specs.Prelude.{◌≡◌, ◌↔◌, ℕ, List, map, All, IfOk, IsTrue};
ghost use Rattle.base_digraph.specs.Walks.{JoinsNodes, IsClosedWalk};
ghost use Rattle.base_digraph.specs.Searches.{is_ranked, rank_in};
ghost use Rattle.base_digraph.specs.Answers.{IsWideAnswer, is_wide_cycle};

use crate::links::{Links, edge_links};
use crate::search::{Search, State};
use std::alloc::{AllocError, Global};

/// The nodes of a graph in an order along which each edge leads forward.
#[derive(Drop)]
pub struct WideRanking {
    /// The rank of each node, by the node's number.
    pub ranks: Vec<usize>,
    /// The nodes, by their ranks.
    pub order: Vec<usize>,
}

/// What a finite directed graph has.
#[derive(Drop)]
pub enum WideRanksOrCycle {
    /// Ranks that grow along each edge.
    Ranks(WideRanking),
    /// A closed walk: each node has an edge to the next, and the last one to the first.
    Cycle(Vec<usize>),
}

/// The ranks of the nodes of a graph, or a closed walk, where there is one. The nodes are numbered
/// from 0 to `count` - 1, and an edge is the pair of the nodes that it leads from and to. The time is
/// linear in the nodes and edges.
///
/// The error is out of memory.
pub fn wide_ranks_or_cycle(
    alloc: Global,
    count: usize,
    edges: &[(usize, usize)],
) -> Result<WideRanksOrCycle, AllocError>
    requires { JoinsNodes count edges.now }
    ensures found { IfOk result (IsWideAnswer count edges.now) }
    // The answer is a closed walk exactly where there is one.
    ensures cyclic { IfOk result (λ r. IsTrue (is_wide_cycle r) ↔ ((walk : List ℕ) × IsClosedWalk edges.now walk)) }
{
    let Links { last, earlier } = edge_links(alloc, count, edges)?;
    let mut search = Search::new(alloc, count, last)?;
    for root in 0..count {
        if let Some(walk) = search.rank_back_from(alloc, edges, &earlier, root)? {
            return Ok(WideRanksOrCycle::Cycle(walk));
        }
    }
    let Search { states, order, .. } = search;
    Ok(WideRanksOrCycle::Ranks(WideRanking {
        ranks: ranks_of(alloc, &states)?,
        order,
    }))
}

// The ranks of nodes that are all ranked.
fn ranks_of(alloc: Global, states: &[State]) -> Result<Vec<usize>, AllocError>
    requires { All (λ s. IsTrue (is_ranked s)) states.now }
    ensures { IfOk result (λ ranks. ranks.items ≡ map rank_in states.now) }
{
    let mut ranks = Vec::with_capacity(alloc, states.len())?;
    for state in states {
        match state {
            State::Ranked(rank) => ranks.push(*rank)?,
            State::New | State::OnPath(_) => unreachable!(),
        }
    }
    Ok(ranks)
}
