//! Finite directed graphs: ranks that grow along each edge, or a closed walk.
//!
//! A graph is a number of nodes, which are numbered from 0, and a list of edges, each from a node to
//! a node. It has ranks that grow along each edge exactly where it has no closed walk. The calls
//! here find the one or the other by a depth-first search against the edges (Tarjan, "Depth-First
//! Search and Linear Graph Algorithms"), in time linear in the nodes and edges, without recursion.
#![tactic(auto)]

mod links;
mod ranking;
mod search;
mod wide;

pub use ranking::{Ranking, RanksOrCycle, ranks_or_cycle};
pub use wide::{WideRanking, WideRanksOrCycle, wide_ranks_or_cycle};
