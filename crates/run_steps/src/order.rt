// Which equations read the outputs of which, and an order in which each one comes after those that it reads.

ghost use Rattle.std.specs.Prelude.{◌≡◌, ◌++◌, ◌+◌, ◌<◌, map, length, All, IfOk, OnOk};
ghost use Rattle.base_types.specs.Stops.{IfFault};
ghost use Rattle.base_digraph.specs.Walks.{IsOrderOf};
ghost use Rattle.run_steps.specs.Order.{edges_from, slot_edges, names_along};
ghost use Rattle.run_steps.specs.Order.{IsEvaluationOrder, IsAgainst, NoWalk, AreWalked};

use base_digraph::{WideRanking, WideRanksOrCycle, wide_ranks_or_cycle};
use base_types::{NoMemory, Stop, Text};
use std::alloc::Global;

/// The equations in an order in which each one comes after those whose outputs it reads. The names are in the order
/// of their slots, those of the outputs begin at `first`, and there are the slots that each equation reads.
///
/// The fault is a combinational cycle, where there is one: the names of the outputs along it. The only other error is
/// out of memory.
pub fn evaluation_order(
    alloc: Global,
    names: &[&[u8]],
    first: usize,
    reads: &[Vec<usize>],
) -> Result<Vec<usize>, Stop<Vec<Text>>>
    requires each_name { length names.now ≡ first + length reads.now }
    requires within { All (λ r. All (λ slot. slot < first + length reads.now) r.items) reads.now }
    ensures order { IfOk result
        (λ order. IsEvaluationOrder (length reads.now) (edges_from first 0 (map (λ r. r.items) reads.now))
        order.items) }
    ensures no_walk { OnOk result (NoWalk (edges_from first 0 (map (λ r. r.items) reads.now))) }
    ensures walk { IfFault result
        (λ found. AreWalked (edges_from first 0 (map (λ r. r.items) reads.now)) (map (λ w. w.now) names.now) first
        found.items) }
{
    let edges = edges(alloc, first, reads)?;
    match wide_ranks_or_cycle(alloc, reads.len(), &edges)? {
        WideRanksOrCycle::Ranks(ranking) => Ok(order_against(alloc, &ranking)?),
        WideRanksOrCycle::Cycle(walk) => Err(Stop::Fault(names_along(alloc, names, first, &walk)?)),
    }
}

// An edge from each equation to each one whose output it reads.
fn edges(alloc: Global, first: usize, reads: &[Vec<usize>]) -> Result<Vec<(usize, usize)>, NoMemory>
    requires within { All (λ r. All (λ slot. slot < first + length reads.now) r.items) reads.now }
    ensures { IfOk result (λ e. e.items ≡ edges_from first 0 (map (λ r. r.items) reads.now)) }
{
    let mut edges = Vec::new(alloc);
    for (node, slots) in reads.iter().enumerate() {
        push_edges(&mut edges, first, node, slots)?;
    }
    Ok(edges)
}

fn push_edges(
    edges: &mut Vec<(usize, usize)>,
    first: usize,
    node: usize,
    slots: &[usize],
) -> Result<(), NoMemory>
    ensures { OnOk result (edges.new.items ≡ edges.old.items ++ slot_edges first node slots.now) }
{
    for slot in slots {
        if first <= *slot {
            edges.push((node, *slot - first))?;
        }
    }
    Ok(())
}

// The nodes from the last rank to the first.
fn order_against(alloc: Global, ranking: &WideRanking) -> Result<Vec<usize>, NoMemory>
    requires ranked { All (λ r. r < length ranking.now.ranks.items) ranking.now.ranks.items }
    requires ordered { IsOrderOf ranking.now.ranks.items ranking.now.order.items }
    ensures { IfOk result (λ order. IsAgainst ranking.now.ranks.items order.items) }
{
    let ranks = ranking.ranks.as_slice();
    let mut order = vec![in alloc; 0usize; ranks.len()]?;
    for (node, rank) in ranks.iter().enumerate() {
        order[ranks.len() - 1 - *rank] = node;
    }
    Ok(order)
}

// The names of the outputs along a walk.
fn names_along(
    alloc: Global,
    names: &[&[u8]],
    first: usize,
    walk: &[usize],
) -> Result<Vec<Text>, NoMemory>
    requires { All (λ node. first + node < length names.now) walk.now }
    ensures { IfOk result (λ found. found.items ≡ names_along (map (λ w. w.now) names.now) first walk.now) }
{
    let mut found = Vec::with_capacity(alloc, walk.len())?;
    for node in walk {
        found.push(Text::from_bytes(alloc, names[first + *node])?)?;
    }
    Ok(found)
}
