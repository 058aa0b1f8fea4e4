// Graphs small enough to see through, and a great one.

use base_digraph::{RanksOrCycle, ranks_or_cycle};
use std::test::Fail;

// Whether the nodes are ranked, and the ranks, or else the closed walk.
fn told(answer: &RanksOrCycle) -> (bool, &[u32]) {
    match answer {
        RanksOrCycle::Ranks(ranking) => (true, &ranking.ranks),
        RanksOrCycle::Cycle(walk) => (false, walk),
    }
}

#[test]
fn small_graphs(rt: HostRuntime) -> Result<(), Fail> {
    let none: &[(u32, u32)] = &[];
    let chain: &[(u32, u32)] = &[(2, 1), (1, 0)];
    let diamond: &[(u32, u32)] = &[(0, 1), (0, 1), (1, 2), (0, 2), (2, 3), (1, 3)];
    let itself: &[(u32, u32)] = &[(0, 2), (2, 1), (1, 1)];
    let cases: [(u32, &[(u32, u32)], bool, &[u32]); 5] = [
        (0, none, true, &[]),
        (1, none, true, &[0]),
        (3, chain, true, &[2, 1, 0]),
        (4, diamond, true, &[0, 1, 2, 3]),
        (3, itself, false, &[1]),
    ];
    for (count, edges, ranked, numbers) in cases {
        let answer = ranks_or_cycle(rt.alloc(), count, edges)?;
        assert_eq!(rt; told(&answer), (ranked, numbers));
    }
    Ok(())
}

#[test]
fn a_long_chain(rt: HostRuntime) -> Result<(), Fail> {
    let mut edges = Vec::new(rt.alloc());
    for node in 0..1_000_000u32 {
        edges.push((node + 1, node))?;
    }
    let answer = ranks_or_cycle(rt.alloc(), 1_000_001, &edges)?;
    let (ranked, ranks) = told(&answer);
    assert!(rt; ranked);
    assert_eq!(rt; ranks.first(), Some(&1_000_000));
    Ok(())
}
