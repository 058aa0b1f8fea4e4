// What no clause says: that the pickers' choices are placed, and what the picker is handed.

ghost use Rattle.std.specs.Prelude.{◌≡◌, []};

use base_types::{Draw, WireId};
use grc_graph::{Edges, Ranks};
use grc_order::{Drawn, First, Last, Picker, is_order, order};
use std::alloc::Global;
use std::test::Fail;

// Three wires without edges.
fn without_edges(alloc: Global) -> Edges
    ensures count { result.count ≡ 3 }
    ensures pairs { result.pairs.items ≡ [] }
{
    Edges {
        count: 3,
        pairs: Vec::new(alloc),
    }
}

// Chooses the last wire, by a number that is no place, and keeps what it chose.
#[derive(Drop)]
struct Recording {
    chosen: Vec<WireId>,
}

impl Picker for Recording {
    fn pick(&mut self, ready: &[WireId]) -> usize {
        let last = ready.len() - 1;
        let _ = self.chosen.push(ready[last]);
        last.saturating_add(ready.len())
    }
}

#[test]
fn choices_are_placed(rt: HostRuntime) -> Result<(), Fail> {
    let edges = without_edges(rt.alloc());
    let ranks = Ranks {
        of: vec![in rt.alloc(); 0, 0, 0]?,
    };
    let mut recording = Recording {
        chosen: Vec::new(rt.alloc()),
    };
    let recorded = order(rt.alloc(), &edges, &ranks, &mut recording)?;
    assert!(rt; recorded.list.as_slice() == recording.chosen.as_slice());
    let first = order(rt.alloc(), &edges, &ranks, &mut First)?;
    let last = order(rt.alloc(), &edges, &ranks, &mut Last)?;
    let drawn = order(rt.alloc(), &edges, &ranks, &mut Drawn(Draw::new(12345)))?;
    assert!(rt; first.list.as_slice() != last.list.as_slice());
    assert!(rt; is_order(&edges, &drawn.list, &mut [true, false, true]));
    assert!(rt;
        !is_order(
            &edges,
            &[WireId(1), WireId(2), WireId(1)],
            &mut [true, false, true]
        )
    );
    Ok(())
}
