// The order that a picker makes.

ghost use Rattle.std.specs.Prelude.{IfOk};
ghost use Rattle.grc_graph.specs.WireOrders.{AreRanks, IsWireOrder};

use crate::edge_runs::edge_begins;
use crate::picking::Picker;
use crate::schedule::Schedule;
use base_types::NoMemory;
use grc_graph::{Edges, Order, Ranks};
use std::alloc::Global;

/// An order of the wires that keeps the edges, as the picker chooses it. The picker is handed the wires that are
/// not placed and whose predecessors all are, each once, in no stated order. The ranks show that such a wire is
/// always there; nothing else is made of them. Except for the picker, the time is linear in the wires and edges. Its
/// only error is out of memory.
///
/// Example: `First` always takes the first wire that is ready, so two calls give the same order.
pub fn order<P: Picker>(
    alloc: Global,
    edges: &Edges,
    _ranks: &Ranks,
    picker: &mut P,
) -> Result<Order, NoMemory>
    requires { AreRanks edges.now.count edges.now.pairs.items _ranks.now.of.items }
    ensures { IfOk result (λ o. IsWireOrder edges.now.count edges.now.pairs.items o.list.items) }
{
    let begins = edge_begins(alloc, edges)?;
    let mut schedule = Schedule::new(alloc, edges)?;
    for _ in 0..edges.count {
        schedule.place_next(edges, &begins, picker)?;
    }
    Ok(Order {
        list: schedule.placed,
    })
}
