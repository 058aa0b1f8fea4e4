// The rows, the wires and the next state of a graph in gates.

ghost use Rattle.std.specs.Prelude.{◌≡◌, ◌+◌, ◌-◌, ◌<◌, ◌≤◌, length, map, IfOk, OnOk};
ghost use Rattle.std.specs.List.{sum_by};
ghost use Rattle.grc_graph.specs.PlainGraphs.{formula_of, instances_of, names_of};
ghost use Rattle.grc_graph.specs.Reads.{IsReadingOrder};
ghost use Rattle.grc_formulas.specs.WordLaws.{AreWordsOf};
ghost use Rattle.grc_graph.specs.GateCosts.{cost_of};
ghost use Rattle.net_gen.specs.Costs.{wire_cost};
ghost use Rattle.net_gen.specs.Drawings.{drawing_of};
ghost use Rattle.net_gen.specs.Growing.{HasRoom};
ghost use Rattle.net_gen.specs.Making.{RowsMade, WiresMade, NextMade};
ghost use Rattle.net_gen.specs.Readiness.{RowsReady, RowsPlaced, WiresPlaced};
ghost use Rattle.net_gen.specs.Senses.{Sound};

use crate::circuit::Draft;
use crate::formulas::lower;
use base_types::{NetId, NoMemory};
use grc_formulas::Words;
use grc_graph::{Graph, Order};
use std::alloc::Global;

/// Makes a gate for each row from one number up to another.
pub(crate) fn make_rows(
    circuit: &mut Draft,
    graph: &Graph,
    words: &Words,
    from: usize,
    to: usize,
) -> Result<(), NoMemory>
    requires words { AreWordsOf graph.now words.now }
    requires sound { Sound graph.now words.now (drawing_of circuit.old) }
    requires from { from ≤ to }
    requires to { to ≤ length words.now.rows.items }
    requires placed { RowsPlaced (drawing_of circuit.old) from }
    requires ready { RowsReady words.now (drawing_of circuit.old) from to }
    requires room { HasRoom (drawing_of circuit.old) (to - from) }
    ensures { OnOk result (RowsMade graph.now words.now (drawing_of circuit.old) (drawing_of circuit.new) from to) }
{
    for row in from..to {
        let op = circuit.row(words.rows[row]);
        circuit.add_row(op, row)?;
    }
    Ok(())
}

/// Makes the gate that carries each wire, in the order.
pub(crate) fn make_wires(
    circuit: &mut Draft,
    graph: &Graph,
    words: &Words,
    order: &Order,
) -> Result<(), NoMemory>
    requires words { AreWordsOf graph.now words.now }
    requires sound { Sound graph.now words.now (drawing_of circuit.old) }
    requires placed { RowsPlaced (drawing_of circuit.old) words.now.early }
    requires order { IsReadingOrder (names_of graph.now)
        (map (formula_of (instances_of graph.now) (names_of graph.now)) graph.now.equations.items)
        order.now.list.items }
    requires room { HasRoom (drawing_of circuit.old) (sum_by (wire_cost graph.now) order.now.list.items) }
    ensures { OnOk result (WiresMade graph.now words.now (drawing_of circuit.old) (drawing_of circuit.new)
        order.now.list.items (length order.now.list.items)) }
{
    for wire in order.list.as_slice() {
        let op = lower(circuit, graph, words, graph.equation(*wire))?;
        circuit.carry(op, *wire)?;
    }
    Ok(())
}

/// Makes the net of each leaf's next value.
pub(crate) fn make_next(
    alloc: Global,
    circuit: &mut Draft,
    graph: &Graph,
    words: &Words,
) -> Result<Vec<NetId>, NoMemory>
    requires words { AreWordsOf graph.now words.now }
    requires sound { Sound graph.now words.now (drawing_of circuit.old) }
    requires rows { RowsPlaced (drawing_of circuit.old) (length words.now.rows.items) }
    requires wires { WiresPlaced (drawing_of circuit.old) (length graph.now.wires.items) }
    requires room { HasRoom (drawing_of circuit.old) (sum_by cost_of graph.now.next.items) }
    ensures { IfOk result (λ nets. NextMade graph.now words.now (drawing_of circuit.old) (drawing_of circuit.new)
        nets.items (length graph.now.next.items)) }
{
    let mut nets = Vec::new(alloc);
    for formula in graph.next.as_slice() {
        let op = lower(circuit, graph, words, formula)?;
        let net = circuit.net(op)?;
        nets.push(net)?;
    }
    Ok(nets)
}
