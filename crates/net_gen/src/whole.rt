// The whole circuit of a graph.

ghost use Rattle.std.specs.Prelude.{◌+◌, ◌<◌, ◌^◌, length, map, IfOk};
ghost use Rattle.grc_graph.specs.PlainGraphs.{formula_of, instances_of, names_of};
ghost use Rattle.grc_graph.specs.Reads.{IsReadingOrder};
ghost use Rattle.grc_formulas.specs.WordLaws.{AreWordsOf};
ghost use Rattle.net_gen.specs.Costs.{gates_at_most};
ghost use Rattle.net_gen.specs.Drawings.{drawing_of};
ghost use Rattle.net_gen.specs.Making.{CircuitMade};
ghost use Rattle.net_gen.specs.Senses.{first_of};

use crate::begin::begin;
use crate::circuit::Draft;
use crate::making::{make_next, make_rows, make_wires};
use base_types::{NetId, NoMemory};
use grc_formulas::Words;
use grc_graph::{Graph, Order};
use std::alloc::Global;

/// A circuit that has a net for each wire and row, and the nets of the leaves' next values.
#[derive(Drop)]
pub(crate) struct Whole {
    pub circuit: Draft,
    pub next: Vec<NetId>,
}

/// The circuit of a graph: the rows that read no wire, then the wires in the order, then the other
/// rows, and the next values.
pub(crate) fn make_circuit(
    alloc: Global,
    graph: &Graph,
    words: &Words,
    order: &Order,
) -> Result<Whole, NoMemory>
    requires words { AreWordsOf graph.now words.now }
    requires order { IsReadingOrder (names_of graph.now)
        (map (formula_of (instances_of graph.now) (names_of graph.now)) graph.now.equations.items)
        order.now.list.items }
    requires room { first_of graph.now + gates_at_most graph.now (length words.now.rows.items) order.now.list.items
        < 2 ^ 32 }
    ensures { IfOk result (λ whole. CircuitMade graph.now words.now order.now.list.items
        (drawing_of whole.circuit) whole.next.items) }
{
    let mut circuit = begin(alloc, graph, words)?;
    let early = words.early;
    make_rows(&mut circuit, graph, words, 0, early)?;
    make_wires(&mut circuit, graph, words, order)?;
    make_rows(&mut circuit, graph, words, early, words.rows.len())?;
    let next = make_next(alloc, &mut circuit, graph, words)?;
    Ok(Whole { circuit, next })
}
