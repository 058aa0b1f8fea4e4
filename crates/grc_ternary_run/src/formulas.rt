// The gates of formulas.

ghost use Rattle.std.specs.Prelude.{◌≡◌, ◌<◌, length, All, IsTrue, IfOk};
ghost use Rattle.grc_graph.specs.GraphShapes.{formula_fits};
ghost use Rattle.grc_evaluate.specs.Evaluations.{IsKnown};
ghost use Rattle.grc_ternary_run.specs.Meanings.{GateMade, NodeMade, PairMade, Ready, any_meaning};
ghost use Rattle.grc_ternary_run.specs.Meanings.{constant_gate, meaning_of, upto_gate};
ghost use Rattle.grc_formulas.specs.WordLaws.{AreWordsOf};

use crate::chains::count_ends;
use crate::numbers::{BOOT, Counts, FALSE, TRUE};
use base_types::{InstId, NoMemory, WireId};
use grc_formulas::Words;
use grc_graph::{Formula, Graph};
use grc_ternary_gates::{Gate, push_gate};

/// What the gates of a graph's formulas are made from: in addition to the graph and its words, for each end of an
/// instance the node that says that it or an earlier end of the instance is true.
#[derive(Clone, Copy)]
pub(crate) struct Making<'a> {
    pub graph: &'a Graph,
    pub words: &'a Words,
    pub chains: &'a [usize],
    pub counts: Counts,
}

/// The gate of a formula, over a table that gets the gates of its parts.
#[cycle(making)]
pub(crate) fn make_gate(
    making: &Making<'_>,
    formula: &Formula,
    table: &mut Vec<Gate>,
) -> Result<Gate, NoMemory>
    requires ready { Ready making.now table.old.items }
    requires fits { IsTrue (formula_fits (length making.now.graph.now.instances.list.items)
        (length making.now.graph.now.wires.items) formula.now) }
    requires plain { IsKnown ⊥ formula.now }
    ensures { IfOk result (λ gate. GateMade making.now table.old.items table.new.items gate
        (meaning_of making.now formula.now)) }
{
    match formula {
        Formula::Const(value) => Ok(constant_gate(*value)),
        Formula::Boot => Ok(Gate::Source(BOOT)),
        Formula::Input(signal) => Ok(Gate::Source(making.counts.input(*signal))),
        Formula::Wire(wire) => Ok(Gate::Same(wire.0 as usize)),
        Formula::Selected(path) => Ok(Gate::Source(making.counts.selected(*path))),
        Formula::Upto(instance, code) => Ok(upto_gate(making, *instance, *code)),
        Formula::Kept(_) | Formula::Held(_) => unreachable!(),
        Formula::Not(part) => {
            let node = make_node(making, part, table)?;
            Ok(Gate::Not(node))
        }
        Formula::And(left, right) => {
            let nodes = make_nodes(making, left, right, table)?;
            Ok(Gate::And(nodes.left, nodes.right))
        }
        Formula::Or(left, right) => {
            let nodes = make_nodes(making, left, right, table)?;
            Ok(Gate::Or(nodes.left, nodes.right))
        }
        Formula::AnyOf(list) => any_gate(making, list, table),
    }
}

// The node of a formula: a wire is one.
#[cycle(making)]
fn make_node(
    making: &Making<'_>,
    formula: &Formula,
    table: &mut Vec<Gate>,
) -> Result<usize, NoMemory>
    requires ready { Ready making.now table.old.items }
    requires fits { IsTrue (formula_fits (length making.now.graph.now.instances.list.items)
        (length making.now.graph.now.wires.items) formula.now) }
    requires plain { IsKnown ⊥ formula.now }
    ensures { IfOk result (λ node. NodeMade making.now table.old.items table.new.items node
        (meaning_of making.now formula.now)) }
{
    if let Formula::Wire(wire) = formula {
        return Ok(wire.0 as usize);
    }
    let gate = make_gate(making, formula, table)?;
    let place = push_gate(table, gate)?;
    Ok(making.graph.wires.len() + place)
}

/// Two nodes.
#[derive(Clone, Copy)]
struct Nodes {
    left: usize,
    right: usize,
}

// The nodes of two formulas.
#[cycle(making)]
fn make_nodes(
    making: &Making<'_>,
    left: &Formula,
    right: &Formula,
    table: &mut Vec<Gate>,
) -> Result<Nodes, NoMemory>
    requires ready { Ready making.now table.old.items }
    requires left_fits { IsTrue (formula_fits (length making.now.graph.now.instances.list.items)
        (length making.now.graph.now.wires.items) left.now) }
    requires right_fits { IsTrue (formula_fits (length making.now.graph.now.instances.list.items)
        (length making.now.graph.now.wires.items) right.now) }
    requires left_plain { IsKnown ⊥ left.now }
    requires right_plain { IsKnown ⊥ right.now }
    ensures { IfOk result (λ nodes. PairMade making.now table.old.items table.new.items nodes.left nodes.right
        (meaning_of making.now left.now) (meaning_of making.now right.now)) }
{
    let first = make_node(making, left, table)?;
    let second = make_node(making, right, table)?;
    Ok(Nodes {
        left: first,
        right: second,
    })
}

// The source that has this value.
fn constant_gate(value: bool) -> Gate
    ensures { result ≡ constant_gate value }
{
    Gate::Source(if value { TRUE } else { FALSE })
}

// What says that an instance ends with at most this code.
fn upto_gate(making: &Making<'_>, instance: InstId, code: u8) -> Gate
    requires words { AreWordsOf making.now.graph.now making.now.words.now }
    requires chains { length making.now.chains.now ≡ length making.now.graph.now.wires.items }
    requires instance { instance.0 < length making.now.graph.now.instances.list.items }
    ensures { result ≡ upto_gate making.now instance.0 code }
{
    let count = count_ends(making.graph, making.words, instance, code);
    if count == 0 {
        Gate::Source(FALSE)
    } else {
        let first = making.words.ends[instance.0 as usize].0 as usize;
        Gate::Same(making.chains[first + count - 1])
    }
}

// What says that one of the wires is true.
fn any_gate(making: &Making<'_>, list: &[WireId], table: &mut Vec<Gate>) -> Result<Gate, NoMemory>
    requires ready { Ready making.now table.old.items }
    requires fits { All (λ v. v.0 < length making.now.graph.now.wires.items) list.now }
    ensures { IfOk result (λ gate. GateMade making.now table.old.items table.new.items gate (any_meaning list.now)) }
{
    if list.is_empty() {
        return Ok(Gate::Source(FALSE));
    }
    let wires = making.graph.wires.len();
    let last = list.len() - 1;
    let mut node = list[last].0 as usize;
    for place in (0..last).rev() {
        let added = push_gate(table, Gate::Or(list[place].0 as usize, node))?;
        node = wires + added;
    }
    Ok(Gate::Same(node))
}
