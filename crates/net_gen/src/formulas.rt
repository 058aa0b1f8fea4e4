// Formulas in gates.

ghost use Rattle.std.specs.Prelude.{◌≡◌, ◌+◌, ◌<◌, ◌≤◌, length, drop, IfOk, All};
ghost use Rattle.std.specs.List.{prefix_len};
ghost use Rattle.grc_formulas.specs.WordLaws.{AreWordsOf, is_end_upto, first_end, ends_upto};
ghost use Rattle.grc_graph.specs.GateCosts.{cost_of, any_cost};
ghost use Rattle.net_gen.specs.Drawings.{drawing_of, Placed};
ghost use Rattle.net_gen.specs.Growing.{HasRoom, Lowers};
ghost use Rattle.net_gen.specs.Readiness.{FormulaReady, EndsReady};
ghost use Rattle.net_gen.specs.Senses.{Sound, form_sense, run_sense, any_sense};

use crate::circuit::{Draft, entry};
use base_types::{InstId, NetId, NoMemory, WireId};
use grc_formulas::{Words, is_end_upto, selected_source};
use grc_graph::{Formula, Graph, Wire};
use net_ir::Op;

/// A formula as an operator. Only its parts are made here, so that a wire's own gate can carry it.
pub(crate) fn lower(
    circuit: &mut Draft,
    graph: &Graph,
    words: &Words,
    formula: &Formula,
) -> Result<Op, NoMemory>
    requires words { AreWordsOf graph.now words.now }
    requires sound { Sound graph.now words.now (drawing_of circuit.old) }
    requires ready { FormulaReady graph.now words.now (drawing_of circuit.old) formula.now }
    requires room { HasRoom (drawing_of circuit.old) (cost_of formula.now) }
    ensures { IfOk result (λ op. Lowers graph.now words.now (drawing_of circuit.old) (drawing_of circuit.new)
        op (form_sense graph.now formula.now) (cost_of formula.now)) }
{
    match formula {
        Formula::Const(value) => Ok(Op::Copy(circuit.constant(*value))),
        Formula::Boot => Ok(Op::Copy(NetId(circuit.given))),
        Formula::Input(signal) => Ok(Op::Copy(circuit.input(*signal))),
        Formula::Wire(wire) => Ok(Op::Copy(entry(&circuit.wires, wire.0 as usize))),
        Formula::Selected(path) => Ok(Op::Copy(circuit.source(selected_source(words, *path)))),
        Formula::Upto(instance, code) => {
            let op = ends_op(circuit, graph, words, *instance, *code)?;
            Ok(op)
        }
        Formula::Kept(instance) => Ok(Op::Copy(circuit.source(words.kept[instance.0 as usize]))),
        Formula::Held(instance) => Ok(Op::Copy(circuit.source(words.held[instance.0 as usize]))),
        Formula::Not(part) => {
            let op = lower(circuit, graph, words, part)?;
            let net = circuit.net(op)?;
            Ok(Op::Not(net))
        }
        Formula::And(left, right) => {
            let op = lower(circuit, graph, words, left)?;
            let first = circuit.net(op)?;
            let op = lower(circuit, graph, words, right)?;
            let second = circuit.net(op)?;
            Ok(Op::And(first, second))
        }
        Formula::Or(left, right) => {
            let op = lower(circuit, graph, words, left)?;
            let first = circuit.net(op)?;
            let op = lower(circuit, graph, words, right)?;
            let second = circuit.net(op)?;
            Ok(Op::Or(first, second))
        }
        Formula::AnyOf(wires) => {
            let op = any_of(circuit, graph, words, wires)?;
            Ok(op)
        }
    }
}

// How many wires at the front are ends of the instance with at most this code.
fn ends_in_front(wires: &[Wire], instance: InstId, code: u8) -> usize
    ensures { result ≡ prefix_len (is_end_upto instance.0 code) wires.now }
{
    for (count, wire) in wires.iter().enumerate() {
        if !is_end_upto(*wire, instance, code) {
            return count;
        }
    }
    wires.len()
}

// How many wires are ends of the instance with at most this code, side by side from this place on.
fn ends_from(wires: &[Wire], first: usize, instance: InstId, code: u8) -> usize
    requires { first ≤ length wires.now }
    ensures count { result ≡ prefix_len (is_end_upto instance.0 code) (drop first wires.now) }
    ensures within { first + result ≤ length wires.now }
{
    ends_in_front(&wires[first..], instance, code)
}

// The or of the ends of an instance with at most a code. It is made once for each code.
fn ends_op(
    circuit: &mut Draft,
    graph: &Graph,
    words: &Words,
    instance: InstId,
    code: u8,
) -> Result<Op, NoMemory>
    requires words { AreWordsOf graph.now words.now }
    requires sound { Sound graph.now words.now (drawing_of circuit.old) }
    requires instance { instance.0 < length graph.now.instances.list.items }
    requires ready { EndsReady graph.now words.now (drawing_of circuit.old) instance.0 code }
    requires room { HasRoom (drawing_of circuit.old) 0 }
    ensures { IfOk result (λ op. Lowers graph.now words.now (drawing_of circuit.old) (drawing_of circuit.new)
        op (run_sense graph.now (first_end words.now instance.0) (ends_upto graph.now words.now instance.0 code)) 0) }
{
    let first = words.ends[instance.0 as usize].0 as usize;
    let count = ends_from(graph.wires(), first, instance, code);
    let mut so_far = None;
    for wire in first..first + count {
        let net = circuit.run(so_far, wire)?;
        so_far = Some(net);
    }
    match so_far {
        Some(net) => Ok(Op::Copy(net)),
        None => Ok(Op::Copy(circuit.no)),
    }
}

// The or of wires.
fn any_of(
    circuit: &mut Draft,
    graph: &Graph,
    words: &Words,
    wires: &[WireId],
) -> Result<Op, NoMemory>
    requires sound { Sound graph.now words.now (drawing_of circuit.old) }
    requires ready { All (λ u. Placed (drawing_of circuit.old).wires u.0) wires.now }
    requires room { HasRoom (drawing_of circuit.old) (any_cost (length wires.now)) }
    ensures { IfOk result (λ op. Lowers graph.now words.now (drawing_of circuit.old) (drawing_of circuit.new)
        op (any_sense graph.now wires.now) (any_cost (length wires.now))) }
{
    let mut so_far = None;
    for wire in wires {
        let own = entry(&circuit.wires, wire.0 as usize);
        let op = circuit.join(so_far, own)?;
        so_far = Some(op);
    }
    match so_far {
        Some(op) => Ok(op),
        None => Ok(Op::Copy(circuit.no)),
    }
}
