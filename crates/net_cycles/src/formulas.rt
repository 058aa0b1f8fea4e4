// Nets of formulas.

ghost use Rattle.std.specs.Prelude.{◌≡◌, ◌+◌, ◌<◌, ◌≤◌, length, drop, IfOk, IsTrue, All};
ghost use Rattle.std.specs.List.{prefix_len};
ghost use Rattle.grc_graph.specs.GraphShapes.{formula_fits};
ghost use Rattle.grc_formulas.specs.WordLaws.{ends_upto, first_end, is_end_upto};
ghost use Rattle.net_cycles.specs.Bases.{AnySays, IsWhole, Lowers, RunSays};

use crate::base::Nets;
use crate::rows::source_net;
use base_types::{InstId, NetId, WireId};
use grc_formulas::{is_end_upto, selected_source};
use grc_graph::{Formula, Wire};
use net_ir::Op;
use net_unroll::{GrowFault, Growing};

/// A net that says what a formula means.
pub fn lower(gates: &mut Growing, nets: &Nets<'_>, formula: &Formula) -> Result<NetId, GrowFault>
    requires whole { IsWhole nets.now gates.old }
    requires fits { IsTrue (formula_fits (length nets.now.graph.now.instances.list.items)
        (length nets.now.graph.now.wires.items) formula.now) }
    ensures { IfOk result (λ n. Lowers nets.now gates.old gates.new formula.now n.0) }
{
    match formula {
        Formula::Const(value) => {
            if *value {
                Ok(nets.base.yes)
            } else {
                Ok(nets.base.no)
            }
        }
        Formula::Boot => Ok(NetId(nets.base.given)),
        Formula::Input(signal) => {
            if signal.0 < nets.base.given {
                Ok(NetId(signal.0))
            } else {
                Ok(nets.base.no)
            }
        }
        Formula::Wire(wire) => Ok(nets.wires[wire.0 as usize]),
        Formula::Selected(path) => {
            let source = selected_source(nets.words, *path);
            Ok(source_net(nets.base, nets.wires, nets.rows, source))
        }
        Formula::Upto(instance, code) => {
            let ended = ends_net(gates, nets, *instance, *code)?;
            Ok(ended)
        }
        Formula::Kept(instance) => {
            let source = nets.words.kept[instance.0 as usize];
            Ok(source_net(nets.base, nets.wires, nets.rows, source))
        }
        Formula::Held(instance) => {
            let source = nets.words.held[instance.0 as usize];
            Ok(source_net(nets.base, nets.wires, nets.rows, source))
        }
        Formula::Not(part) => {
            let net = lower(gates, nets, part)?;
            let inverse = gates.push(Op::Not(net))?;
            Ok(inverse)
        }
        Formula::And(left, right) => {
            let first = lower(gates, nets, left)?;
            let second = lower(gates, nets, right)?;
            let both = gates.push(Op::And(first, second))?;
            Ok(both)
        }
        Formula::Or(left, right) => {
            let first = lower(gates, nets, left)?;
            let second = lower(gates, nets, right)?;
            let either = gates.push(Op::Or(first, second))?;
            Ok(either)
        }
        Formula::AnyOf(list) => {
            let any = any_net(gates, nets, list.as_slice())?;
            Ok(any)
        }
    }
}

// How many wires at the front are ends of the instance with at most this code.
fn ends_in_front(wires: &[Wire], instance: InstId, code: u8) -> usize
    ensures { result ≡ prefix_len (is_end_upto instance.0 code) wires.now }
{
    for (count, wire) in wires.iter().enumerate() {
        if !is_end_upto(*wire, instance, code) {
            return count;
        }
    }
    wires.len()
}

// How many wires are ends of the instance with at most this code, side by side from this place on.
fn ends_from(wires: &[Wire], first: usize, instance: InstId, code: u8) -> usize
    requires { first ≤ length wires.now }
    ensures count { result ≡ prefix_len (is_end_upto instance.0 code) (drop first wires.now) }
    ensures within { first + result ≤ length wires.now }
{
    ends_in_front(&wires[first..], instance, code)
}

// A net that says that one of the ends of an instance with at most a code is true.
fn ends_net(
    gates: &mut Growing,
    nets: &Nets<'_>,
    instance: InstId,
    code: u8,
) -> Result<NetId, GrowFault>
    requires whole { IsWhole nets.now gates.old }
    requires instance { instance.0 < length nets.now.graph.now.instances.list.items }
    ensures { IfOk result (λ n. RunSays nets.now gates.old gates.new (first_end nets.now.words.now instance.0)
        (ends_upto nets.now.graph.now nets.now.words.now instance.0 code) n.0) }
{
    let first = nets.words.ends[instance.0 as usize].0 as usize;
    let count = ends_from(nets.graph.wires(), first, instance, code);
    let mut net = nets.base.no;
    for wire in first..first + count {
        net = gates.push(Op::Or(net, nets.wires[wire]))?;
    }
    Ok(net)
}

// A net that says that one of the wires is true.
fn any_net(gates: &mut Growing, nets: &Nets<'_>, list: &[WireId]) -> Result<NetId, GrowFault>
    requires whole { IsWhole nets.now gates.old }
    requires fits { All (λ v. v.0 < length nets.now.wires.now) list.now }
    ensures { IfOk result (λ n. AnySays nets.now gates.old gates.new list.now n.0) }
{
    let mut net = nets.base.no;
    for wire in list {
        net = gates.push(Op::Or(net, nets.wires[wire.0 as usize]))?;
    }
    Ok(net)
}
