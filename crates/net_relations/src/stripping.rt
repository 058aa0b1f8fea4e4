// Gates that read less, where implications of the inputs hold.

ghost use Rattle.std.specs.Prelude.{◌≡◌, ◌<◌, ◌≤◌, [], length, IsTrue, IfOk};
ghost use Rattle.net_ir.specs.Gates.{ReadsLower, carried, operand_end};
ghost use Rattle.net_ir.specs.Netlists.{first_gate, net_count};
ghost use Rattle.net_ir.specs.Runs.{netlist_of};
ghost use Rattle.net_ir.specs.declared.netlist.Op.TheVariants.{And, Or};
ghost use Rattle.net_relations.specs.Implications.{AreStripped, Entails, IsStripped, IsStrippedNet, with_gates};

use crate::implications::{Implication, Signed, opposite};
use crate::implying::{follows, signed};
use base_types::{NetId, NoMemory};
use net_ir::{Gate, Net, Op};
use std::alloc::Global;

// How deep implications are searched.
const DEPTH: u32 = 4;

fn implies(net: &Net, known: &[Implication], cause: Signed, effect: Signed) -> bool
    requires cause { cause.net.0 < net_count (netlist_of net.now) }
    requires effect { effect.net.0 < net_count (netlist_of net.now) }
    ensures { IsTrue result → Entails (netlist_of net.now) known.now (record { cause = cause; effect = effect }) }
{
    follows(net, known, DEPTH, Implication { cause, effect })
}

#[tactic(auto, using(crate::proofs::SmallerGates::and_never, crate::proofs::SmallerGates::and_left, crate::proofs::SmallerGates::and_right, crate::proofs::SmallerGates::stripped_same))]
fn stripped_and(net: &Net, known: &[Implication], a: NetId, b: NetId) -> Op
    requires left { a.0 < net_count (netlist_of net.now) }
    requires right { b.0 < net_count (netlist_of net.now) }
    ensures { IsStripped (netlist_of net.now) known.now (And a b) result }
{
    let left = signed(net, a, false);
    let right = signed(net, b, false);
    if implies(net, known, left, opposite(right)) {
        Op::Const(false)
    } else if implies(net, known, left, right) {
        Op::Copy(a)
    } else if implies(net, known, right, left) {
        Op::Copy(b)
    } else {
        Op::And(a, b)
    }
}

#[tactic(auto, using(crate::proofs::SmallerGates::or_always, crate::proofs::SmallerGates::or_left, crate::proofs::SmallerGates::or_right, crate::proofs::SmallerGates::stripped_same))]
fn stripped_or(net: &Net, known: &[Implication], a: NetId, b: NetId) -> Op
    requires left { a.0 < net_count (netlist_of net.now) }
    requires right { b.0 < net_count (netlist_of net.now) }
    ensures { IsStripped (netlist_of net.now) known.now (Or a b) result }
{
    let left = signed(net, a, false);
    let right = signed(net, b, false);
    if implies(net, known, opposite(left), right) {
        Op::Const(true)
    } else if implies(net, known, left, right) {
        Op::Copy(b)
    } else if implies(net, known, right, left) {
        Op::Copy(a)
    } else {
        Op::Or(a, b)
    }
}

fn stripped_op(net: &Net, known: &[Implication], op: Op) -> Op
    requires { operand_end op ≤ net_count (netlist_of net.now) }
    ensures { IsStripped (netlist_of net.now) known.now op result }
{
    match op {
        Op::Const(value) => Op::Const(value),
        Op::Copy(a) => Op::Copy(a),
        Op::Not(a) => Op::Not(a),
        Op::And(a, b) => stripped_and(net, known, a, b),
        Op::Or(a, b) => stripped_or(net, known, a, b),
    }
}

/// The gates of a netlist, where each one that is an operand of itself or constant under the implications is a copy or
/// a constant.
pub(crate) fn stripped_gates(
    alloc: Global,
    net: &Net,
    known: &[Implication],
) -> Result<Vec<Gate>, NoMemory>
    ensures { IfOk result (λ gates. AreStripped (netlist_of net.now) known.now gates.items) }
{
    let mut gates = Vec::new(alloc);
    for gate in &net.gates {
        gates.push(Gate {
            op: stripped_op(net, known, gate.op),
            wire: None,
        })?;
    }
    Ok(gates)
}

/// The netlist with these gates.
fn with_gates(net: Net, gates: Vec<Gate>) -> Net
    requires count { length gates.items ≡ length net.gates.items }
    requires silent { carried gates.items ≡ [] }
    requires reads { ReadsLower (first_gate (netlist_of net)) gates.items }
    ensures { netlist_of result ≡ with_gates (netlist_of net) gates.items }
{
    Net {
        name: net.name,
        inputs: net.inputs,
        outputs: net.outputs,
        paused: net.paused,
        latches: net.latches,
        gates,
    }
}

/// The netlist whose gates read less, where implications of the inputs hold.
pub(crate) fn stripped_net(alloc: Global, net: Net, known: &[Implication]) -> Result<Net, NoMemory>
    ensures { IfOk result (λ new. IsStrippedNet (netlist_of net) known.now (netlist_of new)) }
{
    let gates = stripped_gates(alloc, &net, known)?;
    Ok(with_gates(net, gates))
}
