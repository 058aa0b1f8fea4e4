// Operators that say less: the rules of Boolean algebra that one look at the operands' gates decides.

ghost use Rattle.std.specs.Prelude.{◌≡◌, ◌+◌, ◌<◌, ◌≤◌, length};
ghost use Rattle.net_ir.specs.Gates.{operand_end};
ghost use Rattle.net_simp.specs.Rules.{is_low, is_high, negates, implies, are_opposite, negation, reduced_op};
ghost use Rattle.net_simp.specs.Drafts.{outright_op};

use crate::gates::op_at;
use base_types::NetId;
use net_ir::{Gate, Op};

/// An operator of the same value, over the gates so far: constants are folded, double negations and absorbed
/// operands go, and what reads one net twice only copies it.
pub(crate) fn reduced_op(first: usize, gates: &[Gate], op: Op) -> Op
    requires { operand_end op ≤ first + length gates.now }
    ensures { result ≡ reduced_op first gates.now op }
{
    match op {
        Op::Const(_) | Op::Copy(_) => op,
        Op::Not(a) => negation(op_at(first, gates, a), a),
        Op::And(a, b) => {
            if are_opposite(first, gates, a, b) {
                Op::Const(false)
            } else if implies(first, gates, a, b) {
                Op::Copy(a)
            } else if implies(first, gates, b, a) {
                Op::Copy(b)
            } else {
                Op::And(a, b)
            }
        }
        Op::Or(a, b) => {
            if are_opposite(first, gates, a, b) {
                Op::Const(true)
            } else if implies(first, gates, a, b) {
                Op::Copy(b)
            } else if implies(first, gates, b, a) {
                Op::Copy(a)
            } else {
                Op::Or(a, b)
            }
        }
    }
}

/// A copy of a net whose gate has this operator, as it is reported outright: of a constant it is that constant.
pub(crate) fn outright_op(op: Option<Op>, net: NetId) -> Op
    ensures { result ≡ outright_op op net }
{
    match op {
        Some(Op::Const(value)) => Op::Const(value),
        Some(Op::Copy(_)) | Some(Op::Not(_)) | Some(Op::And(_, _)) | Some(Op::Or(_, _)) | None => {
            Op::Copy(net)
        }
    }
}

// The negation of a net whose gate has this operator.
fn negation(op: Option<Op>, net: NetId) -> Op
    ensures { result ≡ negation op net }
{
    match op {
        Some(Op::Const(value)) => Op::Const(!value),
        Some(Op::Not(a)) => Op::Copy(a),
        Some(Op::Copy(_)) | Some(Op::And(_, _)) | Some(Op::Or(_, _)) | None => Op::Not(net),
    }
}

// Whether a net is never true without the other, as the operators of their gates tell.
fn implies(first: usize, gates: &[Gate], a: NetId, b: NetId) -> bool
    requires a_in_range { a.0 < first + length gates.now }
    requires b_in_range { b.0 < first + length gates.now }
    ensures { result ≡ implies first gates.now a.0 b.0 }
{
    a.0 == b.0 || is_low(op_at(first, gates, a), b) || is_high(op_at(first, gates, b), a)
}

// Whether one net is the other's negation, as the operators of their gates tell.
fn are_opposite(first: usize, gates: &[Gate], a: NetId, b: NetId) -> bool
    requires a_in_range { a.0 < first + length gates.now }
    requires b_in_range { b.0 < first + length gates.now }
    ensures { result ≡ are_opposite first gates.now a.0 b.0 }
{
    negates(op_at(first, gates, a), b) || negates(op_at(first, gates, b), a)
}

// Whether a gate of this operator is never true without the net.
fn is_low(op: Option<Op>, net: NetId) -> bool
    ensures { result ≡ is_low op net.0 }
{
    match op {
        Some(Op::Const(value)) => !value,
        Some(Op::And(a, b)) => a.0 == net.0 || b.0 == net.0,
        Some(Op::Copy(_)) | Some(Op::Not(_)) | Some(Op::Or(_, _)) | None => false,
    }
}

// Whether a gate of this operator is true wherever the net is.
fn is_high(op: Option<Op>, net: NetId) -> bool
    ensures { result ≡ is_high op net.0 }
{
    match op {
        Some(Op::Const(value)) => value,
        Some(Op::Or(a, b)) => a.0 == net.0 || b.0 == net.0,
        Some(Op::Copy(_)) | Some(Op::Not(_)) | Some(Op::And(_, _)) | None => false,
    }
}

// Whether a gate of this operator negates the net.
fn negates(op: Option<Op>, net: NetId) -> bool
    ensures { result ≡ negates op net.0 }
{
    match op {
        Some(Op::Not(a)) => a.0 == net.0,
        Some(Op::Const(_)) | Some(Op::Copy(_)) | Some(Op::And(_, _)) | Some(Op::Or(_, _)) | None =>
            { false }
    }
}
