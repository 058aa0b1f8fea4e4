// Gates, and the nets that stand for others.

ghost use Rattle.std.specs.Prelude.{◌≡◌, ◌+◌, ◌<◌, ◌≤◌, ◌^◌, length, IfOk};
ghost use Rattle.net_ir.specs.Gates.{operand_end};
ghost use Rattle.net_simp.specs.Renaming.{stand_in, renamed_op, OwnNames};
ghost use Rattle.net_simp.specs.Rules.{op_at};

use base_types::{NetId, NoMemory};
use net_ir::{Gate, Op};
use std::alloc::Global;

/// The operator of a net's gate, where `first` is the number of the first gate. None where the net is an input or
/// a latch.
pub(crate) fn op_at(first: usize, gates: &[Gate], net: NetId) -> Option<Op>
    requires { net.0 < first + length gates.now }
    ensures { result ≡ op_at first gates.now net.0 }
{
    let number = net.0 as usize;
    if number < first {
        None
    } else {
        Some(gates[number - first].op)
    }
}

/// The net that stands for a net.
pub fn stand_in(names: &[NetId], net: NetId) -> NetId
    requires { net.0 < length names.now }
    ensures { result.0 ≡ stand_in names.now net.0 }
{
    names[net.0 as usize]
}

/// The operator over the nets that stand for those that it reads.
pub fn renamed_op(names: &[NetId], op: Op) -> Op
    requires { operand_end op ≤ length names.now }
    ensures { result ≡ renamed_op (stand_in names.now) op }
{
    match op {
        Op::Const(value) => Op::Const(value),
        Op::Copy(a) => Op::Copy(stand_in(names, a)),
        Op::Not(a) => Op::Not(stand_in(names, a)),
        Op::And(a, b) => Op::And(stand_in(names, a), stand_in(names, b)),
        Op::Or(a, b) => Op::Or(stand_in(names, a), stand_in(names, b)),
    }
}

/// As many nets, of which each stands for itself.
pub(crate) fn own_names(alloc: Global, count: usize) -> Result<Vec<NetId>, NoMemory>
    requires { count ≤ 2 ^ 32 }
    ensures count { IfOk result (λ v. length v.items ≡ count) }
    ensures own { IfOk result (λ v. OwnNames v.items) }
{
    let mut names = Vec::new(alloc);
    for net in 0..count {
        names.push(NetId(net as u32))?;
    }
    Ok(names)
}
