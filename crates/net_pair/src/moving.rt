// Where the latches and gates of a netlist are in a pair.

ghost use Rattle.std.specs.Prelude.{◌≡◌, ◌+◌, ◌<◌, ◌≤◌, ◌^◌, ◌++◌, length, map, All, OnOk};
ghost use Rattle.net_ir.specs.Gates.{ReadsLower, operand_end};
ghost use Rattle.net_pair.specs.Layout.{moved, moved_gate};
ghost use Rattle.net_simp.specs.Renaming.{renamed_latch, renamed_op};

use base_types::{NetId, NoMemory};
use net_ir::{Gate, Latch, Op};

/// How far the nets of a netlist move. Its inputs stay, and its latches and its gates get higher numbers.
#[derive(Clone, Copy)]
pub(crate) struct Shift {
    /// The number of its first latch.
    pub(crate) first_latch: usize,
    /// The number of its first gate.
    pub(crate) first_gate: usize,
    /// How far its latches move.
    pub(crate) latches: usize,
    /// How far its gates move.
    pub(crate) gates: usize,
}

/// How far the nets of two netlists move.
#[derive(Clone, Copy)]
pub(crate) struct Shifts {
    pub(crate) left: Shift,
    pub(crate) right: Shift,
}

/// The net of the pair that a net is.
pub(crate) fn moved(shift: Shift, net: NetId) -> NetId
    requires order { shift.latches ≤ shift.gates }
    requires fits { net.0 + shift.gates < 2 ^ 32 }
    ensures { result.0 ≡ moved shift net.0 }
{
    let number = net.0 as usize;
    if number < shift.first_latch {
        net
    } else if number < shift.first_gate {
        NetId((number + shift.latches) as u32)
    } else {
        NetId((number + shift.gates) as u32)
    }
}

// An operator over the nets of the pair.
fn moved_op(shift: Shift, op: Op) -> Op
    requires order { shift.latches ≤ shift.gates }
    requires fits { operand_end op + shift.gates ≤ 2 ^ 32 }
    ensures { result ≡ renamed_op (moved shift) op }
{
    match op {
        Op::Const(value) => Op::Const(value),
        Op::Copy(a) => Op::Copy(moved(shift, a)),
        Op::Not(a) => Op::Not(moved(shift, a)),
        Op::And(a, b) => Op::And(moved(shift, a), moved(shift, b)),
        Op::Or(a, b) => Op::Or(moved(shift, a), moved(shift, b)),
    }
}

/// The gates of a netlist, over the nets of the pair. They carry no wires.
pub(crate) fn push_gates(gates: &mut Vec<Gate>, shift: Shift, own: &[Gate]) -> Result<(), NoMemory>
    requires order { shift.latches ≤ shift.gates }
    requires reads { ReadsLower shift.first_gate own.now }
    requires fits { shift.first_gate + length own.now + shift.gates ≤ 2 ^ 32 }
    ensures { OnOk result (gates.new.items ≡ gates.old.items ++ map (moved_gate (moved shift)) own.now) }
{
    for gate in own {
        gates.push(Gate {
            op: moved_op(shift, gate.op),
            wire: None,
        })?;
    }
    Ok(())
}

/// The latches of a netlist, over the nets of the pair.
pub(crate) fn push_latches(
    latches: &mut Vec<Latch>,
    shift: Shift,
    own: &[Latch],
) -> Result<(), NoMemory>
    requires order { shift.latches ≤ shift.gates }
    requires fits { All (λ l. l.from.0 + shift.gates < 2 ^ 32) own.now }
    ensures { OnOk result (latches.new.items ≡ latches.old.items ++ map (renamed_latch (moved shift)) own.now) }
{
    for latch in own {
        latches.push(Latch {
            init: latch.init,
            from: moved(shift, latch.from),
        })?;
    }
    Ok(())
}
