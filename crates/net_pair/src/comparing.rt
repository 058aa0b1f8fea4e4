// Gates that compare nets.

ghost use Rattle.std.specs.Prelude.{◌≡◌, ◌+◌, ◌*◌, ◌<◌, ◌≤◌, ◌^◌, ◌++◌, [], ◌∷◌, length, IfOk, OnOk};
ghost use Rattle.net_ir.specs.Netlists.{net_count};
ghost use Rattle.net_ir.specs.Runs.{netlist_of};
ghost use Rattle.net_pair.specs.Layout.{both_nets, compared_nets, comparison, comparisons, moved, silent_gate};

use crate::moving::{Shifts, moved};
use base_types::{NetId, NoMemory};
use net_ir::{Gate, Net, Op};
use std::alloc::Global;

/// Two nets of a pair that are compared.
#[derive(Clone, Copy)]
pub(crate) struct Both {
    pub(crate) left: NetId,
    pub(crate) right: NetId,
}

/// A gate that carries no wire.
pub(crate) fn push_op(gates: &mut Vec<Gate>, op: Op) -> Result<(), NoMemory>
    ensures { OnOk result (gates.new.items ≡ gates.old.items ++ silent_gate op ∷ []) }
{
    gates.push(Gate { op, wire: None })?;
    Ok(())
}

// The gates that compare two nets. The net `last` says whether nets before differ, and the last of the gates says it of
// these too.
fn push_comparison(gates: &mut Vec<Gate>, last: usize, both: Both) -> Result<(), NoMemory>
    requires { last + 5 < 2 ^ 32 }
    ensures { OnOk result (gates.new.items ≡ gates.old.items ++ comparison last both) }
{
    let first = last as u32;
    push_op(gates, Op::Or(both.left, both.right))?;
    push_op(gates, Op::And(both.left, both.right))?;
    push_op(gates, Op::Not(NetId(first + 2)))?;
    push_op(gates, Op::And(NetId(first + 1), NetId(first + 3)))?;
    push_op(gates, Op::Or(NetId(first), NetId(first + 4)))
}

/// The gates that compare nets two by two, where the net `last` is false. The last of the gates is true where two
/// differ.
pub(crate) fn push_comparisons(
    gates: &mut Vec<Gate>,
    last: usize,
    pairs: &[Both],
) -> Result<(), NoMemory>
    requires { last + 5 * length pairs.now < 2 ^ 32 }
    ensures { OnOk result (gates.new.items ≡ gates.old.items ++ comparisons last pairs.now) }
{
    for (k, both) in pairs.iter().enumerate() {
        push_comparison(gates, last + 5 * k, *both)?;
    }
    Ok(())
}

/// The nets of outputs two by two, and then those of `paused`.
pub(crate) fn compared_nets(
    alloc: Global,
    shifts: Shifts,
    left: &Net,
    right: &Net,
) -> Result<Vec<Both>, NoMemory>
    requires order { shifts.left.latches ≤ shifts.left.gates }
    requires right_order { shifts.right.latches ≤ shifts.right.gates }
    requires fits { net_count (netlist_of left.now) + shifts.left.gates ≤ 2 ^ 32 }
    requires right_fits { net_count (netlist_of right.now) + shifts.right.gates ≤ 2 ^ 32 }
    requires outputs { length left.now.outputs.items ≡ length right.now.outputs.items }
    ensures { IfOk result (λ v. v.items
        ≡ compared_nets (moved shifts.left) (moved shifts.right) (netlist_of left.now) (netlist_of right.now)) }
{
    let mut pairs = Vec::with_capacity(alloc, left.outputs.len())?;
    for (k, output) in left.outputs.iter().enumerate() {
        pairs.push(moved_both(shifts, output.net, right.outputs[k].net))?;
    }
    pairs.push(moved_both(shifts, left.paused, right.paused))?;
    Ok(pairs)
}

// A net of each netlist, as nets of the pair.
fn moved_both(shifts: Shifts, left: NetId, right: NetId) -> Both
    requires order { shifts.left.latches ≤ shifts.left.gates }
    requires right_order { shifts.right.latches ≤ shifts.right.gates }
    requires fits { left.0 + shifts.left.gates < 2 ^ 32 }
    requires right_fits { right.0 + shifts.right.gates < 2 ^ 32 }
    ensures { result ≡ both_nets (moved shifts.left left.0) (moved shifts.right right.0) }
{
    Both {
        left: moved(shifts.left, left),
        right: moved(shifts.right, right),
    }
}
