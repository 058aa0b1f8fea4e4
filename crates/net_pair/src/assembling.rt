// The parts of a pair.

ghost use Rattle.std.specs.Prelude.{◌≡◌, ◌+◌, ◌≤◌, ◌^◌, [], ◌∷◌, codes, length, IfOk};
ghost use Rattle.net_ir.specs.Runs.{netlist_of};
ghost use Rattle.net_pair.specs.Layout.{different_net, false_net, left_shift, net_id, pair_gates, pair_net};
ghost use Rattle.net_pair.specs.Layout.{right_shift};
ghost use Rattle.net_pair.specs.Pairs.{pair_count};

use crate::comparing::{compared_nets, push_comparisons, push_op};
use crate::moving::{Shift, Shifts, push_gates, push_latches};
use base_types::{NetId, NoMemory, Text};
use net_ir::{Gate, Latch, Net, NetOut, Op};
use net_simp::copied_names;
use std::alloc::Global;

// How far the nets of two netlists move.
fn shifts_of(left: &Net, right: &Net) -> Shifts
    ensures left { result.left ≡ left_shift (netlist_of left.now) (netlist_of right.now) }
    ensures right { result.right ≡ right_shift (netlist_of left.now) (netlist_of right.now) }
{
    Shifts {
        left: Shift {
            first_latch: left.inputs.len(),
            first_gate: left.inputs.len() + left.latches.len(),
            latches: 0,
            gates: right.latches.len(),
        },
        right: Shift {
            first_latch: right.inputs.len(),
            first_gate: right.inputs.len() + right.latches.len(),
            latches: left.latches.len(),
            gates: left.latches.len() + left.gates.len(),
        },
    }
}

/// The number of the gate that is false, after the gates of both netlists.
pub(crate) fn false_net(left: &Net, right: &Net) -> usize
    ensures { result ≡ false_net (netlist_of left.now) (netlist_of right.now) }
{
    left.inputs.len()
        + left.latches.len()
        + right.latches.len()
        + left.gates.len()
        + right.gates.len()
}

// The gates of both netlists, one gate that is false, and those that compare.
fn pair_gates(alloc: Global, left: &Net, right: &Net) -> Result<Vec<Gate>, NoMemory>
    requires inputs { length left.now.inputs.items ≡ length right.now.inputs.items }
    requires outputs { length left.now.outputs.items ≡ length right.now.outputs.items }
    requires few { pair_count (netlist_of left.now) (netlist_of right.now) ≤ 2 ^ 32 }
    ensures { IfOk result (λ v. v.items ≡ pair_gates (netlist_of left.now) (netlist_of right.now)) }
{
    let shifts = shifts_of(left, right);
    let pairs = compared_nets(alloc, shifts, left, right)?;
    let mut gates = Vec::new(alloc);
    push_gates(&mut gates, shifts.left, &left.gates)?;
    push_gates(&mut gates, shifts.right, &right.gates)?;
    push_op(&mut gates, Op::Const(false))?;
    push_comparisons(&mut gates, false_net(left, right), &pairs)?;
    Ok(gates)
}

// The latches of both netlists.
fn pair_latches(alloc: Global, left: &Net, right: &Net) -> Result<Vec<Latch>, NoMemory>
    requires inputs { length left.now.inputs.items ≡ length right.now.inputs.items }
    requires few { pair_count (netlist_of left.now) (netlist_of right.now) ≤ 2 ^ 32 }
    ensures { IfOk result (λ v. v.items ≡ (pair_net (netlist_of left.now) (netlist_of right.now)).latches) }
{
    let shifts = shifts_of(left, right);
    let mut latches = Vec::new(alloc);
    push_latches(&mut latches, shifts.left, &left.latches)?;
    push_latches(&mut latches, shifts.right, &right.latches)?;
    Ok(latches)
}

/// The latches and gates of a pair.
#[derive(Drop)]
pub(crate) struct Parts {
    pub(crate) latches: Vec<Latch>,
    pub(crate) gates: Vec<Gate>,
}

/// The latches and gates of the pair.
pub(crate) fn parts_of(alloc: Global, left: &Net, right: &Net) -> Result<Parts, NoMemory>
    requires inputs { length left.now.inputs.items ≡ length right.now.inputs.items }
    requires outputs { length left.now.outputs.items ≡ length right.now.outputs.items }
    requires few { pair_count (netlist_of left.now) (netlist_of right.now) ≤ 2 ^ 32 }
    ensures latches { IfOk result (λ p. p.latches.items
        ≡ (pair_net (netlist_of left.now) (netlist_of right.now)).latches) }
    ensures gates { IfOk result (λ p. p.gates.items ≡ pair_gates (netlist_of left.now) (netlist_of right.now)) }
{
    let gates = pair_gates(alloc, left, right)?;
    Ok(Parts {
        latches: pair_latches(alloc, left, right)?,
        gates,
    })
}

/// The names of a pair.
#[derive(Drop)]
pub(crate) struct Names {
    pub(crate) name: Text,
    pub(crate) inputs: Vec<Text>,
    pub(crate) outputs: Vec<NetOut>,
}

// The one output.
fn outputs_of(alloc: Global, different: NetId) -> Result<Vec<NetOut>, NoMemory>
    ensures { IfOk result (λ v. v.items ≡ record { name = codes "DIFFERENT"; net = different } ∷ []) }
{
    let mut outputs = Vec::new(alloc);
    outputs.push(NetOut {
        name: Text::from_bytes(alloc, b"DIFFERENT")?,
        net: different,
    })?;
    Ok(outputs)
}

/// The names of the pair: that of the first netlist, those of its inputs, and that of the one output.
pub(crate) fn names_of(alloc: Global, left: &Net, different: NetId) -> Result<Names, NoMemory>
    ensures name { IfOk result (λ n. n.name ≡ left.now.name) }
    ensures inputs { IfOk result (λ n. n.inputs.items ≡ left.now.inputs.items) }
    ensures outputs { IfOk result (λ n. n.outputs.items ≡ record { name = codes "DIFFERENT"; net = different } ∷ []) }
{
    let inputs = copied_names(alloc, &left.inputs)?;
    let outputs = outputs_of(alloc, different)?;
    Ok(Names {
        name: Text::from_bytes(alloc, left.name.bytes())?,
        inputs,
        outputs,
    })
}
