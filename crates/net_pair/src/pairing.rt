// The pair of two netlists.

ghost use Rattle.std.specs.Prelude.{◌≡◌, ◌+◌, ◌<◌, ◌≤◌, ◌^◌, length, true, false, IfOk, IfSome, Ok, None};
ghost use Rattle.net_ir.specs.Runs.{netlist_of};
ghost use Rattle.net_pair.specs.Layout.{different_net, pair_gates, pair_net};
ghost use Rattle.net_pair.specs.Pairs.{IsPair, pair_count};

use crate::assembling::{Names, Parts, false_net, names_of, parts_of};
use base_types::{NetId, NoMemory};
use net_ir::Net;
use std::alloc::Global;

// Whether a pair has at most 2^32 nets.
fn is_small(left: &Net, right: &Net) -> bool
    ensures small { result ≡ true → pair_count (netlist_of left.now) (netlist_of right.now) ≤ 2 ^ 32 }
    ensures large { result ≡ false → 2 ^ 32 < pair_count (netlist_of left.now) (netlist_of right.now) }
{
    left.outputs.len() < 0x1_0000_0000
        && false_net(left, right) + 6 + 5 * left.outputs.len() <= 0x1_0000_0000
}

// The netlist of names and parts.
fn joined_net(left: &Net, right: &Net, names: Names, parts: Parts) -> Net
    requires inputs { length left.now.inputs.items ≡ length right.now.inputs.items }
    requires outputs { length left.now.outputs.items ≡ length right.now.outputs.items }
    requires few { pair_count (netlist_of left.now) (netlist_of right.now) ≤ 2 ^ 32 }
    requires name { names.name ≡ left.now.name }
    requires own_inputs { names.inputs.items ≡ left.now.inputs.items }
    requires own_outputs { names.outputs.items ≡ (pair_net (netlist_of left.now) (netlist_of right.now)).outputs }
    requires latches { parts.latches.items ≡ (pair_net (netlist_of left.now) (netlist_of right.now)).latches }
    requires gates { parts.gates.items ≡ pair_gates (netlist_of left.now) (netlist_of right.now) }
    ensures { netlist_of result ≡ pair_net (netlist_of left.now) (netlist_of right.now) }
{
    let paused = different_net(left, right);
    Net {
        name: names.name,
        inputs: names.inputs,
        outputs: names.outputs,
        paused,
        latches: parts.latches,
        gates: parts.gates,
    }
}

// The last gate of the pair.
fn different_net(left: &Net, right: &Net) -> NetId
    requires few { pair_count (netlist_of left.now) (netlist_of right.now) ≤ 2 ^ 32 }
    ensures { result.0 ≡ different_net (netlist_of left.now) (netlist_of right.now) }
{
    NetId((false_net(left, right) + 5 * (left.outputs.len() + 1)) as u32)
}

/// The netlist that runs two netlists with the same number of inputs and of outputs over the same items. Its one output
/// says in each instant whether they differ: in an output, or in `paused`. None exactly where it has more than 2^32
/// nets. The only error is running out of memory. It takes time linear in the two netlists.
pub fn paired_net(alloc: Global, left: &Net, right: &Net) -> Result<Option<Net>, NoMemory>
    requires inputs { length left.now.inputs.items ≡ length right.now.inputs.items }
    requires outputs { length left.now.outputs.items ≡ length right.now.outputs.items }
    ensures pair { IfOk result (λ o. IfSome o
        (λ n. IsPair (netlist_of left.now) (netlist_of right.now) (netlist_of n))) }
    ensures large { result ≡ Ok None → 2 ^ 32 < pair_count (netlist_of left.now) (netlist_of right.now) }
{
    if !is_small(left, right) {
        return Ok(None);
    }
    let parts = parts_of(alloc, left, right)?;
    let names = names_of(alloc, left, different_net(left, right))?;
    Ok(Some(joined_net(left, right, names, parts)))
}
