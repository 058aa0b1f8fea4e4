// The depth of a netlist.

ghost use Rattle.std.specs.Prelude.{◌≡◌, ◌<◌, ◌≤◌, ◌^◌, length, slice_index_or, All, IfOk};
ghost use Rattle.net_ir.specs.Gates.{operand_end};
ghost use Rattle.net_ir.specs.Runs.{netlist_of};
ghost use Rattle.blif_net.specs.Depths.{depth_of, greatest, net_depths, op_depth};

use base_types::NoMemory;
use net_ir::{Net, Op};
use std::alloc::Global;

/// The most gates of a netlist that stand one after another.
pub(crate) fn depth_of(alloc: Global, net: &Net) -> Result<u64, NoMemory>
    ensures { IfOk result (λ depth. depth ≡ depth_of (netlist_of net.now)) }
{
    let depths = net_depths(alloc, net)?;
    Ok(greatest(&depths))
}

// For each net, how many gates stand one after another up to it.
fn net_depths(alloc: Global, net: &Net) -> Result<Vec<u64>, NoMemory>
    ensures { IfOk result (λ depths. depths.items ≡ net_depths (netlist_of net.now)) }
{
    let mut depths = vec![in alloc; 0u64; net.inputs.len() + net.latches.len()]?;
    for gate in &net.gates {
        let depth = op_depth(&depths, gate.op);
        depths.push(depth)?;
    }
    Ok(depths)
}

// The same up to what an operator gives.
fn op_depth(depths: &[u64], op: Op) -> u64
    requires reads { operand_end op ≤ length depths.now }
    requires small { All (λ depth. depth < 2 ^ 32) depths.now }
    ensures { result ≡ op_depth (λ n. slice_index_or depths.now n 0) op }
{
    match op {
        Op::Const(_) => 0,
        Op::Copy(a) => depths[a.0 as usize],
        Op::Not(a) => depths[a.0 as usize] + 1,
        Op::And(a, b) | Op::Or(a, b) => depths[a.0 as usize].max(depths[b.0 as usize]) + 1,
    }
}

// The greatest of some numbers, 0 where there is none.
fn greatest(numbers: &[u64]) -> u64
    ensures { result ≡ greatest numbers.now }
{
    let mut most = 0;
    for number in numbers {
        most = most.max(*number);
    }
    most
}
