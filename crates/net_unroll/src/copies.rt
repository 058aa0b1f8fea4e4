// One copy of a node for each place of a schedule.

ghost use Rattle.std.specs.Prelude.{◌≡◌, length, replicate, IfErr, IfOk, IsTrue};
ghost use Rattle.grc_ternary_gates.specs.Systems.{gate_fits};
ghost use Rattle.net_unroll.specs.Copies.{CanUnroll, IsFull, IsUnrolled, next_number, truth_op};

use crate::growing::{GrowFault, Growing};
use base_types::{NetId, NoMemory};
use grc_ternary_gates::Gate;
use net_ir::Op;
use std::alloc::Global;

// A gate of the system over the nets of its sources and the latest copies of its nodes.
fn truth_op(gate: Gate, sources: &[NetId], copies: &[NetId]) -> Op
    requires { IsTrue (gate_fits (length copies.now) (length sources.now) gate) }
    ensures { result ≡ truth_op sources.now copies.now gate }
{
    match gate {
        Gate::Source(k) => Op::Copy(sources[k]),
        Gate::Same(a) => Op::Copy(copies[a]),
        Gate::Not(a) => Op::Not(copies[a]),
        Gate::And(a, b) => Op::And(copies[a], copies[b]),
        Gate::Or(a, b) => Op::Or(copies[a], copies[b]),
    }
}

/// The same net for each of `count` nodes. The error is out of memory.
pub(crate) fn same_nets(alloc: Global, net: NetId, count: usize) -> Result<Vec<NetId>, NoMemory>
    ensures { IfOk result (λ nets. nets.items ≡ replicate count net) }
{
    Ok(vec![in alloc; net; count]?)
}

/// Adds a gate for each place of the schedule, which computes the gate of the node there from the latest copies. The
/// first copy of each node is `no`, a net that is never true. It gives the latest copies.
pub fn unroll(
    alloc: Global,
    gates: &mut Growing,
    system: &[Gate],
    sources: &[NetId],
    no: NetId,
    schedule: &[usize],
) -> Result<Vec<NetId>, GrowFault>
    requires can { CanUnroll gates.old system.now sources.now no schedule.now }
    ensures made { IfOk result (λ copies.
        IsUnrolled gates.old gates.new system.now sources.now copies.items schedule.now) }
    ensures full { IfErr result (λ fault. IsFull fault (next_number gates.old) (length schedule.now)) }
{
    let mut copies = same_nets(alloc, no, system.len())?;
    for node in schedule {
        let op = truth_op(system[*node], sources, &copies);
        let copy = gates.push(op)?;
        copies[*node] = copy;
    }
    Ok(copies)
}
