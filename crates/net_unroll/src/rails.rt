// Two rails for each node: known to be true, and known to be false.

ghost use Rattle.std.specs.Prelude.{◌≡◌, ◌+◌, ◌*◌, length, IfErr, IfOk, IsTrue};
ghost use Rattle.grc_ternary_gates.specs.Systems.{gate_fits};
ghost use Rattle.net_unroll.specs.Copies.{CanUnroll, IsFull, next_number};
ghost use Rattle.net_unroll.specs.Laws.{IsSchedule};
ghost use Rattle.net_unroll.specs.Rails.{CanWatch, IsAlarm, IsUnrolledTwice, Watches, excluded_op, sure_op};

use crate::copies::same_nets;
use crate::growing::{GrowFault, Growing};
use base_types::NetId;
use grc_ternary_gates::Gate;
use net_ir::Op;
use std::alloc::Global;

/// For each node a net that says that it is known to be true, and one that says that it is known to be false.
#[derive(Drop)]
pub struct Rails {
    pub sure: Vec<NetId>,
    pub excluded: Vec<NetId>,
}

// Where a gate is known to be true.
fn sure_op(gate: Gate, sources: &[NetId], rails: &Rails) -> Op
    requires sure { IsTrue (gate_fits (length rails.now.sure.items) (length sources.now) gate) }
    requires excluded { IsTrue (gate_fits (length rails.now.excluded.items) (length sources.now) gate) }
    ensures { result ≡ sure_op sources.now rails.now gate }
{
    match gate {
        Gate::Source(k) => Op::Copy(sources[k]),
        Gate::Same(a) => Op::Copy(rails.sure[a]),
        Gate::Not(a) => Op::Copy(rails.excluded[a]),
        Gate::And(a, b) => Op::And(rails.sure[a], rails.sure[b]),
        Gate::Or(a, b) => Op::Or(rails.sure[a], rails.sure[b]),
    }
}

// Where a gate is known to be false.
fn excluded_op(gate: Gate, sources: &[NetId], rails: &Rails) -> Op
    requires sure { IsTrue (gate_fits (length rails.now.sure.items) (length sources.now) gate) }
    requires excluded { IsTrue (gate_fits (length rails.now.excluded.items) (length sources.now) gate) }
    ensures { result ≡ excluded_op sources.now rails.now gate }
{
    match gate {
        Gate::Source(k) => Op::Not(sources[k]),
        Gate::Same(a) => Op::Copy(rails.excluded[a]),
        Gate::Not(a) => Op::Copy(rails.sure[a]),
        Gate::And(a, b) => Op::Or(rails.excluded[a], rails.excluded[b]),
        Gate::Or(a, b) => Op::And(rails.excluded[a], rails.excluded[b]),
    }
}

// Adds two gates for each place of the schedule: where the node there is known to be true, and where to be false.
fn unroll_twice(
    alloc: Global,
    gates: &mut Growing,
    system: &[Gate],
    sources: &[NetId],
    no: NetId,
    schedule: &[usize],
) -> Result<Rails, GrowFault>
    requires can { CanUnroll gates.old system.now sources.now no schedule.now }
    ensures made { IfOk result (λ r. IsUnrolledTwice gates.old gates.new system.now sources.now r schedule.now) }
    ensures full { IfErr result (λ fault. IsFull fault (next_number gates.old) (2 * length schedule.now)) }
{
    let mut rails = Rails {
        sure: same_nets(alloc, no, system.len())?,
        excluded: same_nets(alloc, no, system.len())?,
    };
    for node in schedule {
        let gate = system[*node];
        let where_true = sure_op(gate, sources, &rails);
        let where_false = excluded_op(gate, sources, &rails);
        let sure = gates.push(where_true)?;
        let excluded = gates.push(where_false)?;
        rails.sure[*node] = sure;
        rails.excluded[*node] = excluded;
    }
    Ok(rails)
}

// A net that says that each watched node is known.
fn watch(gates: &mut Growing, rails: &Rails, watched: &[usize]) -> Result<NetId, GrowFault>
    requires can { CanWatch gates.old rails.now watched.now }
    ensures made { IfOk result (λ n. Watches gates.old gates.new rails.now watched.now n.0) }
    ensures full { IfErr result (λ fault. IsFull fault (next_number gates.old) (2 * length watched.now + 1)) }
{
    let mut whole = gates.push(Op::Const(true))?;
    for node in watched {
        let known = gates.push(Op::Or(rails.sure[*node], rails.excluded[*node]))?;
        whole = gates.push(Op::And(whole, known))?;
    }
    Ok(whole)
}

/// Adds the rails of the nodes along the schedule, and a net that is true where some watched node is unknown at the
/// end of it. `no` is a net that is never true.
pub fn raise_alarm(
    alloc: Global,
    gates: &mut Growing,
    system: &[Gate],
    sources: &[NetId],
    no: NetId,
    schedule: &[usize],
    watched: &[usize],
) -> Result<NetId, GrowFault>
    requires can { CanUnroll gates.old system.now sources.now no schedule.now }
    requires watched { IsSchedule system.now watched.now }
    ensures made { IfOk result (λ n. IsAlarm gates.old gates.new system.now sources.now schedule.now watched.now n.0) }
    ensures full { IfErr result (λ fault. IsFull fault (next_number gates.old)
        (2 * length schedule.now + (2 * length watched.now + 2))) }
{
    let rails = unroll_twice(alloc, gates, system, sources, no, schedule)?;
    let whole = watch(gates, &rails, watched)?;
    let alarm = gates.push(Op::Not(whole))?;
    Ok(alarm)
}
