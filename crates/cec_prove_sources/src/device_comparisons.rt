// Whether two netlists whose inputs have relations do the same.

ghost use Rattle.std.specs.Prelude.{◌≡◌, length, map, None, IfOk, IfSome, IsTrue};
ghost use Rattle.base_types.specs.Relations.{relation_of};
ghost use Rattle.net_ir.specs.Runs.{netlist_of};
ghost use Rattle.net_never.specs.Reached.{events_of, is_reached};
ghost use Rattle.net_pair.specs.Pairs.{IsPair};
ghost use Rattle.cec_prove_sources.specs.DeviceSameness.{IsDeviceComparison, SharesNames};
ghost use Rattle.cec_prove_sources.specs.NetClaims.{allowed_clauses, bad_literal};
ghost use Rattle.cec_prove_sources.specs.NetDevices.{RelatesInputs, device_of};
ghost use Rattle.cec_prove_sources.specs.PairRuns.{IsSmallPair};

use crate::device_findings::{allowed_clauses, bad_literal};
use crate::interfaces::{are_same_names, are_same_outputs, are_same_relations};
use crate::questions::{Claim, Comparison, Layout};
use crate::reading::readable_trace;
use base_types::{InputRelation, NoMemory};
use net_ir::Net;
use net_opt::optimize;
use net_pair::paired_net;
use net_search::{Decision, decide};
use std::alloc::Global;

// The comparison where events lead to an instant that differs by the netlist of both. They are tested against the
// relations, and the trace is read again.
fn different_by(
    alloc: Global,
    relations: &[InputRelation],
    left: &Net,
    right: &Net,
    net: &Net,
    events: &[Vec<bool>],
) -> Result<Comparison, NoMemory>
    requires names { SharesNames (device_of relations.now left.now) (device_of relations.now right.now) }
    requires pair { IsPair (netlist_of left.now) (netlist_of right.now) (netlist_of net.now) }
    requires reached { IsTrue (is_reached (netlist_of net.now)
        (allowed_clauses (map relation_of relations.now) net.now.outputs.items None)
        (bad_literal net.now.outputs.items Claim.Never 0) (events_of events.now)) }
    ensures { IfOk result
        (IsDeviceComparison (device_of relations.now left.now) (device_of relations.now right.now)) }
{
    let width = left.inputs.len();
    match readable_trace(
        alloc,
        relations,
        width,
        left,
        Layout::LinePerInstant,
        events,
    )? {
        Some(trace) => Ok(Comparison::Different(trace)),
        None => Ok(Comparison::Open(0)),
    }
}

// The comparison by the netlist of both.
fn decided(
    alloc: Global,
    relations: &[InputRelation],
    left: &Net,
    right: &Net,
    net: &Net,
    effort: u64,
) -> Result<Comparison, NoMemory>
    requires fits { RelatesInputs (map relation_of relations.now) (netlist_of left.now) }
    requires names { SharesNames (device_of relations.now left.now) (device_of relations.now right.now) }
    requires pair { IsPair (netlist_of left.now) (netlist_of right.now) (netlist_of net.now) }
    ensures { IfOk result
        (IsDeviceComparison (device_of relations.now left.now) (device_of relations.now right.now)) }
{
    let allowed = allowed_clauses(alloc, relations, net, None)?;
    let bad = bad_literal(net, Claim::Never, 0);
    match decide(alloc, net, &allowed, bad, effort)? {
        Decision::Never => Ok(Comparison::Same),
        Decision::Reached(events) => different_by(alloc, relations, left, right, net, &events),
        Decision::Unknown(depth) => Ok(Comparison::Open(depth)),
    }
}

// The optimized pair of two netlists; none where it has too many nets.
fn small_pair(alloc: Global, left: &Net, right: &Net) -> Result<Option<Net>, NoMemory>
    requires inputs { length left.now.inputs.items ≡ length right.now.inputs.items }
    requires outputs { length left.now.outputs.items ≡ length right.now.outputs.items }
    ensures { IfOk result (λ o. IfSome o
        (λ net. IsSmallPair (netlist_of left.now) (netlist_of right.now) (netlist_of net))) }
{
    let small_left = optimize(alloc, left)?;
    let small_right = optimize(alloc, right)?;
    match paired_net(alloc, &small_left, &small_right)? {
        None => Ok(None),
        Some(net) => Ok(Some(optimize(alloc, &net)?)),
    }
}

// The comparison of two netlists with the same names and relations.
fn paired(
    alloc: Global,
    relations: &[InputRelation],
    left: &Net,
    right: &Net,
    effort: u64,
) -> Result<Comparison, NoMemory>
    requires fits { RelatesInputs (map relation_of relations.now) (netlist_of left.now) }
    requires names { SharesNames (device_of relations.now left.now) (device_of relations.now right.now) }
    ensures { IfOk result
        (IsDeviceComparison (device_of relations.now left.now) (device_of relations.now right.now)) }
{
    match small_pair(alloc, left, right)? {
        None => Ok(Comparison::Open(0)),
        Some(net) => decided(alloc, relations, left, right, &net, effort),
    }
}

/// The comparison of two netlists whose inputs have relations. The names of the inputs, those of the outputs and the
/// relations must be the same, each in order; else the answer is the first of these that differs. The effort is one of
/// `net_search`. The error is out of memory.
pub fn device_comparison(
    alloc: Global,
    relations: &[InputRelation],
    left: &Net,
    others: &[InputRelation],
    right: &Net,
    effort: u64,
) -> Result<Comparison, NoMemory>
    requires fits { RelatesInputs (map relation_of relations.now) (netlist_of left.now) }
    ensures { IfOk result
        (IsDeviceComparison (device_of relations.now left.now) (device_of others.now right.now)) }
{
    if !are_same_names(&left.inputs, &right.inputs) {
        return Ok(Comparison::OtherGiven);
    }
    if !are_same_outputs(&left.outputs, &right.outputs) {
        return Ok(Comparison::OtherOutgoing);
    }
    if !are_same_relations(relations, others) {
        return Ok(Comparison::OtherRelations);
    }
    paired(alloc, relations, left, right, effort)
}
