// Whether two texts do the same.

ghost use Rattle.std.specs.Prelude.{◌≤◌, ℕ, List, length, IfOk};
ghost use Rattle.base_types.specs.Stops.{FaultIs, IfFault};
ghost use Rattle.net_ir.specs.Netlists.{Netlist};
ghost use Rattle.net_ir.specs.Runs.{netlist_of};
ghost use Rattle.cec_opt_texts.specs.Faults.{IsOptFault};
ghost use Rattle.cec_opt_texts.specs.Optimized.{IsTextNet};
ghost use Rattle.cec_prove_texts.specs.Faults.{IsPairFault};
ghost use Rattle.cec_prove_texts.specs.Sameness.{HasTextComparison};

use crate::fault::PairFault;
use base_types::{Limits, Stop};
use blif_read::BlifFault;
use cec_opt_texts::text_net;
use cec_prove_sources::{Comparison, device_comparison};
use net_ir::Net;
use std::alloc::Global;

// The first text has this fault.
fn first_stop(stop: Stop<BlifFault>) -> Stop<PairFault>
    ensures { (first second : List ℕ) → FaultIs (IsOptFault first) stop → FaultIs (IsPairFault first second) result }
{
    match stop {
        Stop::Fault(fault) => Stop::Fault(PairFault::First(fault)),
        Stop::NoMemory => Stop::NoMemory,
    }
}

// The first text has a netlist, and the second text has this fault.
fn second_stop(stop: Stop<BlifFault>) -> Stop<PairFault>
    ensures { (first second : List ℕ) (net : Netlist) → IsTextNet first net → FaultIs (IsOptFault second) stop
        → FaultIs (IsPairFault first second) result }
{
    match stop {
        Stop::Fault(fault) => Stop::Fault(PairFault::Second(fault)),
        Stop::NoMemory => Stop::NoMemory,
    }
}

// The netlist of the first of two texts.
fn first_net(alloc: Global, first: &[u8], second: &[u8]) -> Result<Net, Stop<PairFault>>
    requires { length first.now ≤ Limits.TEXT_BYTES }
    ensures net { IfOk result (λ net. IsTextNet first.now (netlist_of net)) }
    ensures fault { IfFault result (IsPairFault first.now second.now) }
{
    match text_net(alloc, first) {
        Ok(net) => Ok(net),
        Err(stop) => Err(first_stop(stop)),
    }
}

// The netlist of the second of two texts, the first of which has this netlist.
fn second_net(
    alloc: Global,
    left: &Net,
    first: &[u8],
    second: &[u8],
) -> Result<Net, Stop<PairFault>>
    requires short { length second.now ≤ Limits.TEXT_BYTES }
    requires first { IsTextNet first.now (netlist_of left.now) }
    ensures net { IfOk result (λ net. IsTextNet second.now (netlist_of net)) }
    ensures fault { IfFault result (IsPairFault first.now second.now) }
{
    match text_net(alloc, second) {
        Ok(net) => Ok(net),
        Err(stop) => Err(second_stop(stop)),
    }
}

/// Whether two BLIF texts do the same. `Same` is proved. It is about every list of events with one value for each
/// input, and resets: both circuits have a run, and all runs of both show the same values of the outputs, `_paused`
/// among them. `Different` has a trace, and the last instants of it differ. The names of the inputs must be the same,
/// and those of the outputs, each in order; else the answer is the first of these that differs. `Open` says nothing
/// more.
///
/// The fault is the first one of the first text, or that of its circuit, and otherwise the same of the second text. Out
/// of memory is the only other error.
pub fn text_comparison_of(
    alloc: Global,
    first: &[u8],
    second: &[u8],
    effort: u64,
) -> Result<Comparison, Stop<PairFault>>
    requires first { length first.now ≤ Limits.TEXT_BYTES }
    requires second { length second.now ≤ Limits.TEXT_BYTES }
    ensures compares { IfOk result (HasTextComparison first.now second.now) }
    ensures fault { IfFault result (IsPairFault first.now second.now) }
{
    let left = first_net(alloc, first, second)?;
    let right = second_net(alloc, &left, first, second)?;
    let comparison = device_comparison(alloc, &[], &left, &[], &right, effort)?;
    Ok(comparison)
}
