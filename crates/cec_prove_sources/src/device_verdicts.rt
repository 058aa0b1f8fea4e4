// Whether a claim about an output of a netlist whose inputs have relations holds.

ghost use Rattle.std.specs.Prelude.{map, IfOk};
ghost use Rattle.base_types.specs.Relations.{relation_of};
ghost use Rattle.net_ir.specs.Netlists.{output_names};
ghost use Rattle.net_ir.specs.Runs.{netlist_of};
ghost use Rattle.cec_prove_sources.specs.DeviceVerdicts.{AsksDevice, IsDeviceVerdict};
ghost use Rattle.cec_prove_sources.specs.NetDevices.{RelatesInputs, device_of};
ghost use Rattle.cec_prove_sources.specs.Verdicts.{HasPlace};
ghost use Rattle.cec_prove_sources.specs.Views.{plain_question};

use crate::device_findings::{PlacedQuestion, device_finding};
use crate::places::output_place;
use crate::questions::{Finding, Layout, Question, Verdict};
use base_types::{InputRelation, NoMemory};
use net_ir::Net;
use net_opt::optimize;
use std::alloc::Global;

// The answer about the outputs with these places.
fn decided(
    alloc: Global,
    relations: &[InputRelation],
    net: &Net,
    question: Question<'_>,
    place: usize,
    assumed: Option<usize>,
    effort: u64,
) -> Result<Verdict, NoMemory>
    requires fits { RelatesInputs (map relation_of relations.now) (netlist_of net.now) }
    requires asks { AsksDevice (device_of relations.now net.now) (plain_question question) place assumed }
    ensures { IfOk result (IsDeviceVerdict (device_of relations.now net.now) (plain_question question.entry)) }
{
    let asked = PlacedQuestion {
        question,
        place,
        assumed,
        layout: Layout::LinePerInstant,
    };
    match device_finding(alloc, relations, net, asked, effort)? {
        Finding::Holds => Ok(Verdict::Holds),
        Finding::Broken(trace) => Ok(Verdict::Broken(trace)),
        Finding::Open(depth) => Ok(Verdict::Open(depth)),
    }
}

// The answer about the output with this place.
fn placed_verdict(
    alloc: Global,
    relations: &[InputRelation],
    net: &Net,
    question: Question<'_>,
    place: usize,
    effort: u64,
) -> Result<Verdict, NoMemory>
    requires fits { RelatesInputs (map relation_of relations.now) (netlist_of net.now) }
    requires signal { HasPlace (output_names (netlist_of net.now)) question.signal.now place }
    ensures { IfOk result (IsDeviceVerdict (device_of relations.now net.now) (plain_question question.entry)) }
{
    let Some(name) = question.assumed else {
        return decided(alloc, relations, net, question, place, None, effort);
    };
    match output_place(net, name) {
        None => Ok(Verdict::NoAssumed),
        Some(at) => decided(alloc, relations, net, question, place, Some(at), effort),
    }
}

/// The answer to a question about an output of a netlist whose inputs have these relations. The effort is one of
/// `net_search`. The error is out of memory.
pub(crate) fn device_verdict(
    alloc: Global,
    relations: &[InputRelation],
    net: &Net,
    question: Question<'_>,
    effort: u64,
) -> Result<Verdict, NoMemory>
    requires fits { RelatesInputs (map relation_of relations.now) (netlist_of net.now) }
    ensures { IfOk result (IsDeviceVerdict (device_of relations.now net.now) (plain_question question.entry)) }
{
    match output_place(net, question.signal) {
        None => Ok(Verdict::NoSignal),
        Some(place) => placed_verdict(alloc, relations, net, question, place, effort),
    }
}

// The answer by the optimized netlist.
fn small_verdict(
    alloc: Global,
    relations: &[InputRelation],
    net: &Net,
    question: Question<'_>,
    effort: u64,
) -> Result<Verdict, NoMemory>
    requires fits { RelatesInputs (map relation_of relations.now) (netlist_of net.now) }
    ensures { IfOk result (IsDeviceVerdict (device_of relations.now net.now) (plain_question question.entry)) }
{
    let small = optimize(alloc, net)?;
    device_verdict(alloc, relations, &small, question, effort)
}

/// What `device_verdict` says, by a netlist, and by the optimized one where a third of the effort was not enough.
pub fn made_verdict(
    alloc: Global,
    relations: &[InputRelation],
    net: &Net,
    question: Question<'_>,
    effort: u64,
) -> Result<Verdict, NoMemory>
    requires fits { RelatesInputs (map relation_of relations.now) (netlist_of net.now) }
    ensures { IfOk result (IsDeviceVerdict (device_of relations.now net.now) (plain_question question.entry)) }
{
    match device_verdict(alloc, relations, net, question, effort / 3) {
        Ok(Verdict::Open(_)) => small_verdict(alloc, relations, net, question, effort / 3 * 2),
        others => others,
    }
}
