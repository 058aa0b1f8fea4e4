// What is asked of a netlist whose inputs have relations, and what is found.

ghost use Rattle.std.specs.Prelude.{◌≡◌, [], ◌∷◌, ◌++◌, true, map, IfOk, IsTrue, OnOk};
ghost use Rattle.base_types.specs.Relations.{relation_of};
ghost use Rattle.net_ir.specs.Runs.{netlist_of};
ghost use Rattle.sat_kernel.specs.Clauses.{plain_assumed};
ghost use Rattle.net_never.specs.GateClauses.{signed};
ghost use Rattle.net_never.specs.Reached.{events_of, is_reached};
ghost use Rattle.cec_prove_sources.specs.Claims.{claimed};
ghost use Rattle.cec_prove_sources.specs.DeviceFindings.{IsDeviceFinding};
ghost use Rattle.cec_prove_sources.specs.DeviceVerdicts.{AsksDevice};
ghost use Rattle.cec_prove_sources.specs.NetClaims.{allowed_clauses, assumed_clauses, bad_literal};
ghost use Rattle.cec_prove_sources.specs.NetDevices.{RelatesInputs, device_of};
ghost use Rattle.cec_prove_sources.specs.Views.{plain_question};

use crate::places::output_net;
use crate::questions::{Claim, Finding, Layout, Question};
use crate::reading::readable_trace;
use crate::relations::push_relations;
use base_types::{InputRelation, NoMemory};
use net_ir::Net;
use net_search::{Decision, decide};
use sat_kernel::{Clause, Literal};
use std::alloc::Global;

/// A question with the places of its signals, and the layout of a trace that answers it.
#[derive(Clone, Copy)]
pub struct PlacedQuestion<'a> {
    pub question: Question<'a>,
    pub place: usize,
    pub assumed: Option<usize>,
    pub layout: Layout,
}

// Whether the signal of a claim is present.
fn claimed(claim: Claim) -> bool
    ensures { result ≡ claimed claim }
{
    match claim {
        Claim::Never => false,
        Claim::Always => true,
    }
}

/// What breaks a claim about the output with this place.
pub(crate) fn bad_literal(net: &Net, claim: Claim, place: usize) -> Literal
    ensures { result ≡ bad_literal net.now.outputs.items claim place }
{
    Literal {
        variable: output_net(&net.outputs, place),
        positive: !claimed(claim),
    }
}

/// The clauses of the relations, and of the output that is assumed.
pub(crate) fn allowed_clauses(
    alloc: Global,
    relations: &[InputRelation],
    net: &Net,
    assumed: Option<usize>,
) -> Result<Vec<Clause>, NoMemory>
    ensures { IfOk result (λ list. plain_assumed list.items
        ≡ allowed_clauses (map relation_of relations.now) net.now.outputs.items assumed) }
{
    let mut list = Vec::new(alloc);
    push_relations(alloc, &mut list, relations)?;
    push_assumed(alloc, &mut list, net, assumed)?;
    Ok(list)
}

// The output that is assumed is true.
fn push_assumed(
    alloc: Global,
    list: &mut Vec<Clause>,
    net: &Net,
    assumed: Option<usize>,
) -> Result<(), NoMemory>
    ensures { OnOk result (plain_assumed list.new.items
        ≡ plain_assumed list.old.items ++ assumed_clauses net.now.outputs.items assumed) }
{
    match assumed {
        None => Ok(()),
        Some(place) => push_true(alloc, list, output_net(&net.outputs, place)),
    }
}

// A net is true.
fn push_true(alloc: Global, list: &mut Vec<Clause>, net: u32) -> Result<(), NoMemory>
    ensures { OnOk result (plain_assumed list.new.items
        ≡ plain_assumed list.old.items ++ (signed net true ∷ []) ∷ []) }
{
    let mut clause = Vec::with_capacity(alloc, 1)?;
    clause.push(Literal {
        variable: net,
        positive: true,
    })?;
    list.push(clause)?;
    Ok(())
}

// What is found where events break the claim. They are tested against the relations, and the trace is read again.
fn broken_by(
    alloc: Global,
    relations: &[InputRelation],
    net: &Net,
    asked: PlacedQuestion<'_>,
    events: &[Vec<bool>],
) -> Result<Finding, NoMemory>
    requires asks { AsksDevice (device_of relations.now net.now) (plain_question asked.question) asked.place
        asked.assumed }
    requires reached { IsTrue (is_reached (netlist_of net.now)
        (allowed_clauses (map relation_of relations.now) net.now.outputs.items asked.assumed)
        (bad_literal net.now.outputs.items asked.question.claim asked.place) (events_of events.now)) }
    ensures { IfOk result
        (IsDeviceFinding asked.entry.layout (device_of relations.now net.now) (plain_question asked.entry.question)) }
{
    let width = net.inputs.len();
    match readable_trace(alloc, relations, width, net, asked.layout, events)? {
        Some(trace) => Ok(Finding::Broken(trace)),
        None => Ok(Finding::Open(0)),
    }
}

/// What is found about a question, by a netlist whose inputs have these relations. `Holds` is proved, and the last row
/// to the trace of `Broken` breaks the claim. Out of memory is the only error.
pub(crate) fn device_finding(
    alloc: Global,
    relations: &[InputRelation],
    net: &Net,
    asked: PlacedQuestion<'_>,
    effort: u64,
) -> Result<Finding, NoMemory>
    requires fits { RelatesInputs (map relation_of relations.now) (netlist_of net.now) }
    requires asks { AsksDevice (device_of relations.now net.now) (plain_question asked.question) asked.place
        asked.assumed }
    ensures { IfOk result
        (IsDeviceFinding asked.entry.layout (device_of relations.now net.now) (plain_question asked.entry.question)) }
{
    let allowed = allowed_clauses(alloc, relations, net, asked.assumed)?;
    let bad = bad_literal(net, asked.question.claim, asked.place);
    match decide(alloc, net, &allowed, bad, effort)? {
        Decision::Never => Ok(Finding::Holds),
        Decision::Reached(events) => broken_by(alloc, relations, net, asked, &events),
        Decision::Unknown(depth) => Ok(Finding::Open(depth)),
    }
}
