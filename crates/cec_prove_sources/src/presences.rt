// When an outgoing signal is present.

ghost use Rattle.std.specs.Prelude.{◌≡◌, ◌++◌, codes, map, IfOk, OnOk, option_map};
ghost use Rattle.base_types.specs.Relations.{relation_of};
ghost use Rattle.net_ir.specs.Runs.{netlist_of};
ghost use Rattle.cec_prove_sources.specs.DeviceFindings.{AddsDevicePresence};
ghost use Rattle.cec_prove_sources.specs.DeviceSurveys.{BreaksDeviceIfAny, IsDevicePresence};
ghost use Rattle.cec_prove_sources.specs.DeviceVerdicts.{AsksDevice};
ghost use Rattle.cec_prove_sources.specs.NetDevices.{RelatesInputs, device_of};
ghost use Rattle.cec_prove_sources.specs.Surveys.{about, found_word, is_known, presence_text, trace_line};
ghost use Rattle.cec_prove_sources.specs.Views.{plain_presence, plain_question, plain_trace};

use crate::device_findings::{PlacedQuestion, device_finding};
use crate::questions::{Claim, Finding, Layout, Presence, Question};
use base_types::{InputRelation, NoMemory};
use net_ir::Net;
use std::alloc::Global;

/// An outgoing signal by its name and its place, and the one that is assumed.
#[derive(Clone, Copy)]
pub(crate) struct Signal<'a> {
    pub name: &'a [u8],
    pub place: usize,
    pub assumed: Option<&'a [u8]>,
    pub assumed_place: Option<usize>,
}

// A question about a signal, whose trace is laid out in one line.
fn question_about(signal: Signal<'_>, claim: Claim) -> PlacedQuestion<'_>
    ensures question { plain_question result.question
        ≡ about claim signal.entry.name.now (option_map (λ n. n.now) signal.entry.assumed) }
    ensures claim { result.question.claim ≡ claim }
    ensures place { result.place ≡ signal.entry.place }
    ensures assumed { result.assumed ≡ signal.entry.assumed_place }
    ensures layout { result.layout ≡ Layout.OneLine }
{
    PlacedQuestion {
        question: Question {
            claim,
            signal: signal.name,
            assumed: signal.assumed,
        },
        place: signal.place,
        assumed: signal.assumed_place,
        layout: Layout::OneLine,
    }
}

// When a signal is present that is present in some reaction, or of which nothing is known.
fn other_presence(
    alloc: Global,
    relations: &[InputRelation],
    net: &Net,
    signal: Signal<'_>,
    present: Option<Vec<u8>>,
    effort: u64,
) -> Result<Presence, NoMemory>
    requires fits { RelatesInputs (map relation_of relations.now) (netlist_of net.now) }
    requires asks { AsksDevice (device_of relations.now net.now)
        (about Claim.Always signal.name.now (option_map (λ n. n.now) signal.assumed))
        signal.place signal.assumed_place }
    requires breaks { BreaksDeviceIfAny (device_of relations.now net.now) Claim.Never signal.name.now
        (option_map (λ n. n.now) signal.assumed) (plain_trace present) }
    ensures { IfOk result (λ p. IsDevicePresence (device_of relations.now net.now)
        (option_map (λ n. n.now) signal.entry.assumed) signal.entry.name.now (plain_presence p)) }
{
    let asked = question_about(signal, Claim::Always);
    match device_finding(alloc, relations, net, asked, effort)? {
        Finding::Holds => Ok(Presence::Always),
        Finding::Broken(absent) => Ok(Presence::Found(present, Some(absent))),
        Finding::Open(_) => Ok(Presence::Found(present, None)),
    }
}

// When a signal is present.
fn presence_of(
    alloc: Global,
    relations: &[InputRelation],
    net: &Net,
    signal: Signal<'_>,
    effort: u64,
) -> Result<Presence, NoMemory>
    requires fits { RelatesInputs (map relation_of relations.now) (netlist_of net.now) }
    requires asks { AsksDevice (device_of relations.now net.now)
        (about Claim.Never signal.name.now (option_map (λ n. n.now) signal.assumed)) signal.place signal.assumed_place }
    ensures { IfOk result (λ p. IsDevicePresence (device_of relations.now net.now)
        (option_map (λ n. n.now) signal.entry.assumed) signal.entry.name.now (plain_presence p)) }
{
    let asked = question_about(signal, Claim::Never);
    match device_finding(alloc, relations, net, asked, effort)? {
        Finding::Holds => Ok(Presence::Never),
        Finding::Broken(present) => {
            other_presence(alloc, relations, net, signal, Some(present), effort)
        }
        Finding::Open(_) => other_presence(alloc, relations, net, signal, None, effort),
    }
}

// A line with a trace, if there is one.
fn push_trace(
    text: &mut Vec<u8>,
    name: &[u8],
    said: &[u8],
    trace: &Option<Vec<u8>>,
) -> Result<(), NoMemory>
    ensures { OnOk result (text.new.items ≡ text.old.items ++ trace_line name.now said.now (plain_trace trace.now)) }
{
    if let Some(trace) = trace {
        text.extend_from_slice(name)?;
        text.extend_from_slice(said)?;
        text.extend_from_slice(trace)?;
        text.extend_from_slice(b"\n")?;
    }
    Ok(())
}

// The word for two traces, where they were found.
fn found_word(present: &Option<Vec<u8>>, absent: &Option<Vec<u8>>) -> &'static [u8]
    ensures { result.now ≡ found_word (plain_trace present.now) (plain_trace absent.now) }
{
    if present.is_some() && absent.is_some() {
        b" sometimes\n"
    } else {
        b" undecided\n"
    }
}

// Appends the line of a signal, and those of the traces.
fn push_presence(text: &mut Vec<u8>, name: &[u8], presence: &Presence) -> Result<(), NoMemory>
    ensures { OnOk result (text.new.items ≡ text.old.items ++ presence_text name.now (plain_presence presence.now)) }
{
    text.extend_from_slice(name)?;
    match presence {
        Presence::Never => Ok(text.extend_from_slice(b" never\n")?),
        Presence::Always => Ok(text.extend_from_slice(b" always\n")?),
        Presence::Found(present, absent) => push_found(text, name, present, absent),
    }
}

// The rest of the lines of a signal for which traces were found.
fn push_found(
    text: &mut Vec<u8>,
    name: &[u8],
    present: &Option<Vec<u8>>,
    absent: &Option<Vec<u8>>,
) -> Result<(), NoMemory>
    ensures { OnOk result (text.new.items ≡ text.old.items
        ++ (found_word (plain_trace present.now) (plain_trace absent.now)
        ++ (trace_line name.now (codes " present:") (plain_trace present.now)
        ++ trace_line name.now (codes " absent:") (plain_trace absent.now)))) }
{
    text.extend_from_slice(found_word(present, absent))?;
    push_trace(text, name, b" present:", present)?;
    push_trace(text, name, b" absent:", absent)
}

// Reports whether it is known when a signal is present.
fn is_known(presence: &Presence) -> bool
    ensures { result ≡ is_known (plain_presence presence.now) }
{
    match presence {
        Presence::Never | Presence::Always => true,
        Presence::Found(present, absent) => present.is_some() && absent.is_some(),
    }
}

/// Appends the lines of a signal, and reports whether it is known when it is present.
pub(crate) fn push_signal(
    alloc: Global,
    text: &mut Vec<u8>,
    relations: &[InputRelation],
    net: &Net,
    signal: Signal<'_>,
    effort: u64,
) -> Result<bool, NoMemory>
    requires fits { RelatesInputs (map relation_of relations.now) (netlist_of net.now) }
    requires asks { AsksDevice (device_of relations.now net.now)
        (about Claim.Never signal.name.now (option_map (λ n. n.now) signal.assumed)) signal.place signal.assumed_place }
    ensures { IfOk result (AddsDevicePresence (device_of relations.now net.now)
        (option_map (λ n. n.now) signal.entry.assumed) signal.entry.name.now text.old.items text.new.items) }
{
    let presence = presence_of(alloc, relations, net, signal, effort)?;
    push_presence(text, signal.name, &presence)?;
    Ok(is_known(&presence))
}
