// Traces that are read again.

ghost use Rattle.std.specs.Prelude.{◌≡◌, ◌≤◌, ◌^◌, [], length, map, None, IfOk, IfSome, IsTrue};
ghost use Rattle.base_types.specs.Distinct.{all_differ};
ghost use Rattle.base_types.specs.Items.{EachEvent};
ghost use Rattle.base_types.specs.Names.{is_same_name};
ghost use Rattle.base_types.specs.Relations.{relation_of};
ghost use Rattle.est_kernel.specs.Plain.{given_names, program_of};
ghost use Rattle.net_ir.specs.Runs.{netlist_of};
ghost use Rattle.net_never.specs.Reached.{events_of, items_of};
ghost use Rattle.run_trace_io.specs.Answers.{AnswersGroup, IsTrace, beginning, reading_of};
ghost use Rattle.cec_compile.specs.Meaning.{AreItems};
ghost use Rattle.cec_prove_sources.specs.Devices.{IsEventOver};
ghost use Rattle.cec_prove_sources.specs.Reading.{IsEnd, IsNext};
ghost use Rattle.cec_prove_sources.specs.TraceTexts.{IsTraceOver};
ghost use Rattle.cec_prove_sources.specs.Verdicts.{IsTraceOf};

use crate::events::are_events;
use crate::questions::Layout;
use crate::traces::trace_text;
use base_types::{InputRelation, Limits, NoMemory, Text};
use est_kernel::KernelProgram;
use net_ir::Net;
use net_simp::copied_names;
use run_trace_io::{Item, TraceError, TraceReader};
use std::alloc::Global;

// A reader of a trace over inputs of these names, without relations.
fn reader_of(alloc: Global, names: &[Text], text: &[u8]) -> Result<TraceReader, NoMemory>
    requires differ { IsTrue (all_differ is_same_name names.now) }
    requires short { length text.now ≤ 2 ^ 24 }
    ensures { IfOk result (λ r. reading_of r ≡ beginning text.now names.now []) }
{
    let names = copied_names(alloc, names)?;
    let text = Vec::from_slice(alloc, text)?;
    Ok(TraceReader::new(alloc, text, names, Vec::new(alloc)))
}

// Reports whether the next item is this event.
fn is_next(reader: &mut TraceReader, event: &[bool]) -> Result<bool, NoMemory>
    ensures { IfOk result (λ yes. IsTrue yes → IsNext (reading_of reader.old) event.now (reading_of reader.new)) }
{
    match reader.next() {
        Ok(Some(Item::React(read))) => Ok(read.bits() == event),
        Ok(Some(Item::Reset)) | Ok(None) => Ok(false),
        Err(TraceError::Fault(_)) => Ok(false),
        Err(TraceError::NoMemory) => Err(NoMemory),
    }
}

// Reports whether the trace ends.
fn is_end(reader: &mut TraceReader) -> Result<bool, NoMemory>
    ensures { IfOk result (λ yes. IsTrue yes → IsEnd (reading_of reader.old)) }
{
    match reader.next() {
        Ok(None) => Ok(true),
        Ok(Some(_)) => Ok(false),
        Err(TraceError::Fault(_)) => Ok(false),
        Err(TraceError::NoMemory) => Err(NoMemory),
    }
}

// Reports whether a reader without relations reads a text as these events over inputs of these names.
fn is_read_as(
    alloc: Global,
    names: &[Text],
    text: &[u8],
    events: &[Vec<bool>],
) -> Result<bool, NoMemory>
    requires differ { IsTrue (all_differ is_same_name names.now) }
    requires short { length text.now ≤ 2 ^ 24 }
    ensures { IfOk result (λ yes. IsTrue yes
        → IsTrace (beginning text.now names.now []) (items_of (events_of events.now)) None) }
{
    let mut reader = reader_of(alloc, names, text)?;
    for event in events {
        if !is_next(&mut reader, event)? {
            return Ok(false);
        }
    }
    is_end(&mut reader)
}

/// The trace of events over the inputs of a netlist, where `cec run` reads it as these events. None where the events do
/// not have this number of values each or do not meet the relations, where the trace is too long, and where it is read
/// otherwise.
pub(crate) fn readable_trace(
    alloc: Global,
    relations: &[InputRelation],
    width: usize,
    net: &Net,
    layout: Layout,
    events: &[Vec<bool>],
) -> Result<Option<Vec<u8>>, NoMemory>
    ensures trace { IfOk result (λ o. IfSome o (λ t. IsTraceOver layout (netlist_of net.now).inputs
        (map relation_of relations.now) (events_of events.now) t.items)) }
    ensures items { IfOk result (λ o. IfSome o
        (λ t. EachEvent (IsEventOver width (map relation_of relations.now)) (items_of (events_of events.now)))) }
{
    if !are_events(relations, width, events) {
        return Ok(None);
    }
    let text = trace_text(alloc, layout, &net.inputs, events)?;
    if text.len() as u64 > Limits::TRACE_BYTES || !is_read_as(alloc, &net.inputs, &text, events)? {
        return Ok(None);
    }
    Ok(Some(text))
}

/// The trace of events of a program, where `cec run` reads it as these events. None where the events do not meet the
/// relations, where the trace is too long, and where it is read otherwise.
pub fn trace_of(
    alloc: Global,
    program: &KernelProgram,
    net: &Net,
    layout: Layout,
    events: &[Vec<bool>],
) -> Result<Option<Vec<u8>>, NoMemory>
    requires names { net.now.inputs.items ≡ given_names (program_of program.now) }
    ensures trace { IfOk result (λ o. IfSome o
        (λ t. IsTraceOf layout (program_of program.now) (events_of events.now) t.items)) }
    ensures items { IfOk result (λ o. IfSome o
        (λ t. AreItems (program_of program.now) (items_of (events_of events.now)))) }
{
    let width = program.inputs as usize + program.both as usize;
    readable_trace(alloc, &program.relations, width, net, layout, events)
}
