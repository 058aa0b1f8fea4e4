// Runs of machines over traces.

ghost use Rattle.std.specs.Prelude.{◌≡◌, ◌<◌, ◌≤◌, ◌^◌, length, map, IsTrue};
ghost use Rattle.base_types.specs.Names.{is_same_name};
ghost use Rattle.base_types.specs.Distinct.{all_differ};
ghost use Rattle.base_types.specs.Items.{Event};
ghost use Rattle.base_types.specs.Relations.{relation_of};
ghost use Rattle.base_types.specs.SinkChanges.{change};
ghost use Rattle.run_trace_io.specs.Answers.{beginning, reading_of};
ghost use Rattle.run_trace_io.specs.Lines.{line};
ghost use Rattle.run_over_traces.specs.Becoming.{Passes, shown_until};
ghost use Rattle.run_over_traces.specs.Machines.{ShownAnswer, Answered, Brings};
ghost use Rattle.run_over_traces.specs.Running.{RunsTrace};
ghost use Rattle.run_over_traces.specs.Steps.{IsStepTowards, LineCame, trace_stop};

use crate::machine::Runner;
use base_types::{InputRelation, NoMemory, Sink, SinkFault, Text};
use run_trace_io::{Item, TraceError, TraceFault, TraceReader, reaction_line};
use std::alloc::Global;
use thiserror::Error;

/// What a trace and the lines are read and written by.
#[derive(Drop)]
pub struct Interface {
    /// The names of the given signals, in order.
    pub given: Vec<Text>,
    /// The names of the outgoing signals, in order.
    pub outgoing: Vec<Text>,
    /// What the environment keeps of the given signals.
    pub relations: Vec<InputRelation>,
}

/// Why a run over a trace was not done.
#[derive(Debug, Drop, Error)]
pub enum RunFault {
    /// The trace has this first fault. The lines of the instants before it were written.
    #[error(transparent)]
    Trace(TraceFault),
    /// A line was not written.
    #[error("a line was not written")]
    Write,
    /// Running out of memory.
    #[error("no memory")]
    NoMemory,
}

/// Runs a machine over the items of a trace, up to its end or its first fault, and writes one line after each
/// reaction, right after it. A line is one piece. It allocates an event and a line for each reaction.
pub fn run_trace<R: Runner, O: Sink>(
    alloc: Global,
    runner: &mut R,
    interface: Interface,
    trace: Vec<u8>,
    out: &mut O,
) -> Result<(), RunFault>
    requires short { length trace.items ≤ 2 ^ 24 }
    requires names_differ { IsTrue (all_differ is_same_name interface.given.items) }
    requires countable { length interface.relations.items < 2 ^ 32 }
    requires each_input { length interface.given.items ≡ R.input_count runner.old }
    requires each_output { length interface.outgoing.items ≡ R.output_count runner.old }
    ensures { RunsTrace (Brings (shown_until R.shows R.becomes runner.new) interface.outgoing.items runner.old)
        (beginning trace.items interface.given.items (map relation_of interface.relations.items))
        (change O.told O.faults out.old out.new)
        result }
{
    let names = interface.outgoing;
    let mut reader = TraceReader::new(alloc, trace, interface.given, interface.relations);
    loop {
        match run_item(alloc, runner, &mut reader, &names, out) {
            Ok(true) => {}
            Ok(false) => return Ok(()),
            Err(fault) => return Err(fault),
        }
    }
}

// Runs a machine over the next item of a trace. It answers whether there was one.
fn run_item<R: Runner, O: Sink>(
    alloc: Global,
    runner: &mut R,
    reader: &mut TraceReader,
    names: &[Text],
    out: &mut O,
) -> Result<bool, RunFault>
    requires within { (reading_of reader.old).at ≤ length (reading_of reader.old).text }
    requires each_input { length (reading_of reader.old).inputs ≡ R.input_count runner.old }
    requires each_output { length names.now ≡ R.output_count runner.old }
    ensures step { IsStepTowards R.shows R.becomes names.now (reading_of reader.old) (reading_of reader.new)
        runner.old runner.new
        (change O.told O.faults out.old out.new)
        result }
    ensures text_stays { (reading_of reader.new).text ≡ (reading_of reader.old).text }
    ensures given_stay { (reading_of reader.new).inputs ≡ (reading_of reader.old).inputs }
    ensures inputs_stay { R.input_count runner.new ≡ R.input_count runner.old }
    ensures outputs_stay { R.output_count runner.new ≡ R.output_count runner.old }
{
    match reader.next() {
        Ok(None) => Ok(false),
        Ok(Some(Item::Reset)) => {
            runner.reset();
            Ok(true)
        }
        Ok(Some(Item::React(event))) => match run_event(alloc, runner, event.bits(), names, out) {
            Ok(()) => Ok(true),
            Err(fault) => Err(fault),
        },
        Err(error) => Err(trace_stop(error)),
    }
}

// Why a run ends where the trace has no next item.
fn trace_stop(error: TraceError) -> RunFault
    ensures { result ≡ trace_stop error }
{
    match error {
        TraceError::Fault(fault) => RunFault::Trace(fault),
        TraceError::NoMemory => RunFault::NoMemory,
    }
}

// One reaction, and its line.
fn run_event<R: Runner, O: Sink>(
    alloc: Global,
    runner: &mut R,
    inputs: &[bool],
    names: &[Text],
    out: &mut O,
) -> Result<(), RunFault>
    requires each_input { length inputs.now ≡ R.input_count runner.old }
    requires each_output { length names.now ≡ R.output_count runner.old }
    ensures answered { (answer : ShownAnswer) × Answered R.shows runner.old inputs.now answer runner.new
        × LineCame
        (change O.told O.faults out.old out.new)
        (line names.now answer.present answer.word) result }
    ensures passes { Passes R.becomes (Event inputs.now) runner.old runner.new }
    ensures inputs_stay { R.input_count runner.new ≡ R.input_count runner.old }
    ensures outputs_stay { R.output_count runner.new ≡ R.output_count runner.old }
{
    let word = runner.react(inputs);
    let line = match reaction_line(alloc, names, runner.outputs(), word) {
        Ok(line) => line,
        Err(NoMemory) => return Err(RunFault::NoMemory),
    };
    match out.write(&line) {
        Ok(()) => Ok(()),
        Err(SinkFault::Failed) => Err(RunFault::Write),
    }
}
