// Runs of graphs over traces by three-valued reactions.

ghost use Rattle.std.specs.Prelude.{◌≡◌, ◌<◌, ◌≤◌, ◌^◌, length, map, IsTrue};
ghost use Rattle.base_types.specs.Distinct.{all_differ};
ghost use Rattle.base_types.specs.Names.{is_same_name};
ghost use Rattle.base_types.specs.Relations.{relation_of};
ghost use Rattle.base_types.specs.SinkChanges.{change};
ghost use Rattle.est_kernel.specs.Plain.{given_count, outgoing_count};
ghost use Rattle.run_trace_io.specs.Answers.{beginning, reading_of};
ghost use Rattle.grc_ternary_run.specs.Runners.{program_in};
ghost use Rattle.cec_commands.specs.ReactionSteps.{IsReaction, IsReactionStep, RunsReactions};

use base_types::{NoMemory, Sink, SinkFault, Text};
use grc_ternary_run::TriRunner;
use run_over_traces::{Interface, RunFault, word_of};
use run_trace_io::{Item, TraceError, TraceReader, reaction_line};
use std::alloc::Global;

/// Why a run by three-valued reactions was not done.
#[derive(Drop)]
pub(crate) enum ReactionFault {
    /// As the run of any machine.
    Run(RunFault),
    /// In the instant with this number some wire stays unknown. The lines of the instants before it were written.
    NotConstructive(u32),
}

/// Runs a graph over the items of a trace, up to its end, its first fault, or the first instant in which some wire
/// stays unknown, and writes one line after each reaction, right after it. A line is one piece.
pub(crate) fn run_reactions<O: Sink>(
    alloc: Global,
    runner: &mut TriRunner<'_>,
    interface: Interface,
    trace: Vec<u8>,
    out: &mut O,
) -> Result<(), ReactionFault>
    requires short { length trace.items ≤ 2 ^ 24 }
    requires names_differ { IsTrue (all_differ is_same_name interface.given.items) }
    requires countable { length interface.relations.items < 2 ^ 32 }
    requires each_input { length interface.given.items ≡ given_count (program_in runner.old) }
    requires each_output { length interface.outgoing.items ≡ outgoing_count (program_in runner.old) }
    ensures { RunsReactions interface.outgoing.items
        (beginning trace.items interface.given.items (map relation_of interface.relations.items))
        runner.old runner.new (change O.told O.faults out.old out.new) result }
{
    let names = interface.outgoing;
    let mut reader = TraceReader::new(alloc, trace, interface.given, interface.relations);
    let mut instant = 1;
    loop {
        match react_to_item(alloc, runner, &mut reader, &names, instant, out) {
            Ok(Some(next)) => instant = next,
            Ok(None) => return Ok(()),
            Err(fault) => return Err(fault),
        }
    }
}

// Runs a graph over the next item of a trace, in the instant with this number or before it. It answers the number of
// the instant after the item, where there was one.
fn react_to_item<O: Sink>(
    alloc: Global,
    runner: &mut TriRunner<'_>,
    reader: &mut TraceReader,
    names: &[Text],
    instant: u32,
    out: &mut O,
) -> Result<Option<u32>, ReactionFault>
    requires within { (reading_of reader.old).at ≤ length (reading_of reader.old).text }
    requires counted { instant ≡ (reading_of reader.old).instant }
    requires each_input { length (reading_of reader.old).inputs ≡ given_count (program_in runner.old) }
    requires each_output { length names.now ≡ outgoing_count (program_in runner.old) }
    ensures step { IsReactionStep names.now (reading_of reader.old) (reading_of reader.new) runner.old runner.new
        (change O.told O.faults out.old out.new) result }
    ensures text_stays { (reading_of reader.new).text ≡ (reading_of reader.old).text }
    ensures given_stay { (reading_of reader.new).inputs ≡ (reading_of reader.old).inputs }
    ensures graph_stays { runner.new.graph ≡ runner.old.graph }
{
    match reader.next() {
        Ok(None) => Ok(None),
        Ok(Some(Item::Reset)) => {
            runner.reset();
            Ok(Some(instant))
        }
        Ok(Some(Item::React(event))) => {
            match react_to_event(alloc, runner, event.bits(), names, instant, out) {
                Ok(()) => Ok(Some(instant + 1)),
                Err(fault) => Err(fault),
            }
        }
        Err(TraceError::Fault(fault)) => Err(ReactionFault::Run(RunFault::Trace(fault))),
        Err(TraceError::NoMemory) => Err(ReactionFault::Run(RunFault::NoMemory)),
    }
}

// One reaction in the instant with this number, and its line.
fn react_to_event<O: Sink>(
    alloc: Global,
    runner: &mut TriRunner<'_>,
    inputs: &[bool],
    names: &[Text],
    instant: u32,
    out: &mut O,
) -> Result<(), ReactionFault>
    requires each_input { length inputs.now ≡ given_count (program_in runner.old) }
    requires each_output { length names.now ≡ outgoing_count (program_in runner.old) }
    ensures reaction { IsReaction names.now inputs.now instant runner.old runner.new
        (change O.told O.faults out.old out.new) result }
    ensures graph_stays { runner.new.graph ≡ runner.old.graph }
{
    let paused = match runner.react(inputs) {
        Ok(paused) => paused,
        Err(_) => return Err(ReactionFault::NotConstructive(instant)),
    };
    let line = match reaction_line(alloc, names, runner.outputs(), word_of(paused)) {
        Ok(line) => line,
        Err(NoMemory) => return Err(ReactionFault::Run(RunFault::NoMemory)),
    };
    match out.write(&line) {
        Ok(()) => Ok(()),
        Err(SinkFault::Failed) => Err(ReactionFault::Run(RunFault::Write)),
    }
}
