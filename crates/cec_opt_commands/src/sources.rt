// What a task makes of a source.

ghost use Rattle.std.specs.Prelude.{◌≤◌, length, option_map};
ghost use Rattle.base_types.specs.SinkChanges.{change};
ghost use Rattle.cec_opt_commands.specs.Outcomes.{LeavesSourceAnswer, SourceSays};
ghost use Rattle.cec_opt_commands.specs.Stopping.{IsRefusedOutcome, IsStuckOutcome};
ghost use Rattle.cec_opt_commands.specs.Views.{plain_task};
ghost use Rattle.cec_opt_commands.specs.Words.{Check, Write};

use crate::counts::all_counts;
use crate::embedded::embed_source;
use crate::outcome::{OptOutcome, refusal_outcome};
use crate::resetting::reset_source;
use crate::texts::write_net;
use crate::words::{Form, Task};
use base_types::{Limits, Sink};
use cec_cycles::{CycleRefusal, Stuck, constructive_net};
use cec_opt_sources::Coding;
use cec_text_io::{Written, write_whole};
use grc_order::First;
use std::alloc::Global;

// The effort of the search for a proof that a program with a cycle is constructive.
pub(crate) const EFFORT: u64 = 20_000_000;

/// Does a task on a source, writes what it makes to `out`, and says how it ended.
pub(crate) fn do_source_task<O: Sink>(
    alloc: Global,
    task: Task<'_>,
    source: &[u8],
    main: Option<&[u8]>,
    out: &mut O,
) -> OptOutcome
    requires { length source.now ≤ Limits.SOURCE_BYTES }
    ensures says { SourceSays (plain_task task.entry) (option_map (λ m. m.now) main.entry) result source.now }
    ensures out { LeavesSourceAnswer (plain_task task.entry) source.now (option_map (λ m. m.now) main.entry)
        (change O.told O.faults out.old out.new) result }
{
    match task {
        Task::Write(form) => write_source(alloc, form, source, main, out),
        Task::Embed(component, layout) => embed_source(alloc, component, layout, source, main, out),
        Task::Reset(options, coding) => reset_source(alloc, options, coding, source, main, out),
        Task::Check => write_source_counts(alloc, source, main, out),
    }
}

// Writes the lighter circuit of a source, in a form, or that of a constructive source with a cycle.
fn write_source<O: Sink>(
    alloc: Global,
    form: Form,
    source: &[u8],
    main: Option<&[u8]>,
    out: &mut O,
) -> OptOutcome
    requires { length source.now ≤ Limits.SOURCE_BYTES }
    ensures says { SourceSays (Write form) (option_map (λ m. m.now) main.entry) result source.now }
    ensures out { LeavesSourceAnswer (Write form) source.now (option_map (λ m. m.now) main.entry)
        (change O.told O.faults out.old out.new) result }
{
    match constructive_net(alloc, source, main, &mut First, Coding::Lighter, EFFORT) {
        Ok(net) => OptOutcome::from(write_net(alloc, form, &net, out)),
        Err(refusal) => refused(refusal, out),
    }
}

// Writes the counts of a source.
fn write_source_counts<O: Sink>(
    alloc: Global,
    source: &[u8],
    main: Option<&[u8]>,
    out: &mut O,
) -> OptOutcome
    requires { length source.now ≤ Limits.SOURCE_BYTES }
    ensures says { SourceSays Check (option_map (λ m. m.now) main.entry) result source.now }
    ensures out { LeavesSourceAnswer Check source.now (option_map (λ m. m.now) main.entry)
        (change O.told O.faults out.old out.new) result }
{
    match all_counts(alloc, source, main, EFFORT) {
        Ok(lines) => OptOutcome::from(write_whole(&lines, out)),
        Err(refusal) => refused(refusal, out),
    }
}

/// The outcome of a source that has no constructive netlist. Of one that is not constructive the trace is written.
pub(crate) fn refused<O: Sink>(refusal: CycleRefusal, out: &mut O) -> OptOutcome
    ensures { IsRefusedOutcome refusal (change O.told O.faults out.old out.new) result }
{
    match refusal {
        CycleRefusal::Source(refusal) => refusal_outcome(refusal),
        CycleRefusal::NotConstructive(stuck) => stuck_outcome(stuck, out),
        CycleRefusal::Undecided(cycle) => OptOutcome::Undecided(cycle),
        CycleRefusal::TooManyNets(cycle) => OptOutcome::TooManyNets(cycle),
    }
}

// Writes the trace of a program that is not constructive.
fn stuck_outcome<O: Sink>(stuck: Stuck, out: &mut O) -> OptOutcome
    ensures { IsStuckOutcome stuck (change O.told O.faults out.old out.new) result }
{
    match write_whole(&stuck.trace, out) {
        Written::Done => OptOutcome::NotConstructive(stuck),
        Written::WriteFault => OptOutcome::WriteFault,
        Written::NoMemory => OptOutcome::NoMemory,
    }
}
