// Verilog with a reset of a text, and of a source.

ghost use Rattle.std.specs.Prelude.{◌≤◌, length, map, option_map};
ghost use Rattle.base_types.specs.SinkChanges.{change};
ghost use Rattle.vlog_reset.specs.Views.{options_of};
ghost use Rattle.cec_opt_texts.specs.Related.{named_relation};
ghost use Rattle.cec_opt_commands.specs.Answers.{IsAnswer};
ghost use Rattle.cec_opt_commands.specs.Outcomes.{LeavesAnswer, LeavesSourceAnswer, SaysOf, SourceSays};
ghost use Rattle.cec_opt_commands.specs.Stopping.{IsUnmadeOutcome};
ghost use Rattle.cec_opt_commands.specs.Words.{Reset};
ghost use Rattle.cec_opt_commands.specs.declared.outcome.OptOutcome.TheVariants.{BadModule};

use crate::outcome::OptOutcome;
use crate::sources::{EFFORT, refused};
use base_types::{Limits, Sink, Stop};
use cec_cycles::CycleRefusal;
use cec_opt_faults::Unmade;
use cec_opt_reset::{optimized_reset, reset_verilog_of};
use cec_opt_sources::Coding;
use cec_opt_texts::GivenRelation;
use cec_text_io::write_whole;
use grc_order::First;
use std::alloc::Global;
use vlog_reset::{ResetFault, ResetOptions};

/// Writes the circuit of a text, optimized where its inputs meet the relations, as Verilog with a reset. Says how it
/// ended. The coding is of sources alone: it is there only for the contract.
pub(crate) fn reset_text<O: Sink>(
    alloc: Global,
    options: ResetOptions<'_>,
    coding: Coding,
    given: &[GivenRelation<'_>],
    text: &[u8],
    out: &mut O,
) -> OptOutcome
    requires { length text.now ≤ Limits.TEXT_BYTES }
    ensures says { SaysOf (Reset (options_of options.entry) coding) (map named_relation given.now) result text.now }
    ensures out { LeavesAnswer (Reset (options_of options.entry) coding)
        (IsAnswer (Reset (options_of options.entry) coding) text.now (map named_relation given.now))
        (change O.told O.faults out.old out.new) result }
{
    match optimized_reset(alloc, text, given, options) {
        Ok(written) => OptOutcome::from(write_whole(&written, out)),
        Err(stop) => OptOutcome::from(stop),
    }
}

/// Writes the circuit of a source as Verilog with a reset, and says how it ended.
pub(crate) fn reset_source<O: Sink>(
    alloc: Global,
    options: ResetOptions<'_>,
    coding: Coding,
    source: &[u8],
    main: Option<&[u8]>,
    out: &mut O,
) -> OptOutcome
    requires { length source.now ≤ Limits.SOURCE_BYTES }
    ensures says { SourceSays (Reset (options_of options.entry) coding) (option_map (λ m. m.now) main.entry) result
        source.now }
    ensures out { LeavesSourceAnswer (Reset (options_of options.entry) coding) source.now
        (option_map (λ m. m.now) main.entry)
        (change O.told O.faults out.old out.new) result }
{
    match reset_verilog_of(alloc, source, main, &mut First, coding, EFFORT, options) {
        Ok(written) => OptOutcome::from(write_whole(&written, out)),
        Err(stop) => unreset(stop, out),
    }
}

// The outcome of a source that has no Verilog with a reset. Of one that is not constructive the trace is written.
fn unreset<O: Sink>(stop: Stop<Unmade<CycleRefusal, ResetFault>>, out: &mut O) -> OptOutcome
    ensures { IsUnmadeOutcome BadModule stop (change O.told O.faults out.old out.new) result }
{
    match stop {
        Stop::Fault(Unmade::NoNet(refusal)) => refused(refusal, out),
        Stop::Fault(Unmade::NoText(fault)) => OptOutcome::BadModule(fault),
        Stop::NoMemory => OptOutcome::NoMemory,
    }
}
