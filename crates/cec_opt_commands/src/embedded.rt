// Embedded C of a text, and of a source.

ghost use Rattle.std.specs.Prelude.{◌≤◌, length, map, option_map};
ghost use Rattle.base_types.specs.SinkChanges.{change};
ghost use Rattle.cec_opt_texts.specs.Related.{named_relation};
ghost use Rattle.cec_opt_commands.specs.Answers.{IsAnswer};
ghost use Rattle.cec_opt_commands.specs.Outcomes.{LeavesAnswer, LeavesSourceAnswer, SaysOf, SourceSays};
ghost use Rattle.cec_opt_commands.specs.Stopping.{IsUnmadeOutcome};
ghost use Rattle.cec_opt_commands.specs.Words.{Embed};
ghost use Rattle.cec_opt_commands.specs.declared.outcome.OptOutcome.TheVariants.{BadComponent};

use crate::outcome::OptOutcome;
use crate::sources::{EFFORT, refused};
use base_types::{Limits, Sink, Stop};
use cec_cycles::CycleRefusal;
use cec_opt_embed::{embedded_c_of, optimized_embedded};
use cec_opt_faults::Unmade;
use cec_opt_texts::GivenRelation;
use cec_text_io::write_whole;
use csub_embed::{EmbedFault, EmbedLayout};
use grc_order::First;
use std::alloc::Global;

/// Writes the circuit of a text, optimized where its inputs meet the relations, as embedded C, as a component of this
/// name and in this layout. Says how it ended.
pub(crate) fn embed_text<O: Sink>(
    alloc: Global,
    component: &[u8],
    layout: EmbedLayout,
    given: &[GivenRelation<'_>],
    text: &[u8],
    out: &mut O,
) -> OptOutcome
    requires { length text.now ≤ Limits.TEXT_BYTES }
    ensures says { SaysOf (Embed component.now layout) (map named_relation given.now) result text.now }
    ensures out { LeavesAnswer (Embed component.now layout)
        (IsAnswer (Embed component.now layout) text.now (map named_relation given.now))
        (change O.told O.faults out.old out.new) result }
{
    match optimized_embedded(alloc, text, given, component, layout) {
        Ok(written) => OptOutcome::from(write_whole(&written, out)),
        Err(stop) => OptOutcome::from(stop),
    }
}

/// Writes the circuit of a source as embedded C, as a component of this name and in this layout, and says how it
/// ended.
pub(crate) fn embed_source<O: Sink>(
    alloc: Global,
    component: &[u8],
    layout: EmbedLayout,
    source: &[u8],
    main: Option<&[u8]>,
    out: &mut O,
) -> OptOutcome
    requires { length source.now ≤ Limits.SOURCE_BYTES }
    ensures says { SourceSays (Embed component.now layout) (option_map (λ m. m.now) main.entry) result source.now }
    ensures out { LeavesSourceAnswer (Embed component.now layout) source.now (option_map (λ m. m.now) main.entry)
        (change O.told O.faults out.old out.new) result }
{
    match embedded_c_of(alloc, source, main, &mut First, EFFORT, component, layout) {
        Ok(written) => OptOutcome::from(write_whole(&written, out)),
        Err(stop) => unembedded(stop, out),
    }
}

// The outcome of a source that has no embedded C text under a name. Of one that is not constructive the trace is
// written.
fn unembedded<O: Sink>(stop: Stop<Unmade<CycleRefusal, EmbedFault>>, out: &mut O) -> OptOutcome
    ensures { IsUnmadeOutcome BadComponent stop (change O.told O.faults out.old out.new) result }
{
    match stop {
        Stop::Fault(Unmade::NoNet(refusal)) => refused(refusal, out),
        Stop::Fault(Unmade::NoText(fault)) => OptOutcome::BadComponent(fault),
        Stop::NoMemory => OptOutcome::NoMemory,
    }
}
