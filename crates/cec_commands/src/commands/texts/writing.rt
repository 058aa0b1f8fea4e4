// The text of a source of a form, written in a language.

ghost use Rattle.std.specs.Prelude.{◌≤◌, length, option_map};
ghost use Rattle.base_types.specs.SinkChanges.{change};
ghost use Rattle.cec_compile.specs.SourceTexts.{IsSourceText};
ghost use Rattle.cec_commands.specs.JobViews.{plain_job};
ghost use Rattle.cec_commands.specs.Outcomes.{MakesOn, OutcomeLeavesPieces};

use crate::jobs::Job;
use crate::outcome::Outcome;
use crate::targets::Target;
use base_types::{Draw, Limits, Sink};
use cec_compile::TextForm;
use cec_words::Pick;
use grc_order::{Drawn, First, Last, Picker};
use std::alloc::Global;

/// Writes the text of a source of a form, in a language, piece by piece.
pub(crate) fn write_in<T: Target, O: Sink>(
    alloc: Global,
    form: TextForm,
    job: Job<'_>,
    source: &[u8],
    out: &mut O,
) -> Outcome
    requires short { length source.now ≤ Limits.SOURCE_BYTES }
    requires form { T.serves form }
    ensures agrees { MakesOn (plain_job job.entry).main result source.now }
    ensures out { OutcomeLeavesPieces (IsSourceText form (plain_job job.entry).main source.now)
        (change O.told O.faults out.old out.new) result }
{
    match job.pick {
        Pick::First => write_picked::<T, First, O>(alloc, form, source, job.main, &mut First, out),
        Pick::Last => write_picked::<T, Last, O>(alloc, form, source, job.main, &mut Last, out),
        Pick::Drawn(start) => {
            let mut drawn = Drawn(Draw::new(start));
            write_picked::<T, Drawn, O>(alloc, form, source, job.main, &mut drawn, out)
        }
    }
}

// Writes the text of a source of a form, in a language, along the order that a picker makes, and says how that ended.
fn write_picked<T: Target, P: Picker, O: Sink>(
    alloc: Global,
    form: TextForm,
    source: &[u8],
    main: Option<&[u8]>,
    picker: &mut P,
    out: &mut O,
) -> Outcome
    requires short { length source.now ≤ Limits.SOURCE_BYTES }
    requires form { T.serves form }
    ensures agrees { MakesOn (option_map (λ m. m.now) main.entry) result source.now }
    ensures out { OutcomeLeavesPieces (IsSourceText form (option_map (λ m. m.now) main.entry) source.now)
        (change O.told O.faults out.old out.new) result }
{
    match T::write::<P, O>(alloc, form, source, main, picker, out) {
        Ok(ended) => Outcome::from(ended),
        Err(refusal) => Outcome::from(refusal),
    }
}
