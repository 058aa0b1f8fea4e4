// The outcome of a source that has no answer.

ghost use Rattle.base_types.specs.SinkChanges.{change};
ghost use Rattle.cec_prove_commands.specs.Stopping.{IsRefusedOutcome};

use crate::outcome::{InputFault, ProveOutcome, refusal_outcome, written_outcome};
use base_types::Sink;
use cec_cycles::CycleRefusal;
use cec_text_io::write_whole;
use cec_words::Which;

/// The outcome of a source that is refused. Of one that is not constructive the trace is written.
pub(crate) fn refused<O: Sink>(which: Which, refusal: CycleRefusal, out: &mut O) -> ProveOutcome
    ensures { IsRefusedOutcome which refusal (change O.told O.faults out.old out.new) result }
{
    match refusal {
        CycleRefusal::Source(refusal) => refusal_outcome(which, refusal),
        CycleRefusal::NotConstructive(stuck) => {
            let written = write_whole(&stuck.trace, out);
            let done = ProveOutcome::BadInput(which, InputFault::NotConstructive(stuck));
            written_outcome(done, written)
        }
        CycleRefusal::Undecided(cycle) => {
            ProveOutcome::BadInput(which, InputFault::UndecidedCycle(cycle))
        }
        CycleRefusal::TooManyNets(cycle) => {
            ProveOutcome::BadInput(which, InputFault::TooManyNets(cycle))
        }
    }
}
