// The search for an answer, with more and more effort where somebody watches.

ghost use Rattle.std.specs.Prelude.{◌≡◌, ◌≤◌, ◌++◌, ℕ, List, Option, length};
ghost use Rattle.base_types.specs.SinkChanges.{change};
ghost use Rattle.base_types.specs.Writing.{Wrote};
ghost use Rattle.cec_prove_commands.specs.Answers.{HasTold, IsAnswer, byte_limit};
ghost use Rattle.cec_prove_commands.specs.Lines.{most_further, progress_line};
ghost use Rattle.cec_prove_commands.specs.Views.{job_is, task_is};
ghost use Rattle.cec_prove_commands.specs.Words.{is_of_texts};

use crate::answers::{Answer, is_open};
use crate::lines::put_progress;
use crate::sources::answer;
use crate::words::Job;
use base_types::{Sink, SinkFault};
use std::alloc::Global;

// The effort of the level 0. Each level has ten times that of the one before.
const EFFORT: u64 = 1_000;

// What the first of several tries has of the whole effort: one part of so many. Each further try has ten times as much.
const FIRST_PART: u64 = 1_000;

/// An answer, and how the writing of the lines about the search for it ended.
#[derive(Drop)]
pub(crate) struct Searched {
    pub(crate) answer: Answer,
    pub(crate) told: Result<(), SinkFault>,
}

// The effort of a level, of the fifth without one.
fn effort_of(level: Option<u8>) -> u64 {
    let mut effort = EFFORT;
    for _ in 0..level.unwrap_or(5) {
        effort = effort.saturating_mul(10);
    }
    effort
}

// The effort of the first try.
fn first_effort(level: Option<u8>, progress: bool) -> u64 {
    if progress {
        effort_of(level) / FIRST_PART
    } else {
        effort_of(level)
    }
}

// How many tries may follow the first one.
fn most_further(progress: bool) -> usize
    ensures { result ≡ most_further progress }
{
    if progress { 3 } else { 0 }
}

/// The answer to a task about these texts, the second of which a comparison alone reads. With `progress` it is searched
/// with a thousandth of the effort first, then with a hundredth, a tenth, and the whole, as long as the answer leaves
/// something undecided. A line goes to `err` before each further try.
pub(crate) fn patient_answer<E: Sink>(
    alloc: Global,
    job: Job<'_>,
    first: &[u8],
    second: &[u8],
    progress: bool,
    err: &mut E,
) -> Searched
    requires first { length first.now ≤ byte_limit (is_of_texts (task_is job.task)) }
    requires second { length second.now ≤ byte_limit (is_of_texts (task_is job.task)) }
    ensures answers { IsAnswer result.answer (job_is job.entry).task (job_is job.entry) first.now second.now }
    ensures told { HasTold progress result.told (change E.told E.faults err.old err.new) }
{
    let mut effort = first_effort(job.level, progress);
    let mut told = Ok(());
    for further in 0..most_further(progress) {
        let answer = answer(alloc, job, first, second, effort);
        if !is_open(&answer) {
            return Searched { answer, told };
        }
        told = told_further(err, told, further + 2);
        effort = effort.saturating_mul(10);
    }
    Searched {
        answer: answer(alloc, job, first, second, effort),
        told,
    }
}

// Writes the line before the try of this number, unless the sink has failed before.
fn told_further<E: Sink>(
    err: &mut E,
    told: Result<(), SinkFault>,
    number: usize,
) -> Result<(), SinkFault>
    ensures { (before : Option (List ℕ)) (faults : ℕ) (lines : List ℕ)
        → Wrote before (E.told err.old) faults (E.faults err.old) lines told
        → Wrote before (E.told err.new) faults (E.faults err.new) (lines ++ progress_line number) result }
{
    match told {
        Ok(()) => put_progress(err, number),
        Err(fault) => Err(fault),
    }
}
