// Answers to tasks. Those about sources are here.

ghost use Rattle.std.specs.Prelude.{◌≤◌, ℕ, List, length, IfErr, IfOk};
ghost use Rattle.cec_cycles.specs.Constructive.{IsRefusedConstructive};
ghost use Rattle.cec_prove_covers.specs.Coverings.{HasCovering};
ghost use Rattle.cec_prove_cycles.specs.Answers.{HasConstructiveComparison, HasConstructiveSurvey};
ghost use Rattle.cec_prove_cycles.specs.Answers.{HasConstructiveVerdict, IsPairRefusedConstructive};
ghost use Rattle.cec_prove_commands.specs.Answers.{IsAnswer, byte_limit};
ghost use Rattle.cec_prove_commands.specs.Outcomes.{question_of};
ghost use Rattle.cec_prove_commands.specs.Views.{job_is, task_is};
ghost use Rattle.cec_prove_commands.specs.Words.{Ask, Compare, Cover, Survey as OfSignals, is_of_texts};

use crate::answers::Answer;
use crate::texts::{text_claim_answer, text_comparison_answer, text_survey_answer};
use crate::words::{Job, Task};
use base_types::Limits;
use cec_cycles::CycleRefusal;
use cec_prove_covers::{Covering, covering_of};
use cec_prove_cycles::{
    CyclePairRefusal, constructive_comparison_of, constructive_survey_of, constructive_verdict_of,
};
use cec_prove_sources::{Claim, Comparison, Question, Survey, Verdict};
use cec_words::Which;
use grc_order::First;
use std::alloc::Global;

/// The answer to a task about these texts, the second of which a comparison alone reads, within an effort.
pub(crate) fn answer(
    alloc: Global,
    job: Job<'_>,
    first: &[u8],
    second: &[u8],
    effort: u64,
) -> Answer
    requires first { length first.now ≤ byte_limit (is_of_texts (task_is job.task)) }
    requires second { length second.now ≤ byte_limit (is_of_texts (task_is job.task)) }
    ensures { IsAnswer result (job_is job.entry).task (job_is job.entry) first.now second.now }
{
    match job.task {
        Task::Ask(claim, signal) => claim_answer(alloc, job, claim, signal, first, effort),
        Task::Survey => survey_answer(alloc, job, first, effort),
        Task::Cover => covering_answer(alloc, job, first, effort),
        Task::Compare(_) => comparison_answer(alloc, job, first, second, effort),
        Task::AskText(claim, signal) => text_claim_answer(alloc, job, claim, signal, first, effort),
        Task::SurveyText => text_survey_answer(alloc, job, first, effort),
        Task::CompareTexts(_) => text_comparison_answer(alloc, job, first, second, effort),
    }
}

// The answer to a claim about a text.
fn claim_answer(
    alloc: Global,
    job: Job<'_>,
    claim: Claim,
    signal: &[u8],
    text: &[u8],
    effort: u64,
) -> Answer
    requires { length text.now ≤ Limits.SOURCE_BYTES }
    ensures { (second : List ℕ) → IsAnswer result (Ask claim signal.now) (job_is job.entry) text.now second }
{
    match verdict(alloc, job, claim, signal, text, effort) {
        Ok(verdict) => Answer::Asked(verdict),
        Err(refusal) => Answer::Refused(Which::First, refusal),
    }
}

fn verdict(
    alloc: Global,
    job: Job<'_>,
    claim: Claim,
    signal: &[u8],
    text: &[u8],
    effort: u64,
) -> Result<Verdict, CycleRefusal>
    requires { length text.now ≤ Limits.SOURCE_BYTES }
    ensures answers { IfOk result (HasConstructiveVerdict text.now (job_is job.entry).main
        (question_of claim signal.now (job_is job.entry))) }
    ensures refuses { IfErr result (IsRefusedConstructive text.now (job_is job.entry).main) }
{
    let question = Question {
        claim,
        signal,
        assumed: job.assumed,
    };
    constructive_verdict_of(alloc, text, job.main, &mut First, question, effort)
}

// The survey of a text.
fn survey_answer(alloc: Global, job: Job<'_>, text: &[u8], effort: u64) -> Answer
    requires { length text.now ≤ Limits.SOURCE_BYTES }
    ensures { (second : List ℕ) → IsAnswer result OfSignals (job_is job.entry) text.now second }
{
    match survey(alloc, job, text, effort) {
        Ok(survey) => Answer::Surveyed(survey),
        Err(refusal) => Answer::Refused(Which::First, refusal),
    }
}

fn survey(alloc: Global, job: Job<'_>, text: &[u8], effort: u64) -> Result<Survey, CycleRefusal>
    requires { length text.now ≤ Limits.SOURCE_BYTES }
    ensures surveys { IfOk result (HasConstructiveSurvey text.now (job_is job.entry).main (job_is job.entry).assumed) }
    ensures refuses { IfErr result (IsRefusedConstructive text.now (job_is job.entry).main) }
{
    constructive_survey_of(alloc, text, job.main, &mut First, job.assumed, effort)
}

// The covering of a text.
fn covering_answer(alloc: Global, job: Job<'_>, text: &[u8], effort: u64) -> Answer
    requires { length text.now ≤ Limits.SOURCE_BYTES }
    ensures { (second : List ℕ) → IsAnswer result Cover (job_is job.entry) text.now second }
{
    match covering(alloc, job, text, effort) {
        Ok(covering) => Answer::Covered(covering),
        Err(refusal) => Answer::Refused(Which::First, refusal),
    }
}

fn covering(alloc: Global, job: Job<'_>, text: &[u8], effort: u64) -> Result<Covering, CycleRefusal>
    requires { length text.now ≤ Limits.SOURCE_BYTES }
    ensures covers { IfOk result (HasCovering text.now (job_is job.entry).main (job_is job.entry).assumed) }
    ensures refuses { IfErr result (IsRefusedConstructive text.now (job_is job.entry).main) }
{
    covering_of(alloc, text, job.main, &mut First, job.assumed, effort)
}

// The comparison of two texts.
fn comparison_answer(
    alloc: Global,
    job: Job<'_>,
    first: &[u8],
    second: &[u8],
    effort: u64,
) -> Answer
    requires first { length first.now ≤ Limits.SOURCE_BYTES }
    requires second { length second.now ≤ Limits.SOURCE_BYTES }
    ensures { (other : List ℕ) → IsAnswer result (Compare other) (job_is job.entry) first.now second.now }
{
    match comparison(alloc, job, first, second, effort) {
        Ok(comparison) => Answer::Compared(comparison),
        Err(CyclePairRefusal::First(refusal)) => Answer::Refused(Which::First, refusal),
        Err(CyclePairRefusal::Second(refusal)) => Answer::Refused(Which::Second, refusal),
    }
}

fn comparison(
    alloc: Global,
    job: Job<'_>,
    first: &[u8],
    second: &[u8],
    effort: u64,
) -> Result<Comparison, CyclePairRefusal>
    requires first { length first.now ≤ Limits.SOURCE_BYTES }
    requires second { length second.now ≤ Limits.SOURCE_BYTES }
    ensures compares { IfOk result (HasConstructiveComparison first.now second.now (job_is job.entry).main) }
    ensures refuses { IfErr result (IsPairRefusedConstructive first.now second.now (job_is job.entry).main) }
{
    constructive_comparison_of(alloc, first, second, job.main, &mut First, effort)
}
