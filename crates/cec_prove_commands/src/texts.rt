// Answers to tasks about BLIF texts.

ghost use Rattle.std.specs.Prelude.{◌≤◌, ℕ, List, length, IfOk};
ghost use Rattle.base_types.specs.Stops.{IfFault};
ghost use Rattle.cec_opt_texts.specs.Faults.{IsOptFault};
ghost use Rattle.cec_prove_texts.specs.Faults.{IsPairFault};
ghost use Rattle.cec_prove_texts.specs.Sameness.{HasTextComparison};
ghost use Rattle.cec_prove_texts.specs.Surveys.{HasTextSurvey};
ghost use Rattle.cec_prove_texts.specs.Verdicts.{HasTextVerdict};
ghost use Rattle.cec_prove_commands.specs.Answers.{IsAnswer};
ghost use Rattle.cec_prove_commands.specs.Outcomes.{question_of};
ghost use Rattle.cec_prove_commands.specs.Views.{job_is};
ghost use Rattle.cec_prove_commands.specs.Words.{AskText, CompareTexts, SurveyText};

use crate::answers::Answer;
use crate::words::Job;
use base_types::{Limits, Stop};
use blif_read::BlifFault;
use cec_prove_sources::{Claim, Comparison, Question, Survey, Verdict};
use cec_prove_texts::{PairFault, text_comparison_of, text_survey_of, text_verdict_of};
use cec_words::Which;
use std::alloc::Global;

/// The answer to a claim about a text.
pub(crate) fn text_claim_answer(
    alloc: Global,
    job: Job<'_>,
    claim: Claim,
    signal: &[u8],
    text: &[u8],
    effort: u64,
) -> Answer
    requires { length text.now ≤ Limits.TEXT_BYTES }
    ensures { (second : List ℕ) → IsAnswer result (AskText claim signal.now) (job_is job.entry) text.now second }
{
    match verdict(alloc, job, claim, signal, text, effort) {
        Ok(verdict) => Answer::Asked(verdict),
        Err(Stop::Fault(fault)) => Answer::BadText(Which::First, fault),
        Err(Stop::NoMemory) => Answer::NoMemory,
    }
}

fn verdict(
    alloc: Global,
    job: Job<'_>,
    claim: Claim,
    signal: &[u8],
    text: &[u8],
    effort: u64,
) -> Result<Verdict, Stop<BlifFault>>
    requires { length text.now ≤ Limits.TEXT_BYTES }
    ensures answers { IfOk result (HasTextVerdict text.now (question_of claim signal.now (job_is job.entry))) }
    ensures fault { IfFault result (IsOptFault text.now) }
{
    let question = Question {
        claim,
        signal,
        assumed: job.assumed,
    };
    text_verdict_of(alloc, text, question, effort)
}

/// The survey of a text.
pub(crate) fn text_survey_answer(alloc: Global, job: Job<'_>, text: &[u8], effort: u64) -> Answer
    requires { length text.now ≤ Limits.TEXT_BYTES }
    ensures { (second : List ℕ) → IsAnswer result SurveyText (job_is job.entry) text.now second }
{
    match survey(alloc, job, text, effort) {
        Ok(survey) => Answer::Surveyed(survey),
        Err(Stop::Fault(fault)) => Answer::BadText(Which::First, fault),
        Err(Stop::NoMemory) => Answer::NoMemory,
    }
}

fn survey(alloc: Global, job: Job<'_>, text: &[u8], effort: u64) -> Result<Survey, Stop<BlifFault>>
    requires { length text.now ≤ Limits.TEXT_BYTES }
    ensures surveys { IfOk result (HasTextSurvey text.now (job_is job.entry).assumed) }
    ensures fault { IfFault result (IsOptFault text.now) }
{
    text_survey_of(alloc, text, job.assumed, effort)
}

/// The comparison of two texts.
pub(crate) fn text_comparison_answer(
    alloc: Global,
    job: Job<'_>,
    first: &[u8],
    second: &[u8],
    effort: u64,
) -> Answer
    requires first { length first.now ≤ Limits.TEXT_BYTES }
    requires second { length second.now ≤ Limits.TEXT_BYTES }
    ensures { (other : List ℕ) → IsAnswer result (CompareTexts other) (job_is job.entry) first.now second.now }
{
    match text_comparison_of(alloc, first, second, effort) {
        Ok(comparison) => Answer::Compared(comparison),
        Err(Stop::Fault(PairFault::First(fault))) => Answer::BadText(Which::First, fault),
        Err(Stop::Fault(PairFault::Second(fault))) => Answer::BadText(Which::Second, fault),
        Err(Stop::NoMemory) => Answer::NoMemory,
    }
}
