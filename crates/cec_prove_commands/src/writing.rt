// The outcome of an answer, and what is written of it.

ghost use Rattle.std.specs.Prelude.{ℕ, List, Option};
ghost use Rattle.base_types.specs.SinkChanges.{change};
ghost use Rattle.cec_text_io.specs.Writings.{LeavesText};
ghost use Rattle.cec_prove_covers.specs.Coverings.{HasCovering};
ghost use Rattle.cec_prove_cycles.specs.Answers.{HasConstructiveComparison, HasConstructiveSurvey};
ghost use Rattle.cec_prove_cycles.specs.Answers.{HasConstructiveVerdict};
ghost use Rattle.cec_prove_sources.specs.Verdicts.{PlainQuestion};
ghost use Rattle.cec_prove_texts.specs.Sameness.{HasTextComparison};
ghost use Rattle.cec_prove_texts.specs.Surveys.{HasTextSurvey};
ghost use Rattle.cec_prove_texts.specs.Verdicts.{HasTextVerdict};
ghost use Rattle.cec_prove_commands.specs.Answers.{IsAnswer, IsWrittenBy, SaysOfTexts};
ghost use Rattle.cec_prove_commands.specs.Outcomes.{ClaimSays, ComparisonSays, IsClaimTraceBy, IsDistinctionBy};
ghost use Rattle.cec_prove_commands.specs.Outcomes.{CoveringSays, IsCoveringBy, IsSurveyBy, SurveySays};
ghost use Rattle.cec_prove_commands.specs.Statuses.{written_of};
ghost use Rattle.cec_prove_commands.specs.TextOutcomes.{IsTextDistinction, IsTextRefutation, IsTextSurveyBy};
ghost use Rattle.cec_prove_commands.specs.TextOutcomes.{TextClaimSays, TextComparisonSays, TextSurveySays};
ghost use Rattle.cec_prove_commands.specs.Words.{Job, Task};

use crate::answers::Answer;
use crate::outcome::{InputFault, ProveOutcome, written_outcome};
use crate::stopping::refused;
use base_types::Sink;
use cec_prove_covers::Covering;
use cec_prove_sources::{Comparison, Survey, Verdict};
use cec_text_io::write_whole;

/// The outcome of a task with this answer, whose trace or lines, if any, are written to `out`.
pub(crate) fn answer_outcome<O: Sink>(answer: Answer, out: &mut O) -> ProveOutcome
    ensures says { (task : Task) (job : Job) (first second : List ℕ) → IsAnswer answer task job first second
        → SaysOfTexts task result job first second }
    ensures out { (task : Task) (job : Job) (first second : List ℕ) → IsAnswer answer task job first second
        → LeavesText (IsWrittenBy task result job first second) (change O.told O.faults out.old out.new)
        (written_of result) }
{
    match answer {
        Answer::Asked(verdict) => verdict_outcome(verdict, out),
        Answer::Surveyed(survey) => survey_outcome(survey, out),
        Answer::Covered(covering) => covering_outcome(covering, out),
        Answer::Compared(comparison) => comparison_outcome(comparison, out),
        Answer::Refused(which, refusal) => refused(which, refusal, out),
        Answer::BadText(which, fault) => {
            ProveOutcome::BadInput(which, InputFault::BadText(fault))
        }
        Answer::NoMemory => ProveOutcome::NoMemory,
    }
}

// The outcome of a claim.
fn verdict_outcome<O: Sink>(verdict: Verdict, out: &mut O) -> ProveOutcome
    ensures says { (q : PlainQuestion) (job : Job) (text : List ℕ) → HasConstructiveVerdict text job.main q verdict
        → ClaimSays q result job text }
    ensures out { (q : PlainQuestion) (job : Job) (text : List ℕ) → HasConstructiveVerdict text job.main q verdict
        → LeavesText (IsClaimTraceBy q result job text) (change O.told O.faults out.old out.new) (written_of result) }
    ensures says_of_text { (q : PlainQuestion) (text : List ℕ) → HasTextVerdict text q verdict
        → TextClaimSays q result text }
    ensures out_of_text { (q : PlainQuestion) (text : List ℕ) → HasTextVerdict text q verdict
        → LeavesText (IsTextRefutation q text) (change O.told O.faults out.old out.new) (written_of result) }
{
    match verdict {
        Verdict::Holds => ProveOutcome::Proved,
        Verdict::Broken(trace) => {
            written_outcome(ProveOutcome::Refuted, write_whole(&trace, out))
        }
        Verdict::Open(depth) => ProveOutcome::Undecided(depth),
        Verdict::NoSignal => ProveOutcome::NoSignal,
        Verdict::NoAssumed => ProveOutcome::NoAssumed,
    }
}

// The outcome of a survey.
fn survey_outcome<O: Sink>(survey: Survey, out: &mut O) -> ProveOutcome
    ensures says { (job : Job) (text : List ℕ) → HasConstructiveSurvey text job.main job.assumed survey
        → SurveySays result job text }
    ensures out { (job : Job) (text : List ℕ) → HasConstructiveSurvey text job.main job.assumed survey
        → LeavesText (IsSurveyBy result job text) (change O.told O.faults out.old out.new) (written_of result) }
    ensures says_of_text { (assumed : Option (List ℕ)) (text : List ℕ) → HasTextSurvey text assumed survey
        → TextSurveySays result assumed text }
    ensures out_of_text { (assumed : Option (List ℕ)) (text : List ℕ) → HasTextSurvey text assumed survey
        → LeavesText (IsTextSurveyBy result assumed text) (change O.told O.faults out.old out.new)
        (written_of result) }
{
    match survey {
        Survey::Whole(lines) => {
            written_outcome(ProveOutcome::Surveyed, write_whole(&lines, out))
        }
        Survey::Partly(lines) => {
            written_outcome(ProveOutcome::PartlySurveyed, write_whole(&lines, out))
        }
        Survey::NoAssumed => ProveOutcome::NoAssumed,
    }
}

// The outcome of a covering.
fn covering_outcome<O: Sink>(covering: Covering, out: &mut O) -> ProveOutcome
    ensures says { (job : Job) (text : List ℕ) → HasCovering text job.main job.assumed covering
        → CoveringSays result job text }
    ensures out { (job : Job) (text : List ℕ) → HasCovering text job.main job.assumed covering
        → LeavesText (IsCoveringBy result job text) (change O.told O.faults out.old out.new) (written_of result) }
{
    match covering {
        Covering::Whole(lines) => {
            written_outcome(ProveOutcome::Covered, write_whole(&lines, out))
        }
        Covering::Partly(lines) => {
            written_outcome(ProveOutcome::PartlyCovered, write_whole(&lines, out))
        }
        Covering::NoAssumed => ProveOutcome::NoAssumed,
    }
}

// The outcome of a comparison.
fn comparison_outcome<O: Sink>(comparison: Comparison, out: &mut O) -> ProveOutcome
    ensures says { (first second : List ℕ) (job : Job) → HasConstructiveComparison first second job.main comparison
        → ComparisonSays result job first second }
    ensures out { (first second : List ℕ) (job : Job) → HasConstructiveComparison first second job.main comparison
        → LeavesText (IsDistinctionBy result job first second) (change O.told O.faults out.old out.new)
        (written_of result) }
    ensures says_of_texts { (first second : List ℕ) → HasTextComparison first second comparison
        → TextComparisonSays result first second }
    ensures out_of_texts { (first second : List ℕ) → HasTextComparison first second comparison
        → LeavesText (IsTextDistinction first second) (change O.told O.faults out.old out.new) (written_of result) }
{
    match comparison {
        Comparison::Same => ProveOutcome::Proved,
        Comparison::Different(trace) => {
            written_outcome(ProveOutcome::Refuted, write_whole(&trace, out))
        }
        Comparison::Open(depth) => ProveOutcome::Undecided(depth),
        Comparison::OtherGiven => ProveOutcome::OtherGiven,
        Comparison::OtherOutgoing => ProveOutcome::OtherOutgoing,
        Comparison::OtherRelations => ProveOutcome::OtherRelations,
    }
}
