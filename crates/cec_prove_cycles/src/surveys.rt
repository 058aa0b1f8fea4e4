// Surveys of all outgoing signals.

ghost use Rattle.std.specs.Prelude.{◌≤◌, length, option_map, IfErr, IfOk};
ghost use Rattle.cec_compile.specs.Refusals.{IsRefused};
ghost use Rattle.cec_cycles.specs.Constructive.{IsRefusedConstructive};
ghost use Rattle.cec_prove_cycles.specs.Answers.{HasConstructiveSurvey};

use base_types::Limits;
use cec_compile::Refusal;
use cec_cycles::{CycleRefusal, cyclic_made};
use cec_prove_sources::{Survey, net_survey, survey_of};
use grc_order::Picker;
use std::alloc::Global;

// The survey of a source that is refused for this cause, where the cause is a cycle.
fn cyclic_survey(
    alloc: Global,
    text: &[u8],
    main: Option<&[u8]>,
    refusal: Refusal,
    assumed: Option<&[u8]>,
    effort: u64,
) -> Result<Survey, CycleRefusal>
    requires short { length text.now ≤ Limits.SOURCE_BYTES }
    requires refused { IsRefused text.now (option_map (λ m. m.now) main) refusal }
    ensures surveys { IfOk result (HasConstructiveSurvey text.now (option_map (λ m. m.now) main.entry)
        (option_map (λ n. n.now) assumed.entry)) }
    ensures refuses { IfErr result (IsRefusedConstructive text.now (option_map (λ m. m.now) main.entry)) }
{
    let made = cyclic_made(alloc, text, main, refusal, effort)?;
    let survey = net_survey(alloc, &made.program, &made.net, assumed, effort)?;
    Ok(survey)
}

/// The survey of all outgoing signals of a source whose dependencies may have a cycle: for each of them, in
/// order, whether it is present in no reaction, in each one, or in some and not in others, with a trace to one of each
/// kind. What it says of a signal is what `constructive_verdict_of` says of it. `Partly` has a signal for which neither
/// was found. Where the dependencies have no cycle, it is that of `cec_prove_sources::survey_of`. The effort is that of
/// `constructive_verdict_of`, for each of a signal's two questions.
///
/// It refuses what `constructive_verdict_of` refuses.
pub fn constructive_survey_of<P: Picker>(
    alloc: Global,
    text: &[u8],
    main: Option<&[u8]>,
    picker: &mut P,
    assumed: Option<&[u8]>,
    effort: u64,
) -> Result<Survey, CycleRefusal>
    requires { length text.now ≤ Limits.SOURCE_BYTES }
    ensures surveys { IfOk result (HasConstructiveSurvey text.now (option_map (λ m. m.now) main.entry)
        (option_map (λ n. n.now) assumed.entry)) }
    ensures refuses { IfErr result (IsRefusedConstructive text.now (option_map (λ m. m.now) main.entry)) }
{
    match survey_of(alloc, text, main, picker, assumed, effort) {
        Ok(survey) => Ok(survey),
        Err(refusal) => cyclic_survey(alloc, text, main, refusal, assumed, effort),
    }
}
