// Surveys of all outputs.

ghost use Rattle.std.specs.Prelude.{◌≤◌, length, option_map, IfOk};
ghost use Rattle.base_types.specs.Stops.{IfFault};
ghost use Rattle.cec_opt_texts.specs.Faults.{IsOptFault};
ghost use Rattle.cec_prove_texts.specs.Surveys.{HasTextSurvey};

use base_types::{Limits, Stop};
use blif_read::BlifFault;
use cec_opt_texts::text_net;
use cec_prove_sources::{Survey, small_survey};
use std::alloc::Global;

/// The survey of all outputs of a BLIF text but `_paused`, whose netlist is optimized once: for each of them, in order,
/// whether it is true in no instant, in each one, or in some and not in others, with a trace to one of each kind. What
/// it says of an output is what `text_verdict_of` says of it, and each of its two questions has the effort. `Partly`
/// has an output for which neither was found.
///
/// The fault is the text's first one, or that of its circuit. Out of memory is the only other error.
pub fn text_survey_of(
    alloc: Global,
    text: &[u8],
    assumed: Option<&[u8]>,
    effort: u64,
) -> Result<Survey, Stop<BlifFault>>
    requires { length text.now ≤ Limits.TEXT_BYTES }
    ensures surveys { IfOk result (HasTextSurvey text.now (option_map (λ n. n.now) assumed.entry)) }
    ensures fault { IfFault result (IsOptFault text.now) }
{
    let net = text_net(alloc, text)?;
    let survey = small_survey(alloc, &[], &net, assumed, effort)?;
    Ok(survey)
}
