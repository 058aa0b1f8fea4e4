// Whether a claim about an output of a text holds.

ghost use Rattle.std.specs.Prelude.{◌≤◌, length, IfOk};
ghost use Rattle.base_types.specs.Stops.{IfFault};
ghost use Rattle.cec_opt_texts.specs.Faults.{IsOptFault};
ghost use Rattle.cec_prove_sources.specs.Views.{plain_question};
ghost use Rattle.cec_prove_texts.specs.Verdicts.{HasTextVerdict};

use base_types::{Limits, Stop};
use blif_read::BlifFault;
use cec_opt_texts::text_net;
use cec_prove_sources::{Question, Verdict, made_verdict};
use std::alloc::Global;

/// The answer to a question about an output of a BLIF text. `Holds` is proved. It is about every list of events with
/// one value for each input, and resets: the circuit has a run, and all its runs show the same. Where the output that
/// is assumed is true in all instants, the output is as claimed in each. `Broken` has a trace, and the last instant of
/// it breaks the claim. `Open` says only that the text has the outputs. The effort is one of `net_search`.
///
/// The fault is the text's first one, or that of its circuit. Out of memory is the only other error.
pub fn text_verdict_of(
    alloc: Global,
    text: &[u8],
    question: Question<'_>,
    effort: u64,
) -> Result<Verdict, Stop<BlifFault>>
    requires { length text.now ≤ Limits.TEXT_BYTES }
    ensures answers { IfOk result (HasTextVerdict text.now (plain_question question.entry)) }
    ensures fault { IfFault result (IsOptFault text.now) }
{
    let net = text_net(alloc, text)?;
    let verdict = made_verdict(alloc, &[], &net, question, effort)?;
    Ok(verdict)
}
