// Whether a claim about an outgoing signal holds.

ghost use Rattle.std.specs.Prelude.{◌≤◌, length, option_map, IfErr, IfOk};
ghost use Rattle.cec_compile.specs.Refusals.{IsRefused};
ghost use Rattle.cec_cycles.specs.Constructive.{IsRefusedConstructive};
ghost use Rattle.cec_prove_sources.specs.Views.{plain_question};
ghost use Rattle.cec_prove_cycles.specs.Answers.{HasConstructiveVerdict};

use base_types::Limits;
use cec_compile::Refusal;
use cec_cycles::{CycleRefusal, cyclic_made};
use cec_prove_sources::{Question, Verdict, net_verdict, verdict_of};
use grc_order::Picker;
use std::alloc::Global;

// The answer about a source that is refused for this cause, where the cause is a cycle.
fn cyclic_verdict(
    alloc: Global,
    text: &[u8],
    main: Option<&[u8]>,
    refusal: Refusal,
    question: Question<'_>,
    effort: u64,
) -> Result<Verdict, CycleRefusal>
    requires short { length text.now ≤ Limits.SOURCE_BYTES }
    requires refused { IsRefused text.now (option_map (λ m. m.now) main) refusal }
    ensures answers { IfOk result (HasConstructiveVerdict text.now (option_map (λ m. m.now) main.entry)
        (plain_question question.entry)) }
    ensures refuses { IfErr result (IsRefusedConstructive text.now (option_map (λ m. m.now) main.entry)) }
{
    let made = cyclic_made(alloc, text, main, refusal, effort)?;
    let verdict = net_verdict(alloc, &made.program, &made.net, question, effort)?;
    Ok(verdict)
}

/// The answer to a question about an outgoing signal of a source whose dependencies may have a cycle. It says
/// what the answer of `cec_prove_sources::verdict_of` says. `Holds` is proved. It is about every list of events that
/// meet the source's relations, and resets: each reaction of the source is constructive. Where the signal that is
/// assumed is present in all of them, the signal is as claimed in each. `Broken` has a trace, and the last reaction to
/// it breaks the claim. `Open` says only that the program has the signals. Where the dependencies have no cycle, the
/// answer is that of `verdict_of`. The effort is one of `net_search`, for the question, and for each schedule by which
/// the program may be shown to be constructive.
///
/// It refuses what `verdict_of` refuses, except for a cycle. For that it has three causes: the program is not
/// constructive, with a trace; it was not shown within the effort; the netlist would be too large.
pub fn constructive_verdict_of<P: Picker>(
    alloc: Global,
    text: &[u8],
    main: Option<&[u8]>,
    picker: &mut P,
    question: Question<'_>,
    effort: u64,
) -> Result<Verdict, CycleRefusal>
    requires { length text.now ≤ Limits.SOURCE_BYTES }
    ensures answers { IfOk result (HasConstructiveVerdict text.now (option_map (λ m. m.now) main.entry)
        (plain_question question.entry)) }
    ensures refuses { IfErr result (IsRefusedConstructive text.now (option_map (λ m. m.now) main.entry)) }
{
    match verdict_of(alloc, text, main, picker, question, effort) {
        Ok(verdict) => Ok(verdict),
        Err(refusal) => cyclic_verdict(alloc, text, main, refusal, question, effort),
    }
}
