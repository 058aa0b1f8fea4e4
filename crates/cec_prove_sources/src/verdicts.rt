// Whether a claim about an outgoing signal holds.

ghost use Rattle.std.specs.Prelude.{◌≤◌, length, option_map, IfErr, IfOk};
ghost use Rattle.est_kernel.specs.Plain.{program_of};
ghost use Rattle.est_kernel.specs.WellFormed.{IsWellFormed};
ghost use Rattle.net_ir.specs.Runs.{netlist_of};
ghost use Rattle.cec_compile.specs.Compiling.{IsCompiled};
ghost use Rattle.cec_compile.specs.Following.{FollowsGraph};
ghost use Rattle.cec_compile.specs.NetMeaning.{NetKeeps};
ghost use Rattle.cec_compile.specs.Refusals.{IsRefused};
ghost use Rattle.cec_prove_sources.specs.Verdicts.{HasVerdict, IsVerdict};
ghost use Rattle.cec_prove_sources.specs.Views.{plain_question};

use crate::device_verdicts::{device_verdict, made_verdict};
use crate::questions::{Question, Verdict};
use base_types::{Limits, NoMemory};
use cec_compile::{Compiled, Refusal, TextForm, compile, made_in};
use est_kernel::KernelProgram;
use grc_order::Picker;
use net_ir::Net;
use std::alloc::Global;

/// The answer to a question about an outgoing signal of a program, by a netlist that keeps what the program means,
/// however the netlist was made: what `verdict_of` says of a source's program. The effort is one of `net_search`. The
/// error is out of memory.
pub fn net_verdict(
    alloc: Global,
    program: &KernelProgram,
    net: &Net,
    question: Question<'_>,
    effort: u64,
) -> Result<Verdict, NoMemory>
    requires fits { IsWellFormed (program_of program.now) }
    requires keeps { NetKeeps (netlist_of net.now) (program_of program.now) }
    ensures { IfOk result (IsVerdict (program_of program.now) (plain_question question.entry)) }
{
    device_verdict(alloc, &program.relations, net, question, effort)
}

// The share of the effort that goes to short traces by the program's own netlist.
const TRACE_SHARE: u64 = 64;

// The answer by the program's own netlist, in which traces are found soon, where a small part of the effort is enough,
// and else by one whose latches hold the state in a code. There most claims need no invariant, or one of few clauses.
fn compiled_verdict(
    alloc: Global,
    compiled: Compiled,
    question: Question<'_>,
    effort: u64,
) -> Result<Verdict, NoMemory>
    requires fits { IsWellFormed (program_of compiled.graph.program) }
    requires compiled { IsCompiled compiled (program_of compiled.graph.program) }
    requires follows { FollowsGraph compiled }
    ensures { IfOk result (IsVerdict (program_of compiled.graph.program) (plain_question question.entry)) }
{
    match net_verdict(
        alloc,
        &compiled.graph.program,
        &compiled.net,
        question,
        effort / TRACE_SHARE,
    ) {
        Ok(Verdict::Open(_)) => encoded_verdict(alloc, compiled, question, effort),
        others => others,
    }
}

// The answer by the netlist whose latches hold the state in a code.
fn encoded_verdict(
    alloc: Global,
    compiled: Compiled,
    question: Question<'_>,
    effort: u64,
) -> Result<Verdict, NoMemory>
    requires fits { IsWellFormed (program_of compiled.graph.program) }
    requires compiled { IsCompiled compiled (program_of compiled.graph.program) }
    requires follows { FollowsGraph compiled }
    ensures { IfOk result (IsVerdict (program_of compiled.graph.program) (plain_question question.entry)) }
{
    let made = made_in(alloc, TextForm::EncodedBlif, compiled)?;
    made_verdict(alloc, &made.program.relations, &made.net, question, effort)
}

/// The answer to a question about an outgoing signal of a source. `Holds` is proved. It is about every list of events
/// that meet the source's relations, and resets: each reaction of the source is constructive. Where the signal that is
/// assumed is present in all of them, the signal is as claimed in each. `Broken` has a trace, and the last reaction to
/// it breaks the claim. `Open` says nothing. The effort is one of `net_search`.
///
/// It refuses what `cec_compile::compile` refuses.
pub fn verdict_of<P: Picker>(
    alloc: Global,
    text: &[u8],
    main: Option<&[u8]>,
    picker: &mut P,
    question: Question<'_>,
    effort: u64,
) -> Result<Verdict, Refusal>
    requires { length text.now ≤ Limits.SOURCE_BYTES }
    ensures answers { IfOk result (HasVerdict text.now (option_map (λ m. m.now) main.entry)
        (plain_question question.entry)) }
    ensures refuses { IfErr result (IsRefused text.now (option_map (λ m. m.now) main.entry)) }
{
    let compiled = compile(alloc, text, main, picker)?;
    let verdict = compiled_verdict(alloc, compiled, question, effort)?;
    Ok(verdict)
}
