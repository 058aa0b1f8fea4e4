// Surveys of all outgoing signals.

ghost use Rattle.std.specs.Prelude.{◌≤◌, length, option_map, IfErr, IfOk};
ghost use Rattle.est_kernel.specs.Plain.{program_of};
ghost use Rattle.est_kernel.specs.WellFormed.{IsWellFormed};
ghost use Rattle.net_ir.specs.Runs.{netlist_of};
ghost use Rattle.cec_compile.specs.Compiling.{IsCompiled};
ghost use Rattle.cec_compile.specs.Following.{FollowsGraph};
ghost use Rattle.cec_compile.specs.NetMeaning.{NetKeeps};
ghost use Rattle.cec_compile.specs.Refusals.{IsRefused};
ghost use Rattle.cec_prove_sources.specs.Surveys.{HasSurvey, IsSurvey};

use crate::device_surveys::{device_survey, small_survey};
use crate::questions::Survey;
use base_types::{Limits, NoMemory};
use cec_compile::{Compiled, Refusal, TextForm, compile, made_in};
use est_kernel::KernelProgram;
use grc_order::Picker;
use net_ir::Net;
use std::alloc::Global;

/// The survey of all outgoing signals of a program, by a netlist that keeps what the program means, however the netlist
/// was made: what `survey_of` says of a source's program. Each of a signal's two questions has the effort. The error is
/// out of memory.
pub fn net_survey(
    alloc: Global,
    program: &KernelProgram,
    net: &Net,
    assumed: Option<&[u8]>,
    effort: u64,
) -> Result<Survey, NoMemory>
    requires fits { IsWellFormed (program_of program.now) }
    requires keeps { NetKeeps (netlist_of net.now) (program_of program.now) }
    ensures { IfOk result (IsSurvey (program_of program.now) (option_map (λ n. n.now) assumed.entry)) }
{
    device_survey(alloc, &program.relations, net, assumed, effort)
}

// The survey by the netlist whose latches hold the state in a code, optimized.
fn encoded_survey(
    alloc: Global,
    compiled: Compiled,
    assumed: Option<&[u8]>,
    effort: u64,
) -> Result<Survey, NoMemory>
    requires fits { IsWellFormed (program_of compiled.graph.program) }
    requires compiled { IsCompiled compiled (program_of compiled.graph.program) }
    requires follows { FollowsGraph compiled }
    ensures { IfOk result (IsSurvey (program_of compiled.graph.program) (option_map (λ n. n.now) assumed.entry)) }
{
    let made = made_in(alloc, TextForm::EncodedBlif, compiled)?;
    small_survey(alloc, &made.program.relations, &made.net, assumed, effort)
}

/// The survey of all outgoing signals of a source, which is compiled and optimized once: for each of them, in order,
/// whether it is present in no reaction, in each one, or in some and not in others, with a trace to one of each kind.
/// What it says of a signal is what `verdict_of` says of it, and each of its two questions has the effort. `Partly` has
/// a signal for which neither was found.
///
/// It refuses what `cec_compile::compile` refuses.
pub fn survey_of<P: Picker>(
    alloc: Global,
    text: &[u8],
    main: Option<&[u8]>,
    picker: &mut P,
    assumed: Option<&[u8]>,
    effort: u64,
) -> Result<Survey, Refusal>
    requires { length text.now ≤ Limits.SOURCE_BYTES }
    ensures surveys { IfOk result (HasSurvey text.now (option_map (λ m. m.now) main.entry)
        (option_map (λ n. n.now) assumed.entry)) }
    ensures refuses { IfErr result (IsRefused text.now (option_map (λ m. m.now) main.entry)) }
{
    let compiled = compile(alloc, text, main, picker)?;
    let survey = encoded_survey(alloc, compiled, assumed, effort)?;
    Ok(survey)
}
