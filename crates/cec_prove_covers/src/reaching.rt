// Whether a signal of a covered program is ever present.

ghost use Rattle.std.specs.Prelude.{◌≡◌, option_map, IfOk};
ghost use Rattle.est_kernel.specs.Plain.{outgoing_names, program_of};
ghost use Rattle.est_kernel.specs.WellFormed.{IsWellFormed};
ghost use Rattle.net_ir.specs.Runs.{netlist_of};
ghost use Rattle.cec_compile.specs.NetMeaning.{NetKeeps};
ghost use Rattle.cec_prove_sources.specs.Surveys.{about};
ghost use Rattle.cec_prove_sources.specs.Verdicts.{HasPlace};
ghost use Rattle.cec_prove_sources.specs.Views.{plain_question};
ghost use Rattle.cec_prove_covers.specs.Findings.{IsSignalReach, reach_of};

use base_types::NoMemory;
use cec_prove_sources::{Claim, Finding, Layout, PlacedQuestion, Question, found, place_of};
use est_kernel::KernelProgram;
use net_ir::Net;
use std::alloc::Global;

/// A trace whose last reaction has the signal of this name, or that none has, where the signal that is assumed is
/// present in each reaction.
pub(crate) fn signal_reach(
    alloc: Global,
    program: &KernelProgram,
    net: &Net,
    signal: &[u8],
    assumed: Option<&[u8]>,
    effort: u64,
) -> Result<Finding, NoMemory>
    requires fits { IsWellFormed (program_of program.now) }
    requires keeps { NetKeeps (netlist_of net.now) (program_of program.now) }
    ensures { IfOk result (λ f. IsSignalReach (program_of program.now) signal.now
        (option_map (λ n. n.now) assumed.entry) (reach_of f)) }
{
    match place_of(program, net, signal) {
        None => Ok(Finding::Open(0)),
        Some(place) => placed_reach(alloc, program, net, signal, place, assumed, effort),
    }
}

// The same of a signal with this place.
fn placed_reach(
    alloc: Global,
    program: &KernelProgram,
    net: &Net,
    signal: &[u8],
    place: usize,
    assumed: Option<&[u8]>,
    effort: u64,
) -> Result<Finding, NoMemory>
    requires fits { IsWellFormed (program_of program.now) }
    requires keeps { NetKeeps (netlist_of net.now) (program_of program.now) }
    requires place { HasPlace (outgoing_names (program_of program.now)) signal.now place }
    ensures { IfOk result (λ f. IsSignalReach (program_of program.now) signal.now
        (option_map (λ n. n.now) assumed.entry) (reach_of f)) }
{
    let Some(name) = assumed else {
        let asked = asked(signal, place, None, None);
        return found(alloc, program, net, asked, effort);
    };
    match place_of(program, net, name) {
        None => Ok(Finding::Open(0)),
        Some(at) => {
            let asked = asked(signal, place, Some(name), Some(at));
            found(alloc, program, net, asked, effort)
        }
    }
}

// The question whether a signal is never present.
fn asked<'a>(
    signal: &'a [u8],
    place: usize,
    assumed: Option<&'a [u8]>,
    at: Option<usize>,
) -> PlacedQuestion<'a>
    ensures question { plain_question result.question
        ≡ about Claim.Never signal.entry.now (option_map (λ n. n.now) assumed.entry) }
    ensures claim { result.question.claim ≡ Claim.Never }
    ensures place { result.place ≡ place }
    ensures assumed { result.assumed ≡ at }
    ensures layout { result.layout ≡ Layout.OneLine }
{
    PlacedQuestion {
        question: Question {
            claim: Claim::Never,
            signal,
            assumed,
        },
        place,
        assumed: at,
        layout: Layout::OneLine,
    }
}
