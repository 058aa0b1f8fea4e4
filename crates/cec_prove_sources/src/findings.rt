// What is found about a program.

ghost use Rattle.std.specs.Prelude.{IfOk};
ghost use Rattle.est_kernel.specs.Plain.{program_of};
ghost use Rattle.est_kernel.specs.WellFormed.{IsWellFormed};
ghost use Rattle.net_ir.specs.Runs.{netlist_of};
ghost use Rattle.cec_compile.specs.NetMeaning.{NetKeeps};
ghost use Rattle.cec_prove_sources.specs.Findings.{IsFinding};
ghost use Rattle.cec_prove_sources.specs.Verdicts.{AsksOf};
ghost use Rattle.cec_prove_sources.specs.Views.{plain_question};

use crate::device_findings::{PlacedQuestion, device_finding};
use crate::questions::Finding;
use base_types::NoMemory;
use est_kernel::KernelProgram;
use net_ir::Net;
use std::alloc::Global;

/// What is found about a question, by a netlist that keeps what the program means. `Holds` is proved, and the last
/// reaction to the trace of `Broken` breaks the claim. Out of memory is the only error.
pub fn found(
    alloc: Global,
    program: &KernelProgram,
    net: &Net,
    asked: PlacedQuestion<'_>,
    effort: u64,
) -> Result<Finding, NoMemory>
    requires fits { IsWellFormed (program_of program.now) }
    requires keeps { NetKeeps (netlist_of net.now) (program_of program.now) }
    requires asks { AsksOf (program_of program.now) (plain_question asked.question) asked.place asked.assumed }
    ensures { IfOk result
        (IsFinding asked.entry.layout (program_of program.now) (plain_question asked.entry.question)) }
{
    device_finding(alloc, &program.relations, net, asked, effort)
}
