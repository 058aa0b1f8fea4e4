// Whether two programs do the same.

ghost use Rattle.std.specs.Prelude.{IfOk};
ghost use Rattle.est_kernel.specs.Plain.{program_of};
ghost use Rattle.est_kernel.specs.WellFormed.{IsWellFormed};
ghost use Rattle.net_ir.specs.Runs.{netlist_of};
ghost use Rattle.cec_compile.specs.NetMeaning.{NetKeeps};
ghost use Rattle.cec_prove_sources.specs.Sameness.{IsComparison};

use crate::device_comparisons::device_comparison;
use crate::questions::Comparison;
use base_types::NoMemory;
use cec_compile::Made;
use std::alloc::Global;

/// Whether two programs do the same, each by a netlist that keeps what it means, however the netlist was made. `Same`
/// is proved. It is about every list of events that meet the relations, and resets: the reactions of both are
/// constructive, in each one the same outgoing signals are present, and both pause or neither does. `Different` has a
/// trace, and the last reactions to it differ. The given signals, the outgoing signals and the relations must be the
/// same, each in order; else the answer is the first of these that differs. `Open` says nothing more.
///
/// The effort is one of `net_search`. The error is out of memory.
pub fn net_comparison(
    alloc: Global,
    left: &Made,
    right: &Made,
    effort: u64,
) -> Result<Comparison, NoMemory>
    requires fits { IsWellFormed (program_of left.now.program) }
    requires right_fits { IsWellFormed (program_of right.now.program) }
    requires keeps { NetKeeps (netlist_of left.now.net) (program_of left.now.program) }
    requires right_keeps { NetKeeps (netlist_of right.now.net) (program_of right.now.program) }
    ensures { IfOk result (IsComparison (program_of left.now.program) (program_of right.now.program)) }
{
    device_comparison(
        alloc,
        &left.program.relations,
        &left.net,
        &right.program.relations,
        &right.net,
        effort,
    )
}
