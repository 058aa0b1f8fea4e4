// The laws of netlists and their checks.
// A function here does nothing at run time: its contract is a theorem, which a caller gets by the call.

ghost use Rattle.net_loops.specs.LoopNets.{CycleNetsAreLoopNets, LoopNetsAreChecked};

use grc_ternary::programs_run_by_least_solutions;

/// A netlist around a drawn circuit, with a check around its alarm, is one of the graph.
pub(crate) fn cycle_nets_are_loop_nets()
    ensures { CycleNetsAreLoopNets }
{}

/// A netlist of a program's graph, with its check, is one of the program.
pub(crate) fn loop_nets_are_checked()
    ensures { LoopNetsAreChecked }
{
    programs_run_by_least_solutions();
}
