// The netlists of a program along a schedule that is found.

ghost use Rattle.std.specs.Prelude.{◌≡◌, IfOk, IfSome};
ghost use Rattle.est_kernel.specs.Plain.{program_of, term_of};
ghost use Rattle.est_kernel.specs.StaticCodes.{NoInstantLoop};
ghost use Rattle.est_kernel.specs.WellFormed.{HasNames, IsWellFormed};
ghost use Rattle.grc_graph.specs.BuiltGraphs.{IsGraphOf};
ghost use Rattle.net_ir.specs.Runs.{netlist_of};
ghost use Rattle.net_loops.specs.CheckedNets.{IsCheckedNet};

use crate::laws::{cycle_nets_are_loop_nets, loop_nets_are_checked};
use base_types::NoMemory;
use grc_formulas::words;
use grc_graph::Graph;
use grc_ternary_run::graph_system;
use grc_ternary_schedule::find_schedule;
use net_cycles::{CycleNets, cycle_nets};
use std::alloc::Global;

/// The netlist of a program by its graph, along a schedule in which a node of a circle occurs at most this number of
/// times, and its check (`IsCheckedNet`). There are none where one of them would have more than 2^32 nets. The error is
/// out of memory.
///
/// Example: of `present A else emit A end` the output of the check is true in the first instant.
pub fn loop_nets(alloc: Global, graph: &Graph, passes: usize) -> Result<Option<CycleNets>, NoMemory>
    requires formed { IsWellFormed (program_of graph.now.program) }
    requires names { HasNames (program_of graph.now.program) }
    requires no_loop { NoInstantLoop (term_of graph.now.program.body) }
    requires graph { IsGraphOf graph.now (program_of graph.now.program) }
    ensures { IfOk result (λ found. IfSome found (λ nets.
        IsCheckedNet (program_of graph.now.program) (netlist_of nets.net) (netlist_of nets.check))) }
{
    cycle_nets_are_loop_nets();
    loop_nets_are_checked();
    let words = words(alloc, graph)?;
    let system = graph_system(alloc, graph, &words)?;
    let schedule = find_schedule(alloc, &system.gates, system.sources, passes)?;
    match cycle_nets(alloc, graph, &words, &system, &schedule)? {
        Some(nets) => Ok(Some(nets)),
        None => Ok(None),
    }
}
