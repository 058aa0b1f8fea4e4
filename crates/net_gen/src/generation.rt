// The netlist of a graph.

ghost use Rattle.std.specs.Prelude.{◌≡◌, ◌≤◌, length, map, IfOk};
ghost use Rattle.est_kernel.specs.Plain.{program_of};
ghost use Rattle.est_kernel.specs.WellFormed.{HasNames};
ghost use Rattle.grc_graph.specs.PlainGraphs.{formula_of, instances_of, names_of};
ghost use Rattle.grc_graph.specs.Reads.{IsReadingOrder};
ghost use Rattle.net_ir.specs.Gates.{carried};
ghost use Rattle.net_ir.specs.Runs.{netlist_of};
ghost use Rattle.grc_formulas.specs.Sizes.{rows_at_most};
ghost use Rattle.net_gen.specs.Costs.{gates_at_most, linear_bound};
ghost use Rattle.net_gen.specs.Generated.{HasInterfaceOf, FollowsInstants, FollowsRuns};

use crate::assembly::net_over;
use base_types::NoMemory;
use grc_formulas::words;
use grc_graph::{Graph, Order};
use net_ir::Net;
use std::alloc::Global;

/// The netlist of a graph along an order in which its equations read. The graph's equations and `next` formulas are
/// any. The netlist has at most 15 gates for each wire and each live test node of the program's own graph. Its only
/// error is out of memory.
///
/// Example: the equation of a wire that is started by one of two others becomes an or gate, which carries the
/// wire.
pub fn generate(alloc: Global, graph: &Graph, order: &Order) -> Result<Net, NoMemory>
    requires names { HasNames (program_of graph.now.program) }
    requires order { IsReadingOrder (names_of graph.now)
        (map (formula_of (instances_of graph.now) (names_of graph.now)) graph.now.equations.items)
        order.now.list.items }
    ensures interface { IfOk result (λ net. HasInterfaceOf graph.now (netlist_of net)) }
    ensures order { IfOk result (λ net. carried net.gates.items ≡ map (λ v. v.0) order.now.list.items) }
    ensures size { IfOk result (λ net. length net.gates.items
        ≤ gates_at_most graph.now (rows_at_most graph.now) order.now.list.items) }
    ensures linear { IfOk result (λ net. length net.gates.items ≤ linear_bound (program_of graph.now.program)) }
    ensures instants { IfOk result (λ net. FollowsInstants graph.now (netlist_of net)) }
    ensures runs { IfOk result (λ net. FollowsRuns graph.now (netlist_of net)) }
{
    let words = words(alloc, graph)?;
    let net = net_over(alloc, graph, &words, order)?;
    Ok(net)
}
