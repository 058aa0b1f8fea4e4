// The equations of a graph's shared wires.

ghost use Rattle.std.specs.Prelude.{IfOk};
ghost use Rattle.est_kernel.specs.Plain.{program_of};
ghost use Rattle.grc_graph.specs.BuiltGraphs.{IsGraphOf};
ghost use Rattle.grc_share.specs.Renamings.{AreLeastMembers, AreNumbersOf, AreSharedFormulas};

use crate::emissions::emission_lists;
use crate::formulas::{Given, shared_formula};
use crate::guards::guards;
use crate::renaming::Numbers;
use base_types::{NoMemory, WireId};
use grc_graph::{Formula, Graph};
use std::alloc::Global;

/// The formulas of the shared wires with these least members.
pub(crate) fn shared_equations(
    alloc: Global,
    graph: &Graph,
    least: &[WireId],
    numbers: &Numbers,
) -> Result<Vec<Formula>, NoMemory>
    requires built { IsGraphOf graph.now (program_of graph.now.program) }
    requires numbers { AreNumbersOf graph.now numbers.now.least.now numbers.now.instances.now numbers.now.wires.now }
    requires least { AreLeastMembers graph.now least.now }
    ensures { IfOk result (λ v. AreSharedFormulas (program_of graph.now.program) v.items) }
{
    let guarded = guards(alloc, &graph.program)?;
    let emissions = emission_lists(alloc, graph, numbers, least.len())?;
    let given = Given {
        numbers: *numbers,
        guarded: &guarded,
    };
    let mut formulas: Vec<Formula> = Vec::with_capacity(alloc, least.len())?;
    for k in 0..least.len() {
        let formula = shared_formula(alloc, graph, &given, emissions[k].as_slice(), least[k])?;
        formulas.push(formula)?;
    }
    Ok(formulas)
}
