// Covered programs whose dependencies may have a cycle.

ghost use Rattle.std.specs.Prelude.{IfOk, IfSome};
ghost use Rattle.est_ast.specs.FlatTrees.{Flat as PlainFlat};
ghost use Rattle.est_kernel.specs.CodeLists.{AreCodesOf};
ghost use Rattle.est_kernel.specs.Plain.{program_of, term_of};
ghost use Rattle.est_kernel.specs.StaticCodes.{NoInstantLoop};
ghost use Rattle.est_kernel.specs.WellFormed.{HasNames, IsWellFormed};
ghost use Rattle.cec_compile.specs.Graphs.{IsBuilt};
ghost use Rattle.cec_prove_covers.specs.Stages.{IsCoveredNet, IsCoveredProgram};

use base_types::NoMemory;
use cec_compile::{Made, Refusal, built_graph};
use cec_cycles::{Constructiveness, constructiveness_of};
use est_front::Analysed;
use grc_graph::Graph;
use std::alloc::Global;

/// A program with a netlist, where it was shown within the effort that it is constructive.
pub(crate) fn constructive_net(
    alloc: Global,
    analysed: Analysed,
    effort: u64,
) -> Result<Option<Made>, NoMemory>
    requires formed { IsWellFormed (program_of analysed.program) }
    requires names { HasNames (program_of analysed.program) }
    requires no_loop { NoInstantLoop (term_of analysed.program.body) }
    requires codes { AreCodesOf analysed.codes (term_of analysed.program.body) }
    ensures { (flat : PlainFlat) → IsCoveredProgram flat (program_of analysed.program)
        → IfOk result (λ o. IfSome o (IsCoveredNet flat)) }
{
    match built_graph(alloc, analysed) {
        Ok(graph) => graph_net(alloc, graph, effort),
        Err(Refusal::NoMemory) => Err(NoMemory),
        Err(_) => Ok(None),
    }
}

// A program with a netlist, by its graph.
fn graph_net(alloc: Global, graph: Graph, effort: u64) -> Result<Option<Made>, NoMemory>
    requires { IsBuilt graph (program_of graph.program) }
    ensures { (flat : PlainFlat) → IsCoveredProgram flat (program_of graph.program)
        → IfOk result (λ o. IfSome o (IsCoveredNet flat)) }
{
    match constructiveness_of(alloc, &graph, effort) {
        Ok(Constructiveness::Constructive(net)) => {
            let Graph { program, .. } = graph;
            Ok(Some(Made { program, net }))
        }
        Ok(_) => Ok(None),
        Err(NoMemory) => Err(NoMemory),
    }
}
