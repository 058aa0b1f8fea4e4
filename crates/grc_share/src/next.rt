// The formulas of the next state, one per leaf of the selection tree, over shared instances.

ghost use Rattle.std.specs.Prelude.{◌≡◌, List, length, map, All, IfOk, IsTrue};
ghost use Rattle.est_kernel.specs.Plain.{program_of};
ghost use Rattle.grc_graph.specs.BuiltGraphs.{IsGraphOf};
ghost use Rattle.grc_graph.specs.GraphShapes.{formula_fits};
ghost use Rattle.grc_graph.specs.Instances.{Instance};
ghost use Rattle.grc_graph.specs.PlainGraphs.{formula_of, instances_of, names_of};
ghost use Rattle.grc_graph.specs.Wires.{Wire};
ghost use Rattle.grc_share.specs.Renamings.{AreNumbersOf, StandsIn, TellNamed, is_kept_other, is_other_start};
ghost use Rattle.grc_share.specs.Renamings.{named_starts};
ghost use Rattle.grc_share.specs.SharedGraphs.{shared_graph, shared_instances};
ghost use Rattle.grc_share.specs.SharedInstances.{Sharing, body_sharing};
ghost use Rattle.grc_share.specs.SharedWires.{shared_wires};

use crate::renaming::{Numbers, either, renamed};
use base_types::NoMemory;
use grc_graph::{Formula, Graph};
use std::alloc::Global;

/// When each leaf is selected in the next instant.
pub(crate) fn next_formulas(
    alloc: Global,
    graph: &Graph,
    numbers: &Numbers,
) -> Result<Vec<Formula>, NoMemory>
    requires built { IsGraphOf graph.now (program_of graph.now.program) }
    requires numbers { AreNumbersOf graph.now numbers.now.least.now numbers.now.instances.now numbers.now.wires.now }
    ensures same { IfOk result (λ v. map (formula_of (shared_instances (program_of graph.now.program))
        (shared_wires (program_of graph.now.program))) v.items ≡ (shared_graph (program_of graph.now.program)).next) }
    ensures fit { IfOk result (λ v. All (λ f. IsTrue (formula_fits
        (length (shared_instances (program_of graph.now.program)))
        (length (shared_wires (program_of graph.now.program))) f)) v.items) }
{
    let mut list: Vec<Formula> = Vec::with_capacity(alloc, graph.next.len())?;
    for formula in &graph.next {
        let shared = leaf_formula(alloc, graph, numbers, formula)?;
        list.push(shared)?;
    }
    Ok(list)
}

// What selects a leaf in the next instant, without the starts that name no shared instance: one of its starts runs and
// is kept, or it is selected and held.
fn leaf_formula(
    alloc: Global,
    graph: &Graph,
    numbers: &Numbers,
    formula: &Formula,
) -> Result<Formula, NoMemory>
    requires numbers { AreNumbersOf graph.now numbers.now.least.now numbers.now.instances.now numbers.now.wires.now }
    requires fits { IsTrue (formula_fits (length graph.now.instances.list.items) (length graph.now.wires.items)
        formula.now) }
    ensures { IfOk result (StandsIn (program_of graph.now.program) (named_starts
        (body_sharing (program_of graph.now.program).body)
        (formula_of (instances_of graph.now) (names_of graph.now) formula.now))) }
{
    match formula {
        Formula::Or(start, rest) => {
            let others = leaf_formula(alloc, graph, numbers, rest)?;
            if is_other_start(numbers, start) {
                return Ok(others);
            }
            let own = renamed(alloc, start, numbers)?;
            either(alloc, own, others)
        }
        _ => renamed(alloc, formula, numbers),
    }
}

// Whether a formula is of what is kept of a start that names no shared instance.
fn is_other_start(numbers: &Numbers, formula: &Formula) -> bool
    requires { IsTrue (formula_fits (length numbers.now.least.now) (length numbers.now.wires.now) formula.now) }
    ensures { (K : Sharing) (insts : List Instance) (names : List Wire) → TellNamed K insts numbers.now.least.now
        → result ≡ is_other_start K (formula_of insts names formula.now) }
{
    match formula {
        Formula::And(_, kept) => is_kept_other(numbers, kept),
        _ => false,
    }
}

// Whether a formula is that a start which names no shared instance is kept.
fn is_kept_other(numbers: &Numbers, formula: &Formula) -> bool
    requires { IsTrue (formula_fits (length numbers.now.least.now) (length numbers.now.wires.now) formula.now) }
    ensures { (K : Sharing) (insts : List Instance) (names : List Wire) → TellNamed K insts numbers.now.least.now
        → result ≡ is_kept_other K (formula_of insts names formula.now) }
{
    match formula {
        Formula::Kept(i) => numbers.least[i.0 as usize].0 != i.0,
        _ => false,
    }
}
