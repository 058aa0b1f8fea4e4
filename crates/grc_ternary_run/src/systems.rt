// The system of a graph: a gate for each wire, over a table of further gates.

ghost use Rattle.std.specs.Prelude.{◌≡◌, ◌++◌, length, All, IfOk, OnOk};
ghost use Rattle.est_kernel.specs.Plain.{program_of};
ghost use Rattle.grc_graph.specs.BuiltGraphs.{IsGraphOf};
ghost use Rattle.grc_evaluate.specs.Evaluations.{IsKnown};
ghost use Rattle.grc_formulas.specs.WordLaws.{AreWordsOf};
ghost use Rattle.grc_ternary_run.specs.Meanings.{Ready};
ghost use Rattle.grc_ternary_run.specs.States.{ReadsGraph};
ghost use Rattle.grc_ternary_run.specs.Systems.{CountsOf, GatesMade, IsSystemOf};

use crate::chains::make_chains;
use crate::formulas::{Making, make_gate};
use crate::numbers::Counts;
use base_types::NoMemory;
use grc_formulas::Words;
use grc_graph::Graph;
use grc_ternary_gates::{Gate, System};
use std::alloc::Global;

/// The system of the equations of a program's graph, over the table of its words. Its nodes are first the wires, by
/// their numbers. The only error is out of memory.
pub fn graph_system(alloc: Global, graph: &Graph, words: &Words) -> Result<System, NoMemory>
    requires graph { IsGraphOf graph.now (program_of graph.now.program) }
    requires words { AreWordsOf graph.now words.now }
    ensures { IfOk result (ReadsGraph graph.now words.now) }
{
    let system = make_system(alloc, graph, words)?;
    Ok(system)
}

// The system of a graph's equations. Its nodes are first the wires, by their numbers; its sources are the
// constants, whether this is the first instant, the given signals, and for each statement whether it
// holds a selected pause. There are no more nodes than there are wires, ends and operators in the
// equations. Its only error is out of memory.
fn make_system(alloc: Global, graph: &Graph, words: &Words) -> Result<System, NoMemory>
    requires words { AreWordsOf graph.now words.now }
    requires plain { All (λ f. IsKnown ⊥ f) graph.now.equations.items }
    ensures { IfOk result (λ s. IsSystemOf graph.now words.now s) }
{
    let counts = count_sources(graph, words);
    let mut table = Vec::new(alloc);
    let chains = make_chains(alloc, graph, words, &mut table)?;
    let making = Making {
        graph,
        words,
        chains: &chains,
        counts,
    };
    let mut gates = make_gates(alloc, &making, &mut table)?;
    append(&mut gates, &table)?;
    let system = System::new(alloc, gates, counts.sources())?;
    Ok(system)
}

// How many given signals and statements there are.
fn count_sources(graph: &Graph, words: &Words) -> Counts
    ensures { CountsOf graph.now words.now result }
{
    let program = graph.program();
    let given = program.inputs as usize + program.both as usize;
    let statements = words.selected.len();
    Counts { given, statements }
}

// The gate of each wire.
fn make_gates(
    alloc: Global,
    making: &Making<'_>,
    table: &mut Vec<Gate>,
) -> Result<Vec<Gate>, NoMemory>
    requires ready { Ready making.now table.old.items }
    requires plain { All (λ f. IsKnown ⊥ f) making.now.graph.now.equations.items }
    ensures { IfOk result (λ gates. GatesMade making.now table.new.items gates.items
        (length making.now.graph.now.wires.items)) }
{
    let mut gates = Vec::with_capacity(alloc, making.graph.wires.len())?;
    for formula in making.graph.equations.as_slice() {
        let gate = make_gate(making, formula, table)?;
        gates.push(gate)?;
    }
    Ok(gates)
}

// Puts the gates of the table after those of the wires.
fn append(gates: &mut Vec<Gate>, table: &[Gate]) -> Result<(), NoMemory>
    ensures { OnOk result (gates.new.items ≡ gates.old.items ++ table.now) }
{
    for gate in table {
        gates.push(*gate)?;
    }
    Ok(())
}
