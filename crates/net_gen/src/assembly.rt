// The netlist around a circuit.

ghost use Rattle.std.specs.Prelude.{◌≡◌, ◌≤◌, ◌∷◌, length, map, IfOk};
ghost use Rattle.est_kernel.specs.Plain.{program_of, interface_count};
ghost use Rattle.est_kernel.specs.WellFormed.{HasNames};
ghost use Rattle.grc_graph.specs.PlainGraphs.{formula_of, instances_of, names_of};
ghost use Rattle.grc_graph.specs.Reads.{IsReadingOrder};
ghost use Rattle.grc_formulas.specs.WordLaws.{AreWordsOf};
ghost use Rattle.net_ir.specs.Gates.{carried};
ghost use Rattle.net_ir.specs.Runs.{netlist_of};
ghost use Rattle.net_gen.specs.Assembled.{IsNetOf, boot_latch, leaf_latch};
ghost use Rattle.net_gen.specs.Costs.{gates_at_most};

use crate::names::{input_names, outputs_of};
use crate::whole::{Whole, make_circuit};
use base_types::{NetId, NoMemory, Text};
use grc_formulas::Words;
use grc_graph::{Graph, Order};
use net_ir::{Latch, Net};
use std::alloc::Global;

/// The netlist of a graph, over the table of its words. Its only error is out of memory.
pub(crate) fn net_over(
    alloc: Global,
    graph: &Graph,
    words: &Words,
    order: &Order,
) -> Result<Net, NoMemory>
    requires words { AreWordsOf graph.now words.now }
    requires order { IsReadingOrder (names_of graph.now)
        (map (formula_of (instances_of graph.now) (names_of graph.now)) graph.now.equations.items)
        order.now.list.items }
    requires signals { interface_count (program_of graph.now.program) ≤ length graph.now.program.signals.items }
    requires names { HasNames (program_of graph.now.program) }
    ensures graph { IfOk result (λ net. IsNetOf graph.now (netlist_of net)) }
    ensures order { IfOk result (λ net. carried net.gates.items ≡ map (λ v. v.0) order.now.list.items) }
    ensures size { IfOk result (λ net. length net.gates.items
        ≤ gates_at_most graph.now (length words.now.rows.items) order.now.list.items) }
{
    let Whole { circuit, next } = make_circuit(alloc, graph, words, order)?;
    let program = graph.program();
    let name = Text::from_bytes(alloc, program.name.bytes())?;
    let inputs = input_names(alloc, program)?;
    let outputs = outputs_of(alloc, program, &circuit, &words.outputs)?;
    let paused = circuit.source(words.paused);
    let latches = make_latches(alloc, circuit.no, &next)?;
    Ok(Net {
        name,
        inputs,
        outputs,
        paused,
        latches,
        gates: circuit.gates,
    })
}

/// The latch that tells the first instant, and one for each leaf, which reads the net of its next value. The error is
/// out of memory.
pub fn make_latches(alloc: Global, no: NetId, next: &[NetId]) -> Result<Vec<Latch>, NoMemory>
    ensures { IfOk result (λ latches. latches.items ≡ boot_latch no ∷ map leaf_latch next.now) }
{
    let boot = Latch {
        init: true,
        from: no,
    };
    let mut latches = vec![in alloc; boot]?;
    for net in next {
        latches.push(Latch {
            init: false,
            from: *net,
        })?;
    }
    Ok(latches)
}
