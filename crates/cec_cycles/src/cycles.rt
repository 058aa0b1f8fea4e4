// What is counted of the cycles of a source's dependencies.

ghost use Rattle.std.specs.Prelude.{◌≤◌, length, IfErr, IfOk, option_map};
ghost use Rattle.est_kernel.specs.Plain.{program_of};
ghost use Rattle.grc_cycles.specs.CycleCounts.{HasCycleCounts};
ghost use Rattle.cec_compile.specs.Graphs.{IsBuilt, IsRefusedGraph};
ghost use Rattle.cec_cycles.specs.Counted.{HasCountedCycles};

use base_types::{Limits, NoMemory};
use cec_compile::{Refusal, graph_of};
use grc_cycles::{CycleCounts, cycle_counts};
use grc_graph::Graph;
use std::alloc::Global;

/// In how many components the cycles of a source's dependencies lie, and how many wires cut them. Without a cycle both
/// are 0. It refuses what `cec_compile::graph_of` refuses.
pub fn source_cycles(
    alloc: Global,
    text: &[u8],
    main: Option<&[u8]>,
) -> Result<CycleCounts, Refusal>
    requires { length text.now ≤ Limits.SOURCE_BYTES }
    ensures counts { IfOk result (λ c. HasCountedCycles text.now (option_map (λ m. m.now) main.entry)
        c.components c.cuts) }
    ensures refuses { IfErr result (IsRefusedGraph text.now (option_map (λ m. m.now) main.entry)) }
{
    let graph = graph_of(alloc, text, main)?;
    let counts = graph_cycles(alloc, &graph)?;
    Ok(counts)
}

// The same of a graph.
fn graph_cycles(alloc: Global, graph: &Graph) -> Result<CycleCounts, NoMemory>
    requires { IsBuilt graph.now (program_of graph.now.program) }
    ensures { IfOk result (λ c. HasCycleCounts (program_of graph.now.program) c.components c.cuts) }
{
    let counts = cycle_counts(alloc, graph)?;
    Ok(counts)
}
