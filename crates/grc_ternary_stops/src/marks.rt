// The wires that are marked as unknown, by their names.

ghost use Rattle.std.specs.Prelude.{◌≡◌, ◌<◌, ◌^◌, All, length, map, IfOk};
ghost use Rattle.est_kernel.specs.Plain.{program_of};
ghost use Rattle.grc_graph.specs.PlainGraphs.{names_of};
ghost use Rattle.grc_graph.specs.PlainWireNames.{wire_name_of};
ghost use Rattle.grc_graph.specs.WireNames.{wire_name};
ghost use Rattle.grc_ternary_stops.specs.MarkedWires.{marked_from, marked_of};

use base_types::{NoMemory, WireId};
use grc_graph::{Graph, WireName};
use grc_list::names_of;
use std::alloc::Global;

/// The names of the wires of a graph that are marked, in order. The error is out of memory.
pub fn unknown_names(
    alloc: Global,
    graph: &Graph,
    marks: &[bool],
) -> Result<Vec<WireName>, NoMemory>
    requires each { length marks.now ≡ length graph.now.wires.items }
    requires few { length graph.now.wires.items < 2 ^ 32 }
    ensures { IfOk result (λ names. map wire_name_of names.items
        ≡ map (wire_name (program_of graph.now.program)) (marked_of marks.now (names_of graph.now))) }
{
    let numbers = marked_numbers(alloc, marks)?;
    let names = names_of(alloc, graph, &numbers)?;
    Ok(names)
}

// The numbers of the wires that are marked.
fn marked_numbers(alloc: Global, marks: &[bool]) -> Result<Vec<WireId>, NoMemory>
    requires { length marks.now < 2 ^ 32 }
    ensures numbers { IfOk result (λ numbers. map (λ w. w.0) numbers.items ≡ marked_from 0 marks.now) }
    ensures within { IfOk result (λ numbers. All (λ w. w.0 < length marks.now) numbers.items) }
{
    let mut numbers = Vec::new(alloc);
    for (number, is_marked) in marks.iter().enumerate() {
        if *is_marked {
            numbers.push(WireId(number as u32))?;
        }
    }
    Ok(numbers)
}
