// The wires that stay unknown in an instant, by their names.

ghost use Rattle.std.specs.Prelude.{◌≡◌, ◌<◌, ◌^◌, codes, length, map, IfOk};
ghost use Rattle.est_kernel.specs.Plain.{program_of};
ghost use Rattle.grc_graph.specs.PlainGraphs.{names_of};
ghost use Rattle.grc_graph.specs.PlainWireNames.{wire_name_of};
ghost use Rattle.grc_graph.specs.WireNames.{wire_name};
ghost use Rattle.grc_ternary_stops.specs.MarkedWires.{marked_of};
ghost use Rattle.cec_compile.specs.WireTexts.{joined_texts};

use base_types::NoMemory;
use cec_compile::joined_texts;
use grc_graph::{Graph, WireName};
use grc_ternary_stops::unknown_names;
use std::alloc::Global;

/// The wires that stay unknown in an instant in which the program is not constructive, in order.
#[derive(Drop)]
pub struct UnknownWires {
    /// The number of the instant, from 1; resets are none.
    pub instant: u32,
    pub wires: Vec<WireName>,
    /// The texts of the wires, joined by `, `.
    pub text: Vec<u8>,

    ghost is_text: { text.items ≡ joined_texts (codes ", ") (map wire_name_of wires.items) },
}

/// The wires of a graph that are marked as unknown.
pub(crate) fn unknown_wires(
    alloc: Global,
    graph: &Graph,
    instant: u32,
    marks: &[bool],
) -> Result<UnknownWires, NoMemory>
    requires each { length marks.now ≡ length graph.now.wires.items }
    requires few { length graph.now.wires.items < 2 ^ 32 }
    ensures instant { IfOk result (λ u. u.instant ≡ instant) }
    ensures names { IfOk result (λ u. map wire_name_of u.wires.items
        ≡ map (wire_name (program_of graph.now.program)) (marked_of marks.now (names_of graph.now))) }
{
    let wires = unknown_names(alloc, graph, marks)?;
    let text = joined_texts(alloc, &wires, b", ")?;
    Ok(UnknownWires {
        instant,
        wires,
        text,
    })
}
