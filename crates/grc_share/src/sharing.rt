// The shared wires of a graph by number.

ghost use Rattle.std.specs.Prelude.{IfOk};
ghost use Rattle.est_kernel.specs.Plain.{program_of};
ghost use Rattle.grc_graph.specs.BuiltGraphs.{IsGraphOf};
ghost use Rattle.grc_share.specs.SharedParts.{AreFound};

use crate::least_members::{least_instances, least_wires};
use crate::loop_counts::loop_bodies;
use crate::numbering::{Numbered, number_members};
use base_types::{InstId, NoMemory, WireId};
use grc_graph::{Graph, LoopBodies};
use std::alloc::Global;

/// The shared wires of a graph, numbered from 0 in the order of their least members, and what they were found by.
#[derive(Drop)]
pub(crate) struct SharedWires {
    /// The least member of each shared wire.
    pub least: Vec<WireId>,
    /// For each wire of the graph the number of its shared wire.
    pub numbers: Vec<u32>,
    /// For each instance of the graph the least member of its shared instance.
    pub instances: Vec<InstId>,
    /// For each statement the loop bodies around it.
    pub loops: Vec<LoopBodies>,
}

/// The shared wires of a graph. The time is linear in the wires, except for the search of status wires among the
/// instances of a Local, which is logarithmic. The only error is out of memory.
pub(crate) fn shared_wires(alloc: Global, graph: &Graph) -> Result<SharedWires, NoMemory>
    requires { IsGraphOf graph.now (program_of graph.now.program) }
    ensures { IfOk result (AreFound graph.now) }
{
    let loops = loop_bodies(alloc, &graph.program)?;
    let instances = least_instances(alloc, graph, &loops)?;
    let first = least_wires(alloc, graph, &loops, &instances)?;
    let Numbered { least, numbers } = number_members(alloc, &first)?;
    Ok(SharedWires {
        least,
        numbers,
        instances,
        loops,
    })
}
