// Where the instances and the wires of a shared graph are found.

ghost use Rattle.std.specs.Prelude.{◌≡◌, ◌+◌, ◌<◌, length, map, IfOk, OnOk};
ghost use Rattle.est_kernel.specs.Plain.{program_of, term_of};
ghost use Rattle.est_kernel.specs.Preorder.{statement_count};
ghost use Rattle.grc_graph.specs.BuiltGraphs.{IsGraphOf};
ghost use Rattle.grc_graph.specs.PlainInstances.{instance_of};
ghost use Rattle.grc_graph.specs.WireTables.{AreFirsts};
ghost use Rattle.grc_share.specs.Renamings.{AreNumbersOf};
ghost use Rattle.grc_share.specs.SharedGraphs.{shared_instances};
ghost use Rattle.grc_share.specs.SharedWires.{shared_wires};
ghost use Rattle.grc_share.specs.Tables.{AreFirstsOf, AreFirstWires};

use crate::renaming::Numbers;
use base_types::NoMemory;
use grc_graph::{Graph, Instance, LoopBodies, first_instances};
use std::alloc::Global;

/// For each shared instance the number of its first shared wire, and at last the number of shared wires, which are so
/// many.
pub(crate) fn first_wires(
    alloc: Global,
    graph: &Graph,
    numbers: &Numbers,
    count: u32,
) -> Result<Vec<u32>, NoMemory>
    requires built { IsGraphOf graph.now (program_of graph.now.program) }
    requires numbers { AreNumbersOf graph.now numbers.now.least.now numbers.now.instances.now numbers.now.wires.now }
    requires count { count ≡ length (shared_wires (program_of graph.now.program)) }
    ensures { IfOk result (λ v. AreFirstWires graph.now v.items) }
{
    let mut firsts: Vec<u32> = Vec::new(alloc);
    for i in 0..graph.instances.list.len() {
        push_first(graph, numbers, i, &mut firsts)?;
    }
    firsts.push(count)?;
    Ok(firsts)
}

// Appends the number of an instance's first wire, where it is the least member of its shared instance.
fn push_first(
    graph: &Graph,
    numbers: &Numbers,
    i: usize,
    firsts: &mut Vec<u32>,
) -> Result<(), NoMemory>
    requires built { IsGraphOf graph.now (program_of graph.now.program) }
    requires numbers { AreNumbersOf graph.now numbers.now.least.now numbers.now.instances.now numbers.now.wires.now }
    requires within { i < length graph.now.instances.list.items }
    requires firsts { AreFirstsOf graph.now numbers.now.wires.now i firsts.old.items }
    ensures { OnOk result (AreFirstsOf graph.now numbers.now.wires.now (i + 1) firsts.new.items) }
{
    if numbers.least[i].0 as usize == i {
        firsts.push(numbers.wires[graph.first_wires[i] as usize])?;
    }
    Ok(())
}

/// Where the instances and the wires of a shared graph are found, and the loop bodies around each statement.
#[derive(Drop)]
pub(crate) struct Tables {
    pub first_wires: Vec<u32>,
    pub first_instances: Vec<u32>,
    pub loops: Vec<LoopBodies>,
}

/// Where these instances, which are a graph's shared ones, and their wires are found; with the loop bodies.
pub(crate) fn place_tables(
    alloc: Global,
    graph: &Graph,
    numbers: &Numbers,
    list: &[Instance],
    count: u32,
    loops: Vec<LoopBodies>,
) -> Result<Tables, NoMemory>
    requires built { IsGraphOf graph.now (program_of graph.now.program) }
    requires numbers { AreNumbersOf graph.now numbers.now.least.now numbers.now.instances.now numbers.now.wires.now }
    requires list { map instance_of list.now ≡ shared_instances (program_of graph.now.program) }
    requires count { count ≡ length (shared_wires (program_of graph.now.program)) }
    requires each { length loops.items ≡ statement_count (term_of graph.now.program.body) }
    ensures wires { IfOk result (λ t. AreFirstWires graph.now t.first_wires.items) }
    ensures instances { IfOk result (λ t. AreFirsts list.now t.first_instances.items) }
    ensures loops { IfOk result (λ t. t.loops ≡ loops) }
{
    let first_wires = first_wires(alloc, graph, numbers, count)?;
    let first_instances = first_instances(alloc, list, loops.len() as u32)?;
    Ok(Tables {
        first_wires,
        first_instances,
        loops,
    })
}
