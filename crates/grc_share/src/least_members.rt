// The least members of shared instances and of shared wires.

ghost use Rattle.std.specs.Prelude.{◌≡◌, ℕ, ◌<◌, length, map, IfOk};
ghost use Rattle.est_kernel.specs.Plain.{program_of, term_of};
ghost use Rattle.est_kernel.specs.Preorder.{statement_count};
ghost use Rattle.est_kernel.specs.Terms.{Term};
ghost use Rattle.grc_graph.specs.BuiltGraphs.{IsGraphOf};
ghost use Rattle.grc_graph.specs.Neighbouring.{instances_in, names_in};
ghost use Rattle.grc_graph.specs.PlainGraphs.{instances_of, names_of, wire_at};
ghost use Rattle.grc_graph.specs.PlainInstances.{instance_of, layer_of};
ghost use Rattle.grc_graph.specs.WireTables.{IsNumberOf};
ghost use Rattle.grc_share.specs.LeastMembers.{AreLeast, AreLeastWires, IsLeastMember, RootIn, one_start, starts_as};
ghost use Rattle.grc_share.specs.LeastMembers.{HasResumedStatus};
ghost use Rattle.grc_share.specs.LoopCounts.{AreLoopCounts};
ghost use Rattle.grc_share.specs.SharedInstances.{body_sharing, key};
ghost use Rattle.grc_share.specs.SharedWires.{shared_wire};

use base_types::{InstId, NoMemory, WireId};
use grc_graph::{Graph, Instance, Layer, LoopBodies, Neighbours, Wire};
use std::alloc::Global;

/// For each instance of a graph the least member of its shared instance: instances that are one stand side by side.
pub(crate) fn least_instances(
    alloc: Global,
    graph: &Graph,
    loops: &[LoopBodies],
) -> Result<Vec<InstId>, NoMemory>
    requires built { IsGraphOf graph.now (program_of graph.now.program) }
    requires each { length loops.now ≡ statement_count (term_of graph.now.program.body) }
    requires counts { AreLoopCounts (term_of graph.now.program.body) loops.now }
    ensures each { IfOk result (λ v. length v.items ≡ length graph.now.instances.list.items) }
    ensures least { IfOk result (λ v. AreLeast (body_sharing (term_of graph.now.program.body))
        graph.now.instances.list.items v.items) }
{
    let count = graph.instances.list.len();
    let mut least: Vec<InstId> = Vec::with_capacity(alloc, count)?;
    for i in 0..count {
        let first = least_instance(graph, loops, &least, i);
        least.push(first)?;
    }
    Ok(least)
}

// The least member of an instance's shared instance; those of the instances before it are known.
fn least_instance(graph: &Graph, loops: &[LoopBodies], least: &[InstId], i: usize) -> InstId
    requires built { IsGraphOf graph.now (program_of graph.now.program) }
    requires each { length loops.now ≡ statement_count (term_of graph.now.program.body) }
    requires counts { AreLoopCounts (term_of graph.now.program.body) loops.now }
    requires place { length least.now ≡ i }
    requires within { i < length graph.now.instances.list.items }
    requires least { AreLeast (body_sharing (term_of graph.now.program.body))
        graph.now.instances.list.items least.now }
    ensures { IsLeastMember (body_sharing (term_of graph.now.program.body)) graph.now.instances.list.items i result }
{
    let list = &graph.instances.list;
    if i > 0 && starts_as(loops, list[i - 1], list[i]) {
        least[i - 1]
    } else {
        InstId(i as u32)
    }
}

// Whether two instances are starts of one statement under as many loop bodies.
fn starts_as(loops: &[LoopBodies], x: Instance, y: Instance) -> bool
    requires first { RootIn (length loops.now) (layer_of x.layer) }
    requires second { RootIn (length loops.now) (layer_of y.layer) }
    ensures { (body : Term) → AreLoopCounts body loops.now
        → result ≡ starts_as (body_sharing body) (instance_of x) (instance_of y) }
{
    x.path.0 == y.path.0 && one_start(loops, x.layer, y.layer)
}

// Whether both are starts, under as many loop bodies.
fn one_start(loops: &[LoopBodies], x: Layer, y: Layer) -> bool
    requires first { RootIn (length loops.now) (layer_of x) }
    requires second { RootIn (length loops.now) (layer_of y) }
    ensures { (body : Term) → AreLoopCounts body loops.now
        → result ≡ one_start (body_sharing body) (layer_of x) (layer_of y) }
{
    match x {
        Layer::Resumed => false,
        Layer::Started(q) => match y {
            Layer::Resumed => false,
            Layer::Started(r) => loops[q.0 as usize].above == loops[r.0 as usize].above,
        },
    }
}

/// For each wire of a graph the least member of its shared wire.
pub(crate) fn least_wires(
    alloc: Global,
    graph: &Graph,
    loops: &[LoopBodies],
    least: &[InstId],
) -> Result<Vec<WireId>, NoMemory>
    requires built { IsGraphOf graph.now (program_of graph.now.program) }
    requires each { length loops.now ≡ statement_count (term_of graph.now.program.body) }
    requires counts { AreLoopCounts (term_of graph.now.program.body) loops.now }
    requires instances { length least.now ≡ length graph.now.instances.list.items }
    requires least { AreLeast (body_sharing (term_of graph.now.program.body))
        graph.now.instances.list.items least.now }
    ensures each { IfOk result (λ v. length v.items ≡ length graph.now.wires.items) }
    ensures least { IfOk result (λ v. AreLeastWires (body_sharing (term_of graph.now.program.body))
        (names_of graph.now) v.items) }
{
    let count = graph.wires.len();
    let mut wires: Vec<WireId> = Vec::with_capacity(alloc, count)?;
    for w in 0..count {
        let first = least_wire(graph, loops, least, WireId(w as u32));
        wires.push(first)?;
    }
    Ok(wires)
}

// The least member of a wire's shared wire.
fn least_wire(graph: &Graph, loops: &[LoopBodies], least: &[InstId], w: WireId) -> WireId
    requires within { w.0 < length graph.now.wires.items }
    requires built { IsGraphOf graph.now (program_of graph.now.program) }
    requires each { length loops.now ≡ statement_count (term_of graph.now.program.body) }
    requires counts { AreLoopCounts (term_of graph.now.program.body) loops.now }
    requires instances { length least.now ≡ length graph.now.instances.list.items }
    requires least { AreLeast (body_sharing (term_of graph.now.program.body))
        graph.now.instances.list.items least.now }
    ensures { IsNumberOf (names_of graph.now) result.0
        (shared_wire (body_sharing (term_of graph.now.program.body)) (wire_at (names_of graph.now) w.0)) }
{
    let tables = graph.neighbours();
    match graph.wires[w.0 as usize] {
        Wire::Out(_) => w,
        Wire::Go(i) => tables.go(least[i.0 as usize]),
        Wire::End(i, code) => match tables.end(least[i.0 as usize], code) {
            Some(end) => end,
            None => unreachable!(),
        },
        Wire::Local(i) => {
            let instance = graph.instances.list[i.0 as usize];
            match resumed_status(&tables, loops, instance) {
                Some(status) => status,
                None => match tables.status(least[i.0 as usize]) {
                    Some(status) => status,
                    None => unreachable!(),
                },
            }
        }
    }
}

// The status wire of the resumed instance of a Local, where it has that of this instance.
fn resumed_status(tables: &Neighbours, loops: &[LoopBodies], instance: Instance) -> Option<WireId>
    requires path { instance.path.0 < length loops.now }
    requires root { RootIn (length loops.now) (layer_of instance.layer) }
    ensures { (body : Term) → AreLoopCounts body loops.now
        → HasResumedStatus (body_sharing body) (names_in tables.now) (instance_of instance) result }
{
    let inside = loops[instance.path.0 as usize].inside;
    if loops_around(loops, instance) == inside {
        tables.find_status(instance.path.0, Layer::Resumed)
    } else {
        None
    }
}

// The loop bodies around an instance: those above the root of a start, and those that what is resumed is in or is.
fn loops_around(loops: &[LoopBodies], instance: Instance) -> u32
    requires path { instance.path.0 < length loops.now }
    requires root { RootIn (length loops.now) (layer_of instance.layer) }
    ensures { (body : Term) → AreLoopCounts body loops.now
        → result ≡ key (body_sharing body) instance.path.0 (layer_of instance.layer) }
{
    match instance.layer {
        Layer::Resumed => loops[instance.path.0 as usize].inside,
        Layer::Started(root) => loops[root.0 as usize].above,
    }
}
