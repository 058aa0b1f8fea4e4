// The shared instances of a graph by number.

ghost use Rattle.std.specs.Prelude.{◌≡◌, ℕ, ◌<◌, ◌++◌, length, map, slice_index_or, IfOk, OnOk};
ghost use Rattle.est_kernel.specs.Plain.{program_of, term_of};
ghost use Rattle.grc_graph.specs.BuiltGraphs.{IsGraphOf};
ghost use Rattle.grc_graph.specs.PlainGraphs.{instance_at, instances_of};
ghost use Rattle.grc_graph.specs.PlainInstances.{instance_of};
ghost use Rattle.grc_share.specs.LeastMembers.{AreLeast, IsLeastMember};
ghost use Rattle.grc_share.specs.Renamings.{AreInstanceNumbers, AreOwnPlaces, if_named};
ghost use Rattle.grc_share.specs.SharedGraphs.{shared_instances};
ghost use Rattle.grc_share.specs.SharedInstances.{body_sharing};

use base_types::{InstId, NoMemory};
use grc_graph::{Graph, Instance};
use std::alloc::Global;

/// A graph's shared instances, numbered from 0 in the order of their least members.
#[derive(Drop)]
pub(crate) struct SharedInstances {
    /// The least member of each shared instance.
    pub list: Vec<Instance>,
    /// For each instance of the graph the number of its shared instance.
    pub numbers: Vec<InstId>,
}

/// The shared instances of a graph, from the least member of each instance's shared one.
pub(crate) fn shared_instances(
    alloc: Global,
    graph: &Graph,
    least: &[InstId],
) -> Result<SharedInstances, NoMemory>
    requires built { IsGraphOf graph.now (program_of graph.now.program) }
    requires each { length least.now ≡ length graph.now.instances.list.items }
    requires least { AreLeast (body_sharing (term_of graph.now.program.body)) graph.now.instances.list.items least.now }
    ensures list { IfOk result (λ s. map instance_of s.list.items ≡ shared_instances (program_of graph.now.program)) }
    ensures each { IfOk result (λ s. length s.numbers.items ≡ length graph.now.instances.list.items) }
    ensures numbers { IfOk result (λ s. AreInstanceNumbers (body_sharing (term_of graph.now.program.body))
        (instances_of graph.now) (shared_instances (program_of graph.now.program)) s.numbers.items) }
{
    let OwnInstances { list, places } = own_instances(alloc, graph, least)?;
    let mut numbers: Vec<InstId> = Vec::with_capacity(alloc, least.len())?;
    for first in least {
        numbers.push(InstId(places[first.0 as usize]))?;
    }
    Ok(SharedInstances { list, numbers })
}

// The instances that are the least members of theirs, and for each of these its place among them.
#[derive(Drop)]
struct OwnInstances {
    list: Vec<Instance>,
    places: Vec<u32>,
}

// The instances that are the least members of theirs.
fn own_instances(alloc: Global, graph: &Graph, least: &[InstId]) -> Result<OwnInstances, NoMemory>
    requires built { IsGraphOf graph.now (program_of graph.now.program) }
    requires each { length least.now ≡ length graph.now.instances.list.items }
    requires least { AreLeast (body_sharing (term_of graph.now.program.body)) graph.now.instances.list.items least.now }
    ensures list { IfOk result (λ s. map instance_of s.list.items ≡ shared_instances (program_of graph.now.program)) }
    ensures each { IfOk result (λ s. length s.places.items ≡ length graph.now.instances.list.items) }
    ensures places { IfOk result (λ s. AreOwnPlaces (body_sharing (term_of graph.now.program.body))
        (instances_of graph.now) s.list.items s.places.items) }
{
    let count = graph.instances.list.len();
    let mut list: Vec<Instance> = Vec::new(alloc);
    let mut places: Vec<u32> = Vec::with_capacity(alloc, count)?;
    for i in 0..count {
        places.push(list.len() as u32)?;
        push_own(graph, least[i], i, &mut list)?;
    }
    Ok(OwnInstances { list, places })
}

// Appends an instance, where it is the least member of its shared instance.
fn push_own(
    graph: &Graph,
    least: InstId,
    i: usize,
    list: &mut Vec<Instance>,
) -> Result<(), NoMemory>
    requires within { i < length graph.now.instances.list.items }
    requires least { IsLeastMember (body_sharing (term_of graph.now.program.body))
        graph.now.instances.list.items i least }
    ensures { OnOk result (map instance_of list.new.items ≡ map instance_of list.old.items
        ++ if_named (body_sharing (term_of graph.now.program.body)) (instance_at (instances_of graph.now) i)) }
{
    if least.0 as usize == i {
        list.push(graph.instances.list[i])?;
    }
    Ok(())
}
