// The shared wires and the nodes of shared instances.

ghost use Rattle.std.specs.Prelude.{◌≡◌, ◌<◌, List, length, map, All, IfOk, IsTrue, OnOk};
ghost use Rattle.est_kernel.specs.Plain.{program_of};
ghost use Rattle.grc_graph.specs.BuiltGraphs.{IsGraphOf};
ghost use Rattle.grc_graph.specs.GraphShapes.{node_fits, wire_fits};
ghost use Rattle.grc_graph.specs.Instances.{Instance};
ghost use Rattle.grc_graph.specs.PlainGraphs.{node_form, wire_of};
ghost use Rattle.grc_graph.specs.Wires.{Wire as plain_wire};
ghost use Rattle.grc_share.specs.Renamings.{AreInstanceNumbers, AreLeastMembers, AreNumbers, AreNumbersOf, GainsNode};
ghost use Rattle.grc_share.specs.Renamings.{by_instance};
ghost use Rattle.grc_share.specs.SharedGraphs.{renamed_node, shared_instances, shared_nodes};
ghost use Rattle.grc_share.specs.SharedInstances.{Sharing};
ghost use Rattle.grc_share.specs.SharedWires.{shared_wires};

use crate::renaming::Numbers;
use base_types::{InstId, NoMemory, WireId};
use grc_graph::{Graph, Node, Wire};
use std::alloc::Global;

/// What each shared wire is, from its least member.
pub(crate) fn shared_wire_list(
    alloc: Global,
    graph: &Graph,
    least: &[WireId],
    numbers: &Numbers,
) -> Result<Vec<Wire>, NoMemory>
    requires built { IsGraphOf graph.now (program_of graph.now.program) }
    requires least { AreLeastMembers graph.now least.now }
    requires numbers { AreNumbersOf graph.now numbers.now.least.now numbers.now.instances.now numbers.now.wires.now }
    ensures wires { IfOk result (λ v. map (wire_of (shared_instances (program_of graph.now.program))) v.items
        ≡ shared_wires (program_of graph.now.program)) }
    ensures fit { IfOk result (λ v. All (λ w. IsTrue (wire_fits
        (length (shared_instances (program_of graph.now.program))) w)) v.items) }
{
    let mut wires: Vec<Wire> = Vec::with_capacity(alloc, least.len())?;
    for w in least {
        wires.push(renamed_wire(graph.wires[w.0 as usize], numbers.instances))?;
    }
    Ok(wires)
}

// A wire with the number of the shared instance in the place of its instance.
fn renamed_wire(wire: Wire, instances: &[InstId]) -> Wire
    requires { IsTrue (wire_fits (length instances.now) wire) }
    ensures named { (K : Sharing) (insts shared : List Instance) → AreInstanceNumbers K insts shared instances.now
        → wire_of shared result ≡ by_instance K (wire_of insts wire) }
    ensures fits { (K : Sharing) (insts shared : List Instance) → AreInstanceNumbers K insts shared instances.now
        → IsTrue (wire_fits (length shared) result) }
{
    match wire {
        Wire::Out(signal) => Wire::Out(signal),
        Wire::Go(i) => Wire::Go(instances[i.0 as usize]),
        Wire::Local(i) => Wire::Local(instances[i.0 as usize]),
        Wire::End(i, code) => Wire::End(instances[i.0 as usize], code),
    }
}

/// What each shared instance is in the control-flow graph, from its least member.
pub(crate) fn shared_node_list(
    alloc: Global,
    graph: &Graph,
    numbers: &Numbers,
) -> Result<Vec<Node>, NoMemory>
    requires built { IsGraphOf graph.now (program_of graph.now.program) }
    requires numbers { AreNumbersOf graph.now numbers.now.least.now numbers.now.instances.now numbers.now.wires.now }
    ensures nodes { IfOk result (λ v. map (node_form (shared_instances (program_of graph.now.program))
        (shared_wires (program_of graph.now.program))) v.items ≡ shared_nodes (program_of graph.now.program)) }
    ensures fit { IfOk result (λ v. All (λ x. IsTrue (node_fits
        (length (shared_instances (program_of graph.now.program)))
        (length (shared_wires (program_of graph.now.program))) x)) v.items) }
{
    let mut nodes: Vec<Node> = Vec::new(alloc);
    for i in 0..graph.nodes.len() {
        push_node(graph, numbers, InstId(i as u32), &mut nodes)?;
    }
    Ok(nodes)
}

// Appends the node of an instance, where it is the least member of its shared instance.
fn push_node(
    graph: &Graph,
    numbers: &Numbers,
    i: InstId,
    nodes: &mut Vec<Node>,
) -> Result<(), NoMemory>
    requires built { IsGraphOf graph.now (program_of graph.now.program) }
    requires numbers { AreNumbersOf graph.now numbers.now.least.now numbers.now.instances.now numbers.now.wires.now }
    requires within { i.0 < length graph.now.instances.list.items }
    ensures { OnOk result (GainsNode (program_of graph.now.program) i.0 nodes.old.items nodes.new.items) }
{
    if numbers.least[i.0 as usize].0 == i.0 {
        let node = graph.node_of(i);
        nodes.push(renamed_node(node, numbers))?;
    }
    Ok(())
}

// A node with the numbers of the shared ones in the places of its instances and wires.
fn renamed_node(node: Node, numbers: &Numbers) -> Node
    requires { IsTrue (node_fits (length numbers.now.instances.now) (length numbers.now.wires.now) node) }
    ensures named { (K : Sharing) (insts : List Instance) (names : List plain_wire) (shared : List Instance)
        (wires : List plain_wire)
        → AreNumbers K insts names shared wires numbers.now.instances.now numbers.now.wires.now
        → node_form shared wires result ≡ renamed_node K (node_form insts names node) }
    ensures fits { (K : Sharing) (insts : List Instance) (names : List plain_wire) (shared : List Instance)
        (wires : List plain_wire)
        → AreNumbers K insts names shared wires numbers.now.instances.now numbers.now.wires.now
        → IsTrue (node_fits (length shared) (length wires) result) }
{
    let instances = numbers.instances;
    match node {
        Node::Fork(first, second) => {
            Node::Fork(instances[first.0 as usize], instances[second.0 as usize])
        }
        Node::Sync(i) => Node::Sync(instances[i.0 as usize]),
        Node::Switch(i) => Node::Switch(instances[i.0 as usize]),
        Node::Test(i) => Node::Test(instances[i.0 as usize]),
        Node::Enter(i) => Node::Enter(instances[i.0 as usize]),
        Node::Emit(i, w) => {
            Node::Emit(instances[i.0 as usize], WireId(numbers.wires[w.0 as usize]))
        }
        Node::Define(i, w) => {
            Node::Define(instances[i.0 as usize], WireId(numbers.wires[w.0 as usize]))
        }
        Node::Exit(i, code) => Node::Exit(instances[i.0 as usize], code),
        Node::Through(i) => Node::Through(instances[i.0 as usize]),
    }
}
