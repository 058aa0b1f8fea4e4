// The emissions on each shared status wire.

ghost use Rattle.std.specs.Prelude.{◌≡◌, ◌<◌, [], ℕ, List, length, map, slice_index_or, false, option_map, IfOk};
ghost use Rattle.std.specs.Prelude.{IsTrue, MatchOption, OnOk, ⊤};
ghost use Rattle.est_kernel.specs.Plain.{program_of};
ghost use Rattle.grc_graph.specs.BuiltGraphs.{IsGraphOf};
ghost use Rattle.grc_graph.specs.GraphShapes.{node_fits};
ghost use Rattle.grc_graph.specs.Instances.{Instance};
ghost use Rattle.grc_graph.specs.PlainGraphs.{names_of, node_form, wire_at};
ghost use Rattle.grc_graph.specs.Wires.{Wire, same_wire};
ghost use Rattle.grc_share.specs.Renamings.{AreEmissions, AreNumbersOf, GainsEmission, emits_at};
ghost use Rattle.grc_share.specs.SharedGraphs.{emitted_on};
ghost use Rattle.grc_share.specs.SharedInstances.{body_sharing};
ghost use Rattle.grc_share.specs.SharedWires.{shared_wire, shared_wires};

use crate::placing::{FewWires, empty_lists, push_wire};
use crate::renaming::Numbers;
use base_types::{InstId, NoMemory, WireId};
use grc_graph::{Graph, Node};
use std::alloc::Global;

/// For each of a graph's shared wires, of which there are `count`, the `go` of each shared instance that emits on it.
pub(crate) fn emission_lists(
    alloc: Global,
    graph: &Graph,
    numbers: &Numbers,
    count: usize,
) -> Result<Vec<FewWires>, NoMemory>
    requires built { IsGraphOf graph.now (program_of graph.now.program) }
    requires numbers { AreNumbersOf graph.now numbers.now.least.now numbers.now.instances.now numbers.now.wires.now }
    requires count { count ≡ length (shared_wires (program_of graph.now.program)) }
    ensures each { IfOk result (λ v. length v.items ≡ count) }
    ensures lists { IfOk result (λ v. (k : ℕ) → k < count
        → AreEmissions (program_of graph.now.program) (wire_at (shared_wires (program_of graph.now.program)) k)
        (slice_index_or (map (λ list. list.items) v.items) k [])) }
{
    let mut lists = empty_lists(alloc, count)?;
    for i in 0..graph.nodes.len() {
        push_emission(graph, numbers, InstId(i as u32), &mut lists)?;
    }
    Ok(lists)
}

// Notes the emission of an instance, where it is a shared one.
fn push_emission(
    graph: &Graph,
    numbers: &Numbers,
    i: InstId,
    lists: &mut Vec<FewWires>,
) -> Result<(), NoMemory>
    requires built { IsGraphOf graph.now (program_of graph.now.program) }
    requires numbers { AreNumbersOf graph.now numbers.now.least.now numbers.now.instances.now numbers.now.wires.now }
    requires within { i.0 < length graph.now.instances.list.items }
    requires each { length lists.old.items ≡ length (shared_wires (program_of graph.now.program)) }
    ensures each { length lists.new.items ≡ length lists.old.items }
    ensures lists { OnOk result ((k : ℕ) → k < length (shared_wires (program_of graph.now.program))
        → GainsEmission (program_of graph.now.program) i.0 (wire_at (shared_wires (program_of graph.now.program)) k)
        (slice_index_or (map (λ list. list.items) lists.old.items) k [])
        (slice_index_or (map (λ list. list.items) lists.new.items) k [])) }
{
    match emitted_wire(graph, numbers, i) {
        Some(w) => {
            let place = numbers.wires[w.0 as usize];
            let go = graph.neighbours().go(i);
            push_wire(lists, place as usize, WireId(numbers.wires[go.0 as usize]))
        }
        None => Ok(()),
    }
}

// The wire on which an instance emits, where it is a shared one.
fn emitted_wire(graph: &Graph, numbers: &Numbers, i: InstId) -> Option<WireId>
    requires built { IsGraphOf graph.now (program_of graph.now.program) }
    requires numbers { AreNumbersOf graph.now numbers.now.least.now numbers.now.instances.now numbers.now.wires.now }
    requires within { i.0 < length graph.now.instances.list.items }
    ensures found { MatchOption result
        ((w : Wire) → emits_at (program_of graph.now.program) w i.0 ≡ false)
        (λ v. (w : Wire) → emits_at (program_of graph.now.program) w i.0
        ≡ same_wire (shared_wire (body_sharing (program_of graph.now.program).body)
        (wire_at (names_of graph.now) v.0)) w) }
    ensures own { MatchOption result (⊤) (λ v. (slice_index_or numbers.now.least.now i.0 i).0 ≡ i.0) }
    ensures within { MatchOption result (⊤) (λ v. v.0 < length graph.now.wires.items) }
{
    if numbers.least[i.0 as usize].0 == i.0 {
        node_emission(graph.node_of(i))
    } else {
        None
    }
}

// The wire on which a node emits.
fn node_emission(node: Node) -> Option<WireId>
    ensures named { (insts : List Instance) (names : List Wire) → emitted_on (node_form insts names node)
        ≡ option_map (λ v. wire_at names v.0) result }
    ensures within { (insts count : ℕ) → IsTrue (node_fits insts count node)
        → MatchOption result (⊤) (λ v. v.0 < count) }
{
    match node {
        Node::Emit(_, w) => Some(w),
        Node::Fork(_, _) => None,
        Node::Sync(_) => None,
        Node::Switch(_) => None,
        Node::Test(_) => None,
        Node::Enter(_) => None,
        Node::Define(_, _) => None,
        Node::Exit(_, _) => None,
        Node::Through(_) => None,
    }
}
