// Netlists whose latches hold the state in a code.

ghost use Rattle.std.specs.Prelude.{◌≡◌, ◌+◌, ◌*◌, ◌<◌, ◌≤◌, ◌^◌, true, false, ◌∷◌, length, map, replicate, IfOk};
ghost use Rattle.base_types.specs.Stops.{IfFault};
ghost use Rattle.est_kernel.specs.Terms.{Term};
ghost use Rattle.net_ir.specs.Runs.{netlist_of, initial_latches};
ghost use Rattle.net_state_enc.specs.Encodings.{IsTreeOf, Encodes};

use crate::codes::leaf_codes;
use crate::netlist::{TooManyNets, coded_net};
use crate::trees::{code_tree, sizes_of};
use base_types::{NoMemory, Stop, Text};
use grc_graph::SelTree;
use net_ir::{Net, NetOut};
use net_simp::copied_names;
use std::alloc::Global;

/// The greatest number of leaves whose state is coded.
const LEAVES_AT_MOST: u32 = 1024;

/// A netlist whose latches hold a program's state in a code of few bits, where the given one has a latch for each leaf
/// of the selection tree after the one that tells the first instant. Of the parts of an exclusive node, whose leaves
/// are never selected together, the code says by a number which one holds a selected leaf; the branches of a parallel
/// have bits of their own. It shows the same over items, wherever the leaves are selected as the tree wants in each
/// instant. Where a code would not be shorter, or there are more than 1,024 leaves, the result is a copy. Its fault is
/// that there are more than 2^31 inputs and gates, and its only other error is out of memory.
///
/// Example: `repeat 200 times pause end; emit O` has 201 latches, and 9 in a code.
pub fn encode(alloc: Global, net: &Net, tree: &SelTree) -> Result<Net, Stop<TooManyNets>>
    requires tree { (body : Term) × IsTreeOf tree.now body }
    requires latches { initial_latches (netlist_of net.now) ≡ true ∷ replicate tree.now.leaves false }
    ensures encodes { IfOk result (λ new. (body : Term) → IsTreeOf tree.now body
        → Encodes (netlist_of net.now) (netlist_of new) body) }
    ensures size { IfOk result (λ new. length new.gates.items ≤ length net.now.gates.items
        + 64 * (length tree.now.nodes.items * length new.latches.items)) }
    ensures copies { IfOk result (λ new. length new.latches.items ≡ length net.now.latches.items
        → netlist_of new ≡ netlist_of net.now) }
    ensures fault { IfFault result (λ fault. 2 ^ 31 < length net.now.inputs.items + length net.now.gates.items) }
{
    if tree.leaves <= LEAVES_AT_MOST {
        let made = shorter_net(alloc, net, tree)?;
        Ok(made)
    } else {
        let copy = copied_net(alloc, net)?;
        Ok(copy)
    }
}

// The netlist of the code, where this is shorter; else a copy.
fn shorter_net(alloc: Global, net: &Net, tree: &SelTree) -> Result<Net, Stop<TooManyNets>>
    requires tree { (body : Term) × IsTreeOf tree.now body }
    requires few { tree.now.leaves ≤ 1024 }
    requires latches { initial_latches (netlist_of net.now) ≡ true ∷ replicate tree.now.leaves false }
    ensures encodes { IfOk result (λ new. (body : Term) → IsTreeOf tree.now body
        → Encodes (netlist_of net.now) (netlist_of new) body) }
    ensures size { IfOk result (λ new. length new.gates.items ≤ length net.now.gates.items
        + 64 * (length tree.now.nodes.items * length new.latches.items)) }
    ensures copies { IfOk result (λ new. length new.latches.items ≡ length net.now.latches.items
        → netlist_of new ≡ netlist_of net.now) }
    ensures fault { IfFault result (λ fault. 2 ^ 31 < length net.now.inputs.items + length net.now.gates.items) }
{
    let code = code_tree(alloc, tree)?;
    let width = sizes_of(&code).loose;
    if width < tree.leaves {
        let codes = leaf_codes(alloc, &code)?;
        let made = coded_net(alloc, net, width, &codes)?;
        Ok(made)
    } else {
        let copy = copied_net(alloc, net)?;
        Ok(copy)
    }
}

// A netlist once more.
fn copied_net(alloc: Global, net: &Net) -> Result<Net, NoMemory>
    ensures { IfOk result (λ new. netlist_of new ≡ netlist_of net.now) }
{
    let name = Text::from_bytes(alloc, net.name.bytes())?;
    let inputs = copied_names(alloc, &net.inputs)?;
    let outputs = copied_outputs(alloc, &net.outputs)?;
    let latches = Vec::from_slice(alloc, &net.latches)?;
    let gates = Vec::from_slice(alloc, &net.gates)?;
    Ok(Net {
        name,
        inputs,
        outputs,
        paused: net.paused,
        latches,
        gates,
    })
}

fn copied_outputs(alloc: Global, outputs: &[NetOut]) -> Result<Vec<NetOut>, NoMemory>
    ensures { IfOk result (λ v. v.items ≡ outputs.now) }
{
    let mut copies = Vec::new(alloc);
    for output in outputs {
        let name = Text::from_bytes(alloc, output.name.bytes())?;
        let net = output.net;
        copies.push(NetOut { name, net })?;
    }
    Ok(copies)
}
