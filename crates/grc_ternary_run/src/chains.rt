// For each end of an instance, what says that the instance ends with its code or an earlier one.

ghost use Rattle.std.specs.Prelude.{◌≡◌, ◌+◌, ◌<◌, ◌≤◌, ◌++◌, ◌∷◌, [], length, IfOk};
ghost use Rattle.grc_formulas.specs.WordLaws.{AreWordsOf, ends_upto, first_end};
ghost use Rattle.grc_ternary_run.specs.Chains.{AreChains, ChainsSoFar, continues};

use base_types::{InstId, NoMemory};
use grc_formulas::{Words, is_end_upto};
use grc_graph::{Graph, Wire};
use grc_ternary_gates::{Gate, push_gate};
use std::alloc::Global;

/// For each wire that is an end of an instance the node that says that this end or one before it, among the
/// ends of the instance, which stand side by side, is true. One gate for each end but the first serves all
/// codes.
pub(crate) fn make_chains(
    alloc: Global,
    graph: &Graph,
    words: &Words,
    table: &mut Vec<Gate>,
) -> Result<Vec<usize>, NoMemory>
    requires words { AreWordsOf graph.now words.now }
    requires begun { length table.old.items ≡ 0 }
    ensures { IfOk result (λ chains. AreChains graph.now words.now table.new.items chains.items) }
{
    let mut chains = Vec::with_capacity(alloc, graph.wires.len())?;
    for wire in 0..graph.wires.len() {
        let node = chain_node(graph, words, &chains, wire, table)?;
        chains.push(node)?;
    }
    Ok(chains)
}

// The node for a wire, where those of the wires before it are made.
fn chain_node(
    graph: &Graph,
    words: &Words,
    chains: &[usize],
    wire: usize,
    table: &mut Vec<Gate>,
) -> Result<usize, NoMemory>
    requires words { AreWordsOf graph.now words.now }
    requires wire { wire < length graph.now.wires.items }
    requires so_far { ChainsSoFar graph.now words.now table.old.items chains.now wire }
    ensures { IfOk result (λ node. ChainsSoFar graph.now words.now table.new.items (chains.now ++ node ∷ [])
        (wire + 1)) }
{
    if continues(graph, words, wire) {
        let gate = Gate::Or(chains[wire - 1], wire);
        let place = push_gate(table, gate)?;
        Ok(graph.wires.len() + place)
    } else {
        Ok(wire)
    }
}

// Whether a wire is an end of an instance and not its first.
fn continues(graph: &Graph, words: &Words, wire: usize) -> bool
    requires words { AreWordsOf graph.now words.now }
    requires wire { wire < length graph.now.wires.items }
    ensures { result ≡ continues graph.now words.now wire }
{
    match graph.wires[wire] {
        Wire::End(i, _) => wire > 0 && words.ends[i.0 as usize].0 as usize != wire,
        Wire::Go(_) | Wire::Local(_) | Wire::Out(_) => false,
    }
}

/// How many ends of an instance, side by side from its first one on, have at most this code.
pub(crate) fn count_ends(graph: &Graph, words: &Words, instance: InstId, code: u8) -> usize
    requires words { AreWordsOf graph.now words.now }
    requires instance { instance.0 < length graph.now.instances.list.items }
    ensures count { result ≡ ends_upto graph.now words.now instance.0 code }
    ensures within { first_end words.now instance.0 + result ≤ length graph.now.wires.items }
{
    let first = words.ends[instance.0 as usize].0 as usize;
    let wires = &graph.wires[first..];
    for (count, wire) in wires.iter().enumerate() {
        if !is_end_upto(*wire, instance, code) {
            return count;
        }
    }
    wires.len()
}
