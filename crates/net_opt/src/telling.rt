// Latches whose values gates determine: the gate has the latch's value in every instant, without reading it.

use crate::building::{Built, marked_nodes, reader_counts};
use crate::classes::Classes;
use crate::edges::{Edge, edge_at, is_marked, negated_if, number_at, straight};
use crate::graphs::Graph;
use base_types::NoMemory;
use net_ir::Net;
use std::alloc::Global;

// How many nodes are visited, for each node of a graph and in addition, before no more latches are tried.
const STEPS: usize = 16;

const BESIDE: usize = 100_000;

/// For each latch the place of the gate that determines its value, or `usize::MAX`; and the edge that replaces it.
#[derive(Drop)]
pub(crate) struct Told {
    pub gates: Vec<usize>,
    pub edges: Vec<Edge>,
}

/// The latches whose values gates of their classes determine. Using the gate may need at most `worth` more pairs than
/// go with the latch. The graph may gain some pairs.
pub(crate) fn told_latches(
    alloc: Global,
    net: &Net,
    classes: &Classes,
    built: &mut Built,
    worth: usize,
) -> Result<Told, NoMemory> {
    let marks = marked_nodes(alloc, net, built)?;
    let mut teller = Teller {
        readers: reader_counts(alloc, net, built, &marks)?,
        seen: Vec::new(alloc),
        tries: 0,
        steps: built
            .graph
            .count()
            .saturating_mul(STEPS)
            .saturating_add(BESIDE),
        worth,
        told: untold(alloc, net)?,
    };
    let first = latch_node(net, net.latches.len());
    for (k, gate) in net.gates.iter().enumerate() {
        let place = first.saturating_add(k);
        let other = edge_at(&classes.stand_ins, place);
        if latch_of(net, other.node) < net.latches.len() && is_marked(&marks, other.node) {
            let own = negated_if(built.gate_edge(gate.op)?, other.negative);
            teller.try_gate(alloc, net, built, place, other.node, own)?;
        }
    }
    Ok(teller.told)
}

/// No latch has a gate that determines its value: each is its own node.
pub(crate) fn untold(alloc: Global, net: &Net) -> Result<Told, NoMemory> {
    let mut edges = Vec::new(alloc);
    for latch in 0..net.latches.len() {
        edges.push(straight(latch_node(net, latch)))?;
    }
    Ok(Told {
        gates: vec![in alloc; usize::MAX; net.latches.len()]?,
        edges,
    })
}

/// The node and the place of a latch.
pub(crate) fn latch_node(net: &Net, latch: usize) -> usize {
    net.inputs.len().saturating_add(1).saturating_add(latch)
}

// The latch of a node or a place: the greatest number where it is before them.
fn latch_of(net: &Net, node: usize) -> usize {
    if node > net.inputs.len() {
        node - net.inputs.len() - 1
    } else {
        usize::MAX
    }
}

impl Told {
    /// Whether a gate determines the value of some latch.
    pub fn is_some(&self) -> bool {
        for gate in &self.gates {
            if *gate != usize::MAX {
                return true;
            }
        }
        false
    }

    /// The edge that replaces a leaf: the leaf itself, if nothing does.
    pub fn leaf(&self, net: &Net, leaf: usize) -> Edge {
        let latch = latch_of(net, leaf);
        if latch < self.edges.len() {
            self.edges[latch]
        } else {
            straight(leaf)
        }
    }

    /// The place of the gate that determines the latch of a place: `usize::MAX` if there is none.
    pub fn gate(&self, net: &Net, place: usize) -> usize {
        number_at(&self.gates, latch_of(net, place))
    }
}

// The search: how many read each node, when each was seen last, and how many may still be looked at.
#[derive(Drop)]
struct Teller {
    readers: Vec<usize>,
    seen: Vec<usize>,
    tries: usize,
    steps: usize,
    worth: usize,
    told: Told,
}

impl Teller {
    // Lets a gate determine a latch, if none does so far, the gate does not read the latch, and the cost is low.
    fn try_gate(
        &mut self,
        alloc: Global,
        net: &Net,
        built: &Built,
        place: usize,
        node: usize,
        own: Edge,
    ) -> Result<(), NoMemory> {
        let latch = latch_of(net, node);
        if self.steps == 0 || latch >= net.latches.len() {
            return Ok(());
        }
        if number_at(&self.told.gates, latch) != usize::MAX {
            return Ok(());
        }
        for _more in self.readers.len()..built.graph.count() {
            self.readers.push(0)?;
        }
        let from = built.edge(net.latches[latch].from).node;
        let freed = self.release(alloc, &built.graph, from)?;
        match self.cost(alloc, net, &built.graph, own.node, node)? {
            Some(cost) if cost <= freed.saturating_add(self.worth) => {
                self.take_up(alloc, &built.graph, own.node)?;
                if latch < self.told.gates.len() && latch < self.told.edges.len() {
                    self.told.gates[latch] = place;
                    self.told.edges[latch] = own;
                }
                Ok(())
            }
            _ => self.take_up(alloc, &built.graph, from),
        }
    }

    // One reader of a node less: the answer is how many pairs are read by none then.
    fn release(&mut self, alloc: Global, graph: &Graph, from: usize) -> Result<usize, NoMemory> {
        let mut freed: usize = 0;
        let mut stack = Vec::new(alloc);
        stack.push(from)?;
        for _step in 0..usize::MAX {
            let Some(node) = stack.pop() else {
                return Ok(freed);
            };
            if node < self.readers.len() && self.readers[node] > 0 {
                self.steps = self.steps.saturating_sub(1);
                self.readers[node] -= 1;
                if self.readers[node] == 0 && graph.is_pair(node) {
                    freed = freed.saturating_add(1);
                    stack.push(graph.pair(node).left.node)?;
                    stack.push(graph.pair(node).right.node)?;
                }
            }
        }
        Ok(freed)
    }

    // One reader of a node more.
    fn take_up(&mut self, alloc: Global, graph: &Graph, from: usize) -> Result<(), NoMemory> {
        let mut stack = Vec::new(alloc);
        stack.push(from)?;
        for _step in 0..usize::MAX {
            let Some(node) = stack.pop() else {
                return Ok(());
            };
            if node < self.readers.len() {
                self.steps = self.steps.saturating_sub(1);
                self.readers[node] = self.readers[node].saturating_add(1);
                if self.readers[node] == 1 && graph.is_pair(node) {
                    stack.push(graph.pair(node).left.node)?;
                    stack.push(graph.pair(node).right.node)?;
                }
            }
        }
        Ok(())
    }

    // How many pairs that none reads a node needs. None where it needs this leaf, or where that takes too long to tell.
    fn cost(
        &mut self,
        alloc: Global,
        net: &Net,
        graph: &Graph,
        from: usize,
        leaf: usize,
    ) -> Result<Option<usize>, NoMemory> {
        let mut cost: usize = 0;
        let mut stack = Vec::new(alloc);
        self.tries = self.tries.saturating_add(1);
        for _more in self.seen.len()..graph.count() {
            self.seen.push(0)?;
        }
        stack.push(from)?;
        for _step in 0..usize::MAX {
            let Some(node) = stack.pop() else {
                return Ok(Some(cost));
            };
            if node == leaf || self.steps == 0 {
                return Ok(None);
            }
            if node < self.seen.len() && self.seen[node] != self.tries {
                self.seen[node] = self.tries;
                self.steps -= 1;
                if graph.is_pair(node) {
                    if number_at(&self.readers, node) == 0 {
                        cost = cost.saturating_add(1);
                    }
                    stack.push(graph.pair(node).left.node)?;
                    stack.push(graph.pair(node).right.node)?;
                } else {
                    let edge = self.told.leaf(net, node);
                    if edge.node != node {
                        stack.push(edge.node)?;
                    }
                }
            }
        }
        Ok(None)
    }
}
