// The graph of a netlist, where some nets stand for others.

use crate::edges::{Edge, TRUE, edge_at, is_marked, mark, negated, negated_if, straight};
use crate::graphs::Graph;
use base_types::{NetId, NoMemory};
use net_ir::{Net, Op};
use std::alloc::Global;

/// A graph, and the edge of each net of a netlist: first what is always true, then the nets in order.
#[derive(Drop)]
pub(crate) struct Built {
    pub graph: Graph,
    pub edges: Vec<Edge>,
}

/// The place of a net in lists that begin with what is always true.
pub(crate) fn place_of(net: NetId) -> usize {
    net.0 as usize + 1
}

/// The graph of a netlist. `stand_ins` has for each net one of a lower place, or itself, that stands for it.
pub(crate) fn built_graph(alloc: Global, net: &Net, stand_ins: &[Edge]) -> Result<Built, NoMemory> {
    let leaves = net.inputs.len() + net.latches.len();
    let mut built = Built {
        graph: Graph::new(alloc, leaves, net.gates.len())?,
        edges: Vec::new(alloc),
    };
    for place in 0..leaves + 1 {
        let edge = built.stand_in(stand_ins, place, straight(place));
        built.edges.push(edge)?;
    }
    for (k, gate) in net.gates.iter().enumerate() {
        built.add_gate(stand_ins, (leaves + 1).saturating_add(k), gate.op)?;
    }
    Ok(built)
}

impl Built {
    // One gate more: its own edge is made where no other net stands for it.
    fn add_gate(&mut self, stand_ins: &[Edge], place: usize, op: Op) -> Result<(), NoMemory> {
        let edge = if edge_at(stand_ins, place).node == place {
            self.gate_edge(op)?
        } else {
            self.stand_in(stand_ins, place, TRUE)
        };
        Ok(self.edges.push(edge)?)
    }

    // The edge of what stands for a net, which has this edge of its own.
    fn stand_in(&self, stand_ins: &[Edge], place: usize, own: Edge) -> Edge {
        let other = edge_at(stand_ins, place);
        if other.node >= place {
            own
        } else {
            negated_if(edge_at(&self.edges, other.node), other.negative)
        }
    }

    /// The edge of what a gate computes.
    pub fn gate_edge(&mut self, op: Op) -> Result<Edge, NoMemory> {
        match op {
            Op::Const(value) => Ok(negated_if(TRUE, !value)),
            Op::Copy(a) => Ok(self.edge(a)),
            Op::Not(a) => Ok(negated(self.edge(a))),
            Op::And(a, b) => {
                let left = self.edge(a);
                let right = self.edge(b);
                self.graph.both(left, right)
            }
            Op::Or(a, b) => {
                let left = self.edge(a);
                let right = self.edge(b);
                self.graph.either(left, right)
            }
        }
    }

    /// The edge of a net.
    pub fn edge(&self, net: NetId) -> Edge {
        edge_at(&self.edges, place_of(net))
    }
}

/// Marks the nodes that something shows: those of the outputs and of `paused`, those that marked pairs hold, and those
/// that marked latches read.
pub(crate) fn marked_nodes(alloc: Global, net: &Net, built: &Built) -> Result<Vec<bool>, NoMemory> {
    let mut marks = vec![in alloc; false; built.graph.count()]?;
    let mut stack = Vec::new(alloc);
    reach(&mut marks, &mut stack, built.edge(net.paused).node)?;
    for output in &net.outputs {
        reach(&mut marks, &mut stack, built.edge(output.net).node)?;
    }
    for _step in 0..usize::MAX {
        let Some(node) = stack.pop() else {
            break;
        };
        reach_parts(net, built, &mut marks, &mut stack, node)?;
    }
    Ok(marks)
}

// Marks what a node holds or, if it is a latch, reads.
fn reach_parts(
    net: &Net,
    built: &Built,
    marks: &mut Vec<bool>,
    stack: &mut Vec<usize>,
    node: usize,
) -> Result<(), NoMemory> {
    if built.graph.is_pair(node) {
        let pair = built.graph.pair(node);
        reach(marks, stack, pair.left.node)?;
        reach(marks, stack, pair.right.node)
    } else {
        let latch = node.saturating_sub(net.inputs.len().saturating_add(1));
        if node > net.inputs.len() && latch < net.latches.len() {
            reach(marks, stack, built.edge(net.latches[latch].from).node)
        } else {
            Ok(())
        }
    }
}

// Marks a node, and remembers it, unless it was marked.
fn reach(marks: &mut Vec<bool>, stack: &mut Vec<usize>, node: usize) -> Result<(), NoMemory> {
    if is_marked(marks, node) {
        return Ok(());
    }
    mark(marks, node);
    Ok(stack.push(node)?)
}

/// How many marked pairs, outputs, latches and `paused` need each node.
pub(crate) fn reader_counts(
    alloc: Global,
    net: &Net,
    built: &Built,
    marks: &[bool],
) -> Result<Vec<usize>, NoMemory> {
    let mut readers = vec![in alloc; 0; built.graph.count()]?;
    for node in 0..built.graph.count() {
        if built.graph.is_pair(node) && is_marked(marks, node) {
            let pair = built.graph.pair(node);
            count(&mut readers, pair.left.node);
            count(&mut readers, pair.right.node);
        }
    }
    count(&mut readers, built.edge(net.paused).node);
    for output in &net.outputs {
        count(&mut readers, built.edge(output.net).node);
    }
    for latch in &net.latches {
        count(&mut readers, built.edge(latch.from).node);
    }
    Ok(readers)
}

fn count(readers: &mut Vec<usize>, node: usize) {
    if node < readers.len() {
        readers[node] = readers[node].saturating_add(1);
    }
}
