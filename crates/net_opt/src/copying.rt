// Copies of graphs: without the latches whose values gates determine, or in another order.

use crate::building::{Built, place_of};
use crate::edges::{Edge, UNKNOWN, edge_at, is_marked, mark, named};
use crate::graphs::Graph;
use crate::telling::{Told, latch_node, untold};
use base_types::NoMemory;
use net_ir::{Net, Op};
use std::alloc::Global;

/// The graph in which each latch whose value a gate determines is replaced by that gate's edge.
pub(crate) fn without_told(
    alloc: Global,
    net: &Net,
    built: Built,
    told: &Told,
) -> Result<Built, NoMemory> {
    if told.is_some() {
        copied(alloc, net, &built, told, &[])
    } else {
        Ok(built)
    }
}

/// The graph with its nodes in the order in which `paused`, the outputs and the latches need them.
pub(crate) fn in_order_of_need(alloc: Global, net: &Net, built: &Built) -> Result<Built, NoMemory> {
    let mut roots = Vec::new(alloc);
    roots.push(built.edge(net.paused).node)?;
    for output in &net.outputs {
        roots.push(built.edge(output.net).node)?;
    }
    for latch in &net.latches {
        roots.push(built.edge(latch.from).node)?;
    }
    copied(alloc, net, built, &untold(alloc, net)?, &roots)
}

// A copy of a graph: first these nodes, each after those that it reads, and then the others.
fn copied(
    alloc: Global,
    net: &Net,
    built: &Built,
    told: &Told,
    roots: &[usize],
) -> Result<Built, NoMemory> {
    let count = built.graph.count();
    let mut copy = GraphCopy {
        graph: Graph::new(alloc, built.graph.leaves, count)?,
        names: vec![in alloc; UNKNOWN; count]?,
        stack: Vec::new(alloc),
    };
    for root in roots {
        copy.name_all(net, &built.graph, told, *root)?;
    }
    for node in 0..count {
        copy.name_all(net, &built.graph, told, node)?;
    }
    let mut edges = Vec::new(alloc);
    for edge in &built.edges {
        edges.push(named(&copy.names, *edge))?;
    }
    let GraphCopy {
        graph,
        names: _,
        stack: _,
    } = copy;
    Ok(Built { graph, edges })
}

// A graph, and its edge for each node of another one. What is on the stack is named next, from its top on.
#[derive(Drop)]
struct GraphCopy {
    graph: Graph,
    names: Vec<Edge>,
    stack: Vec<usize>,
}

impl GraphCopy {
    // Names a node, after the nodes that it reads.
    fn name_all(
        &mut self,
        net: &Net,
        graph: &Graph,
        told: &Told,
        node: usize,
    ) -> Result<(), NoMemory> {
        self.stack.push(node)?;
        for _step in 0..usize::MAX {
            let Some(top) = self.stack.pop() else {
                break;
            };
            self.name(net, graph, told, top)?;
        }
        Ok(())
    }

    // Names a node if all that it reads has names; otherwise the node waits for these.
    fn name(&mut self, net: &Net, graph: &Graph, told: &Told, node: usize) -> Result<(), NoMemory> {
        if edge_at(&self.names, node) != UNKNOWN {
            return Ok(());
        }
        if graph.is_pair(node) {
            let pair = graph.pair(node);
            let left = named(&self.names, pair.left);
            let right = named(&self.names, pair.right);
            if left == UNKNOWN || right == UNKNOWN {
                self.stack.push(node)?;
                self.await_name(right, pair.right.node)?;
                return self.await_name(left, pair.left.node);
            }
            let name = self.graph.both(left, right)?;
            self.give(node, name);
            return Ok(());
        }
        let edge = told.leaf(net, node);
        if edge.node == node {
            self.give(node, edge);
            return Ok(());
        }
        let name = named(&self.names, edge);
        if name == UNKNOWN {
            self.stack.push(node)?;
            return self.await_name(name, edge.node);
        }
        self.give(node, name);
        Ok(())
    }

    // Lets a node be named next, if it has no name.
    fn await_name(&mut self, name: Edge, node: usize) -> Result<(), NoMemory> {
        if name == UNKNOWN {
            self.stack.push(node)?;
        }
        Ok(())
    }

    fn give(&mut self, node: usize, name: Edge) {
        if node < self.names.len() {
            self.names[node] = name;
        }
    }
}

/// The places of the constant and of the nets, each gate after the nets that it reads. A latch whose value a gate
/// determines comes after the nets that this gate reads.
pub(crate) fn places_in_order(
    alloc: Global,
    net: &Net,
    told: &Told,
) -> Result<Vec<usize>, NoMemory> {
    let count = latch_node(net, net.latches.len()).saturating_add(net.gates.len());
    let mut order = Vec::new(alloc);
    let mut begun = vec![in alloc; false; count]?;
    let mut done = vec![in alloc; false; count]?;
    let mut stack = Vec::new(alloc);
    for place in 0..count {
        stack.push(place)?;
        for _step in 0..usize::MAX {
            let Some(top) = stack.pop() else {
                break;
            };
            if !is_marked(&begun, top) && top < count {
                mark(&mut begun, top);
                stack.push(top)?;
                push_parts(net, told, &mut stack, top)?;
            } else if !is_marked(&done, top) && top < count {
                mark(&mut done, top);
                order.push(top)?;
            }
        }
    }
    Ok(order)
}

// Pushes the places that a gate reads: the gate of this place, or the one that determines the latch of this place.
fn push_parts(
    net: &Net,
    told: &Told,
    stack: &mut Vec<usize>,
    place: usize,
) -> Result<(), NoMemory> {
    let first = latch_node(net, net.latches.len());
    let gate = if place < first {
        told.gate(net, place)
    } else {
        place
    };
    if gate < first || gate - first >= net.gates.len() {
        return Ok(());
    }
    match net.gates[gate - first].op {
        Op::Const(_) => Ok(()),
        Op::Copy(a) | Op::Not(a) => Ok(stack.push(place_of(a))?),
        Op::And(a, b) | Op::Or(a, b) => {
            stack.push(place_of(b))?;
            Ok(stack.push(place_of(a))?)
        }
    }
}
