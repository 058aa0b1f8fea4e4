// The netlist of a graph.

use crate::assembling::Parts;
use crate::building::Built;
use crate::edges::{Edge, TRUE, edge_at, is_marked, negated, negated_if, number_at, straight};
use base_types::{NetId, NoMemory};
use net_ir::{Gate, Latch, Net, Op};
use std::alloc::Global;

/// The gates of a netlist under construction. `names` has for each node of the graph a net or its negation, by place:
/// place 0 is the constant that is always true, and the nets follow. `nots` has for each net the gate that negates it.
#[derive(Drop)]
pub(crate) struct Emitted {
    pub names: Vec<Edge>,
    pub gates: Vec<Gate>,
    pub latches: Vec<Latch>,
    pub outputs: Vec<NetId>,
    pub paused: NetId,
    nots: Vec<usize>,
    first: usize,
}

/// The parts of the netlist of the marked nodes: the latches that are marked, in their order, and the gates of the
/// marked pairs.
pub(crate) fn emitted_parts(
    alloc: Global,
    net: &Net,
    built: &Built,
    marks: &[bool],
) -> Result<Emitted, NoMemory> {
    let mut emitted = begun(alloc, net, marks)?;
    for node in 0..built.graph.count() {
        if built.graph.is_pair(node) {
            let name = if is_marked(marks, node) {
                let pair = built.graph.pair(node);
                emitted.pair_gate(emitted.name(pair.left), emitted.name(pair.right))?
            } else {
                TRUE
            };
            emitted.names.push(name)?;
        }
    }
    emitted.add_roots(net, built, marks)?;
    Ok(emitted)
}

// The inputs and the marked latches, without gates.
fn begun(alloc: Global, net: &Net, marks: &[bool]) -> Result<Emitted, NoMemory> {
    let mut names = Vec::new(alloc);
    names.push(TRUE)?;
    for place in 0..net.inputs.len() {
        names.push(straight(place.saturating_add(1)))?;
    }
    let mut first = net.inputs.len();
    for latch in 0..net.latches.len() {
        let node = net.inputs.len().saturating_add(1).saturating_add(latch);
        if is_marked(marks, node) {
            first = first.saturating_add(1);
            names.push(straight(first))?;
        } else {
            names.push(TRUE)?;
        }
    }
    Ok(Emitted {
        names,
        gates: Vec::new(alloc),
        latches: Vec::new(alloc),
        outputs: Vec::new(alloc),
        paused: NetId(0),
        nots: vec![in alloc; usize::MAX; first.saturating_add(1)]?,
        first,
    })
}

impl Emitted {
    /// The net of an edge, or its negation.
    pub fn name(&self, edge: Edge) -> Edge {
        negated_if(edge_at(&self.names, edge.node), edge.negative)
    }

    // One gate more.
    fn add(&mut self, op: Op) -> Result<usize, NoMemory> {
        self.gates.push(Gate { op, wire: None })?;
        self.nots.push(usize::MAX)?;
        Ok(self.first.saturating_add(self.gates.len()))
    }

    // What both nets say together.
    fn pair_gate(&mut self, left: Edge, right: Edge) -> Result<Edge, NoMemory> {
        if left.negative && right.negative {
            let gate = self.add(Op::Or(net_of(left), net_of(right)))?;
            return Ok(negated(straight(gate)));
        }
        if !left.negative && !right.negative {
            return Ok(straight(self.add(Op::And(net_of(left), net_of(right)))?));
        }
        if left.negative {
            self.mixed_gate(right, left)
        } else {
            self.mixed_gate(left, right)
        }
    }

    // What a net says together with the negation of another one.
    fn mixed_gate(&mut self, plain: Edge, denied: Edge) -> Result<Edge, NoMemory> {
        if !self.has_not(denied) && self.has_not(plain) {
            let not = self.not_gate(plain)?;
            let gate = self.add(Op::Or(not, net_of(denied)))?;
            return Ok(negated(straight(gate)));
        }
        let not = self.not_gate(denied)?;
        Ok(straight(self.add(Op::And(net_of(plain), not))?))
    }

    // Whether a gate negates the net of an edge.
    fn has_not(&self, edge: Edge) -> bool {
        number_at(&self.nots, edge.node) != usize::MAX
    }

    // The gate that negates the net of an edge.
    fn not_gate(&mut self, edge: Edge) -> Result<NetId, NoMemory> {
        let there = number_at(&self.nots, edge.node);
        if there != usize::MAX {
            return Ok(net_of(straight(there)));
        }
        let op = if edge.node == 0 {
            Op::Const(false)
        } else {
            Op::Not(net_of(edge))
        };
        let gate = self.add(op)?;
        if edge.node < self.nots.len() {
            self.nots[edge.node] = gate;
        }
        Ok(net_of(straight(gate)))
    }

    // The net that has the value of an edge.
    fn root(&mut self, edge: Edge) -> Result<NetId, NoMemory> {
        let name = self.name(edge);
        if name.negative {
            self.not_gate(name)
        } else if name.node == 0 {
            let gate = self.add(Op::Const(true))?;
            Ok(net_of(straight(gate)))
        } else {
            Ok(net_of(name))
        }
    }

    // The nets of the outputs, of `paused` and of what the latches read.
    fn add_roots(&mut self, net: &Net, built: &Built, marks: &[bool]) -> Result<(), NoMemory> {
        self.paused = self.root(built.edge(net.paused))?;
        for output in &net.outputs {
            let root = self.root(built.edge(output.net))?;
            self.outputs.push(root)?;
        }
        for (k, latch) in net.latches.iter().enumerate() {
            let node = net.inputs.len().saturating_add(1).saturating_add(k);
            if is_marked(marks, node) {
                let from = self.root(built.edge(latch.from))?;
                self.latches.push(Latch {
                    init: latch.init,
                    from,
                })?;
            }
        }
        Ok(())
    }
}

// The net of an edge that is no negation, nor what is always true.
fn net_of(edge: Edge) -> NetId {
    net_number(edge.node.saturating_sub(1))
}

// The net of a number, where there can be that many.
fn net_number(number: usize) -> NetId {
    if number < 0x1_0000_0000 {
        NetId(number as u32)
    } else {
        NetId(0)
    }
}

/// The parts of the netlist alone.
pub(crate) fn parts_of(emitted: Emitted) -> Parts {
    let Emitted {
        names: _,
        gates,
        latches,
        outputs,
        paused,
        nots: _,
        first: _,
    } = emitted;
    Parts {
        gates,
        latches,
        outputs,
        paused,
    }
}
