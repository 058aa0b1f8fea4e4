// The cone of a question, as a transition system.

use crate::graphs::{AndGraph, FALSE, TRUE};
use base_types::{NetId, NoMemory};
use net_ir::{Gate, Latch, Net, Op};
use sat_kernel::{Clause, Literal};
use sat_trail::{LiteralId, at, put, small};
use std::alloc::Global;

/// A latch of a transition system. Its node follows those of the inputs, in the order of the latches.
#[derive(Clone, Copy)]
pub struct State {
    /// The number of the latch's net.
    pub net: u32,
    pub init: bool,
    /// The value of the next instant.
    pub next: LiteralId,
}

/// The part of a netlist that a question depends on: the nets from which the question's nets can be reached. The nodes
/// of the graph are the true one, the inputs, the latches, and then what the gates compute.
#[derive(Drop)]
pub struct TransitionSystem {
    pub graph: AndGraph,
    /// By node of an input, from the first: the input's number.
    pub inputs: Vec<u32>,
    /// The number of inputs of the whole netlist.
    pub width: usize,
    pub states: Vec<State>,
    /// The literals of the clauses that each instant meets.
    pub allowed: Vec<LiteralId>,
    /// The ends of these clauses in the list of literals.
    pub ends: Vec<usize>,
    /// What should never be true.
    pub bad: LiteralId,
    // By net of the netlist: its edge. False where the question does not depend on it.
    edges: Vec<LiteralId>,
}

impl TransitionSystem {
    /// The cone of a literal and of the clauses that each instant meets.
    pub fn new(
        alloc: Global,
        net: &Net,
        allowed: &[Clause],
        bad: Literal,
    ) -> Result<TransitionSystem, NoMemory> {
        let mut cone = Cone::new(alloc, net)?;
        cone.fill(net, allowed, bad)?;
        TransitionSystem::of(alloc, net, allowed, bad, &cone.reached)
    }

    fn of(
        alloc: Global,
        net: &Net,
        allowed: &[Clause],
        bad: Literal,
        reached: &[bool],
    ) -> Result<TransitionSystem, NoMemory> {
        let mut system = TransitionSystem {
            graph: AndGraph::new(alloc)?,
            inputs: Vec::new(alloc),
            width: net.inputs.len(),
            states: Vec::new(alloc),
            allowed: Vec::new(alloc),
            ends: Vec::new(alloc),
            bad: FALSE,
            edges: Vec::new(alloc),
        };
        system.fill(alloc, net, allowed, reached)?;
        system.bad = signed_as(edge_at(&system.edges, bad.variable), LiteralId::of(bad));
        Ok(system)
    }

    fn fill(
        &mut self,
        alloc: Global,
        net: &Net,
        allowed: &[Clause],
        reached: &[bool],
    ) -> Result<(), NoMemory> {
        self.push_inputs(reached)?;
        self.push_states(reached, &net.latches)?;
        self.push_gates(alloc, reached, &net.gates)?;
        self.set_next();
        self.push_allowed(allowed)
    }

    fn push_inputs(&mut self, reached: &[bool]) -> Result<(), NoMemory> {
        for input in 0..self.width {
            let mut edge = FALSE;
            if at(reached, input, false) {
                edge = self.graph.free()?;
                self.inputs.push(small(input))?;
            }
            self.edges.push(edge)?;
        }
        Ok(())
    }

    fn push_states(&mut self, reached: &[bool], latches: &[Latch]) -> Result<(), NoMemory> {
        for latch in latches {
            let net = self.edges.len();
            let mut edge = FALSE;
            if at(reached, net, false) {
                edge = self.graph.free()?;
                self.states.push(State {
                    net: small(net),
                    init: latch.init,
                    next: LiteralId(latch.from.0),
                })?;
            }
            self.edges.push(edge)?;
        }
        Ok(())
    }

    fn push_gates(
        &mut self,
        alloc: Global,
        reached: &[bool],
        gates: &[Gate],
    ) -> Result<(), NoMemory> {
        for gate in gates {
            let mut edge = FALSE;
            if at(reached, self.edges.len(), false) {
                edge = self.edge_of(alloc, gate.op)?;
            }
            self.edges.push(edge)?;
        }
        Ok(())
    }

    fn edge_of(&mut self, alloc: Global, op: Op) -> Result<LiteralId, NoMemory> {
        match op {
            Op::Const(value) => Ok(if value { TRUE } else { FALSE }),
            Op::Copy(a) => Ok(edge_at(&self.edges, a.0)),
            Op::Not(a) => Ok(edge_at(&self.edges, a.0).opposite()),
            Op::And(a, b) => {
                let left = edge_at(&self.edges, a.0);
                self.graph.and(alloc, left, edge_at(&self.edges, b.0))
            }
            Op::Or(a, b) => {
                let left = edge_at(&self.edges, a.0);
                self.graph.or(alloc, left, edge_at(&self.edges, b.0))
            }
        }
    }

    // Puts edges in the place of the nets that the latches read.
    fn set_next(&mut self) {
        for k in 0..self.states.len() {
            let next = edge_at(&self.edges, self.states[k].next.0);
            self.states[k].next = next;
        }
    }

    fn push_allowed(&mut self, allowed: &[Clause]) -> Result<(), NoMemory> {
        for clause in allowed {
            push_edges(&mut self.allowed, &self.edges, clause)?;
            self.ends.push(self.allowed.len())?;
        }
        Ok(())
    }

    /// The literals of one of the clauses that each instant meets.
    pub fn clause(&self, place: usize) -> &[LiteralId] {
        let start = if place == 0 {
            0
        } else {
            at(&self.ends, place.saturating_sub(1), 0)
        };
        let end = at(&self.ends, place, 0);
        if start <= end && end <= self.allowed.len() {
            &self.allowed[start..end]
        } else {
            &[]
        }
    }

    /// The edge of a latch.
    pub fn state_edge(&self, place: usize) -> LiteralId {
        let node = self.inputs.len().saturating_add(place).saturating_add(1);
        LiteralId::signed(small(node), true)
    }

    /// The latch of an edge. None where the edge is of another node.
    fn state_of(&self, edge: LiteralId) -> Option<State> {
        let place = self.state_place(edge)?;
        if place < self.states.len() {
            Some(self.states[place])
        } else {
            None
        }
    }

    fn state_place(&self, edge: LiteralId) -> Option<usize> {
        let first = self.inputs.len().saturating_add(1);
        if edge.variable() < first {
            None
        } else {
            Some(edge.variable().saturating_sub(first))
        }
    }

    /// What a literal of a latch is in the next instant, as an edge.
    pub fn next_edge(&self, literal: LiteralId) -> LiteralId {
        match self.state_of(literal) {
            Some(state) => signed_as(state.next, literal),
            None => TRUE,
        }
    }

    /// Reports whether a literal of a latch is true in the first instant.
    pub fn is_initial(&self, literal: LiteralId) -> bool {
        match self.state_of(literal) {
            Some(state) => state.init == literal.is_positive(),
            None => true,
        }
    }

    /// Reports whether all literals of a cube are true in the first instant.
    pub fn has_initial(&self, cube: &[LiteralId]) -> bool {
        for literal in cube {
            if !self.is_initial(*literal) {
                return false;
            }
        }
        true
    }

    /// The literal of a netlist for a literal of a latch.
    pub fn net_literal(&self, literal: LiteralId) -> Literal {
        let net = match self.state_of(literal) {
            Some(state) => state.net,
            None => 0,
        };
        Literal {
            variable: net,
            positive: literal.is_positive(),
        }
    }
}

/// An edge, negated where a literal is negative.
pub fn signed_as(edge: LiteralId, literal: LiteralId) -> LiteralId {
    if literal.is_positive() {
        edge
    } else {
        edge.opposite()
    }
}

fn edge_at(edges: &[LiteralId], net: u32) -> LiteralId {
    at(edges, net as usize, FALSE)
}

fn push_edges(
    list: &mut Vec<LiteralId>,
    edges: &[LiteralId],
    clause: &[Literal],
) -> Result<(), NoMemory> {
    for literal in clause {
        let edge = edge_at(edges, literal.variable);
        list.push(signed_as(edge, LiteralId::of(*literal)))?;
    }
    Ok(())
}

// The nets that a question depends on.
#[derive(Drop)]
struct Cone {
    // By net.
    reached: Vec<bool>,
    // The nets whose operands are not reached yet.
    pending: Vec<u32>,
}

impl Cone {
    fn new(alloc: Global, net: &Net) -> Result<Cone, NoMemory> {
        let first = net.inputs.len().saturating_add(net.latches.len());
        let count = first.saturating_add(net.gates.len());
        Ok(Cone {
            reached: vec![in alloc; false; count]?,
            pending: Vec::new(alloc),
        })
    }

    fn fill(&mut self, net: &Net, allowed: &[Clause], bad: Literal) -> Result<(), NoMemory> {
        self.reach(NetId(bad.variable))?;
        for clause in allowed {
            self.reach_clause(clause)?;
        }
        for _ in 0..u64::MAX {
            let Some(next) = self.pending.pop() else {
                break;
            };
            self.reach_operands(net, next as usize)?;
        }
        Ok(())
    }

    fn reach_clause(&mut self, clause: &[Literal]) -> Result<(), NoMemory> {
        for literal in clause {
            self.reach(NetId(literal.variable))?;
        }
        Ok(())
    }

    // Reaches a net, and notes that what it reads is reached as well.
    fn reach(&mut self, net: NetId) -> Result<(), NoMemory> {
        if !at(&self.reached, net.0 as usize, true) {
            put(&mut self.reached, net.0 as usize, true);
            self.pending.push(net.0)?;
        }
        Ok(())
    }

    fn reach_operands(&mut self, net: &Net, place: usize) -> Result<(), NoMemory> {
        let inputs = net.inputs.len();
        let first = inputs.saturating_add(net.latches.len());
        if place < inputs {
            return Ok(());
        }
        if place < first {
            return self.reach(source_of(&net.latches, place.saturating_sub(inputs)));
        }
        match op_of(&net.gates, place.saturating_sub(first)) {
            Op::Const(_) => Ok(()),
            Op::Copy(a) | Op::Not(a) => self.reach(a),
            Op::And(a, b) | Op::Or(a, b) => {
                self.reach(a)?;
                self.reach(b)
            }
        }
    }
}

fn source_of(latches: &[Latch], place: usize) -> NetId {
    if place < latches.len() {
        latches[place].from
    } else {
        NetId(0)
    }
}

fn op_of(gates: &[Gate], place: usize) -> Op {
    if place < gates.len() {
        gates[place].op
    } else {
        Op::Const(false)
    }
}
