// Bounded model checking: the shortest trace.

use crate::graphs::{AndGraph, AndNode, FALSE, TRUE};
use crate::questions::{Questions, Reply};
use crate::systems::{State, TransitionSystem, signed_as};
use base_types::NoMemory;
use sat_kernel::Literal;
use sat_trail::{LiteralId, at, put};
use std::alloc::Global;

// The variables of the questions over an unrolling.
const VARIABLES: usize = 2_000_000;

/// The instants of a transition system from its first one, in one graph.
#[derive(Drop)]
pub struct Unrolling {
    alloc: Global,
    graph: AndGraph,
    questions: Questions,
    // The values of the latches in the next instant to be added.
    states: Vec<LiteralId>,
    // By instant: the inputs' values.
    inputs: Vec<LiteralId>,
    // By node of the system: its value in the last instant.
    edges: Vec<LiteralId>,
    clause: Vec<Literal>,
    // What should not be true in the last instant.
    bad: LiteralId,
    // The instants that were added, and those of them in which nothing bad can be.
    length: usize,
    clear: usize,
}

impl Unrolling {
    pub fn new(alloc: Global, system: &TransitionSystem) -> Result<Unrolling, NoMemory> {
        let nodes = system.graph.len().saturating_mul(200).max(200_000);
        Ok(Unrolling {
            alloc,
            states: initial_edges(alloc, &system.states)?,
            graph: AndGraph::new(alloc)?,
            questions: Questions::new(alloc, nodes.min(VARIABLES))?,
            inputs: Vec::new(alloc),
            edges: Vec::new(alloc),
            clause: Vec::new(alloc),
            bad: FALSE,
            length: 0,
            clear: 0,
        })
    }

    /// The number of instants in which nothing bad can be.
    pub fn clear(&self) -> usize {
        self.clear
    }

    /// Looks for a trace of the next length. Possible where there is one, Impossible where there is none, so that the
    /// next call looks for a longer one.
    pub fn look(&mut self, system: &TransitionSystem, effort: &mut u64) -> Result<Reply, NoMemory> {
        if self.graph.len() >= VARIABLES {
            return Ok(Reply::Unknown);
        }
        if self.length == self.clear {
            let before = self.graph.len();
            self.extend(system)?;
            let work = self.graph.len().saturating_sub(before);
            let work = work
                .saturating_mul(4)
                .saturating_add(system.graph.len())
                .saturating_add(20);
            *effort = effort.saturating_sub(work as u64);
        }
        if self.bad.0 == FALSE.0 {
            self.clear = self.clear.saturating_add(1);
            return Ok(Reply::Impossible);
        }
        let bad = self.questions.literal(&self.graph, self.bad)?;
        let reply = self.questions.ask(&[bad], effort)?;
        if reply.is_impossible() {
            self.questions.add(&[bad.opposite()])?;
            self.clear = self.clear.saturating_add(1);
        }
        Ok(reply)
    }

    // Adds an instant.
    fn extend(&mut self, system: &TransitionSystem) -> Result<(), NoMemory> {
        self.edges.clear();
        self.edges.push(TRUE)?;
        self.add_inputs(system)?;
        self.edges.extend_from_slice(&self.states)?;
        for place in self.edges.len()..system.graph.len() {
            let edge = self.copied(system.graph.node(place))?;
            self.edges.push(edge)?;
        }
        self.follow(system);
        self.bad = self.edge(system.bad);
        self.length = self.length.saturating_add(1);
        self.add_allowed(system)
    }

    fn add_inputs(&mut self, system: &TransitionSystem) -> Result<(), NoMemory> {
        for _ in 0..system.inputs.len() {
            let input = self.graph.free()?;
            self.edges.push(input)?;
            self.inputs.push(input)?;
        }
        Ok(())
    }

    // An edge of the system in the last instant.
    fn edge(&self, edge: LiteralId) -> LiteralId {
        signed_as(at(&self.edges, edge.variable(), FALSE), edge)
    }

    fn copied(&mut self, node: AndNode) -> Result<LiteralId, NoMemory> {
        match node {
            AndNode::True | AndNode::Free => self.graph.free(),
            AndNode::And(a, b) => {
                let left = self.edge(a);
                let right = self.edge(b);
                self.graph.and(self.alloc, left, right)
            }
        }
    }

    // Moves the latches to the next instant.
    fn follow(&mut self, system: &TransitionSystem) {
        for k in 0..self.states.len() {
            let next = self.edge(system.next_edge(system.state_edge(k)));
            self.states[k] = next;
        }
    }

    fn add_allowed(&mut self, system: &TransitionSystem) -> Result<(), NoMemory> {
        for place in 0..system.ends.len() {
            self.add_clause(system.clause(place))?;
        }
        Ok(())
    }

    fn add_clause(&mut self, clause: &[LiteralId]) -> Result<(), NoMemory> {
        self.clause.clear();
        for literal in clause {
            let edge = self.edge(*literal);
            let found = self.questions.literal(&self.graph, edge)?;
            self.clause.push(found)?;
        }
        self.questions.add(&self.clause)
    }

    /// The inputs' values of the last valuation, one list for each instant.
    pub fn trace(&self, system: &TransitionSystem) -> Result<Vec<Vec<bool>>, NoMemory> {
        let mut events = Vec::with_capacity(self.alloc, self.length)?;
        for instant in 0..self.length {
            events.push(self.event(system, instant)?)?;
        }
        Ok(events)
    }

    fn event(&self, system: &TransitionSystem, instant: usize) -> Result<Vec<bool>, NoMemory> {
        let first = instant.saturating_mul(system.inputs.len());
        let mut values = vec![in self.alloc; false; system.width]?;
        for k in 0..system.inputs.len() {
            let edge = at(&self.inputs, first.saturating_add(k), FALSE);
            let input = at(&system.inputs, k, u32::MAX) as usize;
            put(&mut values, input, self.questions.edge_value(edge));
        }
        Ok(values)
    }
}

// The latches' values in the first instant.
fn initial_edges(alloc: Global, states: &[State]) -> Result<Vec<LiteralId>, NoMemory> {
    let mut edges = Vec::with_capacity(alloc, states.len())?;
    for state in states {
        edges.push(if state.init { TRUE } else { FALSE })?;
    }
    Ok(edges)
}
