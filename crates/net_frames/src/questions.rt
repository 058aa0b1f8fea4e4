// Questions about the edges of a graph.

use crate::graphs::{AndGraph, AndNode};
use base_types::NoMemory;
use sat_kernel::{Clause, Kernel, Literal, Premise};
use sat_search::{Refutation, Search, SearchOutcome};
use sat_trail::{LiteralId, at, put, small};
use std::alloc::Global;

// The variable of a node that has none.
const NONE: u32 = u32::MAX;

/// What is known of a question.
#[derive(Clone, Copy)]
pub enum Reply {
    /// `value` and `edge_value` have a valuation.
    Possible,
    /// `is_core` has assumptions that contradict each other.
    Impossible,
    /// The effort was used up.
    Unknown,
}

impl Reply {
    pub fn is_impossible(self) -> bool {
        match self {
            Reply::Impossible => true,
            Reply::Possible | Reply::Unknown => false,
        }
    }
}

/// A search over the clauses of those nodes of a graph that were asked about, and what they depend on. Each answer is
/// only a hint: what is found is checked when all is done.
#[derive(Drop)]
pub struct Questions {
    alloc: Global,
    kernel: Kernel,
    search: Search,
    clauses: usize,
    // By node: its variable.
    variables: Vec<u32>,
    // The nodes whose clauses were not added yet.
    pending: Vec<u32>,
    next: u32,
    limit: u32,
    values: Vec<bool>,
    // A clause of negated assumptions.
    core: Clause,
    // By literal: the last question that assumed it.
    stamps: Vec<u64>,
    stamp: u64,
}

impl Questions {
    /// Questions over at most this many variables.
    pub fn new(alloc: Global, limit: usize) -> Result<Questions, NoMemory> {
        Ok(Questions {
            alloc,
            kernel: Kernel::new(alloc, limit, Vec::new(alloc))?,
            search: Search::new(alloc),
            clauses: 0,
            variables: Vec::new(alloc),
            pending: Vec::new(alloc),
            next: 0,
            limit: small(limit),
            values: Vec::new(alloc),
            core: Vec::new(alloc),
            stamps: Vec::new(alloc),
            stamp: 0,
        })
    }

    /// Reports whether there are no variables left. Then answers mean nothing.
    pub fn is_full(&self) -> bool {
        self.next >= self.limit
    }

    /// A new variable.
    pub fn fresh(&mut self) -> Literal {
        let variable = self.next;
        if self.next < self.limit {
            self.next = self.next.saturating_add(1);
        }
        Literal {
            variable,
            positive: true,
        }
    }

    /// Adds a clause.
    pub fn add(&mut self, literals: &[Literal]) -> Result<(), NoMemory> {
        let mut clause = Vec::with_capacity(self.alloc, literals.len())?;
        clause.extend_from_slice(literals)?;
        let premise = Premise::Assumed(self.clauses);
        self.kernel.assume(clause)?;
        self.clauses = self.clauses.saturating_add(1);
        self.search.add(literals, premise)
    }

    /// The literal of an edge, whose clauses are added with those of all that it depends on.
    pub fn literal(&mut self, graph: &AndGraph, edge: LiteralId) -> Result<Literal, NoMemory> {
        let literal = self.place(edge)?;
        for _ in 0..u64::MAX {
            let Some(node) = self.pending.pop() else {
                break;
            };
            self.encode(graph, node)?;
        }
        Ok(literal)
    }

    // The literal of an edge, whose clauses are added later.
    fn place(&mut self, edge: LiteralId) -> Result<Literal, NoMemory> {
        let node = edge.variable();
        let mut variable = at(&self.variables, node, NONE);
        if variable == NONE {
            for _ in self.variables.len()..node.saturating_add(1) {
                self.variables.push(NONE)?;
            }
            variable = self.fresh().variable;
            put(&mut self.variables, node, variable);
            self.pending.push(small(node))?;
        }
        Ok(Literal {
            variable,
            positive: edge.is_positive(),
        })
    }

    // Adds the clauses of a node.
    fn encode(&mut self, graph: &AndGraph, node: u32) -> Result<(), NoMemory> {
        let literal = self.place(LiteralId::signed(node, true))?;
        match graph.node(node as usize) {
            AndNode::True => self.add(&[literal]),
            AndNode::Free => Ok(()),
            AndNode::And(a, b) => {
                let left = self.place(a)?;
                let right = self.place(b)?;
                self.add_and(literal, left, right)
            }
        }
    }

    fn add_and(&mut self, out: Literal, left: Literal, right: Literal) -> Result<(), NoMemory> {
        self.add(&[out.opposite(), left])?;
        self.add(&[out.opposite(), right])?;
        self.add(&[out, left.opposite(), right.opposite()])
    }

    /// Asks whether all assumptions can be met. What it takes is subtracted from the effort.
    pub fn ask(&mut self, assumptions: &[Literal], effort: &mut u64) -> Result<Reply, NoMemory> {
        if *effort == 0 || self.is_full() {
            return Ok(Reply::Unknown);
        }
        if let Some(literal) = self.contradiction(assumptions)? {
            return self.note_contradiction(literal);
        }
        let outcome = self.search.solve(&mut self.kernel, assumptions, *effort)?;
        let left = self.search.effort_left().min(*effort);
        *effort = left.saturating_sub(1);
        self.note(outcome)
    }

    // A literal that is assumed together with its negation.
    fn contradiction(&mut self, assumptions: &[Literal]) -> Result<Option<Literal>, NoMemory> {
        self.stamp = self.stamp.saturating_add(1);
        for _ in self.stamps.len()..(self.next as usize).saturating_mul(2) {
            self.stamps.push(0)?;
        }
        for literal in assumptions {
            let number = LiteralId::of(*literal);
            if at(&self.stamps, number.opposite().place(), 0) == self.stamp {
                return Ok(Some(*literal));
            }
            put(&mut self.stamps, number.place(), self.stamp);
        }
        Ok(None)
    }

    fn note(&mut self, outcome: SearchOutcome) -> Result<Reply, NoMemory> {
        match outcome {
            SearchOutcome::Satisfiable(values) => {
                self.values = values;
                Ok(Reply::Possible)
            }
            SearchOutcome::Unsatisfiable(refutation) => self.note_core(refutation),
            SearchOutcome::Contradicting(literal) => self.note_contradiction(literal),
            SearchOutcome::Unknown => Ok(Reply::Unknown),
        }
    }

    fn note_core(&mut self, refutation: Refutation) -> Result<Reply, NoMemory> {
        self.core.clear();
        self.core.extend_from_slice(&refutation.clause)?;
        self.search.release(&mut self.kernel, refutation)?;
        Ok(Reply::Impossible)
    }

    fn note_contradiction(&mut self, literal: Literal) -> Result<Reply, NoMemory> {
        self.core.clear();
        self.core.push(literal)?;
        self.core.push(literal.opposite())?;
        Ok(Reply::Impossible)
    }

    /// Reports whether the last refutation used an assumption.
    pub fn is_core(&self, assumption: Literal) -> bool {
        for literal in &self.core {
            if literal.variable == assumption.variable && literal.positive != assumption.positive {
                return true;
            }
        }
        false
    }

    /// The value of a node in the last valuation. None where no question depended on it.
    pub fn value(&self, node: usize) -> Option<bool> {
        let variable = at(&self.variables, node, NONE) as usize;
        if variable < self.values.len() {
            Some(self.values[variable])
        } else {
            None
        }
    }

    /// The value of an edge in the last valuation. Nodes that no question depends on are false.
    pub fn edge_value(&self, edge: LiteralId) -> bool {
        let value = match self.value(edge.variable()) {
            Some(value) => value,
            None => false,
        };
        value == edge.is_positive()
    }
}
