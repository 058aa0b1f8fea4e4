// The part of a state that matters.

use base_types::NoMemory;
use net_frames::{AndNode, Questions, TransitionSystem};
use sat_trail::{LiteralId, at, put};
use std::alloc::Global;

// The most that a value costs.
const MOST: u32 = 1_000_000;

/// Shrinks the state of a valuation to the literals from which, with the inputs' values, some edges get their values.
/// The values are traced back from these edges, where one false operand is enough for a false node. Ternary simulation
/// does the same in Eén, Mishchenko and Brayton, "Efficient Implementation of Property Directed Reachability".
#[derive(Drop)]
pub(crate) struct Lifting {
    // By node: its value, the number of latches that it takes to show it, and whether it is needed.
    values: Vec<bool>,
    costs: Vec<u32>,
    needed: Vec<bool>,
}

impl Lifting {
    pub fn new(alloc: Global, system: &TransitionSystem) -> Result<Lifting, NoMemory> {
        let count = system.graph.len();
        Ok(Lifting {
            values: vec![in alloc; false; count]?,
            costs: vec![in alloc; 0; count]?,
            needed: vec![in alloc; false; count]?,
        })
    }

    /// Writes the literals of the state that give these edges, which are true, their values. The clauses that each
    /// instant meets stay true as well.
    pub fn lift(
        &mut self,
        system: &TransitionSystem,
        questions: &Questions,
        targets: &[LiteralId],
        cube: &mut Vec<LiteralId>,
    ) -> Result<(), NoMemory> {
        self.read(system, questions);
        for target in targets {
            put(&mut self.needed, target.variable(), true);
        }
        for place in 0..system.ends.len() {
            let cheapest = self.cheapest(system.clause(place));
            put(&mut self.needed, cheapest.variable(), true);
        }
        for node in (0..system.graph.len()).rev() {
            if at(&self.needed, node, false) {
                let value = at(&self.values, node, false);
                self.trace(system.graph.node(node), value);
            }
        }
        self.collect(system, cube)
    }

    // Reads the values, and computes what each costs.
    fn read(&mut self, system: &TransitionSystem, questions: &Questions) {
        for node in 0..system.graph.len() {
            let value = match questions.value(node) {
                Some(value) => value,
                None => false,
            };
            put(&mut self.values, node, value);
            put(&mut self.needed, node, false);
            let cost = match system.graph.node(node) {
                AndNode::True => 0,
                AndNode::Free => { if node <= system.inputs.len() { 0 } else { 1 } }
                AndNode::And(a, b) => self.cost_of(value, a, b),
            };
            put(&mut self.costs, node, cost);
        }
    }

    fn cost_of(&self, value: bool, a: LiteralId, b: LiteralId) -> u32 {
        let left = at(&self.costs, a.variable(), 0);
        let right = at(&self.costs, b.variable(), 0);
        if value {
            left.saturating_add(right).min(MOST)
        } else if self.is_true(a) {
            right
        } else if self.is_true(b) {
            left
        } else {
            left.min(right)
        }
    }

    fn is_true(&self, edge: LiteralId) -> bool {
        at(&self.values, edge.variable(), false) == edge.is_positive()
    }

    // A true literal of a clause that costs least.
    fn cheapest(&self, clause: &[LiteralId]) -> LiteralId {
        let mut best = LiteralId(0);
        let mut least = u32::MAX;
        for literal in clause {
            let cost = at(&self.costs, literal.variable(), 0);
            if self.is_true(*literal) && cost < least {
                least = cost;
                best = *literal;
            }
        }
        best
    }

    // Marks what a needed node's value comes from.
    fn trace(&mut self, node: AndNode, value: bool) {
        let AndNode::And(a, b) = node else {
            return;
        };
        if value || !self.is_true(a) && self.prefers(a, b) {
            put(&mut self.needed, a.variable(), true);
        }
        if value || self.is_true(a) || !self.prefers(a, b) {
            put(&mut self.needed, b.variable(), true);
        }
    }

    // Reports whether the first of two edges should show that a node is false, where it is false itself.
    fn prefers(&self, a: LiteralId, b: LiteralId) -> bool {
        if self.is_true(b) || at(&self.needed, a.variable(), false) {
            return true;
        }
        if at(&self.needed, b.variable(), false) {
            return false;
        }
        at(&self.costs, a.variable(), 0) <= at(&self.costs, b.variable(), 0)
    }

    fn collect(
        &self,
        system: &TransitionSystem,
        cube: &mut Vec<LiteralId>,
    ) -> Result<(), NoMemory> {
        cube.clear();
        for place in 0..system.states.len() {
            let edge = system.state_edge(place);
            if at(&self.needed, edge.variable(), false) {
                cube.push(if self.is_true(edge) {
                    edge
                } else {
                    edge.opposite()
                })?;
            }
        }
        Ok(())
    }
}
