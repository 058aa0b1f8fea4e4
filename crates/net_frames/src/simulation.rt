// Random simulation, in 64 runs at once.

use crate::graphs::AndNode;
use crate::systems::TransitionSystem;
use base_types::NoMemory;
use sat_trail::{LiteralId, at, put};
use std::alloc::Global;

/// The values of a transition system's nodes in 64 random runs, one bit for each. A run in which an instant does not
/// meet its clauses begins anew.
#[derive(Drop)]
pub struct Simulation {
    // By node.
    words: Vec<u64>,
    // By latch: the values of the next instant.
    next: Vec<u64>,
    seed: u64,
}

impl Simulation {
    /// Runs in their first instant.
    pub fn new(alloc: Global, system: &TransitionSystem) -> Result<Simulation, NoMemory> {
        let mut simulation = Simulation {
            words: vec![in alloc; u64::MAX; system.graph.len()]?,
            next: vec![in alloc; 0; system.states.len()]?,
            seed: 0x9e37_79b9_7f4a_7c15,
        };
        simulation.restart(system, u64::MAX);
        simulation.follow(system);
        Ok(simulation)
    }

    /// The values of an edge.
    pub fn word(&self, edge: LiteralId) -> u64 {
        let word = at(&self.words, edge.variable(), 0);
        if edge.is_positive() { word } else { !word }
    }

    /// Goes to the next instant. The larger `rare` is, the fewer inputs are true.
    pub fn advance(&mut self, system: &TransitionSystem, rare: u32) {
        self.set_inputs(system, rare);
        for place in 0..system.ends.len() {
            self.mend(system, system.clause(place));
        }
        for node in 0..system.graph.len() {
            if let AndNode::And(a, b) = system.graph.node(node) {
                let word = self.word(a) & self.word(b);
                put(&mut self.words, node, word);
            }
        }
        self.keep_next(system);
        let mut met = u64::MAX;
        for place in 0..system.ends.len() {
            met = met & self.any(system.clause(place));
        }
        self.restart(system, !met);
        self.follow(system);
    }

    fn random(&mut self) -> u64 {
        let mut word = self.seed;
        word = word ^ word.wrapping_mul(0x2000);
        word = word ^ (word >> 7);
        word = word ^ word.wrapping_mul(0x2_0000);
        self.seed = word;
        word
    }

    fn set_inputs(&mut self, system: &TransitionSystem, rare: u32) {
        for input in 0..system.inputs.len() {
            let mut word = self.random();
            for _ in 0..rare {
                word = word & self.random();
            }
            put(&mut self.words, input.saturating_add(1), word);
        }
    }

    // Makes a clause over inputs true in each run, by its last literal.
    fn mend(&mut self, system: &TransitionSystem, clause: &[LiteralId]) {
        let missing = !self.any(clause);
        for literal in clause {
            let node = literal.variable();
            if node == 0 || node > system.inputs.len() {
                return;
            }
        }
        let last = at(clause, clause.len().saturating_sub(1), LiteralId(0));
        let word = at(&self.words, last.variable(), 0);
        let mended = if last.is_positive() {
            word | missing
        } else {
            word & !missing
        };
        if last.variable() != 0 {
            put(&mut self.words, last.variable(), mended);
        }
    }

    // The runs in which a literal of a clause is true.
    fn any(&self, clause: &[LiteralId]) -> u64 {
        let mut word: u64 = 0;
        for literal in clause {
            word = word | self.word(*literal);
        }
        word
    }

    fn keep_next(&mut self, system: &TransitionSystem) {
        for place in 0..system.states.len() {
            let next = self.word(system.next_edge(system.state_edge(place)));
            put(&mut self.next, place, next);
        }
    }

    // Lets some runs begin anew.
    fn restart(&mut self, system: &TransitionSystem, runs: u64) {
        for place in 0..system.states.len() {
            let next = at(&self.next, place, 0);
            let init = system.is_initial(system.state_edge(place));
            put(
                &mut self.next,
                place,
                if init { next | runs } else { next & !runs },
            );
        }
    }

    fn follow(&mut self, system: &TransitionSystem) {
        for place in 0..system.states.len() {
            let node = system.state_edge(place).variable();
            put(&mut self.words, node, at(&self.next, place, 0));
        }
    }
}
