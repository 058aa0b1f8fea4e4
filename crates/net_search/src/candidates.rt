// Candidates of invariants: cubes of one or two literals that random runs never meet.

use base_types::NoMemory;
use net_frames::{Questions, Reply, Simulation, TransitionSystem};
use sat_kernel::Literal;
use sat_trail::{LiteralId, at, put};
use std::alloc::Global;

// The instants that are sampled.
const SAMPLES: usize = 256;

// The most candidates that are tried.
const MOST: usize = 20_000;

// The variables beside those of nodes.
const SPARE: usize = 8;

/// A cube of two literals. One of a single literal has it twice.
#[derive(Clone, Copy)]
pub(crate) struct Pair {
    pub first: LiteralId,
    pub second: LiteralId,
    is_kept: bool,
}

/// Pairs of literals of latches that random runs never meet at once. Those are kept that no state which meets none of
/// them leads to (van Eijk, "Sequential Equivalence Checking Based on Structural Similarities", keeps equal nets this
/// way).
#[derive(Drop)]
pub(crate) struct Candidates {
    alloc: Global,
    // By latch: its values in all samples.
    samples: Vec<u64>,
    pub pairs: Vec<Pair>,
    clause: Vec<Literal>,
}

impl Candidates {
    pub fn new(alloc: Global) -> Candidates {
        Candidates {
            alloc,
            samples: Vec::new(alloc),
            pairs: Vec::new(alloc),
            clause: Vec::new(alloc),
        }
    }

    /// Finds the pairs that lead to each other alone. Where the effort is used up, there are none.
    pub fn find(&mut self, system: &TransitionSystem, effort: &mut u64) -> Result<(), NoMemory> {
        self.sample(system)?;
        self.collect(system)?;
        for _ in 0..u64::MAX {
            match self.filter(system, effort)? {
                Reply::Impossible => return Ok(()),
                Reply::Unknown => {
                    self.pairs.clear();
                    return Ok(());
                }
                Reply::Possible => self.drop_refuted(),
            }
        }
        Ok(())
    }

    fn sample(&mut self, system: &TransitionSystem) -> Result<(), NoMemory> {
        let count = system.states.len().saturating_mul(SAMPLES);
        self.samples = vec![in self.alloc; 0; count]?;
        let mut simulation = Simulation::new(self.alloc, system)?;
        for sample in 0..SAMPLES {
            self.take(system, &simulation, sample);
            simulation.advance(system, rarity(sample));
        }
        Ok(())
    }

    fn take(&mut self, system: &TransitionSystem, simulation: &Simulation, sample: usize) {
        for place in 0..system.states.len() {
            let word = simulation.word(system.state_edge(place));
            let index = place.saturating_mul(SAMPLES).saturating_add(sample);
            put(&mut self.samples, index, word);
        }
    }

    // Notes the pairs that no sample has.
    fn collect(&mut self, system: &TransitionSystem) -> Result<(), NoMemory> {
        self.pairs.clear();
        for place in 0..system.states.len() {
            for other in 0..place.saturating_add(1) {
                self.collect_signs(system, other, place)?;
            }
            if self.pairs.len() > MOST {
                return Ok(());
            }
        }
        Ok(())
    }

    // The pairs of two latches. Of a latch with itself, its two literals.
    fn collect_signs(
        &mut self,
        system: &TransitionSystem,
        left: usize,
        right: usize,
    ) -> Result<(), NoMemory> {
        for signs in 0..4u32 {
            let first = signed(system.state_edge(left), signs % 2 == 0);
            let second = signed(system.state_edge(right), signs < 2);
            let is_needless = left == right && first.0 != second.0;
            if !is_needless && !self.is_met(left, right, signs) {
                self.pairs.push(Pair {
                    first,
                    second,
                    is_kept: true,
                })?;
            }
        }
        Ok(())
    }

    // Reports whether a sample has two literals. A constant latch is in no pair but its own.
    fn is_met(&self, left: usize, right: usize, signs: u32) -> bool {
        let flip_left = if signs % 2 == 0 { 0 } else { u64::MAX };
        let flip_right = if signs < 2 { 0 } else { u64::MAX };
        let first = self.row(left);
        let second = self.row(right);
        if left != right && (is_constant(first) || is_constant(second)) {
            return true;
        }
        for k in 0..SAMPLES {
            let one = at(first, k, 0) ^ flip_left;
            let other = at(second, k, 0) ^ flip_right;
            if one & other != 0 {
                return true;
            }
        }
        false
    }

    // The samples of a latch.
    fn row(&self, place: usize) -> &[u64] {
        let start = place.saturating_mul(SAMPLES);
        let end = start.saturating_add(SAMPLES);
        if start <= end && end <= self.samples.len() {
            &self.samples[start..end]
        } else {
            &[]
        }
    }

    // Asks of each pair whether a state that meets none of them leads to it, and marks those to which one does.
    fn filter(&mut self, system: &TransitionSystem, effort: &mut u64) -> Result<Reply, NoMemory> {
        let limit = system.graph.len().saturating_add(SPARE);
        let mut questions = Questions::new(self.alloc, limit)?;
        self.begin(system, &mut questions)?;
        self.ask_all(system, &mut questions, effort)
    }

    fn begin(
        &mut self,
        system: &TransitionSystem,
        questions: &mut Questions,
    ) -> Result<(), NoMemory> {
        add_allowed(system, questions, &mut self.clause)?;
        for k in 0..self.pairs.len() {
            let pair = self.pair(k);
            let first = questions.literal(&system.graph, pair.first)?;
            let second = questions.literal(&system.graph, pair.second)?;
            questions.add(&[first.opposite(), second.opposite()])?;
            questions.literal(&system.graph, system.next_edge(pair.first))?;
            questions.literal(&system.graph, system.next_edge(pair.second))?;
        }
        Ok(())
    }

    fn pair(&self, place: usize) -> Pair {
        let none = Pair {
            first: LiteralId(0),
            second: LiteralId(0),
            is_kept: false,
        };
        at(&self.pairs, place, none)
    }

    fn ask_all(
        &mut self,
        system: &TransitionSystem,
        questions: &mut Questions,
        effort: &mut u64,
    ) -> Result<Reply, NoMemory> {
        let mut reply = Reply::Impossible;
        for k in 0..self.pairs.len() {
            let pair = self.pair(k);
            if pair.is_kept {
                let first = questions.literal(&system.graph, system.next_edge(pair.first))?;
                let second = questions.literal(&system.graph, system.next_edge(pair.second))?;
                match questions.ask(&[first, second], effort)? {
                    Reply::Impossible => {}
                    Reply::Unknown => return Ok(Reply::Unknown),
                    Reply::Possible => {
                        self.refute(k);
                        self.refute_met(system, questions);
                        reply = Reply::Possible;
                    }
                }
            }
        }
        Ok(reply)
    }

    fn refute(&mut self, place: usize) {
        let mut pair = self.pair(place);
        pair.is_kept = false;
        put(&mut self.pairs, place, pair);
    }

    // Marks the pairs to which the last valuation leads.
    fn refute_met(&mut self, system: &TransitionSystem, questions: &Questions) {
        for k in 0..self.pairs.len() {
            let pair = self.pair(k);
            if questions.edge_value(system.next_edge(pair.first))
                && questions.edge_value(system.next_edge(pair.second))
            {
                self.refute(k);
            }
        }
    }

    fn drop_refuted(&mut self) {
        let mut kept: usize = 0;
        for k in 0..self.pairs.len() {
            let pair = self.pair(k);
            if pair.is_kept {
                put(&mut self.pairs, kept, pair);
                kept = kept.saturating_add(1);
            }
        }
        self.pairs.truncate(kept);
    }
}

// How rare true inputs are in an instant.
fn rarity(sample: usize) -> u32 {
    if sample % 64 < 16 {
        0
    } else if sample % 64 < 40 {
        1
    } else {
        2
    }
}

fn signed(edge: LiteralId, positive: bool) -> LiteralId {
    if positive { edge } else { edge.opposite() }
}

// Reports whether a latch has one value in all samples.
fn is_constant(row: &[u64]) -> bool {
    let first = at(row, 0, 0);
    if first != 0 && first != u64::MAX {
        return false;
    }
    for word in row {
        if *word != first {
            return false;
        }
    }
    true
}

/// Adds the clauses that each instant meets.
pub(crate) fn add_allowed(
    system: &TransitionSystem,
    questions: &mut Questions,
    clause: &mut Vec<Literal>,
) -> Result<(), NoMemory> {
    for place in 0..system.ends.len() {
        clause.clear();
        for edge in system.clause(place) {
            let literal = questions.literal(&system.graph, *edge)?;
            clause.push(literal)?;
        }
        questions.add(clause)?;
    }
    Ok(())
}
