// The state of a search.

use crate::analysis::Analysis;
use crate::evidence::Evidence;
use crate::restarts::Restarts;
use base_types::NoMemory;
use sat_kernel::{Literal, Premise};
use sat_trail::{LiteralId, Order, Store, Trail, at, propagate, put, small};
use std::alloc::Global;

// The learned clauses before the first reduction. Each later interval is longer by REDUCE_MORE.
const REDUCE: u64 = 2_000;

const REDUCE_MORE: u64 = 300;

/// A search for valuations of clauses. Clauses may be added between two questions.
#[derive(Drop)]
pub struct Search {
    pub(crate) alloc: Global,
    pub(crate) trail: Trail,
    pub(crate) order: Order,
    pub(crate) store: Store,
    pub(crate) analysis: Analysis,
    pub(crate) evidence: Evidence,
    pub(crate) restarts: Restarts,
    // By variable: its last sign.
    pub(crate) signs: Vec<bool>,
    seed: u64,
    // By variable: the premise of the unit clause of its literal of level 0.
    pub(crate) units: Vec<Option<Premise>>,
    // By literal: the last clause added that has it.
    pub(crate) stamps: Vec<u64>,
    pub(crate) stamp: u64,
    // The literals before this place of the trail have unit clauses.
    pub(crate) fixed: usize,
    // A clause of which all literals are false at level 0.
    pub(crate) broken: Option<u32>,
    // Whether a variable is too large, or running out of memory left something half done.
    pub(crate) unsure: bool,
    pub(crate) effort: u64,
    pub(crate) conflicts: u64,
    pub(crate) refusals: u64,
    pub(crate) reduce_at: u64,
    pub(crate) reduce_step: u64,
    // Places of forgotten clauses in the kernel.
    pub(crate) vacant: Vec<usize>,
    // The assumptions of the last question. Between two questions their levels stay open, so that the next question
    // need not propagate those that it shares.
    pub(crate) assumptions: Vec<Literal>,
}

impl Search {
    /// A search with no clauses.
    pub fn new(alloc: Global) -> Search {
        Search {
            alloc,
            trail: Trail::new(alloc),
            order: Order::new(alloc),
            store: Store::new(alloc),
            analysis: Analysis::new(alloc),
            evidence: Evidence::new(alloc),
            restarts: Restarts::new(),
            signs: Vec::new(alloc),
            seed: 0x2545_f491_4f6c_dd1d,
            units: Vec::new(alloc),
            stamps: Vec::new(alloc),
            stamp: 0,
            fixed: 0,
            broken: None,
            unsure: false,
            effort: 0,
            conflicts: 0,
            refusals: 0,
            reduce_at: REDUCE,
            reduce_step: REDUCE,
            vacant: Vec::new(alloc),
            assumptions: Vec::new(alloc),
        }
    }

    /// The number of conflicts so far.
    pub fn conflicts(&self) -> u64 {
        self.conflicts
    }

    /// The number of derivations that the kernel refused. Above 0 the search has a fault, or a clause was added under a
    /// wrong premise.
    pub fn refusals(&self) -> u64 {
        self.refusals
    }

    /// The effort that the last question left.
    pub fn effort_left(&self) -> u64 {
        self.effort
    }

    /// Gives each variable a random sign, the one that is decided first. After an answer `Satisfiable` the next
    /// valuation then differs in more than it must.
    pub fn scatter_signs(&mut self) {
        for variable in 0..self.signs.len() {
            self.seed = next_word(self.seed);
            put(&mut self.signs, variable, self.seed >> 63 == 1);
        }
    }

    // Adds a variable.
    pub(crate) fn grow(&mut self) -> Result<(), NoMemory> {
        let alloc = self.alloc;
        self.trail.grow()?;
        self.store.grow(alloc)?;
        self.analysis.grow()?;
        self.evidence.grow()?;
        self.signs.push(false)?;
        self.units.push(None)?;
        self.stamps.push(0)?;
        self.stamps.push(0)?;
        self.order.grow()
    }

    // Assigns all literals that are forced, until all literals of a clause are false: it returns that clause's number.
    pub(crate) fn propagate(&mut self) -> Result<Option<u32>, NoMemory> {
        let alloc = self.alloc;
        propagate(alloc, &mut self.trail, &mut self.store, &mut self.effort)
    }

    // Takes back the levels above this one.
    pub(crate) fn backtrack(&mut self, level: usize) -> Result<(), NoMemory> {
        if level >= self.trail.level() {
            return Ok(());
        }
        for _ in self.trail.end_of(level)..self.trail.len() {
            if let Some(literal) = self.trail.pop() {
                put(&mut self.signs, literal.variable(), literal.is_positive());
                self.order.insert(literal.variable())?;
            }
        }
        self.trail.close_levels(level);
        Ok(())
    }

    // Reports whether clauses should be forgotten, and sets the next time.
    pub(crate) fn is_reduction_due(&mut self) -> bool {
        if self.conflicts < self.reduce_at {
            return false;
        }
        self.reduce_step = self.reduce_step.saturating_add(REDUCE_MORE);
        self.reduce_at = self.conflicts.saturating_add(self.reduce_step);
        true
    }

    // The valuation of the trail. Open variables, which are in no clause, have their signs.
    pub(crate) fn valuation(&self) -> Result<Vec<bool>, NoMemory> {
        let mut values = Vec::with_capacity(self.alloc, self.trail.variables())?;
        for variable in 0..self.trail.variables() {
            values.push(self.value_of(variable))?;
        }
        Ok(values)
    }

    fn value_of(&self, variable: usize) -> bool {
        let literal = LiteralId::signed(small(variable), true);
        if self.trail.is_open(literal) {
            at(&self.signs, variable, false)
        } else {
            self.trail.is_true(literal)
        }
    }
}

// The next of a row of random words (Marsaglia, "Xorshift RNGs", 2003).
fn next_word(seed: u64) -> u64 {
    let mut word = seed;
    word ^= word << 13;
    word ^= word >> 7;
    word ^= word << 17;
    word
}
