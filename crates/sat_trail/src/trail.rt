// The trail: the literals that are true, in order, and the reason of each.

use crate::literals::{LiteralId, at, put, small};
use base_types::NoMemory;
use std::alloc::Global;

/// The value of a literal.
#[derive(Clone, Copy)]
pub enum Truth {
    Open,
    True,
    False,
}

/// Why a literal is true: it was decided, or all other literals of a clause are false.
#[derive(Clone, Copy)]
pub enum Reason {
    Decision,
    Clause(u32),
}

#[derive(Clone, Copy)]
struct Spot {
    level: u32,
    reason: Reason,
}

/// The literals that are true, in the order in which they became so. A decision begins a new level. Literals of level 0
/// are true under the clauses alone.
#[derive(Drop)]
pub struct Trail {
    // By literal.
    truths: Vec<Truth>,
    // By variable.
    spots: Vec<Spot>,
    literals: Vec<LiteralId>,
    // By level above 0: the length of the trail where it began.
    starts: Vec<usize>,
    // The literals before this place have been propagated.
    next: usize,
}

impl Trail {
    pub fn new(alloc: Global) -> Trail {
        Trail {
            truths: Vec::new(alloc),
            spots: Vec::new(alloc),
            literals: Vec::new(alloc),
            starts: Vec::new(alloc),
            next: 0,
        }
    }

    /// Adds a variable.
    pub fn grow(&mut self) -> Result<(), NoMemory> {
        self.truths.push(Truth::Open)?;
        self.truths.push(Truth::Open)?;
        self.spots.push(Spot {
            level: 0,
            reason: Reason::Decision,
        })?;
        Ok(())
    }

    #[inline(always)]
    pub fn variables(&self) -> usize {
        self.spots.len()
    }

    #[inline(always)]
    pub fn truth(&self, literal: LiteralId) -> Truth {
        at(&self.truths, literal.place(), Truth::Open)
    }

    #[inline(always)]
    pub fn is_true(&self, literal: LiteralId) -> bool {
        match self.truth(literal) {
            Truth::True => true,
            Truth::Open | Truth::False => false,
        }
    }

    #[inline(always)]
    pub fn is_false(&self, literal: LiteralId) -> bool {
        match self.truth(literal) {
            Truth::False => true,
            Truth::Open | Truth::True => false,
        }
    }

    #[inline(always)]
    pub fn is_open(&self, literal: LiteralId) -> bool {
        match self.truth(literal) {
            Truth::Open => true,
            Truth::True | Truth::False => false,
        }
    }

    fn spot(&self, variable: usize) -> Spot {
        let none = Spot {
            level: 0,
            reason: Reason::Decision,
        };
        at(&self.spots, variable, none)
    }

    /// The level at which a variable was assigned.
    #[inline(always)]
    pub fn level_of(&self, variable: usize) -> usize {
        self.spot(variable).level as usize
    }

    #[inline(always)]
    pub fn reason_of(&self, variable: usize) -> Reason {
        self.spot(variable).reason
    }

    /// The number of decisions.
    pub fn level(&self) -> usize {
        self.starts.len()
    }

    pub fn len(&self) -> usize {
        self.literals.len()
    }

    /// The literal at a place.
    #[inline(always)]
    pub fn literal(&self, place: usize) -> LiteralId {
        at(&self.literals, place, LiteralId(u32::MAX))
    }

    /// Makes a literal true at the current level.
    pub fn assign(&mut self, literal: LiteralId, reason: Reason) -> Result<(), NoMemory> {
        self.literals.push(literal)?;
        put(&mut self.truths, literal.place(), Truth::True);
        put(&mut self.truths, literal.opposite().place(), Truth::False);
        let level = small(self.starts.len());
        put(&mut self.spots, literal.variable(), Spot { level, reason });
        Ok(())
    }

    /// Begins a level.
    pub fn open_level(&mut self) -> Result<(), NoMemory> {
        self.starts.push(self.literals.len())?;
        Ok(())
    }

    /// The next literal to propagate.
    pub fn take_next(&mut self) -> Option<LiteralId> {
        if self.next >= self.literals.len() {
            return None;
        }
        let literal = self.literals[self.next];
        self.next = self.next.saturating_add(1);
        Some(literal)
    }

    /// The length of the trail at the end of a level.
    pub fn end_of(&self, level: usize) -> usize {
        at(&self.starts, level, self.literals.len())
    }

    /// Takes back the last assignment.
    pub fn pop(&mut self) -> Option<LiteralId> {
        let literal = self.literals.pop()?;
        put(&mut self.truths, literal.place(), Truth::Open);
        put(&mut self.truths, literal.opposite().place(), Truth::Open);
        Some(literal)
    }

    /// Closes the levels above this one, whose literals have been popped.
    pub fn close_levels(&mut self, level: usize) {
        self.starts.truncate(level);
        self.next = self.next.min(self.literals.len());
    }
}
