// What a simplification leaves, and how a valuation is completed.

use crate::simplifier::Simplifier;
use base_types::NoMemory;
use sat_kernel::{Clause, Literal, Premise};
use sat_trail::{LiteralId, at, put, small};
use std::alloc::Global;
use std::mem;

/// A clause that the kernel holds under a premise.
#[derive(Drop)]
pub struct Known {
    pub clause: Clause,
    pub premise: Premise,
}

/// Fewer and shorter clauses, with what is needed to find values of the variables that are gone.
#[derive(Drop)]
pub struct Simplified {
    pub clauses: Vec<Known>,
    /// The number of derivations that the kernel refused. Above 0 the simplification has a fault.
    pub refusals: u64,
    removed: Removed,
}

/// Clauses of variables that were eliminated, the last eliminated variable last. Each begins with a literal of its
/// variable.
#[derive(Drop)]
pub(crate) struct Removed {
    literals: Vec<LiteralId>,
    // The length of the list after each clause.
    ends: Vec<usize>,
}

impl Removed {
    pub fn new(alloc: Global) -> Removed {
        Removed {
            literals: Vec::new(alloc),
            ends: Vec::new(alloc),
        }
    }

    /// Adds a clause, whose literal `first` comes first.
    pub fn put(&mut self, first: LiteralId, clause: &[LiteralId]) -> Result<(), NoMemory> {
        self.literals.push(first)?;
        for literal in clause {
            if literal.0 != first.0 {
                self.literals.push(*literal)?;
            }
        }
        self.ends.push(self.literals.len())?;
        Ok(())
    }

    // The clause at a place.
    fn clause(&self, place: usize) -> &[LiteralId] {
        let start = if place == 0 {
            0
        } else {
            at(&self.ends, place.saturating_sub(1), 0)
        };
        let end = at(&self.ends, place, 0);
        if start <= end && end <= self.literals.len() {
            &self.literals[start..end]
        } else {
            &[]
        }
    }
}

impl Simplified {
    /// A valuation of all clauses, from one of the clauses that are left. Variables past the end of the list are false.
    pub fn completed(&self, values: Vec<bool>) -> Result<Vec<bool>, NoMemory> {
        let mut values = values;
        for _ in values.len()..self.end() {
            values.push(false)?;
        }
        for place in (0..self.removed.ends.len()).rev() {
            meet(&mut values, self.removed.clause(place));
        }
        Ok(values)
    }

    // The number past the greatest variable that is gone.
    fn end(&self) -> usize {
        let mut end: usize = 0;
        for literal in &self.removed.literals {
            end = end.max(literal.variable().saturating_add(1));
        }
        end
    }
}

impl Simplifier {
    /// What is left.
    pub fn finish(&mut self) -> Result<Simplified, NoMemory> {
        let mut clauses = Vec::new(self.alloc);
        for place in 0..self.parts.len() {
            let number = small(place);
            let part = self.parts.part(number);
            if part.is_live {
                let known = known_of(self.alloc, self.parts.literals(number), part.premise)?;
                clauses.push(known)?;
            }
        }
        let removed = mem::replace(&mut self.removed, Removed::new(self.alloc));
        Ok(Simplified {
            clauses,
            refusals: self.refusals,
            removed,
        })
    }
}

fn known_of(alloc: Global, literals: &[LiteralId], premise: Premise) -> Result<Known, NoMemory> {
    let mut clause = Vec::with_capacity(alloc, literals.len())?;
    for literal in literals {
        clause.push(literal.literal())?;
    }
    Ok(Known { clause, premise })
}

/// The clauses as they are.
pub(crate) fn unchanged(alloc: Global, clauses: &[Clause]) -> Result<Simplified, NoMemory> {
    let mut all = Vec::with_capacity(alloc, clauses.len())?;
    for place in 0..clauses.len() {
        all.push(assumed(alloc, &clauses[place], place)?)?;
    }
    Ok(Simplified {
        clauses: all,
        refusals: 0,
        removed: Removed::new(alloc),
    })
}

fn assumed(alloc: Global, literals: &[Literal], place: usize) -> Result<Known, NoMemory> {
    let mut clause = Vec::with_capacity(alloc, literals.len())?;
    clause.extend_from_slice(literals)?;
    let premise = Premise::Assumed(place);
    Ok(Known { clause, premise })
}

// Makes the first literal of a clause true where no other one is.
fn meet(values: &mut [bool], clause: &[LiteralId]) {
    for k in 1..clause.len() {
        if is_true(values, clause[k]) {
            return;
        }
    }
    if clause.len() > 0 {
        put(values, clause[0].variable(), clause[0].is_positive());
    }
}

fn is_true(values: &[bool], literal: LiteralId) -> bool {
    at(values, literal.variable(), false) == literal.is_positive()
}
