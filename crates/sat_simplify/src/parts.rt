// The clauses, and which of them have a literal.

use base_types::NoMemory;
use sat_kernel::Premise;
use sat_trail::{LiteralId, at, put, small};
use std::alloc::Global;

/// A clause that the kernel knows. Its literals are in a list that all clauses share.
#[derive(Clone, Copy)]
pub(crate) struct Part {
    start: u32,
    pub length: u32,
    pub premise: Premise,
    /// Bits of the variables of its literals. A clause has all bits of each clause with a part of its literals.
    pub summary: u64,
    pub is_live: bool,
}

#[derive(Drop)]
pub(crate) struct Parts {
    parts: Vec<Part>,
    literals: Vec<LiteralId>,
    // By literal: the clauses that had it when they were added.
    places: Vec<Vec<u32>>,
    // By literal: the number of live clauses that have it.
    counts: Vec<u32>,
    /// Clauses that are new or became shorter, so that others may go.
    pub fresh: Vec<u32>,
    // By variable: whether its clauses changed since it was tried.
    is_changed: Vec<bool>,
}

impl Parts {
    pub fn new(alloc: Global) -> Parts {
        Parts {
            parts: Vec::new(alloc),
            literals: Vec::new(alloc),
            places: Vec::new(alloc),
            counts: Vec::new(alloc),
            fresh: Vec::new(alloc),
            is_changed: Vec::new(alloc),
        }
    }

    /// Adds a variable.
    pub fn grow(&mut self, alloc: Global) -> Result<(), NoMemory> {
        self.places.push(Vec::new(alloc))?;
        self.places.push(Vec::new(alloc))?;
        self.counts.push(0)?;
        self.counts.push(0)?;
        self.is_changed.push(false)?;
        Ok(())
    }

    pub fn variables(&self) -> usize {
        self.is_changed.len()
    }

    /// The number of clauses so far, with those that are gone.
    pub fn len(&self) -> usize {
        self.parts.len()
    }

    /// The number of literals so far, with those that are gone.
    pub fn size(&self) -> usize {
        self.literals.len()
    }

    /// The clause with this number. Past the end there is none that is live.
    #[inline(always)]
    pub fn part(&self, clause: u32) -> Part {
        let none = Part {
            start: 0,
            length: 0,
            premise: Premise::Assumed(usize::MAX),
            summary: 0,
            is_live: false,
        };
        at(&self.parts, clause as usize, none)
    }

    /// The literals of a clause. One that is gone has none.
    #[inline(always)]
    pub fn literals(&self, clause: u32) -> &[LiteralId] {
        let part = self.part(clause);
        let start = part.start as usize;
        let end = start.saturating_add(part.length as usize);
        if part.is_live && end <= self.literals.len() {
            &self.literals[start..end]
        } else {
            &[]
        }
    }

    /// The number of live clauses that have a literal.
    #[inline(always)]
    pub fn count(&self, literal: LiteralId) -> u32 {
        at(&self.counts, literal.place(), 0)
    }

    /// The number of clauses that had a literal when they were added.
    pub fn count_all(&self, literal: LiteralId) -> usize {
        let place = literal.place();
        if place < self.places.len() {
            self.places[place].len()
        } else {
            0
        }
    }

    /// The clause with this number of those that had a literal when they were added.
    #[inline(always)]
    pub fn having(&self, literal: LiteralId, number: usize) -> u32 {
        let place = literal.place();
        if place < self.places.len() {
            at(&self.places[place], number, u32::MAX)
        } else {
            u32::MAX
        }
    }

    /// Reports whether the clauses of a variable changed since the last call.
    pub fn take_change(&mut self, variable: usize) -> bool {
        let is_changed = at(&self.is_changed, variable, false);
        put(&mut self.is_changed, variable, false);
        is_changed
    }

    /// Adds a clause.
    pub fn add(&mut self, literals: &[LiteralId], premise: Premise) -> Result<(), NoMemory> {
        let clause = small(self.parts.len());
        let start = small(self.literals.len());
        self.literals.extend_from_slice(literals)?;
        self.parts.push(Part {
            start,
            length: small(literals.len()),
            premise,
            summary: summary_of(literals),
            is_live: true,
        })?;
        for literal in literals {
            add_place(&mut self.places, *literal, clause)?;
            self.count_up(*literal);
        }
        self.fresh.push(clause)?;
        Ok(())
    }

    fn count_up(&mut self, literal: LiteralId) {
        let count = self.count(literal).saturating_add(1);
        put(&mut self.counts, literal.place(), count);
        put(&mut self.is_changed, literal.variable(), true);
    }

    fn count_down(&mut self, literal: LiteralId) {
        let count = self.count(literal).saturating_sub(1);
        put(&mut self.counts, literal.place(), count);
        put(&mut self.is_changed, literal.variable(), true);
    }

    /// Removes a clause.
    pub fn remove(&mut self, clause: u32) {
        for k in 0..self.part(clause).length as usize {
            let literal = at(self.literals(clause), k, LiteralId(u32::MAX));
            self.count_down(literal);
        }
        let mut part = self.part(clause);
        part.is_live = false;
        put(&mut self.parts, clause as usize, part);
    }

    /// Removes a literal from a clause, which the kernel knows so under this premise.
    pub fn shorten(
        &mut self,
        clause: u32,
        literal: LiteralId,
        premise: Premise,
    ) -> Result<(), NoMemory> {
        let mut part = self.part(clause);
        let start = part.start as usize;
        let end = start.saturating_add(part.length as usize);
        if start < end && end <= self.literals.len() {
            move_to_end(&mut self.literals[start..end], literal);
            part.length = part.length.saturating_sub(1);
            part.premise = premise;
            part.summary = summary_of(&self.literals[start..end - 1]);
            put(&mut self.parts, clause as usize, part);
            self.count_down(literal);
            self.fresh.push(clause)?;
        }
        Ok(())
    }

    /// Adds the live clauses that have a literal to a list.
    pub fn put_having(&self, literal: LiteralId, list: &mut Vec<u32>) -> Result<(), NoMemory> {
        let place = literal.place();
        if place < self.places.len() {
            for clause in &self.places[place] {
                if has(self.literals(*clause), literal) {
                    list.push(*clause)?;
                }
            }
        }
        Ok(())
    }
}

// The bits of the variables of a clause.
fn summary_of(literals: &[LiteralId]) -> u64 {
    let mut summary: u64 = 0;
    for literal in literals {
        summary |= 1 << (literal.variable() & 63);
    }
    summary
}

fn add_place(places: &mut [Vec<u32>], literal: LiteralId, clause: u32) -> Result<(), NoMemory> {
    let place = literal.place();
    if place < places.len() {
        places[place].push(clause)?;
    }
    Ok(())
}

// Exchanges a literal with the last one.
fn move_to_end(literals: &mut [LiteralId], literal: LiteralId) {
    for k in 0..literals.len() {
        if literals[k].0 == literal.0 {
            let last = literals.len() - 1;
            literals.swap(k, last);
            return;
        }
    }
}

/// Reports whether a clause has a literal.
#[inline(always)]
pub(crate) fn has(literals: &[LiteralId], literal: LiteralId) -> bool {
    for other in literals {
        if other.0 == literal.0 {
            return true;
        }
    }
    false
}
