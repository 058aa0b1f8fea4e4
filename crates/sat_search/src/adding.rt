// How clauses are added.

use crate::search::Search;
use base_types::NoMemory;
use sat_kernel::{Literal, Premise};
use sat_trail::{LiteralId, Reason, Stored, Trail, at, put};

// The search takes variables below this number.
const VARIABLES: u32 = 0x1000_0000;

impl Search {
    /// Adds a clause that the kernel knows under this premise. Under a wrong premise answers may be Unknown. The only
    /// error is running out of memory, after which each answer is Unknown.
    pub fn add(&mut self, clause: &[Literal], premise: Premise) -> Result<(), NoMemory> {
        let before = self.unsure;
        self.unsure = true;
        let fits = self.reach(clause)?;
        if let Some(literals) = self.entered(clause)? {
            self.enter(literals, premise)?;
        }
        self.unsure = before || !fits;
        Ok(())
    }

    // Makes room for the variables of a clause. It reports whether all are small enough.
    pub(crate) fn reach(&mut self, clause: &[Literal]) -> Result<bool, NoMemory> {
        let mut end: u32 = 0;
        for literal in clause {
            end = end.max(literal.variable.saturating_add(1));
        }
        if end > VARIABLES {
            return Ok(false);
        }
        for _ in self.trail.variables()..end as usize {
            self.grow()?;
        }
        Ok(true)
    }

    // The literals of a clause, each once. None for a tautology, and for a clause that is true at level 0.
    fn entered(&mut self, clause: &[Literal]) -> Result<Option<Vec<LiteralId>>, NoMemory> {
        self.stamp = self.stamp.saturating_add(1);
        let mut literals = Vec::with_capacity(self.alloc, clause.len())?;
        for literal in clause {
            let number = LiteralId::of(*literal);
            if self.is_fixed(number) || self.is_entered(number.opposite()) {
                return Ok(None);
            }
            if !self.is_entered(number) {
                self.stamp_literal(number)?;
                literals.push(number)?;
            }
        }
        Ok(Some(literals))
    }

    // Notes that the last clause has this literal. From the first clause that has it on, a variable is decided.
    fn stamp_literal(&mut self, literal: LiteralId) -> Result<(), NoMemory> {
        let is_first = !self.is_used(literal);
        put(&mut self.stamps, literal.place(), self.stamp);
        if is_first {
            self.order.insert(literal.variable())?;
        }
        Ok(())
    }

    // Reports whether a clause has had this literal or its negation.
    pub(crate) fn is_used(&self, literal: LiteralId) -> bool {
        at(&self.stamps, literal.place(), 0) != 0
            || at(&self.stamps, literal.opposite().place(), 0) != 0
    }

    // Reports whether a literal is true at level 0.
    fn is_fixed(&self, literal: LiteralId) -> bool {
        self.trail.is_true(literal) && self.trail.level_of(literal.variable()) == 0
    }

    fn is_entered(&self, literal: LiteralId) -> bool {
        at(&self.stamps, literal.place(), 0) == self.stamp
    }

    // Stores a clause of which no literal is true at level 0. It stays whole, so that its premise is the clause.
    fn enter(&mut self, literals: Vec<LiteralId>, premise: Premise) -> Result<(), NoMemory> {
        let mut literals = literals;
        if self.trail.level() > 0 && watch_first(&self.trail, &mut literals) {
            let clause = self.store.keep(Stored::given(premise), &literals)?;
            return self.store.watch(clause);
        }
        self.backtrack(0)?;
        let open = open_first(&self.trail, &mut literals);
        let first = at(&literals, 0, LiteralId(0));
        let clause = self.store.keep(Stored::given(premise), &literals)?;
        self.enter_at_root(clause, open, first)
    }

    // Watches a clause at level 0, or notes what it forces where it has fewer than two open literals.
    fn enter_at_root(
        &mut self,
        clause: u32,
        open: usize,
        first: LiteralId,
    ) -> Result<(), NoMemory> {
        match open {
            0 => {
                if self.broken.is_none() {
                    self.broken = Some(clause);
                }
                Ok(())
            }
            1 => self.trail.assign(first, Reason::Clause(clause)),
            _ => self.store.watch(clause),
        }
    }
}

// Moves two literals to the front that can be watched above level 0, and reports whether there are such: neither is
// false, or the first is true and stays so as long as the second is false.
fn watch_first(trail: &Trail, literals: &mut [LiteralId]) -> bool {
    if literals.len() < 2 {
        return false;
    }
    move_last_falsified(trail, literals, 0);
    move_last_falsified(trail, literals, 1);
    let first = literals[0];
    let second = literals[1];
    !trail.is_false(second)
        || trail.is_true(first)
            && trail.level_of(first.variable()) <= trail.level_of(second.variable())
}

// Moves a literal that is not false to a place, from there or later. Without one it moves a literal of the highest
// level.
fn move_last_falsified(trail: &Trail, literals: &mut [LiteralId], place: usize) {
    let mut best = place;
    let mut highest: usize = 0;
    for k in place..literals.len() {
        let rank = falsified_at(trail, literals[k]);
        if rank > highest {
            highest = rank;
            best = k;
        }
    }
    if place < literals.len() && best < literals.len() {
        literals.swap(place, best);
    }
}

// The level at which a literal became false. One that is not false counts as the highest.
fn falsified_at(trail: &Trail, literal: LiteralId) -> usize {
    if trail.is_false(literal) {
        trail.level_of(literal.variable())
    } else {
        usize::MAX
    }
}

// Moves up to two open literals to the front, and returns their number.
fn open_first(trail: &Trail, literals: &mut [LiteralId]) -> usize {
    let mut open: usize = 0;
    for k in 0..literals.len() {
        if open < 2 && open <= k && trail.is_open(literals[k]) {
            literals.swap(open, k);
            open = open.saturating_add(1);
        }
    }
    open
}
