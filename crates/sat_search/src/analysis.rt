// The analysis of a conflict: the clause to learn.

use base_types::NoMemory;
use sat_trail::{LiteralId, Order, Reason, Store, Trail, at, put};
use std::alloc::Global;

/// The clause that is learned from a conflict, with the working memory to find it.
#[derive(Drop)]
pub(crate) struct Analysis {
    /// The first literal is the negation of the first unique implication point. The second one is of the highest level
    /// among the others.
    pub learned: Vec<LiteralId>,
    // By variable: whether the conflict was traced back to it.
    seen: Vec<bool>,
    touched: Vec<LiteralId>,
    stack: Vec<LiteralId>,
    // By level: the last stamp under which a literal of it was met.
    stamps: Vec<u64>,
    stamp: u64,
}

impl Analysis {
    pub fn new(alloc: Global) -> Analysis {
        Analysis {
            learned: Vec::new(alloc),
            seen: Vec::new(alloc),
            touched: Vec::new(alloc),
            stack: Vec::new(alloc),
            stamps: Vec::new(alloc),
            stamp: 0,
        }
    }

    /// Adds a variable.
    pub fn grow(&mut self) -> Result<(), NoMemory> {
        self.seen.push(false)?;
        self.stamps.push(0)?;
        Ok(())
    }

    /// The number of variables that the last analysis met.
    pub fn work(&self) -> usize {
        self.touched.len()
    }

    /// Finds the clause to learn from a conflict.
    pub fn learn(
        &mut self,
        trail: &Trail,
        store: &mut Store,
        order: &mut Order,
        conflict: u32,
    ) -> Result<(), NoMemory> {
        self.clear();
        self.trace(trail, store, order, conflict)?;
        self.stamp_levels(trail);
        self.minimize(trail, store)?;
        self.second_by_level(trail);
        Ok(())
    }

    fn clear(&mut self) {
        clear_seen(&mut self.seen, &self.touched, 0);
        self.touched.clear();
        self.learned.clear();
    }

    // Resolves the conflict with reasons until one literal of its level is left.
    fn trace(
        &mut self,
        trail: &Trail,
        store: &mut Store,
        order: &mut Order,
        conflict: u32,
    ) -> Result<(), NoMemory> {
        self.learned.push(LiteralId(0))?;
        let mut open: usize = 0;
        let mut clause = conflict;
        let mut place = trail.len();
        for _ in 0..trail.len() {
            store.touch(clause);
            let new = self.mark(trail, order, store.literals(clause))?;
            place = self.last_seen(trail, place);
            let literal = trail.literal(place);
            open = open.saturating_add(new).saturating_sub(1);
            if open == 0 {
                put(&mut self.learned, 0, literal.opposite());
                break;
            }
            match trail.reason_of(literal.variable()) {
                Reason::Clause(reason) => clause = reason,
                Reason::Decision => break,
            }
        }
        Ok(())
    }

    // Marks the variables of a clause, and returns the number of new ones of the highest level. Literals of lower
    // levels are learned.
    fn mark(
        &mut self,
        trail: &Trail,
        order: &mut Order,
        clause: &[LiteralId],
    ) -> Result<usize, NoMemory> {
        let mut new: usize = 0;
        for literal in clause {
            let variable = literal.variable();
            let level = trail.level_of(variable);
            if level != 0 && !at(&self.seen, variable, true) {
                put(&mut self.seen, variable, true);
                self.touched.push(*literal)?;
                order.bump(variable);
                if level >= trail.level() {
                    new = new.saturating_add(1);
                } else {
                    self.learned.push(*literal)?;
                }
            }
        }
        Ok(new)
    }

    // The place of the last marked literal before this one.
    fn last_seen(&self, trail: &Trail, end: usize) -> usize {
        for place in (0..end).rev() {
            if at(&self.seen, trail.literal(place).variable(), true) {
                return place;
            }
        }
        0
    }

    fn stamp_levels(&mut self, trail: &Trail) {
        self.stamp = self.stamp.saturating_add(1);
        for literal in &self.learned {
            let level = trail.level_of(literal.variable());
            put(&mut self.stamps, level, self.stamp);
        }
    }

    // Drops literals that follow from the others.
    fn minimize(&mut self, trail: &Trail, store: &Store) -> Result<(), NoMemory> {
        let mut kept: usize = 1;
        for k in 1..self.learned.len() {
            let literal = at(&self.learned, k, LiteralId(0));
            if !self.is_redundant(trail, store, literal)? {
                put(&mut self.learned, kept, literal);
                kept = kept.saturating_add(1);
            }
        }
        self.learned.truncate(kept);
        Ok(())
    }

    // Reports whether the reasons of a literal lead back to other learned literals.
    fn is_redundant(
        &mut self,
        trail: &Trail,
        store: &Store,
        literal: LiteralId,
    ) -> Result<bool, NoMemory> {
        let before = self.touched.len();
        self.stack.clear();
        self.stack.push(literal)?;
        for _ in 0..trail.len() {
            let Some(next) = self.stack.pop() else {
                return Ok(true);
            };
            let clause = match trail.reason_of(next.variable()) {
                Reason::Clause(clause) => store.literals(clause),
                Reason::Decision => &[],
            };
            if clause.is_empty() || !self.goes_back(trail, clause)? {
                clear_seen(&mut self.seen, &self.touched, before);
                self.touched.truncate(before);
                return Ok(false);
            }
        }
        Ok(false)
    }

    // Puts the literals of a reason on the stack. It reports whether each may follow from the learned ones: a level
    // without a learned literal rules that out.
    fn goes_back(&mut self, trail: &Trail, clause: &[LiteralId]) -> Result<bool, NoMemory> {
        for literal in clause {
            let variable = literal.variable();
            let level = trail.level_of(variable);
            if level != 0 && !at(&self.seen, variable, true) {
                if is_decision(trail, variable) || at(&self.stamps, level, 0) != self.stamp {
                    return Ok(false);
                }
                put(&mut self.seen, variable, true);
                self.touched.push(*literal)?;
                self.stack.push(*literal)?;
            }
        }
        Ok(true)
    }

    // Moves a literal of the highest level among the others to the second place.
    fn second_by_level(&mut self, trail: &Trail) {
        let mut best: usize = 1;
        let mut highest: usize = 0;
        for k in 1..self.learned.len() {
            let level = trail.level_of(self.learned[k].variable());
            if level > highest {
                highest = level;
                best = k;
            }
        }
        if 1 < self.learned.len() && best < self.learned.len() {
            self.learned.swap(1, best);
        }
    }

    /// The level to backtrack to: there the learned clause forces its first literal.
    pub fn level_to_keep(&self, trail: &Trail) -> usize {
        if self.learned.len() < 2 {
            return 0;
        }
        trail.level_of(at(&self.learned, 1, LiteralId(0)).variable())
    }

    /// The number of levels of the learned clause's literals.
    pub fn spread(&mut self, trail: &Trail) -> u32 {
        self.stamp = self.stamp.saturating_add(1);
        let mut levels: u32 = 0;
        for literal in &self.learned {
            let level = trail.level_of(literal.variable());
            if at(&self.stamps, level, self.stamp) != self.stamp {
                put(&mut self.stamps, level, self.stamp);
                levels = levels.saturating_add(1);
            }
        }
        levels
    }
}

fn is_decision(trail: &Trail, variable: usize) -> bool {
    match trail.reason_of(variable) {
        Reason::Decision => true,
        Reason::Clause(_) => false,
    }
}

fn clear_seen(seen: &mut [bool], touched: &[LiteralId], from: usize) {
    for k in from..touched.len() {
        put(seen, touched[k].variable(), false);
    }
}
