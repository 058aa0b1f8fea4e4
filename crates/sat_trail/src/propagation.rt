// Unit propagation through watches.

use crate::clauses::{Store, Watch, add_watch};
use crate::literals::{LiteralId, put};
use crate::trail::{Reason, Trail};
use base_types::NoMemory;
use std::alloc::Global;

/// Assigns all literals that are forced, until all literals of a clause are false: it returns that clause's number.
/// Each watch in a list that is visited takes one from the effort. At zero it stops.
pub fn propagate(
    alloc: Global,
    trail: &mut Trail,
    store: &mut Store,
    effort: &mut u64,
) -> Result<Option<u32>, NoMemory> {
    for _ in 0..trail.variables().saturating_add(1) {
        if *effort == 0 {
            return Ok(None);
        }
        let Some(literal) = trail.take_next() else {
            return Ok(None);
        };
        let conflict = visit(alloc, trail, store, effort, literal.opposite())?;
        if conflict.is_some() {
            return Ok(conflict);
        }
    }
    Ok(None)
}

// Visits the clauses that watch a literal, which has become false.
#[inline(always)]
fn visit(
    alloc: Global,
    trail: &mut Trail,
    store: &mut Store,
    effort: &mut u64,
    literal: LiteralId,
) -> Result<Option<u32>, NoMemory> {
    let mut watches = store.take_watches(alloc, literal);
    let work = watches.len() as u64;
    *effort = effort.saturating_sub(work.saturating_add(1));
    let visited = visit_all(trail, store, literal, &mut watches);
    let (kept, conflict) = visited?;
    watches.truncate(kept);
    store.put_watches(literal, watches);
    Ok(conflict)
}

// What a visit makes of a watch.
#[derive(Clone, Copy)]
enum Seen {
    Kept(Watch),
    Moved,
    Broken,
}

// Visits each clause of a list of watches. The watches that stay are moved to the front, and their number is returned
// with the clause that is false, if any.
#[inline(always)]
fn visit_all(
    trail: &mut Trail,
    store: &mut Store,
    literal: LiteralId,
    watches: &mut [Watch],
) -> Result<(usize, Option<u32>), NoMemory> {
    let mut kept: usize = 0;
    let mut conflict = None;
    for k in 0..watches.len() {
        let watch = watches[k];
        if conflict.is_some() || trail.is_true(watch.other) {
            put(watches, kept, watch);
            kept = kept.saturating_add(1);
        } else {
            match visit_clause(trail, store, literal, watch)? {
                Seen::Kept(next) => {
                    put(watches, kept, next);
                    kept = kept.saturating_add(1);
                }
                Seen::Moved => {}
                Seen::Broken => {
                    conflict = Some(watch.clause);
                    put(watches, kept, watch);
                    kept = kept.saturating_add(1);
                }
            }
        }
    }
    Ok((kept, conflict))
}

// Visits one clause that watches a literal, which has become false.
#[inline(always)]
fn visit_clause(
    trail: &mut Trail,
    store: &mut Store,
    literal: LiteralId,
    watch: Watch,
) -> Result<Seen, NoMemory> {
    if watch.length == 2 {
        return force(trail, watch.other, watch);
    }
    let start = watch.start as usize;
    let end = start.saturating_add(watch.length as usize);
    if end > store.literals.len() {
        return Ok(Seen::Moved);
    }
    let literals = &mut store.literals[start..end];
    let mut next = watch;
    next.other = other_watched(literals, literal);
    if trail.is_true(next.other) {
        return Ok(Seen::Kept(next));
    }
    match replacement(trail, literals) {
        Some(found) => {
            add_watch(&mut store.watches, found, next)?;
            Ok(Seen::Moved)
        }
        None => force(trail, next.other, next),
    }
}

// Moves the false literal to the second place of its clause, and returns the first.
#[inline(always)]
fn other_watched(literals: &mut [LiteralId], literal: LiteralId) -> LiteralId {
    if literals.len() < 2 {
        return literal;
    }
    if literals[0].0 == literal.0 {
        literals.swap(0, 1);
    }
    literals[0]
}

// Moves a literal that is not false from a later place of the clause to the second, if there is one.
#[inline(always)]
fn replacement(trail: &Trail, literals: &mut [LiteralId]) -> Option<LiteralId> {
    for k in 2..literals.len() {
        let found = literals[k];
        if !trail.is_false(found) {
            literals.swap(1, k);
            return Some(found);
        }
    }
    None
}

// All literals of a clause are false, except perhaps this one.
#[inline(always)]
fn force(trail: &mut Trail, literal: LiteralId, watch: Watch) -> Result<Seen, NoMemory> {
    if trail.is_false(literal) {
        return Ok(Seen::Broken);
    }
    trail.assign(literal, Reason::Clause(watch.clause))?;
    Ok(Seen::Kept(watch))
}
