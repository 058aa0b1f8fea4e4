// The store of clauses, and the watches.

use crate::literals::{LiteralId, at, put, small};
use base_types::NoMemory;
use sat_kernel::Premise;
use std::alloc::Global;
use std::mem;

// A learned clause over at most this many levels is kept while conflicts involve it.
const NARROW: u32 = 6;

/// What is known of a clause. A clause of two or more literals is watched through its first two: it is visited when one
/// of them becomes false.
#[derive(Clone, Copy)]
pub struct Stored {
    /// The premise under which the kernel knows the clause.
    pub premise: Premise,
    pub learned: bool,
    /// The number of levels of its literals when it was learned.
    pub spread: u32,
    /// Whether a conflict involved it since the last reduction.
    pub used: bool,
    // Where its literals are. A forgotten clause has none.
    start: u32,
    length: u32,
}

impl Stored {
    /// A clause that was not learned.
    pub fn given(premise: Premise) -> Stored {
        Stored {
            premise,
            learned: false,
            spread: 0,
            used: false,
            start: 0,
            length: 0,
        }
    }

    /// A clause that was learned, with literals of this many levels.
    pub fn learned(premise: Premise, spread: u32) -> Stored {
        Stored {
            premise,
            learned: true,
            spread,
            used: true,
            start: 0,
            length: 0,
        }
    }
}

/// A watch of one literal of a clause. Where the other literal is true, a visit has nothing to do. It repeats where the
/// literals of the clause are, so that a visit does not read `Stored`.
#[derive(Clone, Copy)]
pub struct Watch {
    pub other: LiteralId,
    pub start: u32,
    pub length: u32,
    pub clause: u32,
}

#[derive(Drop)]
pub struct Store {
    clauses: Vec<Stored>,
    /// The literals of all clauses.
    pub literals: Vec<LiteralId>,
    // Numbers of forgotten clauses.
    free: Vec<u32>,
    /// By watched literal.
    pub watches: Vec<Vec<Watch>>,
}

impl Store {
    pub fn new(alloc: Global) -> Store {
        Store {
            clauses: Vec::new(alloc),
            literals: Vec::new(alloc),
            free: Vec::new(alloc),
            watches: Vec::new(alloc),
        }
    }

    /// Adds a variable.
    pub fn grow(&mut self, alloc: Global) -> Result<(), NoMemory> {
        self.watches.push(Vec::new(alloc))?;
        self.watches.push(Vec::new(alloc))?;
        Ok(())
    }

    /// The literals of a clause.
    #[inline(always)]
    pub fn literals(&self, clause: u32) -> &[LiteralId] {
        let place = clause as usize;
        if place < self.clauses.len() {
            let stored = self.clauses[place];
            part(&self.literals, stored.start, stored.length)
        } else {
            &[]
        }
    }

    /// The premise under which the kernel knows a clause.
    pub fn premise(&self, clause: u32) -> Premise {
        let place = clause as usize;
        if place < self.clauses.len() {
            self.clauses[place].premise
        } else {
            Premise::Assumed(usize::MAX)
        }
    }

    /// Notes that a conflict involves a clause.
    pub fn touch(&mut self, clause: u32) {
        let place = clause as usize;
        if place < self.clauses.len() {
            self.clauses[place].used = true;
        }
    }

    /// Stores a clause with these literals, and returns its number.
    pub fn keep(&mut self, stored: Stored, literals: &[LiteralId]) -> Result<u32, NoMemory> {
        let mut stored = stored;
        stored.start = small(self.literals.len());
        stored.length = small(literals.len());
        self.literals.extend_from_slice(literals)?;
        if let Some(number) = self.free.pop() {
            put(&mut self.clauses, number as usize, stored);
            return Ok(number);
        }
        let number = small(self.clauses.len());
        self.clauses.push(stored)?;
        Ok(number)
    }

    /// Watches the first two literals of a clause.
    pub fn watch(&mut self, clause: u32) -> Result<(), NoMemory> {
        let place = clause as usize;
        if place >= self.clauses.len() {
            return Ok(());
        }
        let stored = self.clauses[place];
        let literals = self.literals(clause);
        let first = at(literals, 0, LiteralId(u32::MAX));
        let second = at(literals, 1, LiteralId(u32::MAX));
        let to_second = watch_of(clause, stored, second);
        let to_first = watch_of(clause, stored, first);
        add_watch(&mut self.watches, first, to_second)?;
        add_watch(&mut self.watches, second, to_first)
    }

    /// Takes out the watches of a literal.
    #[inline(always)]
    pub fn take_watches(&mut self, alloc: Global, literal: LiteralId) -> Vec<Watch> {
        let place = literal.place();
        if place < self.watches.len() {
            mem::replace(&mut self.watches[place], Vec::new(alloc))
        } else {
            Vec::new(alloc)
        }
    }

    /// Puts back the watches of a literal.
    #[inline(always)]
    pub fn put_watches(&mut self, literal: LiteralId, watches: Vec<Watch>) {
        let place = literal.place();
        if place < self.watches.len() {
            self.watches[place] = watches;
        }
    }

    /// Forgets learned clauses over many levels, and returns the kernel's numbers of them. It may be called only where
    /// all literals are of level 0 and have unit clauses, since then no clause is needed as a reason.
    pub fn reduce(&mut self, alloc: Global) -> Result<Vec<usize>, NoMemory> {
        let limit = spread_limit(&self.clauses);
        let mut gone = Vec::new(alloc);
        for place in 0..self.clauses.len() {
            if is_spent(self.clauses[place], limit) {
                if let Premise::Derived(number) = self.clauses[place].premise {
                    gone.push(number)?;
                }
                self.free.push(small(place))?;
                let none = Stored::given(Premise::Assumed(usize::MAX));
                put(&mut self.clauses, place, none);
            }
        }
        self.literals = packed(alloc, &mut self.clauses, &self.literals)?;
        keep_all_live(&self.clauses, &mut self.watches);
        Ok(gone)
    }
}

fn watch_of(clause: u32, stored: Stored, other: LiteralId) -> Watch {
    Watch {
        other,
        start: stored.start,
        length: stored.length,
        clause,
    }
}

// The literals of a clause, or none where they would end past the end of the list.
#[inline(always)]
fn part(literals: &[LiteralId], start: u32, length: u32) -> &[LiteralId] {
    let start = start as usize;
    let end = start.saturating_add(length as usize);
    if end <= literals.len() {
        &literals[start..end]
    } else {
        &[]
    }
}

// Packs the literals of the remaining clauses, and marks each clause as not used.
fn packed(
    alloc: Global,
    clauses: &mut [Stored],
    literals: &[LiteralId],
) -> Result<Vec<LiteralId>, NoMemory> {
    let mut all = Vec::new(alloc);
    for place in 0..clauses.len() {
        let mut stored = clauses[place];
        let start = small(all.len());
        all.extend_from_slice(part(literals, stored.start, stored.length))?;
        stored.start = start;
        stored.used = false;
        clauses[place] = stored;
    }
    Ok(all)
}

/// Adds a watch of a literal.
#[inline(always)]
pub(crate) fn add_watch(
    watches: &mut [Vec<Watch>],
    literal: LiteralId,
    watch: Watch,
) -> Result<(), NoMemory> {
    let place = literal.place();
    if place < watches.len() {
        watches[place].push(watch)?;
    }
    Ok(())
}

// Reports whether a clause may be forgotten at this limit. Clauses over two levels stay, and so do used ones over few.
fn is_spent(stored: Stored, limit: u32) -> bool {
    let kept: u32 = if stored.used { NARROW } else { 2 };
    stored.learned && stored.spread >= limit && stored.spread > kept
}

// The spread that splits the clauses that may be forgotten into halves.
fn spread_limit(clauses: &[Stored]) -> u32 {
    let mut counts = [0_u32; 64];
    let mut all: u32 = 0;
    for stored in clauses {
        if is_spent(*stored, 0) {
            let place = (stored.spread as usize).min(63);
            counts[place] = counts[place].saturating_add(1);
            all = all.saturating_add(1);
        }
    }
    let mut above: u32 = 0;
    for step in 0..64u32 {
        let spread = 63 - step;
        above = above.saturating_add(counts[spread as usize]);
        if above >= all / 2 {
            return spread;
        }
    }
    0
}

fn keep_all_live(clauses: &[Stored], watches: &mut [Vec<Watch>]) {
    for place in 0..watches.len() {
        keep_live(clauses, &mut watches[place]);
    }
}

// Drops the watches of forgotten clauses, and updates the others to the packed list of literals.
fn keep_live(clauses: &[Stored], watches: &mut Vec<Watch>) {
    let mut kept: usize = 0;
    for k in 0..watches.len() {
        let watch = watches[k];
        let place = watch.clause as usize;
        if place < clauses.len() && clauses[place].length != 0 {
            let moved = watch_of(watch.clause, clauses[place], watch.other);
            put(watches, kept, moved);
            kept = kept.saturating_add(1);
        }
    }
    watches.truncate(kept);
}
