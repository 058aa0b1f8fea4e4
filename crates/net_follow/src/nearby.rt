// Refutations by few clauses: those that say what a net is, in terms of the nets that it comes from.

use base_types::NoMemory;
use sat_kernel::{Literal, Premise};
use sat_search::Search;
use sat_trail::{LiteralId, Reason, Trail, at, put};
use std::alloc::Global;

// A variable has no further clause.
const NONE: usize = usize::MAX;

// How many variables are looked at, how far from those of the question, and how many clauses of each.
const VARIABLES: usize = 48;

const DISTANCE: usize = 5;

const CLAUSES: usize = 12;

// How often the clauses of these variables are looked at, one after another.
const SWEEPS: usize = 3;

// After this many questions in vain only one of this many is tried.
const PATIENCE: usize = 16;

const SELDOM: usize = 16;

/// All clauses that a kernel knows, in order. Each is about the variable of its last literal: the clauses of a gate are
/// about its net, and those of a claim about the net that is claimed to have the value of another.
#[derive(Drop)]
pub(crate) struct Nearby {
    literals: Vec<Literal>,
    clauses: Vec<Noted>,
    // By variable: the last clause that is about it.
    heads: Vec<usize>,
    // By variable: whether it is looked at.
    marks: Vec<bool>,
    active: Vec<usize>,
    // By place of `active`: how long the trail was when the clauses of the variable were looked at.
    lengths: Vec<usize>,
    // By variable: whether a search was given the clauses about it.
    given: Vec<bool>,
    // Variables whose clauses a search is given next, and clauses that came after the others about their variable.
    wanted: Vec<usize>,
    late: Vec<usize>,
    trail: Trail,
    // How many questions were in vain lately, and how many came since.
    misses: usize,
    skipped: usize,
    /// The clauses of the last refutation, in the order of propagation.
    pub hints: Vec<Premise>,
}

// A clause, and the clause before it that is about the same variable.
#[derive(Clone, Copy)]
struct Noted {
    start: usize,
    length: usize,
    premise: Premise,
    before: usize,
}

impl Nearby {
    pub fn new(alloc: Global) -> Nearby {
        Nearby {
            literals: Vec::new(alloc),
            clauses: Vec::new(alloc),
            heads: Vec::new(alloc),
            marks: Vec::new(alloc),
            active: Vec::new(alloc),
            lengths: Vec::new(alloc),
            given: Vec::new(alloc),
            wanted: Vec::new(alloc),
            late: Vec::new(alloc),
            trail: Trail::new(alloc),
            misses: 0,
            skipped: 0,
            hints: Vec::new(alloc),
        }
    }

    /// Notes a clause that the kernel knows under this premise.
    pub fn note(&mut self, literals: &[Literal], premise: Premise) -> Result<(), NoMemory> {
        let mut last: usize = 0;
        for literal in literals {
            last = literal.variable as usize;
            self.reach(last)?;
        }
        let noted = Noted {
            start: self.literals.len(),
            length: literals.len(),
            premise,
            before: at(&self.heads, last, NONE),
        };
        self.literals.extend_from_slice(literals)?;
        if at(&self.given, last, false) {
            self.late.push(self.clauses.len())?;
        }
        put(&mut self.heads, last, self.clauses.len());
        self.clauses.push(noted)?;
        Ok(())
    }

    fn reach(&mut self, variable: usize) -> Result<(), NoMemory> {
        for _ in self.heads.len()..variable.saturating_add(1) {
            self.heads.push(NONE)?;
            self.marks.push(false)?;
            self.given.push(false)?;
            self.trail.grow()?;
        }
        Ok(())
    }

    /// Gives a search the clauses about the nets of these literals, and about all nets that these come from.
    pub fn feed(&mut self, search: &mut Search, literals: &[Literal]) -> Result<(), NoMemory> {
        for literal in literals {
            self.want(literal.variable as usize)?;
        }
        for k in 0..self.late.len() {
            let place = at(&self.late, k, NONE);
            self.give(search, place)?;
        }
        self.late.clear();
        self.give_wanted(search)
    }

    /// Gives a search the clauses that it lacks, and reports whether there were some. If `early`, it gives those of the
    /// first instant only.
    pub fn feed_rest(&mut self, search: &mut Search, early: bool) -> Result<bool, NoMemory> {
        let mut is_more = false;
        for variable in 0..self.given.len() {
            if !early || is_early(variable) {
                let lacks = !at(&self.given, variable, true);
                is_more = is_more || (lacks && at(&self.heads, variable, NONE) != NONE);
                self.want(variable)?;
            }
        }
        self.give_wanted(search)?;
        Ok(is_more)
    }

    fn want(&mut self, variable: usize) -> Result<(), NoMemory> {
        if !at(&self.given, variable, true) {
            put(&mut self.given, variable, true);
            self.wanted.push(variable)?;
        }
        Ok(())
    }

    fn give_wanted(&mut self, search: &mut Search) -> Result<(), NoMemory> {
        for _ in 0..usize::MAX {
            let Some(variable) = self.wanted.pop() else {
                return Ok(());
            };
            self.give_about(search, variable)?;
        }
        Ok(())
    }

    // Gives a search the clauses about a variable.
    fn give_about(&mut self, search: &mut Search, variable: usize) -> Result<(), NoMemory> {
        let mut place = at(&self.heads, variable, NONE);
        for _ in 0..self.clauses.len() {
            if place >= self.clauses.len() {
                return Ok(());
            }
            let before = self.clauses[place].before;
            self.give(search, place)?;
            place = before;
        }
        Ok(())
    }

    // Gives a search a clause, and wants those about its nets.
    fn give(&mut self, search: &mut Search, place: usize) -> Result<(), NoMemory> {
        if place >= self.clauses.len() {
            return Ok(());
        }
        let noted = self.clauses[place];
        search.add(part(&self.literals, noted), noted.premise)?;
        for k in 0..noted.length {
            let number = noted.start.saturating_add(k);
            if number < self.literals.len() {
                let variable = self.literals[number].variable as usize;
                self.want(variable)?;
            }
        }
        Ok(())
    }

    /// Reports whether clauses about the nets of these literals, and about the nets that these come from, show that
    /// not all of the literals are true. `hints` has the clauses. Where most such questions are in vain, few are tried.
    pub fn refutes(&mut self, literals: &[Literal]) -> Result<bool, NoMemory> {
        self.skipped = self.skipped.saturating_add(1);
        if self.misses >= PATIENCE && self.skipped < SELDOM {
            return Ok(false);
        }
        self.skipped = 0;
        let is_refuted = self.tries(literals)?;
        self.misses = if is_refuted {
            self.misses / 4
        } else {
            self.misses.saturating_add(1).min(PATIENCE)
        };
        Ok(is_refuted)
    }

    fn tries(&mut self, literals: &[Literal]) -> Result<bool, NoMemory> {
        self.clear();
        for literal in literals {
            self.suppose(*literal)?;
        }
        let mut from: usize = 0;
        for _ in 0..DISTANCE {
            if self.settles()? {
                return Ok(true);
            }
            let end = self.active.len();
            for place in from..end {
                let variable = at(&self.active, place, 0);
                self.widen(variable)?;
            }
            from = end;
        }
        self.settles()
    }

    fn clear(&mut self) {
        self.hints.clear();
        for _ in 0..self.trail.len() {
            let _literal = self.trail.pop();
        }
        for variable in &self.active {
            put(&mut self.marks, *variable, false);
        }
        self.active.clear();
        self.lengths.clear();
    }

    fn suppose(&mut self, literal: Literal) -> Result<(), NoMemory> {
        let number = LiteralId::of(literal);
        self.reach(number.variable())?;
        if self.trail.is_open(number) {
            self.trail.assign(number, Reason::Decision)?;
        }
        self.activate(number.variable())
    }

    fn activate(&mut self, variable: usize) -> Result<(), NoMemory> {
        if self.active.len() < VARIABLES && !at(&self.marks, variable, true) {
            put(&mut self.marks, variable, true);
            self.active.push(variable)?;
            self.lengths.push(NONE)?;
        }
        Ok(())
    }

    // Looks at the variables of the clauses about a variable too.
    fn widen(&mut self, variable: usize) -> Result<(), NoMemory> {
        let mut place = at(&self.heads, variable, NONE);
        for _ in 0..CLAUSES {
            if place >= self.clauses.len() {
                return Ok(());
            }
            let noted = self.clauses[place];
            for k in 0..noted.length {
                let number = noted.start.saturating_add(k);
                if number < self.literals.len() {
                    let other = self.literals[number].variable as usize;
                    self.activate(other)?;
                }
            }
            place = noted.before;
        }
        Ok(())
    }

    // Assigns what is forced, and reports whether a clause is false. Where nothing was assigned since a variable was
    // looked at, its clauses force nothing.
    fn settles(&mut self) -> Result<bool, NoMemory> {
        for _ in 0..SWEEPS {
            let before = self.trail.len();
            for k in 0..self.active.len() {
                let length = self.trail.len();
                if at(&self.lengths, k, length) != length {
                    put(&mut self.lengths, k, length);
                    let variable = at(&self.active, k, 0);
                    if self.settles_at(variable)? {
                        return Ok(true);
                    }
                }
            }
            if self.trail.len() == before {
                return Ok(false);
            }
        }
        Ok(false)
    }

    fn settles_at(&mut self, variable: usize) -> Result<bool, NoMemory> {
        let mut place = at(&self.heads, variable, NONE);
        for _ in 0..CLAUSES {
            if place >= self.clauses.len() {
                return Ok(false);
            }
            let noted = self.clauses[place];
            match unit_of(&self.trail, part(&self.literals, noted)) {
                Unit::Open => {}
                Unit::Forced(literal) => {
                    self.trail.assign(literal, Reason::Decision)?;
                    self.hints.push(noted.premise)?;
                }
                Unit::Broken => {
                    self.hints.push(noted.premise)?;
                    return Ok(true);
                }
            }
            place = noted.before;
        }
        Ok(false)
    }
}

// Whether a variable is of the first of two instants: `coding` alternates the instants.
fn is_early(variable: usize) -> bool {
    variable % 2 == 0
}

// What a clause tells.
#[derive(Clone, Copy)]
enum Unit {
    // nothing: a literal is true, or two are open
    Open,
    // the only literal that is not false
    Forced(LiteralId),
    // all literals are false
    Broken,
}

fn unit_of(trail: &Trail, literals: &[Literal]) -> Unit {
    let mut unit = Unit::Broken;
    for literal in literals {
        let number = LiteralId::of(*literal);
        if !trail.is_false(number) {
            if trail.is_true(number) || is_forced(unit) {
                return Unit::Open;
            }
            unit = Unit::Forced(number);
        }
    }
    unit
}

fn is_forced(unit: Unit) -> bool {
    match unit {
        Unit::Forced(_) => true,
        Unit::Open | Unit::Broken => false,
    }
}

fn part(literals: &[Literal], noted: Noted) -> &[Literal] {
    let end = noted.start.saturating_add(noted.length);
    if end <= literals.len() {
        &literals[noted.start..end]
    } else {
        &[]
    }
}
