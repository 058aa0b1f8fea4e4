// Frames: what is known of the states that a number of instants reach.

use crate::candidates::add_allowed;
use crate::cubes::{is_part, signature, sort_by_key};
use base_types::NoMemory;
use net_frames::{Questions, Reply, TransitionSystem};
use sat_kernel::{Clause, Literal};
use sat_trail::{LiteralId, at, put};
use std::alloc::Global;

// The clauses for single questions after which the questions begin anew.
const TEMPORARIES: usize = 400;

// The variables for frames and single questions.
const SPARE: usize = 100_000;

/// The level of cubes that no run meets.
pub(crate) const FOREVER: usize = usize::MAX;

/// A cube that the states of the frames up to its level do not meet. A level of 0 is that of a cube which is given up.
#[derive(Clone, Copy)]
struct Blocked {
    start: usize,
    length: usize,
    level: usize,
    bits: u64,
}

/// The frames of property directed reachability (Bradley, "SAT-Based Model Checking without Unrolling"): the states of
/// frame `k` are those that meet none of the cubes of level `k` or above. They include all that `k` instants reach.
#[derive(Drop)]
pub(crate) struct Frames {
    alloc: Global,
    pub questions: Questions,
    // By frame: the literal under which its own clauses hold. Frame 0 is the first instant's state.
    active: Vec<Literal>,
    literals: Vec<LiteralId>,
    cubes: Vec<Blocked>,
    temporaries: usize,
    assumptions: Vec<Literal>,
    /// The part of the last cube asked about that its refutation needs.
    pub needed: Vec<LiteralId>,
    /// By node: the number of cubes that its literals are in.
    pub activities: Vec<u32>,
}

impl Frames {
    /// Frames with nothing blocked. `renew` makes the first two, before any question.
    pub fn new(alloc: Global, system: &TransitionSystem) -> Result<Frames, NoMemory> {
        Ok(Frames {
            alloc,
            activities: vec![in alloc; 0; system.graph.len()]?,
            questions: Questions::new(alloc, 0)?,
            active: Vec::new(alloc),
            literals: Vec::new(alloc),
            cubes: Vec::new(alloc),
            temporaries: TEMPORARIES,
            assumptions: Vec::new(alloc),
            needed: Vec::new(alloc),
        })
    }

    // Adds the clauses that each instant meets, the frames, and the first instant's state.
    fn begin(&mut self, system: &TransitionSystem, frames: usize) -> Result<(), NoMemory> {
        add_allowed(system, &mut self.questions, &mut self.assumptions)?;
        self.active.clear();
        for _ in 0..frames {
            self.active.push(self.questions.fresh())?;
        }
        for place in 0..system.states.len() {
            self.add_initial(system, place)?;
        }
        Ok(())
    }

    fn add_initial(&mut self, system: &TransitionSystem, place: usize) -> Result<(), NoMemory> {
        let edge = system.state_edge(place);
        let literal = self.questions.literal(&system.graph, edge)?;
        let inactive = self.active_at(0).opposite();
        if system.is_initial(edge) {
            self.questions.add(&[inactive, literal])
        } else {
            self.questions.add(&[inactive, literal.opposite()])
        }
    }

    fn active_at(&self, frame: usize) -> Literal {
        let none = Literal {
            variable: 0,
            positive: true,
        };
        at(&self.active, frame, none)
    }

    /// The number of the last frame.
    pub fn top(&self) -> usize {
        self.active.len().saturating_sub(1)
    }

    /// Adds a frame that may be all states.
    pub fn add_frame(&mut self) -> Result<(), NoMemory> {
        self.active.push(self.questions.fresh())?;
        Ok(())
    }

    /// Begins with fresh questions, at first and where many clauses are left of single questions.
    pub fn renew(&mut self, system: &TransitionSystem) -> Result<(), NoMemory> {
        if self.temporaries < TEMPORARIES {
            return Ok(());
        }
        self.temporaries = 0;
        let frames = self.active.len().max(2);
        self.questions = Questions::new(self.alloc, system.graph.len().saturating_add(SPARE))?;
        self.begin(system, frames)?;
        for place in 0..self.cubes.len() {
            self.add_clause(system, place)?;
        }
        Ok(())
    }

    // Adds the clause of a blocked cube.
    fn add_clause(&mut self, system: &TransitionSystem, place: usize) -> Result<(), NoMemory> {
        let level = self.level(place);
        if level == 0 {
            return Ok(());
        }
        self.assumptions.clear();
        for k in 0..self.cube(place).len() {
            let edge = at(self.cube(place), k, LiteralId(0));
            let literal = self.questions.literal(&system.graph, edge)?;
            self.assumptions.push(literal.opposite())?;
        }
        // The first literals are watched, so that a question need not visit all clauses of its frame.
        if level != FOREVER {
            let inactive = self.active_at(level).opposite();
            self.assumptions.push(inactive)?;
        }
        self.questions.add(&self.assumptions)
    }

    /// The number of cubes, with those that were given up.
    pub fn len(&self) -> usize {
        self.cubes.len()
    }

    fn blocked(&self, place: usize) -> Blocked {
        let none = Blocked {
            start: 0,
            length: 0,
            level: 0,
            bits: 0,
        };
        at(&self.cubes, place, none)
    }

    /// The last frame from which a cube is blocked. 0 where it is given up.
    pub fn level(&self, place: usize) -> usize {
        self.blocked(place).level
    }

    /// The literals of a cube.
    pub fn cube(&self, place: usize) -> &[LiteralId] {
        let blocked = self.blocked(place);
        let end = blocked.start.saturating_add(blocked.length);
        if blocked.start <= end && end <= self.literals.len() {
            &self.literals[blocked.start..end]
        } else {
            &[]
        }
    }

    /// Blocks a cube, in ascending order, from the frames up to this level. Cubes that it makes needless are given up.
    pub fn block(
        &mut self,
        system: &TransitionSystem,
        cube: &[LiteralId],
        level: usize,
    ) -> Result<(), NoMemory> {
        let bits = signature(cube);
        self.give_up(cube, level, bits);
        self.count(cube);
        let place = self.cubes.len();
        self.store(cube, level)?;
        self.add_clause(system, place)
    }

    /// Stores a blocked cube, in ascending order, before `renew` makes the first questions.
    pub fn store(&mut self, cube: &[LiteralId], level: usize) -> Result<(), NoMemory> {
        let start = self.literals.len();
        self.literals.extend_from_slice(cube)?;
        self.cubes.push(Blocked {
            start,
            length: cube.len(),
            level,
            bits: signature(cube),
        })?;
        Ok(())
    }

    // Gives up the cubes of at most a level that have all literals of this one.
    fn give_up(&mut self, cube: &[LiteralId], level: usize, bits: u64) {
        for place in 0..self.cubes.len() {
            let other = self.blocked(place);
            let may_have = other.level <= level && bits & !other.bits == 0;
            if may_have && is_part(cube, self.cube(place)) {
                self.set_level(place, 0);
            }
        }
    }

    fn count(&mut self, cube: &[LiteralId]) {
        for literal in cube {
            let count = at(&self.activities, literal.variable(), 0).saturating_add(1);
            put(&mut self.activities, literal.variable(), count);
        }
    }

    fn set_level(&mut self, place: usize, level: usize) {
        let mut blocked = self.blocked(place);
        blocked.level = level;
        put(&mut self.cubes, place, blocked);
    }

    /// Reports whether a cube, in ascending order, is blocked in a frame already.
    pub fn is_covered(&self, cube: &[LiteralId], frame: usize) -> bool {
        let bits = signature(cube);
        for place in (0..self.cubes.len()).rev() {
            let other = self.blocked(place);
            if other.level >= frame && other.bits & !bits == 0 && is_part(self.cube(place), cube) {
                return true;
            }
        }
        false
    }

    // Assumes a frame. What two frames share comes first.
    fn assume_frame(&mut self, frame: usize) -> Result<(), NoMemory> {
        self.assumptions.clear();
        for k in (frame..self.active.len()).rev() {
            let active = self.active_at(k);
            self.assumptions.push(active)?;
        }
        Ok(())
    }

    /// Asks whether an edge is true in a state of a frame.
    pub fn ask_edge(
        &mut self,
        system: &TransitionSystem,
        edge: LiteralId,
        frame: usize,
        effort: &mut u64,
    ) -> Result<Reply, NoMemory> {
        let literal = self.questions.literal(&system.graph, edge)?;
        self.assume_frame(frame)?;
        self.assumptions.push(literal)?;
        self.questions.ask(&self.assumptions, effort)
    }

    /// Asks whether a state of a frame leads to a cube. Where none does, `needed` has the part of the cube for which
    /// that holds. It has a literal that is false in the first instant, if the cube has.
    pub fn ask_next(
        &mut self,
        system: &TransitionSystem,
        cube: &[LiteralId],
        frame: usize,
        effort: &mut u64,
    ) -> Result<Reply, NoMemory> {
        self.assume_frame(frame)?;
        self.assume_next(system, cube)?;
        let reply = self.questions.ask(&self.assumptions, effort)?;
        self.note_needed(system, cube, reply)?;
        Ok(reply)
    }

    /// As `ask_next`, of the states outside of the cube alone.
    pub fn ask_into(
        &mut self,
        system: &TransitionSystem,
        cube: &[LiteralId],
        frame: usize,
        effort: &mut u64,
    ) -> Result<Reply, NoMemory> {
        let outside = self.add_outside(system, cube)?;
        self.assume_frame(frame)?;
        self.assumptions.push(outside)?;
        self.assume_next(system, cube)?;
        let reply = self.questions.ask(&self.assumptions, effort)?;
        self.note_needed(system, cube, reply)?;
        self.questions.add(&[outside.opposite()])?;
        Ok(reply)
    }

    // A literal under which the state is outside of a cube.
    fn add_outside(
        &mut self,
        system: &TransitionSystem,
        cube: &[LiteralId],
    ) -> Result<Literal, NoMemory> {
        let outside = self.questions.fresh();
        self.temporaries = self.temporaries.saturating_add(1);
        self.assumptions.clear();
        self.assumptions.push(outside.opposite())?;
        for edge in cube {
            let literal = self.questions.literal(&system.graph, *edge)?;
            self.assumptions.push(literal.opposite())?;
        }
        self.questions.add(&self.assumptions)?;
        Ok(outside)
    }

    fn assume_next(
        &mut self,
        system: &TransitionSystem,
        cube: &[LiteralId],
    ) -> Result<(), NoMemory> {
        for edge in cube {
            let next = system.next_edge(*edge);
            let literal = self.questions.literal(&system.graph, next)?;
            self.assumptions.push(literal)?;
        }
        Ok(())
    }

    // Notes which part of a cube the last refutation used.
    fn note_needed(
        &mut self,
        system: &TransitionSystem,
        cube: &[LiteralId],
        reply: Reply,
    ) -> Result<(), NoMemory> {
        if !reply.is_impossible() {
            return Ok(());
        }
        self.needed.clear();
        let mut is_initial = true;
        for edge in cube {
            let next = system.next_edge(*edge);
            let literal = self.questions.literal(&system.graph, next)?;
            if self.questions.is_core(literal) {
                is_initial = is_initial && system.is_initial(*edge);
                self.needed.push(*edge)?;
            }
        }
        if is_initial {
            self.add_needed(system, cube)?;
        }
        Ok(())
    }

    // Adds a literal of a cube that is false in the first instant to the needed part, in ascending order.
    fn add_needed(
        &mut self,
        system: &TransitionSystem,
        cube: &[LiteralId],
    ) -> Result<(), NoMemory> {
        for edge in cube {
            if !system.is_initial(*edge) {
                self.needed.push(*edge)?;
                sort_by_key(&mut self.needed, &[]);
                return Ok(());
            }
        }
        Ok(())
    }

    /// The negations of the cubes of a level and above, as clauses over nets.
    pub fn invariant(
        &self,
        system: &TransitionSystem,
        level: usize,
    ) -> Result<Vec<Clause>, NoMemory> {
        let mut clauses = Vec::new(self.alloc);
        for place in 0..self.cubes.len() {
            if self.level(place) >= level {
                clauses.push(net_clause(self.alloc, system, self.cube(place))?)?;
            }
        }
        Ok(clauses)
    }
}

fn net_clause(
    alloc: Global,
    system: &TransitionSystem,
    cube: &[LiteralId],
) -> Result<Clause, NoMemory> {
    let mut clause = Vec::with_capacity(alloc, cube.len())?;
    for literal in cube {
        clause.push(system.net_literal(literal.opposite()))?;
    }
    Ok(clause)
}
