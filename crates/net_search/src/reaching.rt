// Property directed reachability.

use crate::candidates::Pair;
use crate::cubes::{copy, copy_without, sort_by_key};
use crate::frames::{FOREVER, Frames};
use crate::lifting::Lifting;
use crate::obligations::{NONE, Obligations};
use base_types::NoMemory;
use net_frames::{Reply, TransitionSystem};
use sat_trail::{LiteralId, at};
use std::alloc::Global;

/// How far the search is.
#[derive(Clone, Copy)]
pub(crate) enum Progress {
    /// There is more to do.
    Open,
    /// The effort was used up.
    Stopped,
    /// This obligation has the first instant's state.
    Reached(u32),
    /// The cubes of this level and above are blocked for ever.
    Closed(usize),
}

/// Property directed reachability (Bradley, "SAT-Based Model Checking without Unrolling"; Eén, Mishchenko and Brayton,
/// "Efficient Implementation of Property Directed Reachability").
#[derive(Drop)]
pub(crate) struct Reaching {
    pub frames: Frames,
    pub obligations: Obligations,
    lifting: Lifting,
    // The cube in hand, what is left of it, the order in which its literals are tried, and a smaller one.
    cube: Vec<LiteralId>,
    kept: Vec<LiteralId>,
    order: Vec<LiteralId>,
    smaller: Vec<LiteralId>,
    targets: Vec<LiteralId>,
}

impl Reaching {
    pub fn new(alloc: Global, system: &TransitionSystem) -> Result<Reaching, NoMemory> {
        Ok(Reaching {
            lifting: Lifting::new(alloc, system)?,
            frames: Frames::new(alloc, system)?,
            obligations: Obligations::new(alloc, system),
            cube: Vec::new(alloc),
            kept: Vec::new(alloc),
            order: Vec::new(alloc),
            smaller: Vec::new(alloc),
            targets: Vec::new(alloc),
        })
    }

    /// Blocks pairs of literals that no run meets.
    pub fn block_pairs(&mut self, pairs: &[Pair]) -> Result<(), NoMemory> {
        for pair in pairs {
            self.kept.clear();
            self.kept.push(pair.first)?;
            if pair.second.0 != pair.first.0 {
                self.kept.push(pair.second)?;
            }
            self.frames.store(&self.kept, FOREVER)?;
        }
        Ok(())
    }

    /// Searches until it has an answer, or the effort is used up. Later calls go on.
    pub fn run(
        &mut self,
        system: &TransitionSystem,
        effort: &mut u64,
    ) -> Result<Progress, NoMemory> {
        for _ in 0..u64::MAX {
            let progress = self.advance(system, effort)?;
            if !is_open(progress) {
                return Ok(progress);
            }
        }
        Ok(Progress::Stopped)
    }

    // Blocks one cube of the last frame with something bad, or adds a frame where there is none.
    fn advance(
        &mut self,
        system: &TransitionSystem,
        effort: &mut u64,
    ) -> Result<Progress, NoMemory> {
        self.frames.renew(system)?;
        let top = self.frames.top();
        match self.frames.ask_edge(system, system.bad, top, effort)? {
            Reply::Unknown => Ok(Progress::Stopped),
            Reply::Impossible => {
                self.frames.add_frame()?;
                self.propagate(system, effort)
            }
            Reply::Possible => {
                self.targets.clear();
                self.targets.push(system.bad)?;
                self.obligations.clear();
                self.add_obligation(system, NONE, top)?;
                self.settle(system, effort)
            }
        }
    }

    // Adds the state of the last valuation, lifted, as an obligation of a frame.
    fn add_obligation(
        &mut self,
        system: &TransitionSystem,
        after: u32,
        frame: usize,
    ) -> Result<(), NoMemory> {
        self.lifting.lift(
            system,
            &self.frames.questions,
            &self.targets,
            &mut self.smaller,
        )?;
        let number = self
            .obligations
            .add(&self.smaller, &self.frames.questions, after)?;
        self.obligations.wait(number, frame)
    }

    // Takes obligations until none is left.
    fn settle(
        &mut self,
        system: &TransitionSystem,
        effort: &mut u64,
    ) -> Result<Progress, NoMemory> {
        for _ in 0..u64::MAX {
            self.frames.renew(system)?;
            let Some((number, frame)) = self.obligations.take() else {
                return Ok(Progress::Open);
            };
            let progress = self.settle_one(system, number, frame, effort)?;
            if !is_open(progress) {
                return Ok(progress);
            }
        }
        Ok(Progress::Stopped)
    }

    fn settle_one(
        &mut self,
        system: &TransitionSystem,
        number: u32,
        frame: usize,
        effort: &mut u64,
    ) -> Result<Progress, NoMemory> {
        copy(self.obligations.cube(number), &mut self.cube)?;
        if frame == 0 || system.has_initial(&self.cube) {
            return Ok(Progress::Reached(number));
        }
        if self.frames.is_covered(&self.cube, frame) {
            self.postpone(number, frame)?;
            return Ok(Progress::Open);
        }
        let before = frame.saturating_sub(1);
        match self.frames.ask_into(system, &self.cube, before, effort)? {
            Reply::Unknown => Ok(Progress::Stopped),
            Reply::Possible => {
                self.set_targets(system)?;
                self.obligations.wait(number, frame)?;
                self.add_obligation(system, number, before)?;
                Ok(Progress::Open)
            }
            Reply::Impossible => self.generalize(system, number, frame, effort),
        }
    }

    // An obligation that is met in this frame waits for the next one.
    fn postpone(&mut self, number: u32, frame: usize) -> Result<(), NoMemory> {
        if frame < self.frames.top() {
            self.obligations.wait(number, frame.saturating_add(1))?;
        }
        Ok(())
    }

    // The edges that are true where the next state is in the cube.
    fn set_targets(&mut self, system: &TransitionSystem) -> Result<(), NoMemory> {
        self.targets.clear();
        for literal in &self.cube {
            self.targets.push(system.next_edge(*literal))?;
        }
        Ok(())
    }

    // Drops literals of the needed part of a cube that is not reached, and blocks it in all frames in which it can be.
    fn generalize(
        &mut self,
        system: &TransitionSystem,
        number: u32,
        frame: usize,
        effort: &mut u64,
    ) -> Result<Progress, NoMemory> {
        copy(&self.frames.needed, &mut self.kept)?;
        let before = frame.saturating_sub(1);
        if !self.drop_literals(system, before, effort)? {
            return Ok(Progress::Stopped);
        }
        let level = self.last_level(system, frame, effort)?;
        self.frames.block(system, &self.kept, level)?;
        self.postpone(number, level)?;
        Ok(Progress::Open)
    }

    // Tries each literal, those in few cubes first. It reports whether the effort was enough.
    fn drop_literals(
        &mut self,
        system: &TransitionSystem,
        before: usize,
        effort: &mut u64,
    ) -> Result<bool, NoMemory> {
        copy(&self.kept, &mut self.order)?;
        sort_by_key(&mut self.order, &self.frames.activities);
        for k in 0..self.order.len() {
            let literal = at(&self.order, k, LiteralId(0));
            copy_without(&self.kept, literal, &mut self.smaller)?;
            if self.smaller.len() < self.kept.len() && !system.has_initial(&self.smaller) {
                match self.frames.ask_into(system, &self.smaller, before, effort)? {
                    Reply::Unknown => return Ok(false),
                    Reply::Impossible => copy(&self.frames.needed, &mut self.kept)?,
                    Reply::Possible => {}
                }
            }
        }
        Ok(true)
    }

    // The last frame in which the kept cube can be blocked.
    fn last_level(
        &mut self,
        system: &TransitionSystem,
        frame: usize,
        effort: &mut u64,
    ) -> Result<usize, NoMemory> {
        for level in frame..self.frames.top() {
            match self.frames.ask_into(system, &self.kept, level, effort)? {
                Reply::Impossible => {}
                Reply::Possible | Reply::Unknown => return Ok(level),
            }
        }
        Ok(self.frames.top().max(frame))
    }

    // Moves cubes to later frames. Where none is left of a level, those above it are blocked for ever.
    fn propagate(
        &mut self,
        system: &TransitionSystem,
        effort: &mut u64,
    ) -> Result<Progress, NoMemory> {
        for level in 1..self.frames.top() {
            self.frames.renew(system)?;
            let mut is_left = false;
            for place in 0..self.frames.len() {
                if self.frames.level(place) == level {
                    match self.propagate_one(system, place, level, effort)? {
                        Reply::Unknown => return Ok(Progress::Stopped),
                        Reply::Possible => is_left = true,
                        Reply::Impossible => {}
                    }
                }
            }
            if !is_left {
                return Ok(Progress::Closed(level.saturating_add(1)));
            }
        }
        Ok(Progress::Open)
    }

    fn propagate_one(
        &mut self,
        system: &TransitionSystem,
        place: usize,
        level: usize,
        effort: &mut u64,
    ) -> Result<Reply, NoMemory> {
        copy(self.frames.cube(place), &mut self.cube)?;
        let reply = self.frames.ask_next(system, &self.cube, level, effort)?;
        if reply.is_impossible() {
            copy(&self.frames.needed, &mut self.kept)?;
            self.frames
                .block(system, &self.kept, level.saturating_add(1))?;
        }
        Ok(reply)
    }
}

fn is_open(progress: Progress) -> bool {
    match progress {
        Progress::Open => true,
        Progress::Stopped | Progress::Reached(_) | Progress::Closed(_) => false,
    }
}
