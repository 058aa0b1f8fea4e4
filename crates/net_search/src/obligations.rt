// Proof obligations: cubes that lead to something bad.

use base_types::NoMemory;
use net_frames::{Questions, TransitionSystem};
use sat_trail::{LiteralId, at, put, small};
use std::alloc::Global;

/// The number of no obligation.
pub(crate) const NONE: u32 = u32::MAX;

#[derive(Clone, Copy)]
struct Obligation {
    start: usize,
    length: usize,
    // The obligation to which the cube leads by one instant.
    after: u32,
}

/// Cubes that lead to something bad, each with the inputs that do so, and the frames that must block them. Those of the
/// lowest frame come first, the last one of these before the others.
#[derive(Drop)]
pub(crate) struct Obligations {
    alloc: Global,
    items: Vec<Obligation>,
    literals: Vec<LiteralId>,
    // The inputs' values, one an input for each obligation.
    inputs: Vec<bool>,
    width: usize,
    // By frame: the obligations that wait.
    waiting: Vec<Vec<u32>>,
}

impl Obligations {
    pub fn new(alloc: Global, system: &TransitionSystem) -> Obligations {
        Obligations {
            alloc,
            items: Vec::new(alloc),
            literals: Vec::new(alloc),
            inputs: Vec::new(alloc),
            width: system.inputs.len(),
            waiting: Vec::new(alloc),
        }
    }

    pub fn clear(&mut self) {
        self.items.clear();
        self.literals.clear();
        self.inputs.clear();
        self.waiting.clear();
    }

    /// Adds an obligation with the inputs' values of the last valuation, and returns its number.
    pub fn add(
        &mut self,
        cube: &[LiteralId],
        questions: &Questions,
        after: u32,
    ) -> Result<u32, NoMemory> {
        let number = small(self.items.len());
        for input in 0..self.width {
            let value = match questions.value(input.saturating_add(1)) {
                Some(value) => value,
                None => false,
            };
            self.inputs.push(value)?;
        }
        let start = self.literals.len();
        self.literals.extend_from_slice(cube)?;
        self.items.push(Obligation {
            start,
            length: cube.len(),
            after,
        })?;
        Ok(number)
    }

    /// Lets an obligation wait for a frame.
    pub fn wait(&mut self, number: u32, frame: usize) -> Result<(), NoMemory> {
        for _ in self.waiting.len()..frame.saturating_add(1) {
            self.waiting.push(Vec::new(self.alloc))?;
        }
        push_at(&mut self.waiting, frame, number)
    }

    /// The next obligation, and its frame.
    pub fn take(&mut self) -> Option<(u32, usize)> {
        for frame in 0..self.waiting.len() {
            if let Some(number) = pop_at(&mut self.waiting, frame) {
                return Some((number, frame));
            }
        }
        None
    }

    fn item(&self, number: u32) -> Obligation {
        let none = Obligation {
            start: 0,
            length: 0,
            after: NONE,
        };
        at(&self.items, number as usize, none)
    }

    /// The cube of an obligation.
    pub fn cube(&self, number: u32) -> &[LiteralId] {
        let item = self.item(number);
        let end = item.start.saturating_add(item.length);
        if item.start <= end && end <= self.literals.len() {
            &self.literals[item.start..end]
        } else {
            &[]
        }
    }

    /// The events that lead from an obligation to something bad.
    pub fn trace(
        &self,
        system: &TransitionSystem,
        number: u32,
    ) -> Result<Vec<Vec<bool>>, NoMemory> {
        let mut events = Vec::new(self.alloc);
        let mut next = number;
        for _ in 0..self.items.len() {
            if next == NONE {
                break;
            }
            events.push(self.event(system, next)?)?;
            next = self.item(next).after;
        }
        Ok(events)
    }

    fn event(&self, system: &TransitionSystem, number: u32) -> Result<Vec<bool>, NoMemory> {
        let first = (number as usize).saturating_mul(self.width);
        let mut values = vec![in self.alloc; false; system.width]?;
        for k in 0..system.inputs.len() {
            let input = at(&system.inputs, k, u32::MAX) as usize;
            put(
                &mut values,
                input,
                at(&self.inputs, first.saturating_add(k), false),
            );
        }
        Ok(values)
    }
}

fn push_at(lists: &mut [Vec<u32>], place: usize, number: u32) -> Result<(), NoMemory> {
    if place < lists.len() {
        lists[place].push(number)?;
    }
    Ok(())
}

fn pop_at(lists: &mut [Vec<u32>], place: usize) -> Option<u32> {
    if place < lists.len() {
        lists[place].pop()
    } else {
        None
    }
}
