// Resolvents, one after another in a list.

use base_types::NoMemory;
use sat_kernel::Premise;
use sat_trail::{LiteralId, at, put};
use std::alloc::Global;

/// A resolvent: where its literals are, and the premises of the two clauses that it is of.
#[derive(Clone, Copy)]
pub(crate) struct Resolvent {
    pub start: usize,
    pub end: usize,
    pub left: Premise,
    pub right: Premise,
    /// The premise of the resolvent, as soon as the kernel knows it.
    pub premise: Option<Premise>,
}

#[derive(Drop)]
pub(crate) struct Resolvents {
    pub literals: Vec<LiteralId>,
    resolvents: Vec<Resolvent>,
}

impl Resolvents {
    pub fn new(alloc: Global) -> Resolvents {
        Resolvents {
            literals: Vec::new(alloc),
            resolvents: Vec::new(alloc),
        }
    }

    pub fn clear(&mut self) {
        self.literals.clear();
        self.resolvents.clear();
    }

    pub fn len(&self) -> usize {
        self.resolvents.len()
    }

    /// The resolvent at a place. Past the end it has no literals.
    pub fn resolvent(&self, place: usize) -> Resolvent {
        let none = Resolvent {
            start: 0,
            end: 0,
            left: Premise::Assumed(usize::MAX),
            right: Premise::Assumed(usize::MAX),
            premise: None,
        };
        at(&self.resolvents, place, none)
    }

    /// The literals of a resolvent.
    pub fn literals_of(&self, resolvent: Resolvent) -> &[LiteralId] {
        if resolvent.start <= resolvent.end && resolvent.end <= self.literals.len() {
            &self.literals[resolvent.start..resolvent.end]
        } else {
            &[]
        }
    }

    /// Ends a resolvent, whose literals were pushed from `start` on.
    pub fn end(&mut self, start: usize, left: Premise, right: Premise) -> Result<(), NoMemory> {
        let end = self.literals.len();
        self.resolvents.push(Resolvent {
            start,
            end,
            left,
            right,
            premise: None,
        })?;
        Ok(())
    }

    /// Notes the premise of a resolvent.
    pub fn derive(&mut self, place: usize, premise: Premise) {
        let mut resolvent = self.resolvent(place);
        resolvent.premise = Some(premise);
        put(&mut self.resolvents, place, resolvent);
    }
}
