// Marks of literals, which are all taken back at once.

use base_types::NoMemory;
use sat_trail::{LiteralId, at, put};
use std::alloc::Global;

#[derive(Drop)]
pub(crate) struct Marks {
    // By literal: the last stamp under which it was marked.
    stamps: Vec<u64>,
    stamp: u64,
}

impl Marks {
    pub fn new(alloc: Global) -> Marks {
        Marks {
            stamps: Vec::new(alloc),
            stamp: 0,
        }
    }

    /// Adds a variable.
    pub fn grow(&mut self) -> Result<(), NoMemory> {
        self.stamps.push(0)?;
        self.stamps.push(0)?;
        Ok(())
    }

    /// Takes back all marks.
    pub fn clear(&mut self) {
        self.stamp = self.stamp.saturating_add(1);
    }

    /// Marks a literal.
    #[inline(always)]
    pub fn mark(&mut self, literal: LiteralId) {
        put(&mut self.stamps, literal.place(), self.stamp);
    }

    #[inline(always)]
    pub fn has(&self, literal: LiteralId) -> bool {
        at(&self.stamps, literal.place(), 0) == self.stamp
    }
}
