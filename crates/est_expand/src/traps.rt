// The traps around a place.

ghost use Rattle.std.specs.Prelude.{◌≡◌, ◌-◌, ◌<◌, ◌^◌, [], ◌∷◌, drop, length, OnOk};
ghost use Rattle.est_expand.specs.Flattening.{traps_between};

use crate::scope::{Meaning, Scope};
use base_types::NoMemory;
use std::alloc::Global;
use std::marker::Model;

/// The traps of a module around a place. A contract sees their names, the nearest first. A trap is found by
/// the hash of its name.
#[derive(Drop)]
pub struct Traps<'a> {
    // Each name with the number of traps around its own.
    around: Scope<'a>,
    count: u32,
}

impl<'a> Model for Traps<'a> {
    ghost use Rattle.std.specs.Prelude.{List, ℕ, map};
    ghost use Rattle.est_expand.specs.Counted.{IsCounted};

    ghost Value = { List (List ℕ) };

    ghost view = { λ t. map (λ b. b.0) t.around };

    ghost invariant = { λ t. IsCounted t.around t.count };
}

impl<'a> Traps<'a> {
    /// No trap. It takes no memory.
    pub fn new(alloc: Global) -> Traps<'a>
        ensures { result ≡ [] }
    {
        Traps {
            around: Scope::new(alloc),
            count: 0,
        }
    }

    /// Enters a trap. Its only error is out of memory.
    #[inline(never)]
    pub fn enter(&mut self, name: &'a [u8]) -> Result<(), NoMemory>
        requires { length self.old < 2 ^ 32 - 1 }
        ensures { OnOk result (self.new ≡ name.now ∷ self.old) }
    {
        let signal = self.count;
        self.around.bind(
            name,
            Meaning {
                signal,
                input: false,
            },
        )?;
        self.count = signal + 1;
        Ok(())
    }

    /// Leaves the nearest trap, where there is one.
    #[inline(never)]
    pub fn leave(&mut self)
        ensures { self.new ≡ drop 1 self.old }
    {
        if self.count > 0 {
            self.around.unbind();
            self.count -= 1;
        }
    }

    /// How many traps stand between the place and the nearest trap of this name, if there is one.
    #[inline(never)]
    pub fn place(&self, name: &[u8]) -> Option<u32>
        ensures { result ≡ traps_between name.now self.now }
    {
        let found = self.around.find(name)?;
        Some(self.count - 1 - found.signal)
    }
}
