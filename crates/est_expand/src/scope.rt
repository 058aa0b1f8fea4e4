// What the names of signals mean at a place.

ghost use Rattle.std.specs.Prelude.{◌≡◌, ◌+◌, ◌<◌, ◌≤◌, ◌^◌, [], ◌∷◌, map, drop, length, OnOk, OnErr};
ghost use Rattle.est_expand.specs.Scopes.{meaning, binding};

use base_types::NoMemory;
use std::alloc::Global;
use std::collections::HashMap;
use std::marker::Model;

/// What a name means: a signal of the whole program, by its number, and whether the module at the place
/// declares it as an input.
#[derive(Clone, Copy)]
pub struct Meaning {
    pub signal: u32,
    pub input: bool,
}

// A name, what it means, and what it meant outside of its binder.
#[derive(Clone, Copy)]
struct Bound<'a> {
    name: &'a [u8],
    meaning: Meaning,
    hidden: Option<Meaning>,
}

/// The names that are visible at a place. A contract sees them with their meanings, the nearest binder first.
/// A name is found by its hash.
#[derive(Drop)]
pub struct Scope<'a> {
    bound: Vec<Bound<'a>>,
    latest: HashMap<&'a [u8], Meaning>,
}

impl<'a> Model for Scope<'a> {
    ghost use Rattle.est_expand.specs.Scopes.{NameScope as Names};

    ghost Value = { Names };

    ghost use Rattle.est_expand.specs.Tables.{names_of, IsKept};

    ghost view = { names_of };

    ghost invariant = { IsKept };
}

impl<'a> Scope<'a> {
    /// No name. It takes no memory.
    pub fn new(alloc: Global) -> Scope<'a>
        ensures { result ≡ [] }
    {
        Scope {
            bound: Vec::new(alloc),
            latest: HashMap::new(alloc),
        }
    }

    /// What the name means, if it is visible.
    pub fn find(&self, name: &[u8]) -> Option<Meaning>
        ensures { result ≡ meaning self.now name.now }
    {
        self.latest.get(name).copied()
    }

    /// Binds a name. Because memory ran out the scope stays as it was.
    pub fn bind(&mut self, name: &'a [u8], meaning: Meaning) -> Result<(), NoMemory>
        ensures bound { OnOk result (self.new ≡ (name.now, meaning) ∷ self.old) }
        ensures err { OnErr result (self.new ≡ self.old) }
    {
        self.bound.reserve(1)?;
        let hidden = self.latest.insert(name, meaning)?;
        self.bound.push(Bound {
            name,
            meaning,
            hidden,
        })?;
        Ok(())
    }

    /// Takes the nearest binder away, where there is one.
    pub fn unbind(&mut self)
        ensures { self.new ≡ drop 1 self.old }
    {
        if let Some(bound) = self.bound.pop() {
            match bound.hidden {
                None => {
                    let _ = self.latest.remove(bound.name);
                }
                // The name is in the table, so this takes no memory.
                Some(meaning) => match self.latest.insert(bound.name, meaning) {
                    Ok(_) => {}
                    Err(_) => {}
                },
            }
        }
    }

    /// Binds names to signals from this number on.
    #[inline(never)]
    pub fn bind_all(&mut self, names: &[&'a [u8]], first: u32, input: bool) -> Result<(), NoMemory>
        requires { first + length names.now < 2 ^ 32 }
        ensures { OnOk result (self.new ≡ binding input (map (λ name. name.now) names.now) first self.old) }
    {
        let mut signal = first;
        for name in names {
            self.bind(name, Meaning { signal, input })?;
            signal += 1;
        }
        Ok(())
    }

    /// Takes this many of the nearest binders away.
    #[inline(never)]
    pub fn unbind_all(&mut self, count: usize)
        ensures { self.new ≡ drop count self.old }
    {
        for _k in 0..count {
            self.unbind();
        }
    }
}
