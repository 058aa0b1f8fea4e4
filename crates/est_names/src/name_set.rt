// Sets of names in the order of their insertion.

ghost use Rattle.std.specs.Prelude.{◌≡◌, ◌-◌, ◌<◌, ◌↔◌, [], ◌∷◌, ◌++◌, length, take, IfOk, IfSome, IsTrue, not};
ghost use Rattle.std.specs.Prelude.{if◌then◌else◌};
ghost use Rattle.est_names.specs.Names.{is_among, place_of};

use base_types::{NoMemory, Text};
use indexmap::IndexSet;
use std::alloc::Global;
use std::marker::Model;

/// A set of names, which a contract sees as the list of them in the order of their insertion. Names are
/// found by their hashes.
#[derive(Drop)]
pub struct NameSet<'a> {
    names: IndexSet<&'a [u8]>,
}

impl<'a> Model for NameSet<'a> {
    ghost use Rattle.std.specs.Prelude.{List, ℕ, map};

    ghost Value = { List (List ℕ) };

    ghost view = { λ s. map (λ k. k.now) s.names.keys };
}

impl<'a> NameSet<'a> {
    /// A set without names. It takes no memory.
    pub fn new(alloc: Global) -> NameSet<'a>
        ensures { result ≡ [] }
    {
        NameSet {
            names: IndexSet::new(alloc),
        }
    }

    /// Puts a name in after the others, and answers whether it is new.
    pub fn insert(&mut self, name: &'a [u8]) -> Result<bool, NoMemory>
        ensures new { IfOk result (λ new. new ≡ not (is_among name.now self.old)) }
        ensures names { IfOk result (λ new. self.new ≡ (if new then self.old ++ name.now ∷ [] else self.old)) }
    {
        Ok(self.names.insert(name)?)
    }

    /// Whether the name is one of them.
    pub fn contains(&self, name: &[u8]) -> bool
        ensures { result ≡ is_among name.now self.now }
    {
        self.names.contains(name)
    }

    /// How many names stand before this one, if it is one of them.
    pub fn place(&self, name: &[u8]) -> Option<usize>
        ensures place { result ≡ place_of name.now self.now }
        ensures within { IfSome result (λ place. place < length self.now) }
    {
        self.names.get_index_of(name)
    }

    /// Takes the last name out, where there is one.
    pub fn pop(&mut self)
        ensures { self.new ≡ take (length self.old - 1) self.old }
    {
        let _ = self.names.pop();
    }

    /// The names in their order.
    pub fn texts(&self, alloc: Global) -> Result<Vec<Text>, NoMemory>
        ensures { IfOk result (λ texts. texts.items ≡ self.now) }
    {
        let mut texts = Vec::new(alloc);
        for name in self.names.as_slice() {
            texts.push(Text::from_bytes(alloc, name)?)?;
        }
        Ok(texts)
    }

    /// Whether there is none.
    pub fn is_empty(&self) -> bool
        ensures { IsTrue result ↔ (self.now ≡ []) }
    {
        self.names.is_empty()
    }
}
