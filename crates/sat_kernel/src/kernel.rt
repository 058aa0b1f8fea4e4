// The kernel: clauses that were assumed, and clauses that follow from them.

ghost use Rattle.std.specs.Prelude.{◌≡◌, [], ◌∷◌, ◌++◌, ◌&&◌, if◌then◌else◌, Some, None, length, ltb, slice_set};
ghost use Rattle.std.specs.Prelude.{IsTrue, IfOk, OnOk, OnErr};
ghost use Rattle.std.specs.Option.{option_map};
ghost use Rattle.sat_kernel.specs.Clauses.{IsImplied, plain_assumed, plain_derived};
ghost use Rattle.sat_kernel.specs.Propagation.{is_implied_along};
ghost use Rattle.sat_kernel.specs.declared.literals.Premise.TheVariants.{Derived};

use crate::literals::{Clause, Literal, Premise};
use crate::marks::Mark;
use crate::propagation::is_shown;
use base_types::NoMemory;
use std::alloc::Global;
use std::marker::Model;

/// Clauses that were assumed, and clauses that were derived from them. Each derived clause is true wherever all assumed
/// ones are. A contract sees a kernel as `Derivation`.
#[derive(Drop)]
pub struct Kernel {
    assumed: Vec<Clause>,
    derived: Vec<Option<Clause>>,
    // One for each variable. Between two calls all are Unknown.
    marks: Vec<Mark>,
}

impl Model for Kernel {
    ghost use Rattle.sat_kernel.specs.Clauses.{Derivation};

    ghost Value = { Derivation };

    ghost use Rattle.sat_kernel.specs.Kernels.{derivation_of, IsSound};

    ghost view = { derivation_of };

    ghost invariant = { IsSound };
}

impl Kernel {
    /// Assumes these clauses. Propagation never assigns a variable at or above the number `variables`. The only error
    /// is running out of memory.
    pub fn new(alloc: Global, variables: usize, assumed: Vec<Clause>) -> Result<Kernel, NoMemory>
        ensures { IfOk result (λ k. k
            ≡ record { variables = variables; assumed = plain_assumed assumed.items; derived = [] }) }
    {
        Ok(Kernel {
            assumed,
            derived: Vec::new(alloc),
            marks: vec![in alloc; Mark::Unknown; variables]?,
        })
    }

    /// Assumes one more clause. Hints cite it by the number of clauses assumed before it. The only error is running out
    /// of memory.
    pub fn assume(&mut self, clause: Clause) -> Result<(), NoMemory>
        ensures ok { OnOk result (self.new ≡ record self.old { assumed = self.old.assumed ++ clause.items ∷ [] }) }
        ensures err { OnErr result (self.new ≡ self.old) }
    {
        self.assumed.push(clause)?;
        Ok(())
    }

    /// Reports whether unit propagation along the hints shows that the clause follows. It takes no memory. Its time is
    /// linear in the literals of the clause and of the clauses that the hints cite.
    pub fn implies(&mut self, clause: &[Literal], hints: &[Premise]) -> bool
        ensures answer { result ≡ is_implied_along self.old clause.now hints.now }
        ensures follows { IsTrue result → IsImplied self.old.assumed clause.now }
        ensures same { self.new ≡ self.old }
    {
        is_shown(&self.assumed, &self.derived, &mut self.marks, clause, hints)
    }

    /// Derives a clause where propagation along the hints shows that it follows, and returns the premise by which hints
    /// cite it. The only error is running out of memory.
    ///
    /// Example: where the clauses `a or b` and `not b` are assumed, the clause `a` is derived along these two.
    pub fn derive(
        &mut self,
        alloc: Global,
        clause: &[Literal],
        hints: &[Premise],
    ) -> Result<Option<Premise>, NoMemory>
        ensures answer { IfOk result (λ place. place
            ≡ (if is_implied_along self.old clause.now hints.now
            then Some (Derived (length self.old.derived)) else None)) }
        ensures ok { OnOk result (self.new ≡ (if is_implied_along self.old clause.now hints.now
            then record self.old { derived = self.old.derived ++ Some clause.now ∷ [] } else self.old)) }
        ensures err { OnErr result (self.new ≡ self.old) }
    {
        if !self.implies(clause, hints) {
            return Ok(None);
        }
        let place = self.derived.len();
        self.derived.push(Some(copied(alloc, clause)?))?;
        Ok(Some(Premise::Derived(place)))
    }

    /// Derives a clause as `derive` does, but in the place of an earlier derived clause, which can be cited no more. It
    /// reports whether the clause was derived. The only error is running out of memory.
    pub fn derive_at(
        &mut self,
        alloc: Global,
        place: usize,
        clause: &[Literal],
        hints: &[Premise],
    ) -> Result<bool, NoMemory>
        ensures answer { IfOk result (λ derived. derived
            ≡ (ltb place (length self.old.derived) && is_implied_along self.old clause.now hints.now)) }
        ensures ok { OnOk result (self.new
            ≡ (if ltb place (length self.old.derived) && is_implied_along self.old clause.now hints.now
            then record self.old { derived = slice_set self.old.derived place (Some clause.now) } else self.old)) }
        ensures err { OnErr result (self.new ≡ self.old) }
    {
        if place >= self.derived.len() || !self.implies(clause, hints) {
            return Ok(false);
        }
        let copy = copied(alloc, clause)?;
        put(&mut self.derived, place, Some(copy));
        Ok(true)
    }

    /// Forgets a derived clause and frees its memory. It can be cited no more. Without a clause in this place nothing
    /// happens.
    pub fn forget(&mut self, place: usize)
        ensures { self.new ≡ record self.old { derived = slice_set self.old.derived place None } }
    {
        put(&mut self.derived, place, None);
    }
}

// Writes at a place of the list, if there is one.
fn put(derived: &mut [Option<Clause>], place: usize, clause: Option<Clause>)
    ensures { plain_derived derived.new
        ≡ slice_set (plain_derived derived.old) place (option_map (λ c. c.items) clause) }
{
    if place < derived.len() {
        derived[place] = clause;
    }
}

// A copy of a clause.
fn copied(alloc: Global, clause: &[Literal]) -> Result<Clause, NoMemory>
    ensures { IfOk result (λ c. c.items ≡ clause.now) }
{
    let mut copy = Vec::with_capacity(alloc, clause.len())?;
    copy.extend_from_slice(clause)?;
    Ok(copy)
}
