// The elimination of a variable.

ghost use Rattle.std.specs.Prelude.{◌≡◌};

use crate::marks::Marks;
use crate::parts::Parts;
use crate::simplified::Removed;
use crate::simplifier::Simplifier;
use base_types::NoMemory;
use sat_kernel::{Kernel, Literal};
use sat_trail::{LiteralId, at, small};
use std::alloc::Global;

// The longest resolvent.
const LONGEST: usize = 24;

impl Simplifier {
    /// Replaces the clauses of a variable by their resolvents, where these are no more and not too long. It reports
    /// whether it did.
    pub fn eliminate(&mut self, kernel: &mut Kernel, variable: usize) -> Result<bool, NoMemory>
        ensures { kernel.new.assumed ≡ kernel.old.assumed }
    {
        let literal = LiteralId::signed(small(variable), true);
        self.found.clear();
        self.others.clear();
        self.parts.put_having(literal, &mut self.found)?;
        self.parts.put_having(literal.opposite(), &mut self.others)?;
        if !self.resolve_all(literal)? || !self.derive_all(kernel)? {
            return Ok(false);
        }
        self.record(literal)?;
        self.drop_all(kernel);
        self.add_all()?;
        Ok(true)
    }

    // Finds the resolvents of the found clauses with the others. It reports whether they are few and short.
    fn resolve_all(&mut self, literal: LiteralId) -> Result<bool, NoMemory> {
        self.resolvents.clear();
        let most = self.found.len().saturating_add(self.others.len());
        for k in 0..self.found.len() {
            let left = at(&self.found, k, u32::MAX);
            self.mark_clause(left, Some(literal));
            if !self.resolve_with_others(left, literal, most)? {
                return Ok(false);
            }
        }
        Ok(true)
    }

    // Finds the resolvents of the marked clause with the others.
    fn resolve_with_others(
        &mut self,
        left: u32,
        literal: LiteralId,
        most: usize,
    ) -> Result<bool, NoMemory> {
        for k in 0..self.others.len() {
            let right = at(&self.others, k, u32::MAX);
            let start = self.resolvents.literals.len();
            if self.resolve(right, literal)? {
                self.push_others(left, literal)?;
                let length = self.resolvents.literals.len().saturating_sub(start);
                if length == 0 || length > LONGEST || self.resolvents.len() >= most {
                    return Ok(false);
                }
                let left_premise = self.parts.part(left).premise;
                let right_premise = self.parts.part(right).premise;
                self.resolvents.end(start, left_premise, right_premise)?;
            } else {
                self.resolvents.literals.truncate(start);
            }
        }
        Ok(true)
    }

    // Pushes the literals of a clause that are not marked. It reports whether the resolvent with the marked clause is
    // no tautology.
    fn resolve(&mut self, right: u32, literal: LiteralId) -> Result<bool, NoMemory> {
        let length = self.parts.part(right).length as usize;
        self.spend(length);
        put_unmarked(
            &mut self.resolvents.literals,
            self.parts.literals(right),
            &self.marks,
            literal.opposite(),
        )
    }

    // Pushes the literals of the marked clause.
    fn push_others(&mut self, left: u32, literal: LiteralId) -> Result<(), NoMemory> {
        for other in self.parts.literals(left) {
            if other.0 != literal.0 {
                self.resolvents.literals.push(*other)?;
            }
        }
        Ok(())
    }

    // Derives the resolvents. It reports whether the kernel took all.
    fn derive_all(&mut self, kernel: &mut Kernel) -> Result<bool, NoMemory>
        ensures { kernel.new.assumed ≡ kernel.old.assumed }
    {
        'resolvents: for place in 0..self.resolvents.len() {
            if !self.derive_at(kernel, place)? {
                self.refusals = self.refusals.saturating_add(1);
                return Ok(false);
            }
        }
        Ok(true)
    }

    fn derive_at(&mut self, kernel: &mut Kernel, place: usize) -> Result<bool, NoMemory>
        ensures { kernel.new.assumed ≡ kernel.old.assumed }
    {
        let resolvent = self.resolvents.resolvent(place);
        let clause = plain(self.alloc, self.resolvents.literals_of(resolvent))?;
        let hints = [resolvent.left, resolvent.right];
        match kernel.derive(self.alloc, &clause, &hints)? {
            Some(premise) => {
                self.resolvents.derive(place, premise);
                Ok(true)
            }
            None => Ok(false),
        }
    }

    // Notes the clauses of the smaller side, from which the value of the variable is found later.
    fn record(&mut self, literal: LiteralId) -> Result<(), NoMemory> {
        if self.found.len() <= self.others.len() {
            record_side(&mut self.removed, &self.parts, literal, &self.found)
        } else {
            record_side(
                &mut self.removed,
                &self.parts,
                literal.opposite(),
                &self.others,
            )
        }
    }

    fn drop_all(&mut self, kernel: &mut Kernel)
        ensures { kernel.new.assumed ≡ kernel.old.assumed }
    {
        'left: for k in 0..self.found.len() {
            let clause = at(&self.found, k, u32::MAX);
            self.drop_clause(kernel, clause);
        }
        'right: for k in 0..self.others.len() {
            let clause = at(&self.others, k, u32::MAX);
            self.drop_clause(kernel, clause);
        }
    }

    // Adds the resolvents to the clauses.
    fn add_all(&mut self) -> Result<(), NoMemory> {
        for place in 0..self.resolvents.len() {
            let resolvent = self.resolvents.resolvent(place);
            if let Some(premise) = resolvent.premise {
                self.parts
                    .add(self.resolvents.literals_of(resolvent), premise)?;
            }
        }
        Ok(())
    }
}

// Adds the literals of a clause to a list that are not marked, except for one. It reports whether no negation of them
// is marked.
fn put_unmarked(
    list: &mut Vec<LiteralId>,
    clause: &[LiteralId],
    marks: &Marks,
    except: LiteralId,
) -> Result<bool, NoMemory> {
    for literal in clause {
        if literal.0 != except.0 {
            if marks.has(literal.opposite()) {
                return Ok(false);
            }
            if !marks.has(*literal) {
                list.push(*literal)?;
            }
        }
    }
    Ok(true)
}

// Notes clauses, each of which has this literal. Where none needs it, its negation is true.
fn record_side(
    removed: &mut Removed,
    parts: &Parts,
    literal: LiteralId,
    clauses: &[u32],
) -> Result<(), NoMemory> {
    for clause in clauses {
        removed.put(literal, parts.literals(*clause))?;
    }
    removed.put(literal.opposite(), &[])
}

fn plain(alloc: Global, clause: &[LiteralId]) -> Result<Vec<Literal>, NoMemory> {
    let mut literals = Vec::with_capacity(alloc, clause.len())?;
    for literal in clause {
        literals.push(literal.literal())?;
    }
    Ok(literals)
}
