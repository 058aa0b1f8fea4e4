// Clauses that others make needless, or shorter.

ghost use Rattle.std.specs.Prelude.{◌≡◌};

use crate::simplifier::Simplifier;
use base_types::NoMemory;
use sat_kernel::{Kernel, Literal, Premise};
use sat_trail::{LiteralId, at};
use std::alloc::Global;

// Longer clauses stay as they are: many clauses share a literal with them, and each comparison looks at all literals.
const LONGEST: u32 = 100;

// What a marked clause makes of another one.
#[derive(Clone, Copy)]
enum Effect {
    Nothing,
    // All marked literals are in the other clause.
    Needless,
    // All are, except for one: its negation is in the other clause, and may go.
    Shorter(LiteralId),
}

impl Simplifier {
    /// Drops and shortens clauses by those that are new.
    pub fn subsume_all(&mut self, kernel: &mut Kernel) -> Result<(), NoMemory>
        ensures { kernel.new.assumed ≡ kernel.old.assumed }
    {
        'fresh: for _ in 0..u64::MAX {
            let Some(clause) = self.parts.fresh.pop() else {
                return Ok(());
            };
            if self.effort > 0 {
                self.subsume_by(kernel, clause)?;
            }
        }
        Ok(())
    }

    // Drops and shortens clauses by this one.
    fn subsume_by(&mut self, kernel: &mut Kernel, clause: u32) -> Result<(), NoMemory>
        ensures { kernel.new.assumed ≡ kernel.old.assumed }
    {
        let Some(rarest) = self.rarest(clause) else {
            return Ok(());
        };
        self.mark_clause(clause, None);
        self.compare_all(kernel, clause, rarest)?;
        self.compare_all(kernel, clause, rarest.opposite())
    }

    // Drops or shortens clauses that have a literal, by the marked one.
    fn compare_all(
        &mut self,
        kernel: &mut Kernel,
        clause: u32,
        literal: LiteralId,
    ) -> Result<(), NoMemory>
        ensures { kernel.new.assumed ≡ kernel.old.assumed }
    {
        'others: for k in 0..self.parts.count_all(literal) {
            let other = self.parts.having(literal, k);
            if other != clause {
                self.compare(kernel, clause, other)?;
            }
        }
        Ok(())
    }

    // The literal of a clause whose variable is in the fewest clauses.
    fn rarest(&self, clause: u32) -> Option<LiteralId> {
        let mut rarest = None;
        let mut least = u64::MAX;
        for literal in self.parts.literals(clause) {
            let positive = self.parts.count(*literal) as u64;
            let count = positive.saturating_add(self.parts.count(literal.opposite()) as u64);
            if count < least {
                least = count;
                rarest = Some(*literal);
            }
        }
        rarest
    }

    /// Marks the literals of a clause, except for one.
    pub fn mark_clause(&mut self, clause: u32, except: Option<LiteralId>) {
        self.marks.clear();
        let length = self.parts.part(clause).length as usize;
        self.spend(length);
        for k in 0..length {
            let literal = at(self.parts.literals(clause), k, LiteralId(u32::MAX));
            if !is_literal(except, literal) {
                self.marks.mark(literal);
            }
        }
    }

    // Drops or shortens a clause by the marked one.
    fn compare(&mut self, kernel: &mut Kernel, clause: u32, other: u32) -> Result<(), NoMemory>
        ensures { kernel.new.assumed ≡ kernel.old.assumed }
    {
        let part = self.parts.part(clause);
        let target = self.parts.part(other);
        self.spend(1);
        if !part.is_live || !target.is_live || part.length > target.length {
            return Ok(());
        }
        if target.length > LONGEST {
            return Ok(());
        }
        if part.summary & !target.summary != 0 {
            return Ok(());
        }
        match self.effect_on(other, part.length) {
            Effect::Nothing => Ok(()),
            Effect::Needless => {
                self.drop_clause(kernel, other);
                Ok(())
            }
            Effect::Shorter(literal) => self.shorten(kernel, part.premise, other, literal),
        }
    }

    // What the marked clause, of this length, makes of another one.
    fn effect_on(&mut self, other: u32, length: u32) -> Effect {
        let mut same: u32 = 0;
        let mut opposite = None;
        let literals = self.parts.literals(other);
        let size = literals.len();
        for literal in literals {
            if self.marks.has(*literal) {
                same = same.saturating_add(1);
            } else if self.marks.has(literal.opposite()) {
                if opposite.is_some() {
                    return Effect::Nothing;
                }
                opposite = Some(*literal);
            }
        }
        self.spend(size);
        match opposite {
            None if same == length => Effect::Needless,
            Some(literal) if same.saturating_add(1) == length && size > 1 => {
                Effect::Shorter(literal)
            }
            _ => Effect::Nothing,
        }
    }

    /// Removes a clause. The kernel forgets it if it was derived.
    pub fn drop_clause(&mut self, kernel: &mut Kernel, clause: u32)
        ensures { kernel.new.assumed ≡ kernel.old.assumed }
    {
        forget(kernel, self.parts.part(clause).premise);
        self.parts.remove(clause);
    }

    // Removes a literal from a clause: another one has its negation, and apart from it a part of the clause's literals.
    fn shorten(
        &mut self,
        kernel: &mut Kernel,
        by: Premise,
        clause: u32,
        literal: LiteralId,
    ) -> Result<(), NoMemory>
        ensures { kernel.new.assumed ≡ kernel.old.assumed }
    {
        let before = self.parts.part(clause).premise;
        let shorter = without(self.alloc, self.parts.literals(clause), literal)?;
        match kernel.derive(self.alloc, &shorter, &[by, before])? {
            Some(premise) => {
                forget(kernel, before);
                self.parts.shorten(clause, literal, premise)
            }
            None => {
                self.refusals = self.refusals.saturating_add(1);
                Ok(())
            }
        }
    }
}

fn is_literal(one: Option<LiteralId>, other: LiteralId) -> bool {
    match one {
        Some(literal) => literal.0 == other.0,
        None => false,
    }
}

// Lets the kernel forget a derived clause.
fn forget(kernel: &mut Kernel, premise: Premise)
    ensures { kernel.new.assumed ≡ kernel.old.assumed }
{
    if let Premise::Derived(place) = premise {
        kernel.forget(place);
    }
}

// The literals of a clause without one of them.
fn without(
    alloc: Global,
    clause: &[LiteralId],
    literal: LiteralId,
) -> Result<Vec<Literal>, NoMemory> {
    let mut literals = Vec::with_capacity(alloc, clause.len())?;
    for other in clause {
        if other.0 != literal.0 {
            literals.push(other.literal())?;
        }
    }
    Ok(literals)
}
