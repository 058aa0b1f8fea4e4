// The state of a simplification, and its rounds.

ghost use Rattle.std.specs.Prelude.{◌≡◌};

use crate::marks::Marks;
use crate::parts::Parts;
use crate::resolvents::Resolvents;
use crate::simplified::{Removed, Simplified, unchanged};
use base_types::NoMemory;
use sat_kernel::{Clause, Kernel, Literal, Premise};
use sat_trail::{LiteralId, at, put, small};
use std::alloc::Global;

// The variables are below this number.
const VARIABLES: u32 = 0x1000_0000;

// The most rounds over all variables.
const ROUNDS: u32 = 12;

// The effort: a part for each literal, and one for all.
const EFFORT_EACH: u64 = 400;

const EFFORT: u64 = 4_000_000;

/// The clauses and what was made of them.
#[derive(Drop)]
pub(crate) struct Simplifier {
    pub alloc: Global,
    pub parts: Parts,
    // By variable: whether it must stay.
    is_kept: Vec<bool>,
    pub marks: Marks,
    pub effort: u64,
    pub found: Vec<u32>,
    pub others: Vec<u32>,
    pub resolvents: Resolvents,
    pub removed: Removed,
    pub refusals: u64,
}

/// Simplifies clauses that the kernel assumes in this order. The variables of `kept` stay, so that later clauses and
/// assumptions may have them. A variable of 2^28 or more leaves all clauses as they are. The only error is running out
/// of memory.
pub fn simplified_clauses(
    alloc: Global,
    kernel: &mut Kernel,
    clauses: &[Clause],
    kept: &[Literal],
) -> Result<Simplified, NoMemory>
    ensures { kernel.new.assumed ≡ kernel.old.assumed }
{
    let mut work = Box::new(alloc, Simplifier::new(alloc))?;
    if !work.take(clauses, kept)? {
        return unchanged(alloc, clauses);
    }
    work.run(kernel)?;
    work.finish()
}

impl Simplifier {
    fn new(alloc: Global) -> Simplifier {
        Simplifier {
            alloc,
            parts: Parts::new(alloc),
            is_kept: Vec::new(alloc),
            marks: Marks::new(alloc),
            effort: 0,
            found: Vec::new(alloc),
            others: Vec::new(alloc),
            resolvents: Resolvents::new(alloc),
            removed: Removed::new(alloc),
            refusals: 0,
        }
    }

    // Takes up the clauses. It reports whether all variables are small enough.
    fn take(&mut self, clauses: &[Clause], kept: &[Literal]) -> Result<bool, NoMemory> {
        let end = end_of(clauses);
        if end > VARIABLES {
            return Ok(false);
        }
        for _ in 0..end {
            self.grow()?;
        }
        for literal in kept {
            put(&mut self.is_kept, literal.variable as usize, true);
        }
        for place in 0..clauses.len() {
            self.enter(&clauses[place], Premise::Assumed(place))?;
        }
        let size = self.parts.size() as u64;
        self.effort = size.saturating_mul(EFFORT_EACH).saturating_add(EFFORT);
        Ok(true)
    }

    // Adds a variable.
    fn grow(&mut self) -> Result<(), NoMemory> {
        let alloc = self.alloc;
        self.parts.grow(alloc)?;
        self.is_kept.push(false)?;
        self.marks.grow()
    }

    // Adds a clause, each literal once, unless it is a tautology.
    fn enter(&mut self, clause: &[Literal], premise: Premise) -> Result<(), NoMemory> {
        self.marks.clear();
        let mut literals = Vec::with_capacity(self.alloc, clause.len())?;
        for literal in clause {
            let number = LiteralId::of(*literal);
            if self.marks.has(number.opposite()) {
                return Ok(());
            }
            if !self.marks.has(number) {
                self.marks.mark(number);
                literals.push(number)?;
            }
        }
        self.parts.add(&literals, premise)
    }

    /// Takes from the effort.
    #[inline(always)]
    pub fn spend(&mut self, work: usize) {
        self.effort = self.effort.saturating_sub(work as u64).saturating_sub(1);
    }

    // Simplifies until nothing changes, or the effort is used up.
    fn run(&mut self, kernel: &mut Kernel) -> Result<(), NoMemory>
        ensures { kernel.new.assumed ≡ kernel.old.assumed }
    {
        self.subsume_all(kernel)?;
        'rounds: for _ in 0..ROUNDS {
            if !self.round(kernel)? {
                return Ok(());
            }
        }
        Ok(())
    }

    // Tries the variables whose clauses changed, those with few clauses first. It reports whether one was eliminated.
    fn round(&mut self, kernel: &mut Kernel) -> Result<bool, NoMemory>
        ensures { kernel.new.assumed ≡ kernel.old.assumed }
    {
        let mut is_changed = false;
        'bounds: for step in 0..8u32 {
            let bound = 1_u64 << (2 * step);
            if self.pass(kernel, bound)? {
                is_changed = true;
            }
        }
        Ok(is_changed)
    }

    // Tries the variables with at most this many pairs of clauses.
    fn pass(&mut self, kernel: &mut Kernel, bound: u64) -> Result<bool, NoMemory>
        ensures { kernel.new.assumed ≡ kernel.old.assumed }
    {
        let mut is_changed = false;
        'variables: for variable in 0..self.parts.variables() {
            if self.is_candidate(variable, bound) && self.eliminate(kernel, variable)? {
                self.subsume_all(kernel)?;
                is_changed = true;
            }
        }
        Ok(is_changed)
    }

    fn is_candidate(&mut self, variable: usize, bound: u64) -> bool {
        if self.effort == 0 || at(&self.is_kept, variable, true) {
            return false;
        }
        let literal = LiteralId::signed(small(variable), true);
        let positive = self.parts.count(literal) as u64;
        let negative = self.parts.count(literal.opposite()) as u64;
        positive.saturating_mul(negative) <= bound
            && positive.saturating_add(negative) > 0
            && self.parts.take_change(variable)
    }
}

// The number past the greatest variable.
fn end_of(clauses: &[Clause]) -> u32 {
    let mut end: u32 = 0;
    for clause in clauses {
        for literal in clause {
            end = end.max(literal.variable.saturating_add(1));
        }
    }
    end
}
