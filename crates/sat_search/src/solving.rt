// Questions: whether a valuation meets the clauses and assumptions.

ghost use Rattle.std.specs.Prelude.{◌≡◌, IfOk, IfSome, map};
ghost use Rattle.sat_kernel.specs.Clauses.{opposite};
ghost use Rattle.sat_search.specs.Answers.{IsAnswer};

use crate::outcomes::{Refutation, SearchOutcome};
use crate::search::Search;
use base_types::NoMemory;
use sat_kernel::{Kernel, Literal, Premise};
use sat_trail::{LiteralId, Reason, Stored, Truth, at, put};
use std::alloc::Global;

// The effort of a first look at a question.
const RUSH: u64 = 400;

// What to do where propagation has ended without a conflict.
#[derive(Clone, Copy)]
enum Step {
    Decide(LiteralId),
    // The next assumption is true already.
    Skip,
    // The next assumption is false.
    Fails(LiteralId),
    // All variables of clauses are assigned.
    Done,
}

impl Search {
    /// Looks for a valuation that meets the clauses and the assumptions. Visited watches, decisions and analysed
    /// variables count as effort. The only error is running out of memory, after which each answer is Unknown.
    pub fn solve(
        &mut self,
        kernel: &mut Kernel,
        assumptions: &[Literal],
        effort: u64,
    ) -> Result<SearchOutcome, NoMemory>
        ensures assumed { kernel.new.assumed ≡ kernel.old.assumed }
        ensures answer { IfOk result (IsAnswer kernel.new assumptions.now) }
    {
        self.effort = effort;
        if self.unsure {
            return Ok(SearchOutcome::Unknown);
        }
        self.unsure = true;
        if !self.reach(assumptions)? {
            self.unsure = false;
            return Ok(SearchOutcome::Unknown);
        }
        self.share_assumptions(assumptions)?;
        let outcome = self.answer(kernel, assumptions)?;
        let kept = if is_unknown(&outcome) {
            0
        } else {
            assumptions.len()
        };
        self.backtrack(kept)?;
        self.unsure = false;
        Ok(outcome)
    }

    // Takes back the levels of the last question after the assumptions that both questions begin with.
    fn share_assumptions(&mut self, assumptions: &[Literal]) -> Result<(), NoMemory> {
        let shared = shared_length(&self.assumptions, assumptions);
        self.backtrack(shared)?;
        self.assumptions.clear();
        self.assumptions.extend_from_slice(assumptions)?;
        Ok(())
    }

    /// Lets the kernel forget the clause of an answer, so that many questions do not fill its memory. A clause that was
    /// added under the same premise must not be used any more. The only error is running out of memory.
    pub fn release(&mut self, kernel: &mut Kernel, refutation: Refutation) -> Result<(), NoMemory>
        ensures { kernel.new.assumed ≡ kernel.old.assumed }
    {
        if let Premise::Derived(place) = refutation.premise {
            kernel.forget(place);
            self.vacant.push(place)?;
        }
        Ok(())
    }

    fn answer(
        &mut self,
        kernel: &mut Kernel,
        assumptions: &[Literal],
    ) -> Result<SearchOutcome, NoMemory>
        ensures assumed { kernel.new.assumed ≡ kernel.old.assumed }
        ensures answer { IfOk result (IsAnswer kernel.new assumptions.now) }
    {
        if let Some(clause) = self.broken {
            return Ok(self.refute(kernel, assumptions, clause)?);
        }
        if self.trail.level() == 0 {
            if let Some(outcome) = self.rush(kernel, assumptions)? {
                return Ok(outcome);
            }
        }
        'rounds: for _ in 0..u64::MAX {
            self.restarts.begin();
            if let Some(outcome) = self.run(kernel, assumptions)? {
                return Ok(outcome);
            }
            self.restart(kernel, assumptions.len())?;
        }
        Ok(SearchOutcome::Unknown)
    }

    // Assumes all at one level, and propagates a little: where a contradiction is near, it is found before what one
    // assumption forces elsewhere.
    fn rush(
        &mut self,
        kernel: &mut Kernel,
        assumptions: &[Literal],
    ) -> Result<Option<SearchOutcome>, NoMemory>
        ensures assumed { kernel.new.assumed ≡ kernel.old.assumed }
        ensures answer { IfOk result (λ o. IfSome o (IsAnswer kernel.new assumptions.now)) }
    {
        if let Some(conflict) = self.propagate()? {
            self.broken = Some(conflict);
            return Ok(Some(self.refute(kernel, assumptions, conflict)?));
        }
        if !self.fix_units(kernel)? {
            return Ok(Some(SearchOutcome::Unknown));
        }
        let found = self.near_conflict(assumptions)?;
        let Some(conflict) = found else {
            self.backtrack(0)?;
            return Ok(None);
        };
        self.evidence
            .explain_conflict(&self.trail, &self.store, &self.units, &[], conflict)?;
        let clause = opposites(self.alloc, &self.evidence.core)?;
        let outcome = self.refuted(kernel, assumptions, clause)?;
        self.backtrack(0)?;
        Ok(Some(outcome))
    }

    // Opens a level with all assumptions, and returns a clause that becomes false by a little propagation.
    fn near_conflict(&mut self, assumptions: &[Literal]) -> Result<Option<u32>, NoMemory> {
        self.trail.open_level()?;
        for assumption in assumptions {
            let literal = LiteralId::of(*assumption);
            if self.trail.is_false(literal) {
                return Ok(None);
            }
            if self.trail.is_open(literal) {
                self.trail.assign(literal, Reason::Decision)?;
            }
        }
        let given = self.effort.min(RUSH);
        let rest = self.effort.saturating_sub(given);
        self.effort = given;
        let conflict = self.propagate()?;
        self.effort = self.effort.saturating_add(rest);
        Ok(conflict)
    }

    // Searches until a restart is due.
    fn run(
        &mut self,
        kernel: &mut Kernel,
        assumptions: &[Literal],
    ) -> Result<Option<SearchOutcome>, NoMemory>
        ensures assumed { kernel.new.assumed ≡ kernel.old.assumed }
        ensures answer { IfOk result (λ o. IfSome o (IsAnswer kernel.new assumptions.now)) }
    {
        'steps: for _ in 0..u64::MAX {
            if self.effort == 0 {
                return Ok(Some(SearchOutcome::Unknown));
            }
            if let Some(conflict) = self.propagate()? {
                if let Some(outcome) = self.resolve(kernel, assumptions, conflict)? {
                    return Ok(Some(outcome));
                }
            } else {
                if self.effort == 0 {
                    return Ok(Some(SearchOutcome::Unknown));
                }
                if self.restarts.is_due() {
                    return Ok(None);
                }
                if let Some(outcome) = self.advance(kernel, assumptions)? {
                    return Ok(Some(outcome));
                }
            }
        }
        Ok(Some(SearchOutcome::Unknown))
    }

    // Learns from a conflict. At level 0 no valuation is left.
    fn resolve(
        &mut self,
        kernel: &mut Kernel,
        assumptions: &[Literal],
        conflict: u32,
    ) -> Result<Option<SearchOutcome>, NoMemory>
        ensures assumed { kernel.new.assumed ≡ kernel.old.assumed }
        ensures answer { IfOk result (λ o. IfSome o (IsAnswer kernel.new assumptions.now)) }
    {
        if self.trail.level() == 0 {
            self.broken = Some(conflict);
            return Ok(Some(self.refute(kernel, assumptions, conflict)?));
        }
        self.conflicts = self.conflicts.saturating_add(1);
        if self.learn(kernel, conflict)? {
            Ok(None)
        } else {
            Ok(Some(SearchOutcome::Unknown))
        }
    }

    // Makes the next decision.
    fn advance(
        &mut self,
        kernel: &mut Kernel,
        assumptions: &[Literal],
    ) -> Result<Option<SearchOutcome>, NoMemory>
        ensures assumed { kernel.new.assumed ≡ kernel.old.assumed }
        ensures answer { IfOk result (λ o. IfSome o (IsAnswer kernel.new assumptions.now)) }
    {
        if self.trail.level() == 0 && !self.fix_units(kernel)? {
            return Ok(Some(SearchOutcome::Unknown));
        }
        match self.next_step(assumptions) {
            Step::Decide(literal) => {
                self.effort = self.effort.saturating_sub(1);
                self.trail.open_level()?;
                self.trail.assign(literal, Reason::Decision)?;
                Ok(None)
            }
            Step::Skip => {
                self.trail.open_level()?;
                Ok(None)
            }
            Step::Fails(literal) => Ok(Some(self.fail(kernel, assumptions, literal)?)),
            Step::Done => Ok(Some(SearchOutcome::Satisfiable(self.valuation()?))),
        }
    }

    fn next_step(&mut self, assumptions: &[Literal]) -> Step {
        let level = self.trail.level();
        if level < assumptions.len() {
            let literal = LiteralId::of(assumptions[level]);
            return match self.trail.truth(literal) {
                Truth::Open => Step::Decide(literal),
                Truth::True => Step::Skip,
                Truth::False => Step::Fails(literal),
            };
        }
        for _ in 0..self.trail.variables().saturating_add(1) {
            let Some(variable) = self.order.pop() else {
                return Step::Done;
            };
            let sign = at(&self.signs, variable as usize, false);
            let literal = LiteralId::signed(variable, sign);
            if self.is_used(literal) && self.trail.is_open(literal) {
                return Step::Decide(literal);
            }
        }
        Step::Done
    }

    // Learns from a conflict above level 0. It reports whether the kernel took the clause.
    fn learn(&mut self, kernel: &mut Kernel, conflict: u32) -> Result<bool, NoMemory>
        ensures { kernel.new.assumed ≡ kernel.old.assumed }
    {
        self.analysis
            .learn(&self.trail, &mut self.store, &mut self.order, conflict)?;
        self.evidence.explain_conflict(
            &self.trail,
            &self.store,
            &self.units,
            &self.analysis.learned,
            conflict,
        )?;
        let work = self.analysis.work() as u64;
        self.effort = self.effort.saturating_sub(work);
        let clause = plain_literals(self.alloc, &self.analysis.learned)?;
        let Some(premise) = self.derive(kernel, &clause)? else {
            return Ok(false);
        };
        self.keep_learned(premise)?;
        self.order.age();
        Ok(true)
    }

    // Derives a clause from the hints of the evidence, in the place of a forgotten one where there is one.
    fn derive(
        &mut self,
        kernel: &mut Kernel,
        clause: &[Literal],
    ) -> Result<Option<Premise>, NoMemory>
        ensures { kernel.new.assumed ≡ kernel.old.assumed }
    {
        let Some(place) = self.vacant.pop() else {
            let premise = kernel.derive(self.alloc, clause, &self.evidence.hints)?;
            self.count_refusal(premise.is_none());
            return Ok(premise);
        };
        let is_derived = kernel.derive_at(self.alloc, place, clause, &self.evidence.hints)?;
        self.count_refusal(!is_derived);
        Ok(if is_derived {
            Some(Premise::Derived(place))
        } else {
            None
        })
    }

    fn count_refusal(&mut self, is_refused: bool) {
        if is_refused {
            self.refusals = self.refusals.saturating_add(1);
        }
    }

    // Stores the learned clause, and makes its first literal true.
    fn keep_learned(&mut self, premise: Premise) -> Result<(), NoMemory> {
        let spread = self.analysis.spread(&self.trail);
        self.restarts.note(spread);
        let level = self.analysis.level_to_keep(&self.trail);
        let first = at(&self.analysis.learned, 0, LiteralId(0));
        self.backtrack(level)?;
        if self.analysis.learned.len() < 2 {
            put(&mut self.units, first.variable(), Some(premise));
            return self.trail.assign(first, Reason::Decision);
        }
        let stored = Stored::learned(premise, spread);
        let clause = self.store.keep(stored, &self.analysis.learned)?;
        self.store.watch(clause)?;
        self.trail.assign(first, Reason::Clause(clause))
    }

    // Derives the unit clauses of the literals of level 0. It reports whether the kernel took them.
    fn fix_units(&mut self, kernel: &mut Kernel) -> Result<bool, NoMemory>
        ensures { kernel.new.assumed ≡ kernel.old.assumed }
    {
        'units: for place in self.fixed..self.trail.len() {
            let literal = self.trail.literal(place);
            if at(&self.units, literal.variable(), None).is_none() && !self.fix(kernel, literal)? {
                return Ok(false);
            }
            self.fixed = place.saturating_add(1);
        }
        Ok(true)
    }

    fn fix(&mut self, kernel: &mut Kernel, literal: LiteralId) -> Result<bool, NoMemory>
        ensures { kernel.new.assumed ≡ kernel.old.assumed }
    {
        let Reason::Clause(clause) = self.trail.reason_of(literal.variable()) else {
            return Ok(false);
        };
        self.evidence
            .explain_conflict(&self.trail, &self.store, &self.units, &[literal], clause)?;
        let unit = self.derive(kernel, &[literal.literal()])?;
        put(&mut self.units, literal.variable(), unit);
        Ok(unit.is_some())
    }

    // All literals of a clause are false at level 0.
    fn refute(
        &mut self,
        kernel: &mut Kernel,
        assumptions: &[Literal],
        conflict: u32,
    ) -> Result<SearchOutcome, NoMemory>
        ensures assumed { kernel.new.assumed ≡ kernel.old.assumed }
        ensures answer { IfOk result (IsAnswer kernel.new assumptions.now) }
    {
        if !self.fix_units(kernel)? {
            return Ok(SearchOutcome::Unknown);
        }
        self.evidence
            .explain_conflict(&self.trail, &self.store, &self.units, &[], conflict)?;
        let clause = Vec::new(self.alloc);
        Ok(self.refuted(kernel, assumptions, clause)?)
    }

    // An assumption is false. So it, or one of the decisions that this comes from, is false.
    fn fail(
        &mut self,
        kernel: &mut Kernel,
        assumptions: &[Literal],
        literal: LiteralId,
    ) -> Result<SearchOutcome, NoMemory>
        ensures assumed { kernel.new.assumed ≡ kernel.old.assumed }
        ensures answer { IfOk result (IsAnswer kernel.new assumptions.now) }
    {
        self.evidence
            .explain_literal(&self.trail, &self.store, &self.units, literal)?;
        let clause = blamed(self.alloc, literal, &self.evidence.core)?;
        if clause.is_empty() {
            return Ok(SearchOutcome::Contradicting(literal.literal()));
        }
        Ok(self.refuted(kernel, assumptions, clause)?)
    }

    // Answers with a clause of negated assumptions.
    fn refuted(
        &mut self,
        kernel: &mut Kernel,
        assumptions: &[Literal],
        clause: Vec<Literal>,
    ) -> Result<SearchOutcome, NoMemory>
        ensures assumed { kernel.new.assumed ≡ kernel.old.assumed }
        ensures answer { IfOk result (IsAnswer kernel.new assumptions.now) }
    {
        let outcome = refuted_by(
            kernel,
            self.alloc,
            assumptions,
            clause,
            &self.evidence.hints,
        )?;
        if !is_unknown(&outcome) {
            return Ok(outcome);
        }
        if let Some(literal) = contradicting(assumptions) {
            return Ok(SearchOutcome::Contradicting(literal));
        }
        self.count_refusal(true);
        Ok(SearchOutcome::Unknown)
    }

    // Begins again after the assumptions, and forgets clauses now and then.
    fn restart(&mut self, kernel: &mut Kernel, assumed: usize) -> Result<(), NoMemory>
        ensures { kernel.new.assumed ≡ kernel.old.assumed }
    {
        if !self.is_reduction_due() {
            return self.backtrack(assumed);
        }
        self.backtrack(0)?;
        if self.fixed < self.trail.len() {
            return Ok(());
        }
        let gone = self.store.reduce(self.alloc)?;
        forget_all(kernel, &gone);
        self.vacant.extend_from_slice(&gone)?;
        Ok(())
    }
}

fn is_unknown(outcome: &SearchOutcome) -> bool {
    match outcome {
        SearchOutcome::Unknown => true,
        SearchOutcome::Satisfiable(_)
        | SearchOutcome::Unsatisfiable(_)
        | SearchOutcome::Contradicting(_) => false,
    }
}

// An assumption whose negation is assumed too. The kernel refutes no assumptions that contain both.
fn contradicting(assumptions: &[Literal]) -> Option<Literal> {
    for assumption in assumptions {
        if has(assumptions, assumption.opposite()) {
            return Some(*assumption);
        }
    }
    None
}

fn has(literals: &[Literal], literal: Literal) -> bool {
    for other in literals {
        if LiteralId::of(*other).0 == LiteralId::of(literal).0 {
            return true;
        }
    }
    false
}

// The number of literals that two lists begin with.
fn shared_length(left: &[Literal], right: &[Literal]) -> usize {
    let mut shared: usize = 0;
    for place in 0..left.len().min(right.len()) {
        if LiteralId::of(left[place]).0 != LiteralId::of(right[place]).0 {
            break;
        }
        shared = place.saturating_add(1);
    }
    shared
}

// Derives the clause of an answer, which has negated assumptions only.
fn refuted_by(
    kernel: &mut Kernel,
    alloc: Global,
    assumptions: &[Literal],
    clause: Vec<Literal>,
    hints: &[Premise],
) -> Result<SearchOutcome, NoMemory>
    ensures assumed { kernel.new.assumed ≡ kernel.old.assumed }
    ensures answer { IfOk result (IsAnswer kernel.new assumptions.now) }
{
    let all = negations(alloc, assumptions)?;
    if !kernel.implies(&clause, hints) {
        return Ok(SearchOutcome::Unknown);
    }
    match kernel.derive(alloc, &clause, hints)? {
        Some(premise) => {
            if kernel.implies(&all, &[premise]) {
                Ok(SearchOutcome::Unsatisfiable(Refutation { clause, premise }))
            } else {
                Ok(SearchOutcome::Unknown)
            }
        }
        None => Ok(SearchOutcome::Unknown),
    }
}

// The negations of literals.
fn negations(alloc: Global, literals: &[Literal]) -> Result<Vec<Literal>, NoMemory>
    ensures { IfOk result (λ c. c.items ≡ map opposite literals.now) }
{
    let mut clause = Vec::with_capacity(alloc, literals.len())?;
    for literal in literals {
        clause.push(literal.opposite())?;
    }
    Ok(clause)
}

fn forget_all(kernel: &mut Kernel, places: &[usize])
    ensures { kernel.new.assumed ≡ kernel.old.assumed }
{
    for place in places {
        kernel.forget(*place);
    }
}

// The negations of a false assumption and of a core. Empty where the core has the negation of the assumption.
fn blamed(alloc: Global, literal: LiteralId, core: &[LiteralId]) -> Result<Vec<Literal>, NoMemory> {
    let mut clause = Vec::with_capacity(alloc, core.len().saturating_add(1))?;
    clause.push(literal.opposite().literal())?;
    for other in core {
        if other.0 == literal.opposite().0 {
            clause.clear();
            return Ok(clause);
        }
        clause.push(other.opposite().literal())?;
    }
    Ok(clause)
}

// The clause of the negations of decisions.
fn opposites(alloc: Global, core: &[LiteralId]) -> Result<Vec<Literal>, NoMemory> {
    let mut clause = Vec::with_capacity(alloc, core.len())?;
    for literal in core {
        clause.push(literal.opposite().literal())?;
    }
    Ok(clause)
}

fn plain_literals(alloc: Global, clause: &[LiteralId]) -> Result<Vec<Literal>, NoMemory> {
    let mut literals = Vec::with_capacity(alloc, clause.len())?;
    for literal in clause {
        literals.push(literal.literal())?;
    }
    Ok(literals)
}
