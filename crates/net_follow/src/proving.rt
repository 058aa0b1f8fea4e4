// Equations that follow from others.

ghost use Rattle.std.specs.Prelude.{◌≡◌, [], true, map, IfOk, OnOk};
ghost use Rattle.sat_kernel.specs.Clauses.{IsImplied, opposite};
ghost use Rattle.net_follow.specs.Literals.{meets_clause, Meets, from_parts, to_left, to_right};
ghost use Rattle.net_follow.specs.Proving.{KeepsProof, Shown, Begins, Noted, Entails};

use crate::coding::{coded, is_always, opposites};
use crate::literals::{Clause, Equation, constant, opposite};
use crate::nearby::Nearby;
use base_types::NoMemory;
use sat_kernel::{Kernel, Premise};
use sat_search::{Search, SearchOutcome};
use std::alloc::Global;

// The effort of one question: at least this, or a part of what is left for all.
const EFFORT: u64 = 2_000_000;

const SHARE: u64 = 16;

// The effort of all questions over this many nets.
fn patience(nets: usize) -> u64 {
    (nets as u64)
        .saturating_mul(20_000)
        .saturating_add(50_000_000)
}

/// What is assumed, in a kernel, and a search over it. Both have the same clauses.
#[derive(Drop)]
pub(crate) struct Prover {
    alloc: Global,
    pub kernel: Kernel,
    nearby: Nearby,
    search: Search,
    // A counterexample needs to meet what is known of the first of two instants alone.
    early: bool,
    count: usize,
    patience: u64,
    /// The values of the variables in the last counterexample.
    pub values: Vec<bool>,
}

impl Prover {
    // Nothing is assumed, over this many nets in one instant of one netlist.
    fn new(alloc: Global, nets: usize, early: bool) -> Result<Prover, NoMemory>
        ensures { IfOk result (λ p. p.kernel.assumed ≡ []) }
    {
        let variables = nets.saturating_add(1).saturating_mul(4);
        Ok(Prover {
            alloc,
            kernel: Kernel::new(alloc, variables, Vec::new(alloc))?,
            nearby: Nearby::new(alloc),
            search: Search::new(alloc),
            early,
            count: 0,
            patience: patience(nets),
            values: Vec::new(alloc),
        })
    }

    // Assumes a clause. One over nets of too large numbers is left out.
    fn add(&mut self, clause: Clause) -> Result<(), NoMemory>
        ensures { OnOk result (KeepsProof (λ V. meets_clause V clause ≡ true) self.old self.new) }
    {
        let Some(literals) = coded(self.alloc, clause)? else {
            return Ok(());
        };
        self.nearby.note(&literals, Premise::Assumed(self.count))?;
        self.kernel.assume(literals)?;
        self.count = self.count.saturating_add(1);
        Ok(())
    }

    // Assumes an equation.
    fn assume(&mut self, equation: Equation) -> Result<(), NoMemory>
        ensures { OnOk result (KeepsProof (λ V. Meets V equation) self.old self.new) }
    {
        self.add(from_parts(equation))?;
        self.add(to_left(equation))?;
        self.add(to_right(equation))?;
        Ok(())
    }

    // Reports whether a clause follows, as far as the effort shows.
    fn shows(&mut self, clause: Clause) -> Result<bool, NoMemory>
        ensures { IfOk result (Shown (λ V. meets_clause V clause ≡ true) self.old self.new) }
    {
        if is_always(clause) {
            return Ok(true);
        }
        let Some(literals) = coded(self.alloc, clause)? else {
            return Ok(false);
        };
        let denial = opposites(self.alloc, &literals)?;
        Ok(self.refutes(&denial)?)
    }

    // Reports whether one of the literals is false wherever all that is assumed holds.
    fn refutes(&mut self, literals: &[sat_kernel::Literal]) -> Result<bool, NoMemory>
        ensures assumed { OnOk result (self.new.kernel.assumed ≡ self.old.kernel.assumed) }
        ensures follows { IfOk result (λ refuted. refuted ≡ true
            → IsImplied self.new.kernel.assumed (map opposite literals.now)) }
    {
        if self.refutes_nearby(literals)? {
            return Ok(true);
        }
        Ok(self.refutes_by_search(literals)?)
    }

    // The same, by clauses about nets that are near: no search is needed where one gate copies another.
    fn refutes_nearby(&mut self, literals: &[sat_kernel::Literal]) -> Result<bool, NoMemory>
        ensures assumed { OnOk result (self.new.kernel.assumed ≡ self.old.kernel.assumed) }
        ensures follows { IfOk result (λ refuted. refuted ≡ true
            → IsImplied self.new.kernel.assumed (map opposite literals.now)) }
    {
        if !self.nearby.refutes(literals)? {
            return Ok(false);
        }
        let clause = opposites(self.alloc, literals)?;
        if !self.kernel.implies(&clause, &self.nearby.hints) {
            return Ok(false);
        }
        self.keep_nearby(&clause)?;
        Ok(true)
    }

    // Derives a clause by the clauses that are near.
    fn keep_nearby(&mut self, clause: &[sat_kernel::Literal]) -> Result<(), NoMemory>
        ensures { OnOk result (self.new.kernel.assumed ≡ self.old.kernel.assumed) }
    {
        match self.kernel.derive(self.alloc, clause, &self.nearby.hints)? {
            Some(premise) => self.nearby.note(clause, premise),
            None => Ok(()),
        }
    }

    // The same, by search: first by the clauses about the nets that those of the question come from.
    fn refutes_by_search(&mut self, literals: &[sat_kernel::Literal]) -> Result<bool, NoMemory>
        ensures assumed { OnOk result (self.new.kernel.assumed ≡ self.old.kernel.assumed) }
        ensures follows { IfOk result (λ refuted. refuted ≡ true
            → IsImplied self.new.kernel.assumed (map opposite literals.now)) }
    {
        self.nearby.feed(&mut self.search, literals)?;
        if self.solves(literals)? {
            return Ok(true);
        }
        if self.values.is_empty() || !self.nearby.feed_rest(&mut self.search, self.early)? {
            return Ok(false);
        }
        Ok(self.solves(literals)?)
    }

    // The same, by the clauses that the search has.
    fn solves(&mut self, literals: &[sat_kernel::Literal]) -> Result<bool, NoMemory>
        ensures assumed { OnOk result (self.new.kernel.assumed ≡ self.old.kernel.assumed) }
        ensures follows { IfOk result (λ refuted. refuted ≡ true
            → IsImplied self.new.kernel.assumed (map opposite literals.now)) }
    {
        let effort = EFFORT.max(self.patience / SHARE).min(self.patience);
        let outcome = self.search.solve(&mut self.kernel, literals, effort)?;
        let spent = effort.saturating_sub(self.search.effort_left());
        self.patience = self.patience.saturating_sub(spent);
        match outcome {
            SearchOutcome::Unsatisfiable(refutation) => {
                self.nearby.note(&refutation.clause, refutation.premise)?;
                Ok(true)
            }
            SearchOutcome::Satisfiable(values) => {
                self.values = values;
                self.search.scatter_signs();
                Ok(false)
            }
            SearchOutcome::Contradicting(_) | SearchOutcome::Unknown => {
                self.values.clear();
                Ok(false)
            }
        }
    }

    /// Reports whether an equation follows.
    pub fn follows(&mut self, equation: Equation) -> Result<bool, NoMemory>
        ensures { IfOk result (Shown (λ V. Meets V equation) self.old self.new) }
    {
        if !self.shows(from_parts(equation))? {
            return Ok(false);
        }
        if !self.shows(to_left(equation))? {
            return Ok(false);
        }
        Ok(self.shows(to_right(equation))?)
    }

    // Reports whether an equation follows. If not, it is assumed from then on.
    fn claim(&mut self, equation: Equation) -> Result<bool, NoMemory>
        ensures { IfOk result (Shown (λ V. Meets V equation) self.old self.new) }
    {
        if self.follows(equation)? {
            return Ok(true);
        }
        self.assume(equation)?;
        Ok(false)
    }
}
// The clauses of an equation.
fn from_parts(equation: Equation) -> Clause
    ensures { result ≡ from_parts equation }
{
    Clause {
        first: equation.out,
        second: opposite(equation.left),
        third: opposite(equation.right),
    }
}

fn to_left(equation: Equation) -> Clause
    ensures { result ≡ to_left equation }
{
    Clause {
        first: opposite(equation.out),
        second: equation.left,
        third: constant(false),
    }
}

fn to_right(equation: Equation) -> Clause
    ensures { result ≡ to_right equation }
{
    Clause {
        first: opposite(equation.out),
        second: equation.right,
        third: constant(false),
    }
}

/// The places of the claims that were not shown to follow from what is assumed and the claims before them, whether or
/// not these were shown. Where there is none, each claim follows.
pub(crate) fn unshown_claims(
    alloc: Global,
    nets: usize,
    assumed: &[Equation],
    claims: &[Equation],
) -> Result<Vec<usize>, NoMemory>
    ensures { IfOk result (λ places. places.items ≡ [] → Entails assumed.now claims.now) }
{
    let mut prover = assuming(alloc, nets, assumed, false)?;
    let mut places = Vec::new(alloc);
    for (k, claim) in claims.iter().enumerate() {
        claim_at(&mut prover, &mut places, k, *claim)?;
    }
    Ok(places)
}

// Claims an equation, and notes its place where it is not shown.
fn claim_at(
    prover: &mut Prover,
    places: &mut Vec<usize>,
    place: usize,
    claim: Equation,
) -> Result<(), NoMemory>
    ensures { OnOk result (Noted claim place places.old.items places.new.items prover.old prover.new) }
{
    if prover.claim(claim)? {
        return Ok(());
    }
    places.push(place)?;
    Ok(())
}

/// A prover that assumes these equations. If `early`, its counterexamples need only meet those of the first instant.
pub(crate) fn assuming(
    alloc: Global,
    nets: usize,
    assumed: &[Equation],
    early: bool,
) -> Result<Prover, NoMemory>
    ensures { IfOk result (Begins assumed.now) }
{
    let mut prover = Prover::new(alloc, nets, early)?;
    for equation in assumed {
        prover.assume(*equation)?;
    }
    Ok(prover)
}
