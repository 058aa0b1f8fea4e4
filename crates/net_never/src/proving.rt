// Whether an invariant shows that a net is never true.

ghost use Rattle.std.specs.Prelude.{◌≡◌, ◌++◌, IsTrue, IfOk, length, map};
ghost use Rattle.std.specs.List.{AllByRecursion, list_any};
ghost use Rattle.net_ir.specs.Runs.{netlist_of};
ghost use Rattle.sat_kernel.specs.Clauses.{IsImplied, opposite, plain_assumed};
ghost use Rattle.sat_kernel.specs.Propagation.{is_same};
ghost use Rattle.net_never.specs.Inductive.{Closes, holds_at_first, is_over_latches, known_clauses, next_clause};
ghost use Rattle.net_never.specs.Never.{IsNever};

use crate::gate_clauses::push_gates;
use crate::invariants::{are_between, are_true_at_first, next_clause, push_clauses};
use base_types::NoMemory;
use net_ir::{Latch, Net};
use sat_kernel::{Clause, Kernel, Literal, Premise};
use sat_search::{Search, SearchOutcome};
use std::alloc::Global;

// What is known in an instant, in a kernel, and a search over it. Both have the same clauses.
#[derive(Drop)]
struct Prover {
    alloc: Global,
    kernel: Kernel,
    search: Search,
    // What is left for all questions.
    effort: u64,
}

impl Prover {
    // Reports whether one of the literals is false wherever all that is known holds, as far as the effort shows.
    fn refutes(&mut self, literals: &[Literal]) -> Result<bool, NoMemory>
        ensures assumed { self.new.kernel.assumed ≡ self.old.kernel.assumed }
        ensures follows { IfOk result (λ yes. IsTrue yes
            → IsImplied self.old.kernel.assumed (map opposite literals.now)) }
    {
        let outcome = self.search.solve(&mut self.kernel, literals, self.effort)?;
        self.effort = self.search.effort_left();
        match outcome {
            SearchOutcome::Unsatisfiable(refutation) => {
                self.search.add(&refutation.clause, refutation.premise)?;
                Ok(true)
            }
            SearchOutcome::Satisfiable(_)
            | SearchOutcome::Contradicting(_)
            | SearchOutcome::Unknown => Ok(false),
        }
    }

    // Reports whether a clause follows from what is known, as far as the effort shows.
    fn implies(&mut self, clause: &[Literal]) -> Result<bool, NoMemory>
        ensures assumed { self.new.kernel.assumed ≡ self.old.kernel.assumed }
        ensures follows { IfOk result (λ yes. IsTrue yes → IsImplied self.old.kernel.assumed clause.now) }
    {
        if is_tautology(clause) {
            return Ok(true);
        }
        let denial = opposites(self.alloc, clause)?;
        Ok(self.refutes(&denial)?)
    }

    // Reports whether each clause of the invariant follows for the next instant.
    fn keeps(&mut self, net: &Net, clauses: &[Clause]) -> Result<bool, NoMemory>
        ensures assumed { self.new.kernel.assumed ≡ self.old.kernel.assumed }
        ensures keeps { IfOk result (λ yes. IsTrue yes → AllByRecursion (λ c. IsImplied self.old.kernel.assumed
            (next_clause (length net.now.inputs.items) net.now.latches.items c)) (plain_assumed clauses.now)) }
    {
        for (k, clause) in clauses.iter().enumerate() {
            let next = next_clause(self.alloc, net.inputs.len(), &net.latches, clause)?;
            if !self.implies(&next)? {
                return Ok(false);
            }
        }
        Ok(true)
    }

    // Reports whether what is known gives the invariant for the next instant, and rules out the literal.
    fn closes(&mut self, net: &Net, invariant: &[Clause], bad: Literal) -> Result<bool, NoMemory>
        ensures { IfOk result (λ yes. IsTrue yes
            → Closes (netlist_of net.now) self.old.kernel.assumed (plain_assumed invariant.now) bad) }
    {
        if !self.implies(&[bad.opposite()])? {
            return Ok(false);
        }
        Ok(self.keeps(net, invariant)?)
    }
}

// Reports whether a clause has a literal and its negation.
fn is_tautology(clause: &[Literal]) -> bool
    ensures { result ≡ list_any (λ l. list_any (is_same (opposite l)) clause.now) clause.now }
{
    for literal in clause {
        if has(clause, literal.opposite()) {
            return true;
        }
    }
    false
}

fn has(clause: &[Literal], wanted: Literal) -> bool
    ensures { result ≡ list_any (is_same wanted) clause.now }
{
    for literal in clause {
        if wanted.variable == literal.variable && wanted.positive == literal.positive {
            return true;
        }
    }
    false
}

// The negations of literals.
fn opposites(alloc: Global, literals: &[Literal]) -> Result<Vec<Literal>, NoMemory>
    ensures { IfOk result (λ v. v.items ≡ map opposite literals.now) }
{
    let mut list = Vec::with_capacity(alloc, literals.len())?;
    for literal in literals {
        list.push(literal.opposite())?;
    }
    Ok(list)
}

// What is known in an instant: what the gates compute, what is allowed, and the invariant.
fn known_clauses(
    alloc: Global,
    net: &Net,
    allowed: &[Clause],
    invariant: &[Clause],
) -> Result<Vec<Clause>, NoMemory>
    ensures { IfOk result (λ list. plain_assumed list.items
        ≡ known_clauses (netlist_of net.now) (plain_assumed allowed.now) (plain_assumed invariant.now)) }
{
    let mut list = Vec::new(alloc);
    let first = net.inputs.len() + net.latches.len();
    push_gates(alloc, &mut list, first, &net.gates)?;
    push_clauses(alloc, &mut list, allowed)?;
    push_clauses(alloc, &mut list, invariant)?;
    Ok(list)
}

// A search that has these clauses. A kernel is to assume them in the same order.
fn search_over(alloc: Global, clauses: &[Clause]) -> Result<Search, NoMemory> {
    let mut search = Search::new(alloc);
    for (k, clause) in clauses.iter().enumerate() {
        search.add(clause, Premise::Assumed(k))?;
    }
    Ok(search)
}

// What is known in an instant where these clauses are allowed and the invariant holds.
fn prover_of(
    alloc: Global,
    net: &Net,
    allowed: &[Clause],
    invariant: &[Clause],
    effort: u64,
) -> Result<Prover, NoMemory>
    ensures { IfOk result (λ i. i.kernel.assumed
        ≡ known_clauses (netlist_of net.now) (plain_assumed allowed.now) (plain_assumed invariant.now)) }
{
    let known = known_clauses(alloc, net, allowed, invariant)?;
    let search = search_over(alloc, &known)?;
    let variables = net.inputs.len() + net.latches.len() + net.gates.len();
    Ok(Prover {
        alloc,
        kernel: Kernel::new(alloc, variables, known)?,
        search,
        effort,
    })
}

// Reports whether an invariant is one over latches and holds in the first instant.
fn begins(net: &Net, invariant: &[Clause]) -> bool
    ensures over { IsTrue result → IsTrue (is_over_latches (netlist_of net.now) (plain_assumed invariant.now)) }
    ensures first { IsTrue result → IsTrue (holds_at_first (netlist_of net.now) (plain_assumed invariant.now)) }
{
    let first = net.inputs.len();
    are_between(first, first + net.latches.len(), invariant)
        && are_true_at_first(first, &net.latches, invariant)
}

/// Reports whether a net of a netlist, or its negation, is never true, where these clauses over its nets are met in
/// each instant, as far as the invariant and the effort show. The invariant is any list of clauses over the nets of
/// latches. The effort is one of `sat_search`, for all questions together. The only error is running out of memory.
pub fn is_never(
    alloc: Global,
    net: &Net,
    allowed: &[Clause],
    invariant: &[Clause],
    bad: Literal,
    effort: u64,
) -> Result<bool, NoMemory>
    ensures { IfOk result (λ yes. IsTrue yes → IsNever (netlist_of net.now) (plain_assumed allowed.now) bad) }
{
    if !begins(net, invariant) {
        return Ok(false);
    }
    let mut known = prover_of(alloc, net, allowed, invariant, effort)?;
    Ok(known.closes(net, invariant, bad)?)
}
