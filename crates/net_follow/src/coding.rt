// Clauses over nets, as the search has them.

ghost use Rattle.std.specs.Prelude.{◌≡◌, ℕ, Bool, [], ◌∷◌, ◌++◌, true, map, IfOk, IfSome, OnOk};
ghost use Rattle.sat_kernel.specs.Clauses.{opposite};
ghost use Rattle.net_follow.specs.declared.literals.Side.{Side};
ghost use Rattle.net_follow.specs.Literals.{IsSteady, holds, meets_clause};
ghost use Rattle.net_follow.specs.Coding.{kind, coded_constant, coded_net, coded_literal, coded_clause};

use crate::literals::{Clause, Literal, Side};
use base_types::NoMemory;
use std::alloc::Global;

// Nets with numbers below this one have variables.
const NUMBERS: u32 = 0x400_0000;

// The place of a net's variable among the four of that net.
fn kind(late: bool, side: Side) -> u32
    ensures { result ≡ kind late side }
{
    match side {
        Side::Always | Side::Old => { if late { 1 } else { 0 } }
        Side::New => { if late { 3 } else { 2 } }
    }
}

/// The clause over variables. None where the number of a net is too large.
pub(crate) fn coded(
    alloc: Global,
    clause: Clause,
) -> Result<Option<Vec<sat_kernel::Literal>>, NoMemory>
    ensures { IfOk result (λ o. IfSome o (λ v. v.items ≡ coded_clause clause)) }
{
    let mut list = Vec::new(alloc);
    if !push_coded(&mut list, clause.third)? {
        return Ok(None);
    }
    if !push_coded(&mut list, clause.second)? {
        return Ok(None);
    }
    if !push_coded(&mut list, clause.first)? {
        return Ok(None);
    }
    Ok(Some(list))
}

// Adds a literal, unless it is always false. It reports whether the net's number is small enough.
fn push_coded(list: &mut Vec<sat_kernel::Literal>, literal: Literal) -> Result<bool, NoMemory>
    ensures { IfOk result (λ fits. fits ≡ true → list.new.items ≡ list.old.items ++ coded_literal literal) }
{
    match literal.side {
        Side::Always => {
            push_constant(list, literal.positive)?;
            Ok(true)
        }
        Side::Old | Side::New => push_net(list, literal),
    }
}

// What is always true is a variable or its negation.
fn push_constant(list: &mut Vec<sat_kernel::Literal>, positive: bool) -> Result<(), NoMemory>
    ensures { OnOk result (list.new.items ≡ list.old.items ++ coded_constant positive) }
{
    if positive {
        list.push(first_variable(true))?;
        list.push(first_variable(false))?;
    }
    Ok(())
}

fn first_variable(positive: bool) -> sat_kernel::Literal
    ensures { result ≡ record { variable = 0; positive = positive } }
{
    sat_kernel::Literal {
        variable: 0,
        positive,
    }
}

fn push_net(list: &mut Vec<sat_kernel::Literal>, literal: Literal) -> Result<bool, NoMemory>
    ensures { IfOk result (λ fits. fits ≡ true → list.new.items ≡ list.old.items ++ coded_net literal ∷ []) }
{
    if literal.number >= NUMBERS {
        return Ok(false);
    }
    list.push(sat_kernel::Literal {
        variable: literal.number * 4 + kind(literal.late, literal.side),
        positive: literal.positive,
    })?;
    Ok(true)
}

/// Reports whether a literal of a clause is the constant that is always true.
pub(crate) fn is_always(clause: Clause) -> bool
    ensures { result ≡ true → (V : Bool → Side → ℕ → Bool) → IsSteady V → meets_clause V clause ≡ true }
{
    is_constant(clause.first) || is_constant(clause.second) || is_constant(clause.third)
}

fn is_constant(literal: Literal) -> bool
    ensures { result ≡ true → (V : Bool → Side → ℕ → Bool) → IsSteady V → holds V literal ≡ true }
{
    match literal.side {
        Side::Always => literal.positive,
        Side::Old | Side::New => false,
    }
}

/// The negations of literals.
pub(crate) fn opposites(
    alloc: Global,
    literals: &[sat_kernel::Literal],
) -> Result<Vec<sat_kernel::Literal>, NoMemory>
    ensures { IfOk result (λ v. v.items ≡ map opposite literals.now) }
{
    let mut list = Vec::with_capacity(alloc, literals.len())?;
    for literal in literals {
        list.push(literal.opposite())?;
    }
    Ok(list)
}
