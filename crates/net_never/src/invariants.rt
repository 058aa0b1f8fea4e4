// Clauses over the nets of latches, in an instant and in the next one.

ghost use Rattle.std.specs.Prelude.{◌≡◌, ◌++◌, false, length, map, IfOk, OnOk};
ghost use Rattle.std.specs.List.{list_all};
ghost use Rattle.net_ir.specs.Gates.{value_in};
ghost use Rattle.sat_kernel.specs.Clauses.{clause_value, plain_assumed};
ghost use Rattle.net_never.specs.Inductive.{is_between, latch_values, next_clause, source_at};

use crate::gate_clauses::{push_clause, signed};
use base_types::NoMemory;
use net_ir::Latch;
use sat_kernel::{Clause, Literal};
use std::alloc::Global;

// Whether the nets of a clause have numbers from `first` on and below `end`.
fn is_between(first: usize, end: usize, clause: &[Literal]) -> bool
    ensures { result ≡ is_between first end clause.now }
{
    for literal in clause {
        let net = literal.variable as usize;
        if net < first || net >= end {
            return false;
        }
    }
    true
}

/// Whether the nets of each clause have numbers from `first` on and below `end`.
pub(crate) fn are_between(first: usize, end: usize, clauses: &[Clause]) -> bool
    ensures { result ≡ list_all (is_between first end) (plain_assumed clauses.now) }
{
    for clause in clauses {
        if !is_between(first, end, clause) {
            return false;
        }
    }
    true
}

// The initial value of a latch, by its net.
fn init_at(first: usize, latches: &[Latch], net: u32) -> bool
    ensures { result ≡ latch_values first (map (λ l. l.init) latches.now) net }
{
    let place = (net as usize).saturating_sub(first);
    if place < latches.len() {
        latches[place].init
    } else {
        false
    }
}

// Whether a clause over latches is true in the first instant.
fn is_true_at_first(first: usize, latches: &[Latch], clause: &[Literal]) -> bool
    ensures { result ≡ clause_value (latch_values first (map (λ l. l.init) latches.now)) clause.now }
{
    for literal in clause {
        let value = init_at(first, latches, literal.variable);
        if value == literal.positive {
            return true;
        }
    }
    false
}

/// Whether each clause over latches is true in the first instant.
pub(crate) fn are_true_at_first(first: usize, latches: &[Latch], clauses: &[Clause]) -> bool
    ensures { result ≡ list_all (clause_value (latch_values first (map (λ l. l.init) latches.now)))
        (plain_assumed clauses.now) }
{
    for clause in clauses {
        if !is_true_at_first(first, latches, clause) {
            return false;
        }
    }
    true
}

// The net that a latch reads, by the net of the latch.
fn source_at(first: usize, latches: &[Latch], net: u32) -> u32
    ensures { result ≡ source_at first latches.now net }
{
    let place = (net as usize).saturating_sub(first);
    if place < latches.len() {
        latches[place].from.0
    } else {
        0
    }
}

/// A clause over latches, of the next instant.
pub(crate) fn next_clause(
    alloc: Global,
    first: usize,
    latches: &[Latch],
    clause: &[Literal],
) -> Result<Clause, NoMemory>
    ensures { IfOk result (λ c. c.items ≡ next_clause first latches.now clause.now) }
{
    let mut next = Vec::with_capacity(alloc, clause.len())?;
    for literal in clause {
        let net = source_at(first, latches, literal.variable);
        next.push(signed(net, literal.positive))?;
    }
    Ok(next)
}

/// Copies of clauses.
pub(crate) fn push_clauses(
    alloc: Global,
    list: &mut Vec<Clause>,
    clauses: &[Clause],
) -> Result<(), NoMemory>
    ensures { OnOk result (plain_assumed list.new.items ≡ plain_assumed list.old.items ++ plain_assumed clauses.now) }
{
    for clause in clauses {
        push_clause(alloc, list, clause)?;
    }
    Ok(())
}
