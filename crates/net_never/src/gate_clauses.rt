// What gates compute, as clauses.

ghost use Rattle.std.specs.Prelude.{◌≡◌, ◌+◌, ◌≤◌, ◌^◌, [], ◌∷◌, ◌++◌, length, OnOk};
ghost use Rattle.sat_kernel.specs.Clauses.{opposite, plain_assumed};
ghost use Rattle.net_never.specs.GateClauses.{gate_clauses, op_clauses, signed};

use base_types::NoMemory;
use net_ir::{Gate, Op};
use sat_kernel::{Clause, Literal};
use std::alloc::Global;

/// A net, or its negation.
pub(crate) fn signed(net: u32, positive: bool) -> Literal
    ensures { result ≡ signed net positive }
{
    Literal {
        variable: net,
        positive,
    }
}

/// One clause more, of these literals.
pub(crate) fn push_clause(
    alloc: Global,
    list: &mut Vec<Clause>,
    literals: &[Literal],
) -> Result<(), NoMemory>
    ensures { OnOk result (plain_assumed list.new.items ≡ plain_assumed list.old.items ++ literals.now ∷ []) }
{
    let mut clause = Vec::with_capacity(alloc, literals.len())?;
    clause.extend_from_slice(literals)?;
    list.push(clause)?;
    Ok(())
}

// One literal is true just where the other is.
fn push_equal(
    alloc: Global,
    list: &mut Vec<Clause>,
    out: Literal,
    from: Literal,
) -> Result<(), NoMemory>
    ensures { OnOk result (plain_assumed list.new.items ≡ plain_assumed list.old.items
        ++ ((opposite out ∷ from ∷ []) ∷ (out ∷ opposite from ∷ []) ∷ [])) }
{
    push_clause(alloc, list, &[out.opposite(), from])?;
    push_clause(alloc, list, &[out, from.opposite()])
}

// One literal is true just where two others are.
fn push_both(
    alloc: Global,
    list: &mut Vec<Clause>,
    out: Literal,
    left: Literal,
    right: Literal,
) -> Result<(), NoMemory>
    ensures { OnOk result (plain_assumed list.new.items ≡ plain_assumed list.old.items
        ++ ((opposite out ∷ left ∷ []) ∷ (opposite out ∷ right ∷ [])
        ∷ (out ∷ opposite left ∷ opposite right ∷ []) ∷ [])) }
{
    push_clause(alloc, list, &[out.opposite(), left])?;
    push_clause(alloc, list, &[out.opposite(), right])?;
    push_clause(alloc, list, &[out, left.opposite(), right.opposite()])
}

// The net has the value that the operator makes of those that it reads.
fn push_op(alloc: Global, list: &mut Vec<Clause>, net: u32, op: Op) -> Result<(), NoMemory>
    ensures { OnOk result (plain_assumed list.new.items ≡ plain_assumed list.old.items ++ op_clauses net op) }
{
    match op {
        Op::Const(value) => push_clause(alloc, list, &[signed(net, value)]),
        Op::Copy(a) => push_equal(alloc, list, signed(net, true), signed(a.0, true)),
        Op::Not(a) => push_equal(alloc, list, signed(net, true), signed(a.0, false)),
        Op::And(a, b) => push_both(
            alloc,
            list,
            signed(net, true),
            signed(a.0, true),
            signed(b.0, true),
        ),
        Op::Or(a, b) => push_both(
            alloc,
            list,
            signed(net, false),
            signed(a.0, false),
            signed(b.0, false),
        ),
    }
}

/// What each gate computes, where `first` is the number of the first one.
pub(crate) fn push_gates(
    alloc: Global,
    list: &mut Vec<Clause>,
    first: usize,
    gates: &[Gate],
) -> Result<(), NoMemory>
    requires { first + length gates.now ≤ 2 ^ 32 }
    ensures { OnOk result (plain_assumed list.new.items
        ≡ plain_assumed list.old.items ++ gate_clauses first gates.now) }
{
    for (k, gate) in gates.iter().enumerate() {
        push_op(alloc, list, (first + k) as u32, gate.op)?;
    }
    Ok(())
}
