// What an environment keeps of the given signals, as clauses.

ghost use Rattle.std.specs.Prelude.{◌≡◌, [], ◌∷◌, ◌++◌, map, IfOk, OnOk};
ghost use Rattle.std.specs.List.{flat_map};
ghost use Rattle.base_types.specs.Relations.{relation_of};
ghost use Rattle.est_kernel.specs.Plain.{program_of};
ghost use Rattle.sat_kernel.specs.Clauses.{plain_assumed};
ghost use Rattle.net_never.specs.GateClauses.{signed};
ghost use Rattle.cec_prove_sources.specs.RelationClauses.{all_relation_clauses, exclusion, exclusions};
ghost use Rattle.cec_prove_sources.specs.RelationClauses.{few_exclusions, relation_clauses};

use base_types::{InputRelation, NoMemory, SigId};
use est_kernel::KernelProgram;
use sat_kernel::{Clause, Literal};
use std::alloc::Global;

// One clause more: of two inputs, or their negations.
fn push_two(
    alloc: Global,
    list: &mut Vec<Clause>,
    left: Literal,
    right: Literal,
) -> Result<(), NoMemory>
    ensures { OnOk result (plain_assumed list.new.items
        ≡ plain_assumed list.old.items ++ (left ∷ right ∷ []) ∷ []) }
{
    let mut clause = Vec::with_capacity(alloc, 2)?;
    clause.push(left)?;
    clause.push(right)?;
    list.push(clause)?;
    Ok(())
}

// An input is absent, or another one is.
fn signed(signal: SigId, positive: bool) -> Literal
    ensures { result ≡ signed signal.0 positive }
{
    Literal {
        variable: signal.0,
        positive,
    }
}

// One of two signals is absent, unless they are one.
fn push_exclusion(
    alloc: Global,
    list: &mut Vec<Clause>,
    left: SigId,
    right: SigId,
) -> Result<(), NoMemory>
    ensures { OnOk result (plain_assumed list.new.items
        ≡ plain_assumed list.old.items ++ exclusion left.0 right.0) }
{
    if left.0 != right.0 {
        push_two(alloc, list, signed(left, false), signed(right, false))?;
    }
    Ok(())
}

// The signal excludes each of these.
fn push_others(
    alloc: Global,
    list: &mut Vec<Clause>,
    signal: SigId,
    others: &[SigId],
) -> Result<(), NoMemory>
    ensures { OnOk result (plain_assumed list.new.items
        ≡ plain_assumed list.old.items ++ flat_map (exclusion signal.0) (map (λ s. s.0) others.now)) }
{
    for other in others {
        push_exclusion(alloc, list, signal, *other)?;
    }
    Ok(())
}

// No two of these are present.
fn push_exclusions(alloc: Global, list: &mut Vec<Clause>, signals: &[SigId]) -> Result<(), NoMemory>
    ensures { OnOk result (plain_assumed list.new.items
        ≡ plain_assumed list.old.items ++ exclusions (map (λ s. s.0) signals.now)) }
{
    for (k, signal) in signals.iter().enumerate() {
        push_others(alloc, list, *signal, &signals[k + 1..])?;
    }
    Ok(())
}

// An exclusion of many signals has very many clauses, and is left out.
fn push_few(alloc: Global, list: &mut Vec<Clause>, signals: &[SigId]) -> Result<(), NoMemory>
    ensures { OnOk result (plain_assumed list.new.items
        ≡ plain_assumed list.old.items ++ few_exclusions (map (λ s. s.0) signals.now)) }
{
    if signals.len() <= 512 {
        push_exclusions(alloc, list, signals)
    } else {
        Ok(())
    }
}

fn push_relation(
    alloc: Global,
    list: &mut Vec<Clause>,
    relation: &InputRelation,
) -> Result<(), NoMemory>
    ensures { OnOk result (plain_assumed list.new.items
        ≡ plain_assumed list.old.items ++ relation_clauses (relation_of relation.now)) }
{
    match relation {
        InputRelation::Implies(a, b) => push_two(alloc, list, signed(*a, false), signed(*b, true)),
        InputRelation::Excludes(signals) => push_few(alloc, list, signals),
    }
}

/// The clauses of a program's relations, over the inputs of its netlist. The error is out of memory.
///
/// Example: `relation A => B` gives the clause that A is absent or B is present.
pub fn relation_clauses(alloc: Global, program: &KernelProgram) -> Result<Vec<Clause>, NoMemory>
    ensures { IfOk result (λ list. plain_assumed list.items
        ≡ all_relation_clauses (program_of program.now).relations) }
{
    let mut list = Vec::new(alloc);
    push_relations(alloc, &mut list, &program.relations)?;
    Ok(list)
}

/// Appends the clauses of relations, over the inputs of a netlist.
pub(crate) fn push_relations(
    alloc: Global,
    list: &mut Vec<Clause>,
    relations: &[InputRelation],
) -> Result<(), NoMemory>
    ensures { OnOk result (plain_assumed list.new.items
        ≡ plain_assumed list.old.items ++ all_relation_clauses (map relation_of relations.now)) }
{
    for relation in relations {
        push_relation(alloc, list, relation)?;
    }
    Ok(())
}
