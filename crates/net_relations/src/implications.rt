// What relations say of the inputs of a netlist, as implications.

ghost use Rattle.std.specs.Prelude.{◌≡◌, ◌≢◌, ◌<◌, true, false, not, length, map, All, Contains, slice_index_or};
ghost use Rattle.std.specs.Prelude.{IfOk, OnOk};
ghost use Rattle.base_types.specs.Relations.{Excludes, relation_of};
ghost use Rattle.net_relations.specs.Implications.{AddsOnly, IsBelow, IsKept, IsSaid, opposite};

use base_types::{InputRelation, NetId, NoMemory, SigId};
use std::alloc::Global;

// How many implications are used at most.
const IMPLICATIONS: usize = 512;

// With how many signals before it in the list each signal of an exclusion is paired.
const WINDOW: usize = 32;

/// A net, or its negation.
#[derive(Clone, Copy, PartialEq)]
pub(crate) struct Signed {
    pub(crate) net: NetId,
    pub(crate) negated: bool,
}

/// The effect is true whenever the cause is.
#[derive(Clone, Copy, PartialEq)]
pub(crate) struct Implication {
    pub(crate) cause: Signed,
    pub(crate) effect: Signed,
}

/// The opposite of a signed net.
pub(crate) fn opposite(signed: Signed) -> Signed
    ensures { result ≡ opposite signed }
{
    Signed {
        net: signed.net,
        negated: !signed.negated,
    }
}

/// The implications between this many inputs that relations say, at most 512.
pub(crate) fn implications_of(
    alloc: Global,
    relations: &[InputRelation],
    inputs: usize,
) -> Result<Vec<Implication>, NoMemory>
    ensures { IfOk result (λ list. All (IsKept (map relation_of relations.now) inputs) list.items) }
{
    let mut list = Vec::new(alloc);
    for relation in relations {
        push_relation(&mut list, relation, inputs)?;
    }
    Ok(list)
}

fn push_relation(
    list: &mut Vec<Implication>,
    relation: &InputRelation,
    inputs: usize,
) -> Result<(), NoMemory>
    ensures { OnOk result (AddsOnly (IsSaid inputs (relation_of relation.now)) list.old.items list.new.items) }
{
    match relation {
        InputRelation::Implies(a, b) => push_implication(list, said(*a, *b, false), inputs),
        InputRelation::Excludes(signals) => push_exclusion(list, signals, inputs),
    }
}

// That the second input is present where the first one is, or, negated, that it is absent there.
fn said(cause: SigId, effect: SigId, negated: bool) -> Implication
    ensures { result ≡ record {
      cause = record { net = record { 0 = cause.0 }; negated = false };
      effect = record { net = record { 0 = effect.0 }; negated = negated };
    } }
{
    Implication {
        cause: Signed {
            net: NetId(cause.0),
            negated: false,
        },
        effect: Signed {
            net: NetId(effect.0),
            negated,
        },
    }
}

// Adds an implication of inputs, if there is room.
fn push_implication(
    list: &mut Vec<Implication>,
    new: Implication,
    inputs: usize,
) -> Result<(), NoMemory>
    ensures { OnOk result (AddsOnly (λ i. (i ≡ new) × IsBelow inputs i) list.old.items list.new.items) }
{
    let is_input = (new.cause.net.0 as usize) < inputs && (new.effect.net.0 as usize) < inputs;
    if is_input && list.len() < IMPLICATIONS {
        list.push(new)?;
    }
    Ok(())
}

// Adds that no two different signals of a list are present, for signals that are close in it.
fn push_exclusion(
    list: &mut Vec<Implication>,
    signals: &[SigId],
    inputs: usize,
) -> Result<(), NoMemory>
    ensures { OnOk result (AddsOnly (IsSaid inputs (Excludes (map (λ s. s.0) signals.now)))
        list.old.items list.new.items) }
{
    for k in 0..signals.len() {
        push_apart(list, signals, k, inputs)?;
    }
    Ok(())
}

// Adds that a signal of a list excludes those before it.
fn push_apart(
    list: &mut Vec<Implication>,
    signals: &[SigId],
    place: usize,
    inputs: usize,
) -> Result<(), NoMemory>
    requires { place < length signals.now }
    ensures { OnOk result (AddsOnly (IsSaid inputs (Excludes (map (λ s. s.0) signals.now)))
        list.old.items list.new.items) }
{
    for k in place.saturating_sub(WINDOW)..place {
        push_pair(list, signals, k, place, inputs)?;
    }
    Ok(())
}

// Adds that a signal of a list excludes another one, if they differ.
fn push_pair(
    list: &mut Vec<Implication>,
    signals: &[SigId],
    left: usize,
    right: usize,
    inputs: usize,
) -> Result<(), NoMemory>
    requires left { left < length signals.now }
    requires right { right < length signals.now }
    ensures { OnOk result (AddsOnly (IsSaid inputs (Excludes (map (λ s. s.0) signals.now)))
        list.old.items list.new.items) }
{
    if signals[left].0 == signals[right].0 {
        return Ok(());
    }
    let apart = said(signals[left], signals[right], true);
    push_implication(list, apart, inputs)
}
