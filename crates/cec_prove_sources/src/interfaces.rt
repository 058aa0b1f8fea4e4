// Whether two interfaces are the same.

ghost use Rattle.std.specs.Prelude.{◌≡◌, map, nat_eq};
ghost use Rattle.std.specs.Cmp.Lexicographic.{pointwise};
ghost use Rattle.base_types.specs.Names.{is_same_name};
ghost use Rattle.base_types.specs.Relations.{Excludes, Implies, relation_of};
ghost use Rattle.cec_prove_sources.specs.Interfaces.{is_same_relation};

use base_types::{InputRelation, SigId, Text};
use net_ir::NetOut;

/// Reports whether two lists of names are the same.
pub(crate) fn are_same_names(left: &[Text], right: &[Text]) -> bool
    ensures { result ≡ pointwise is_same_name left.now right.now }
{
    left == right
}

/// Reports whether the names of two lists of outputs are the same.
pub(crate) fn are_same_outputs(left: &[NetOut], right: &[NetOut]) -> bool
    ensures { result ≡ pointwise is_same_name (map (λ o. o.name) left.now) (map (λ o. o.name) right.now) }
{
    for (k, output) in left.iter().enumerate() {
        if k >= right.len() {
            return false;
        }
        if output.name.bytes() != right[k].name.bytes() {
            return false;
        }
    }
    left.len() == right.len()
}

/// Reports whether two lists of relations are the same.
pub(crate) fn are_same_relations(left: &[InputRelation], right: &[InputRelation]) -> bool
    ensures { result ≡ pointwise is_same_relation (map relation_of left.now) (map relation_of right.now) }
{
    for (k, relation) in left.iter().enumerate() {
        if k >= right.len() {
            return false;
        }
        if !is_same_relation(relation, &right[k]) {
            return false;
        }
    }
    left.len() == right.len()
}

// Reports whether two relations are the same.
fn is_same_relation(left: &InputRelation, right: &InputRelation) -> bool
    ensures { result ≡ is_same_relation (relation_of left.now) (relation_of right.now) }
{
    match left {
        InputRelation::Implies(cause, effect) => is_implication(right, *cause, *effect),
        InputRelation::Excludes(signals) => is_exclusion(right, signals),
    }
}

// Reports whether a relation is this implication.
fn is_implication(relation: &InputRelation, cause: SigId, effect: SigId) -> bool
    ensures { result ≡ is_same_relation (Implies cause.0 effect.0) (relation_of relation.now) }
{
    match relation {
        InputRelation::Implies(a, b) => cause.0 == a.0 && effect.0 == b.0,
        InputRelation::Excludes(_) => false,
    }
}

// Reports whether a relation excludes these signals.
fn is_exclusion(relation: &InputRelation, signals: &[SigId]) -> bool
    ensures { result ≡ is_same_relation (Excludes (map (λ s. s.0) signals.now)) (relation_of relation.now) }
{
    match relation {
        InputRelation::Implies(_, _) => false,
        InputRelation::Excludes(others) => are_same_signals(signals, others),
    }
}

// Reports whether two lists of signals are the same.
fn are_same_signals(left: &[SigId], right: &[SigId]) -> bool
    ensures { result ≡ pointwise nat_eq (map (λ s. s.0) left.now) (map (λ s. s.0) right.now) }
{
    for (k, signal) in left.iter().enumerate() {
        if k >= right.len() {
            return false;
        }
        if signal.0 != right[k].0 {
            return false;
        }
    }
    left.len() == right.len()
}
