// What the environment keeps of the given signals in every instant.

ghost use Rattle.std.specs.Prelude.{◌≡◌, ◌↔◌, map, IsTrue, MatchOption};
ghost use Rattle.base_types.specs.Relations.{relation_of, IsPresent, Meets, MeetsAll, Excludes};
ghost use Rattle.run_trace_io.specs.Broken.{IsFirstBroken};
ghost use Rattle.run_trace_io.specs.Found.{found_after};

use base_types::{InputRelation, SigId};

/// The place of the first relation that an event breaks; None where it meets them all. It takes no
/// memory.
pub fn first_broken(relations: &[InputRelation], event: &[bool]) -> Option<usize>
    ensures { MatchOption result (MeetsAll (map relation_of relations.now) event.now)
        (IsFirstBroken (map relation_of relations.now) event.now) }
{
    for (k, relation) in relations.iter().enumerate() {
        if !meets(relation, event) {
            return Some(k);
        }
    }
    None
}

fn meets(relation: &InputRelation, event: &[bool]) -> bool
    ensures { IsTrue result ↔ Meets event.now (relation_of relation.now) }
{
    match relation {
        InputRelation::Implies(cause, effect) => !is_present(event, *cause)
            || is_present(event, *effect),
        InputRelation::Excludes(signals) => is_at_most_one(event, signals),
    }
}

// Whether at most one of the signals is present; a signal that the list names twice counts once.
fn is_at_most_one(event: &[bool], signals: &[SigId]) -> bool
    ensures { IsTrue result ↔ Meets event.now (Excludes (map (λ s. s.0) signals.now)) }
{
    let mut found = None;
    for signal in signals {
        match found_after(found, *signal, is_present(event, *signal)) {
            Some(next) => found = next,
            None => return false,
        }
    }
    true
}

// The signal that is present among those so far, after one more; None where there are two of them.
fn found_after(found: Option<SigId>, signal: SigId, present: bool) -> Option<Option<SigId>>
    ensures { result ≡ found_after found signal present }
{
    if !present {
        return Some(found);
    }
    match found {
        Some(other) if other != signal => None,
        _ => Some(Some(signal)),
    }
}

fn is_present(event: &[bool], signal: SigId) -> bool
    ensures { IsTrue result ↔ IsPresent event.now signal.0 }
{
    event.get(signal.0 as usize).copied().unwrap_or(false)
}
