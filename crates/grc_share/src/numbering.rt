// Numbers from 0 for those of a list that stand for themselves.

ghost use Rattle.std.specs.Prelude.{◌≡◌, ℕ, ◌<◌, ◌^◌, [], ◌∷◌, ◌++◌, length, slice_index, slice_index_or, All, IfOk};
ghost use Rattle.std.specs.Prelude.{OnOk};
ghost use Rattle.grc_share.specs.LeastMembers.{ArePlaces, Settled, leaders};

use base_types::{NoMemory, WireId};
use std::alloc::Global;

/// Those that stand for themselves, in order, and for each the place of what stands for it among them.
#[derive(Drop)]
pub(crate) struct Numbered {
    pub least: Vec<WireId>,
    pub numbers: Vec<u32>,
}

/// The numbers of a list's places: places have one number where one of them stands for both.
pub(crate) fn number_members(alloc: Global, members: &[WireId]) -> Result<Numbered, NoMemory>
    requires few { length members.now < 2 ^ 32 }
    requires within { All (λ w. w.0 < length members.now) members.now }
    requires settled { Settled members.now }
    ensures least { IfOk result (λ s. s.least.items ≡ leaders 0 members.now) }
    ensures each { IfOk result (λ s. length s.numbers.items ≡ length members.now) }
    ensures within { IfOk result (λ s. All (λ k. k < length s.least.items) s.numbers.items) }
    ensures numbers { IfOk result (λ s. (w : ℕ) (d : WireId) → w < length members.now
        → slice_index_or s.least.items (slice_index s.numbers.items w) d ≡ slice_index_or members.now w d) }
{
    let Numbered {
        least,
        numbers: places,
    } = leading(alloc, members)?;
    let mut numbers: Vec<u32> = Vec::with_capacity(alloc, members.len())?;
    for member in members {
        numbers.push(places[member.0 as usize])?;
    }
    Ok(Numbered { least, numbers })
}

// Those that stand for themselves, in order, and the place of each of these among them.
fn leading(alloc: Global, members: &[WireId]) -> Result<Numbered, NoMemory>
    requires few { length members.now < 2 ^ 32 }
    ensures least { IfOk result (λ s. s.least.items ≡ leaders 0 members.now) }
    ensures places { IfOk result (λ s. ArePlaces members.now (length members.now) s.least.items s.numbers.items) }
{
    let mut least: Vec<WireId> = Vec::new(alloc);
    let mut numbers: Vec<u32> = Vec::with_capacity(alloc, members.len())?;
    for w in 0..members.len() {
        numbers.push(least.len() as u32)?;
        push_leader(&mut least, members[w], w)?;
    }
    Ok(Numbered { least, numbers })
}

// Appends a member to those that stand for themselves, where it is its own place.
fn push_leader(least: &mut Vec<WireId>, member: WireId, place: usize) -> Result<(), NoMemory>
    ensures own { OnOk result (member.0 ≡ place → least.new.items ≡ least.old.items ++ member ∷ []) }
    ensures other { (member.0 ≡ place → ⊥) → least.new.items ≡ least.old.items }
{
    if member.0 as usize == place {
        least.push(member)?;
    }
    Ok(())
}
