// The slots of names: each name has its place among them.

ghost use Rattle.std.specs.Prelude.{◌≡◌, [], None, map, IfOk};
ghost use Rattle.net_ir.specs.NameLists.{first_again};
ghost use Rattle.run_steps.specs.Slots.{slot_in};

use base_types::{NoMemory, Text};
use indexmap::IndexSet;
use std::alloc::Global;

/// The table of some names, of which none stands twice. Its only error is out of memory.
pub fn slot_table<'a>(alloc: Global, names: &[&'a [u8]]) -> Result<IndexSet<&'a [u8]>, NoMemory>
    requires { first_again [] (map (λ w. w.now) names.now) ≡ None }
    ensures { IfOk result (λ s. map (λ k. k.now) s.keys ≡ map (λ w. w.now) names.now) }
{
    let mut slots = IndexSet::new(alloc);
    for name in names {
        slots.insert(*name)?;
    }
    Ok(slots)
}

/// The slot of a name, or the number of slots where it has none.
pub fn slot_of(slots: &IndexSet<&[u8]>, name: &[u8]) -> usize
    ensures { result ≡ slot_in (map (λ k. k.now) slots.now.keys) name.now }
{
    match slots.get_index_of(name) {
        Some(slot) => slot,
        None => slots.len(),
    }
}

/// The slots of some names. Its only error is out of memory.
pub fn slots_of(
    alloc: Global,
    slots: &IndexSet<&[u8]>,
    names: &[Text],
) -> Result<Vec<usize>, NoMemory>
    ensures { IfOk result (λ v. v.items ≡ map (slot_in (map (λ k. k.now) slots.now.keys)) names.now) }
{
    let mut found = Vec::with_capacity(alloc, names.len())?;
    for name in names {
        found.push(slot_of(slots, name.bytes()))?;
    }
    Ok(found)
}
