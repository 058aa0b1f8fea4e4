// Lists of a few wires.

ghost use Rattle.std.specs.Prelude.{◌≡◌, ◌++◌, ◌<◌, [], ◌∷◌, length, map, slice_index_or, slice_set, All, IfOk};

use base_types::{NoMemory, WireId};
use smallvec::SmallVec;
use std::alloc::Global;

/// A few wires. Most such lists are in the value itself, and need no memory.
pub(crate) type FewWires = SmallVec<WireId, 4>;

/// This many empty lists.
pub(crate) fn empty_lists(alloc: Global, count: usize) -> Result<Vec<FewWires>, NoMemory>
    ensures length { IfOk result (λ v. length v.items ≡ count) }
    ensures empty { IfOk result (λ v. All (λ list. list ≡ []) (map (λ list. list.items) v.items)) }
{
    let mut lists = Vec::with_capacity(alloc, count)?;
    for made in 0..count {
        lists.push(SmallVec::new(alloc))?;
    }
    Ok(lists)
}

/// Appends a wire to one of the lists.
pub(crate) fn push_wire(
    lists: &mut Vec<FewWires>,
    place: usize,
    wire: WireId,
) -> Result<(), NoMemory>
    requires { place < length lists.old.items }
    ensures length { length lists.new.items ≡ length lists.old.items }
    ensures lists { IfOk result (λ u. map (λ v. v.items) lists.new.items ≡
        slice_set (map (λ v. v.items) lists.old.items)
        place (slice_index_or (map (λ v. v.items) lists.old.items) place [] ++ wire ∷ [])) }
{
    let list = &mut lists[place];
    list.push(wire)?;
    Ok(())
}
