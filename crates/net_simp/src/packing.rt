// Gates without those that are not needed.

ghost use Rattle.std.specs.Prelude.{◌≡◌, ◌+◌, ◌<◌, ◌≤◌, ◌^◌, length, IfOk};
ghost use Rattle.net_ir.specs.Gates.{ReadsLower};
ghost use Rattle.net_simp.specs.Packing.{Packed};
ghost use Rattle.net_simp.specs.Needs.{Closed};

use crate::folding::Renumbered;
use crate::gates::{own_names, renamed_op};
use base_types::{NetId, NoMemory};
use net_ir::Gate;
use std::alloc::Global;

/// The marked gates, over nets that are numbered anew, in their order.
pub(crate) fn packed_gates(
    alloc: Global,
    first: usize,
    marks: &[bool],
    gates: &[Gate],
) -> Result<Renumbered, NoMemory>
    requires reads_lower { ReadsLower first gates.now }
    requires numbered { first + length gates.now ≤ 2 ^ 32 }
    requires closed { Closed first gates.now marks.now }
    ensures { IfOk result (λ p. Packed first marks.now gates.now p.gates.items p.names.items) }
{
    let mut names = own_names(alloc, first)?;
    let mut kept = Vec::new(alloc);
    for (k, gate) in gates.iter().enumerate() {
        if marks[first + k] {
            let op = renamed_op(&names, gate.op);
            names.push(NetId((first + kept.len()) as u32))?;
            kept.push(Gate {
                op,
                wire: gate.wire,
            })?;
        } else {
            names.push(NetId((first + kept.len()) as u32))?;
        }
    }
    Ok(Renumbered { names, gates: kept })
}
