// The guarded text of a net, whole and piece by piece.

ghost use Rattle.std.specs.Prelude.{◌≡◌, length, map, IfOk, All};
ghost use Rattle.net_ir.specs.Runs.{netlist_of};
ghost use Rattle.net_ir.specs.Writing.{IsWritable};
ghost use Rattle.csub_guard_blocks.specs.Blocks.{guarded_text, HasHead};
ghost use Rattle.csub_guard_blocks.specs.Owners.{owners};
ghost use Rattle.csub_guard_blocks.specs.Usages.{owner_in};
ghost use Rattle.csub_guard_writer.specs.Meaning.{GuardedMeans};
ghost use Rattle.csub_guard_writer.specs.Regions.{region_by};

use crate::gate_regions::gate_regions;
use base_types::{NoMemory, WireId};
use csub_guard_blocks::{BlockPieces, Owner, block_pieces, owners, write_blocks};
use net_ir::{Net, look_at_wires};
use std::alloc::Global;

/// The guarded text of a net, piece by piece.
pub type GuardedPieces<'a> = BlockPieces<'a>;

/// The guarded text of a net. `regions` has for each wire, by its number, the wire that says whether the head of its
/// region runs, if it lies in one. The time and the memory are linear in the length of the text and in the regions;
/// out of memory is the only error.
pub fn write_guarded(
    alloc: Global,
    net: &Net,
    regions: &[Option<WireId>],
) -> Result<Vec<u8>, NoMemory>
    ensures text { IfOk result (λ t. t.items ≡ guarded_text (netlist_of net.now)
        (owners (netlist_of net.now) (region_by (netlist_of net.now) regions.now))) }
    ensures means { IfOk result (λ t. GuardedMeans t.items (netlist_of net.now) regions.now) }
{
    // A proof knows of the numbers of wires that they fit their type only where they were looked at.
    look_at_wires(net);
    let owners = owners_by(alloc, net, regions)?;
    write_blocks(alloc, net, owners)
}

/// All pieces of the guarded text of a net, which is that of `write_guarded`. The time and the memory are linear in the
/// net and in the regions; out of memory is the only error.
pub fn guarded_pieces<'a>(
    alloc: Global,
    net: &'a Net,
    regions: &[Option<WireId>],
) -> Result<GuardedPieces<'a>, NoMemory>
    ensures text { IfOk result (λ p. p ≡ guarded_text (netlist_of net.now)
        (owners (netlist_of net.now) (region_by (netlist_of net.now) regions.now))) }
    ensures means { IfOk result (λ p. GuardedMeans p (netlist_of net.now) regions.now) }
{
    look_at_wires(net);
    let owners = owners_by(alloc, net, regions)?;
    Ok(block_pieces(alloc, net, owners))
}

// How each gate belongs.
fn owners_by(alloc: Global, net: &Net, regions: &[Option<WireId>]) -> Result<Vec<Owner>, NoMemory>
    requires { IsWritable (netlist_of net.now) }
    ensures are { IfOk result (λ o. map owner_in o.items
        ≡ owners (netlist_of net.now) (region_by (netlist_of net.now) regions.now)) }
    ensures count { IfOk result (λ o. length o.items ≡ length net.now.gates.items) }
    ensures heads { IfOk result (λ o. All (λ x. HasHead (length net.now.gates.items) (owner_in x)) o.items) }
{
    let of_gates = gate_regions(alloc, net, regions)?;
    owners(alloc, net, &of_gates)
}
