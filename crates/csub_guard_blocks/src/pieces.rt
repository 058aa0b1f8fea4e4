// The text of a net in which the gates of a head are in blocks, whole and piece by piece.

ghost use Rattle.std.specs.Prelude.{◌≡◌, length, map, All, IfOk};
ghost use Rattle.net_ir.specs.Runs.{netlist_of};
ghost use Rattle.csub_guard_blocks.specs.Blocks.{guarded_text, HasHead};
ghost use Rattle.csub_guard_blocks.specs.Usages.{owner_in};

use crate::blocks::put_place;
use crate::owning::Owner;
use base_types::NoMemory;
use net_ir::Net;
use net_writer::{Pieces, Places};
use std::alloc::Global;

/// A net whose gates belong so, as a text that is put place by place: each part of the text of the C subset is a place,
/// and at those of gates of a head the block from there on is what stands at it.
#[derive(Drop)]
pub struct Blocks<'a> {
    net: &'a Net,
    owners: Vec<Owner>,
}

impl<'a> Places for Blocks<'a> {
    ghost use Rattle.std.specs.Prelude.{◌≡◌, All, length, map};
    ghost use Rattle.net_ir.specs.Runs.{netlist_of};
    ghost use Rattle.csub_guard_blocks.specs.Blocks.{HasHead};
    ghost use Rattle.csub_guard_blocks.specs.Pieces.{text_from};
    ghost use Rattle.csub_guard_blocks.specs.Usages.{owner_in};

    ghost text_from = { λ b place. text_from (netlist_of b.net.now) (map owner_in b.owners.items) place };

    ghost is_sound = { λ b. (length b.owners.items ≡ length b.net.now.gates.items)
        × All (λ o. HasHead (length b.net.now.gates.items) (owner_in o)) b.owners.items };

    fn put_place(&self, text: &mut Vec<u8>, place: u128) -> Result<Option<u128>, NoMemory> {
        put_place(text, self.net, &self.owners, place)
    }
}

/// The text of a net whose gates belong so, piece by piece.
pub type BlockPieces<'a> = Pieces<Blocks<'a>>;

/// All pieces of the text of a net whose gates belong so: that of the C subset, in which the gates of a head that stand
/// one after another are a block. It takes no memory.
pub fn block_pieces<'a>(alloc: Global, net: &'a Net, owners: Vec<Owner>) -> BlockPieces<'a>
    requires count { length owners.items ≡ length net.now.gates.items }
    requires heads { All (λ o. HasHead (length net.now.gates.items) (owner_in o)) owners.items }
    ensures { result ≡ guarded_text (netlist_of net.now) (map owner_in owners.items) }
{
    Pieces::new(alloc, Blocks { net, owners })
}

/// The text of a net whose gates belong so, all pieces of it. The time and the memory that it takes are linear in the
/// length of the text; out of memory is its only error.
pub fn write_blocks(alloc: Global, net: &Net, owners: Vec<Owner>) -> Result<Vec<u8>, NoMemory>
    requires count { length owners.items ≡ length net.now.gates.items }
    requires heads { All (λ o. HasHead (length net.now.gates.items) (owner_in o)) owners.items }
    ensures { IfOk result (λ t. t.items ≡ guarded_text (netlist_of net.now) (map owner_in owners.items)) }
{
    let pieces = block_pieces(alloc, net, owners);
    pieces.all(alloc)
}
