// Texts that are put place by place.

ghost use Rattle.std.specs.Prelude.{◌≡◌, IfOk};
ghost use Rattle.net_ir.specs.Runs.{netlist_of};

use crate::parts::put_part;
use crate::pieces::Pieces;
use crate::texts::NetText;
use base_types::NoMemory;
use net_ir::Net;
use std::alloc::Global;

/// A text that is put place by place.
///
/// `text_from` is the text from a place on, and `is_sound` says what is so of a value whose text can be put.
pub trait Places {
    ghost use Rattle.std.specs.Prelude.{ℕ, List, IfOk};
    ghost use Rattle.net_writer.specs.Parts.{PutsPlace};

    ghost text_from: { Self → ℕ → List ℕ };

    ghost is_sound: { Self → Type 0 };

    /// Puts what stands at a place after a text. The answer is the place after it; None where the text is at its
    /// end. Running out of memory is the only error.
    fn put_place(&self, text: &mut Vec<u8>, place: u128) -> Result<Option<u128>, NoMemory>
        requires { is_sound self.now }
        ensures { IfOk result (PutsPlace (text_from self.now) place text.old.items text.new.items) };
}

/// The text of a net in a language: each part is a place.
#[derive(Drop)]
pub struct NetPlaces<'a, T: NetText + Drop> {
    net: &'a Net,
    form: T,
}

impl<'a, T: NetText + Drop> Places for NetPlaces<'a, T> {
    ghost use Rattle.std.specs.Prelude.{drop, flat_map};
    ghost use Rattle.net_ir.specs.Runs.{netlist_of};
    ghost use Rattle.net_writer.specs.Parts.{joined};

    ghost text_from = { λ p place. joined (drop place (flat_map (T.parts_in (netlist_of p.net.now)) T.sections)) };

    ghost is_sound = { λ p. T.is_of p.form (netlist_of p.net.now) };

    fn put_place(&self, text: &mut Vec<u8>, place: u128) -> Result<Option<u128>, NoMemory> {
        if put_part(&self.form, text, self.net, place)? {
            Ok(Some(place + 1))
        } else {
            Ok(None)
        }
    }
}

/// The text of a net, piece by piece.
pub type NetPieces<'a, T> = Pieces<NetPlaces<'a, T>>;

/// All pieces of the text of a net, which is that of `write_net`. The only error, here and below, is out of memory.
pub fn net_pieces<'a, T: NetText + Drop>(
    alloc: Global,
    net: &'a Net,
) -> Result<NetPieces<'a, T>, NoMemory>
    ensures text { IfOk result (λ p. p ≡ T.written (netlist_of net.now)) }
    ensures means { IfOk result (λ p. T.means p (netlist_of net.now)) }
{
    T::look_at(net);
    let form = T::of(alloc, net)?;
    Ok(Pieces::new(alloc, NetPlaces { net, form }))
}

/// The text of a net, all pieces of it. The time and the memory that it takes are linear in the length of the text.
pub fn write_net<T: NetText + Drop>(alloc: Global, net: &Net) -> Result<Vec<u8>, NoMemory>
    ensures text { IfOk result (λ t. t.items ≡ T.written (netlist_of net.now)) }
    ensures means { IfOk result (λ t. T.means t.items (netlist_of net.now)) }
{
    let pieces = net_pieces::<T>(alloc, net)?;
    pieces.all(alloc)
}
