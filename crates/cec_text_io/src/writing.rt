// What is written to a sink of a text.

ghost use Rattle.std.specs.Prelude.{◌≡◌, Some};
ghost use Rattle.base_types.specs.SinkChanges.{change};
ghost use Rattle.net_ir.specs.Runs.{netlist_of};
ghost use Rattle.cec_text_io.specs.NetWriting.{IsWrittenIn};
ghost use Rattle.cec_text_io.specs.Writings.{LeavesPieces, LeavesText};

use base_types::{NoMemory, Sink, write_text};
use net_ir::Net;
use net_writer::{NetText, Pieces, Places, net_pieces};
use std::alloc::Global;

/// How the writing of a text ended.
#[derive(Clone, Copy, Debug, PartialEq, Eq)]
pub enum Written {
    /// All was written.
    Done,
    /// The sink did not take a piece: its count of faults rose.
    WriteFault,
    /// Running out of memory, between two pieces or before the first one.
    NoMemory,
}

/// Writes a text piece by piece, each right when it is made. It stops at the first piece that fails, and where memory
/// is wanting; a prefix of the text was appended then.
pub fn write_in_pieces<P: Places + Drop, O: Sink>(
    alloc: Global,
    pieces: &mut Pieces<P>,
    out: &mut O,
) -> Written
    ensures { LeavesPieces (λ text. text ≡ pieces.old) (change O.told O.faults out.old out.new) (Some result) }
{
    loop {
        match pieces.next(alloc) {
            Ok(Some(piece)) => {
                if let Err(_) = out.write(&piece) {
                    return Written::WriteFault;
                }
            }
            Ok(None) => return Written::Done,
            Err(NoMemory) => return Written::NoMemory,
        }
    }
}

/// Writes the text of a netlist in a language, the same.
pub fn write_net_in_pieces<T: NetText + Drop, O: Sink>(
    alloc: Global,
    net: &Net,
    out: &mut O,
) -> Written
    ensures { LeavesPieces (λ text. IsWrittenIn T.written T.means text (netlist_of net.now))
        (change O.told O.faults out.old out.new) (Some result) }
{
    match net_pieces::<T>(alloc, net) {
        Ok(mut pieces) => write_in_pieces(alloc, &mut pieces, out),
        Err(NoMemory) => Written::NoMemory,
    }
}

/// Writes a text that is in memory. It takes no more.
pub fn write_whole<O: Sink>(text: &[u8], out: &mut O) -> Written
    ensures { LeavesText (λ written. written ≡ text.now) (change O.told O.faults out.old out.new) (Some result) }
{
    match write_text(out, text) {
        Ok(()) => Written::Done,
        Err(_) => Written::WriteFault,
    }
}
