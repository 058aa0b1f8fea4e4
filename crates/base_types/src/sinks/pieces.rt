// Texts in several writes.

ghost use Rattle.std.specs.List.{flat_map};
ghost use Rattle.base_types.specs.Writing.{Wrote};

use crate::bounds::Limits;
use crate::sinks::writing::{Sink, SinkFault};

/// Writes the pieces one after another. It stops at the first piece that fails; a prefix of the
/// whole text was appended then.
pub fn write_pieces<O: Sink>(out: &mut O, pieces: &[&[u8]]) -> Result<(), SinkFault>
    ensures { Wrote (O.told out.old) (O.told out.new) (O.faults out.old) (O.faults out.new)
        (flat_map (λ piece. piece.now) pieces.now) result }
{
    for piece in pieces {
        if let Err(fault) = out.write(piece) {
            return Err(fault);
        }
    }
    Ok(())
}

/// Writes a text in pieces of at most 64 KiB. It stops at the first piece that fails; a prefix of
/// the text was appended then.
pub fn write_text<O: Sink>(out: &mut O, text: &[u8]) -> Result<(), SinkFault>
    ensures { Wrote (O.told out.old) (O.told out.new) (O.faults out.old) (O.faults out.new) text.now result }
{
    let mut start = 0;
    while start < text.len() {
        let end = start + Limits::PIECE_BYTES.min(text.len() - start);
        if let Err(fault) = out.write(&text[start..end]) {
            return Err(fault);
        }
        start = end;
    }
    Ok(())
}
