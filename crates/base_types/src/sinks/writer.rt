// A sink over a writer of the outside.

ghost use Rattle.std.specs.Prelude.{◌<◌, ◌≤◌, length, IfSome};
ghost use Rattle.base_types.specs.Writing.{AppendsSome};

use crate::sinks::writing::{Sink, SinkFault};
use std::io::{ErrorKind, Write};
use std::marker::Model;

/// A sink over a writer. As a sink it tells nothing of its bytes, and it counts its faults in a u64
/// that stays at its greatest value. A write that takes nothing of a piece that is not empty is a
/// fault. A contract sees the count of faults, and the bytes that the writer holds, where the writer
/// tells them.
#[derive(Drop)]
pub struct WriterSink<W: Write + Drop> {
    writer: W,
    faults: u64,
}

impl<W: Write + Drop> Model for WriterSink<W> {
    ghost use Rattle.base_types.specs.Writing.{WriterState};

    ghost Value = { WriterState };

    ghost view = { λ s. record { contents = W.contents s.writer; faults = s.faults } };
}

impl<W: Write + Drop> WriterSink<W> {
    ghost use Rattle.std.specs.Prelude.{◌≡◌};

    /// A sink that writes to this writer. It takes no memory.
    pub fn new(writer: W) -> WriterSink<W>
        ensures { result ≡ record { contents = W.contents writer; faults = 0 } }
    {
        WriterSink { writer, faults: 0 }
    }
}

impl<W: Write + Drop> Sink for WriterSink<W> {
    ghost use Rattle.std.specs.Prelude.{None};
    ghost use Rattle.base_types.specs.Writing.{Wrote, HoldsMore};

    ghost told = { λ _. None };

    ghost faults = { λ s. s.faults };

    fn write(&mut self, piece: &[u8]) -> Result<(), SinkFault>
        ensures counts { Wrote None None self.old.faults self.new.faults piece.now result }
        // Where the writer tells what it holds, it holds the whole piece more, or a prefix of it.
        ensures holds { HoldsMore self.old.contents self.new.contents piece.now result }
    {
        let mut rest = piece;
        while !rest.is_empty() {
            match write_some(&mut self.writer, rest) {
                Some(taken) => rest = &rest[taken..],
                None => {
                    self.faults = self.faults.saturating_add(1);
                    return Err(SinkFault::Failed);
                }
            }
        }
        Ok(())
    }
}

// How much of the piece the writer took, at least one byte; it is asked again where it was
// interrupted.
fn write_some<W: Write>(writer: &mut W, piece: &[u8]) -> Option<usize>
    ensures some { IfSome result (λ taken. (0 < taken) × (taken ≤ length piece.now)) }
    ensures holds { AppendsSome (W.contents writer.old) (W.contents writer.new) piece.now result }
{
    for _ in 0..u64::MAX {
        match writer.write(piece) {
            Ok(0) => return None,
            Ok(taken) => return Some(taken),
            Err(error) if error.kind() == ErrorKind::Interrupted => (),
            Err(_) => return None,
        }
    }
    None
}
