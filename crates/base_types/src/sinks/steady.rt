// A sink in memory that never fails.

use crate::memory::NoMemory;
use crate::sinks::kept::KeptBytes;
use crate::sinks::writing::{Sink, SinkFault};
use std::alloc::Global;
use std::marker::Model;

/// A sink in memory that never fails: the count of faults stays 0. It takes its memory at the
/// start and keeps the first `room` bytes. It tells its bytes as long as no more than `room` came,
/// and tells nothing from then on.
#[derive(Drop)]
pub struct SteadySink {
    kept: KeptBytes,
}

impl Model for SteadySink {
    ghost use Rattle.base_types.specs.SinkState.{Kept};

    ghost Value = { Kept };

    ghost view = { λ s. s.kept };
}

impl SteadySink {
    ghost use Rattle.std.specs.Prelude.{◌≡◌, [], IfOk};

    /// A sink with room for this many bytes. Its only error is out of memory.
    pub fn new(alloc: Global, room: u64) -> Result<SteadySink, NoMemory>
        ensures { IfOk result (λ sink. sink ≡ record { bytes = []; room = room; beyond = 0 }) }
    {
        Ok(SteadySink {
            kept: KeptBytes::new(alloc, room)?,
        })
    }

    /// The bytes that it keeps. It takes no memory.
    pub fn bytes(&self) -> &[u8]
        ensures { result.now ≡ self.now.bytes }
    {
        self.kept.bytes()
    }
}

impl Sink for SteadySink {
    ghost use Rattle.std.specs.Prelude.{◌≡◌, Ok};
    ghost use Rattle.base_types.specs.SinkState.{told_of, after_piece};
    ghost use Rattle.base_types.specs.Writing.{Wrote};

    ghost told = { told_of };

    ghost faults = { λ _. 0 };

    fn write(&mut self, piece: &[u8]) -> Result<(), SinkFault>
        ensures wrote { Wrote (told_of self.old) (told_of self.new) 0 0 piece.now result }
        ensures answer { result ≡ Ok tt }
        ensures state { self.new ≡ after_piece self.old piece.now }
    {
        self.kept.take(piece);
        Ok(())
    }
}
