// A sink in memory that fails at chosen calls.

use crate::memory::NoMemory;
use crate::sinks::kept::KeptBytes;
use crate::sinks::writing::{Sink, SinkFault};
use std::alloc::Global;
use std::marker::Model;

/// A sink in memory. A call whose number, from 1, is in the list of failing calls fails and appends
/// nothing; no other call fails. It takes its memory at the start, keeps the first `room` bytes,
/// and tells them as long as no more than `room` came.
#[derive(Drop)]
pub struct ListSink {
    kept: KeptBytes,
    failing: Vec<u64>,
    calls: u64,
    faults: u64,
}

impl Model for ListSink {
    ghost use Rattle.base_types.specs.SinkState.{ListState};

    ghost Value = { ListState };

    ghost view = { λ s. record {
      kept = s.kept;
      failing = s.failing.items;
      calls = s.calls;
      faults = s.faults;
    } };
}

impl ListSink {
    ghost use Rattle.std.specs.Prelude.{◌≡◌, [], IfOk};

    /// A sink with room for this many bytes, before the first call. Its only error is out of memory.
    pub fn new(alloc: Global, room: u64, failing: Vec<u64>) -> Result<ListSink, NoMemory>
        ensures { IfOk result (λ sink. sink ≡ record {
          kept = record { bytes = []; room = room; beyond = 0 };
          failing = failing.items;
          calls = 0;
          faults = 0;
        }) }
    {
        Ok(ListSink {
            kept: KeptBytes::new(alloc, room)?,
            failing,
            calls: 0,
            faults: 0,
        })
    }

    /// The bytes that it keeps. It takes no memory.
    pub fn bytes(&self) -> &[u8]
        ensures { result.now ≡ self.now.kept.bytes }
    {
        self.kept.bytes()
    }
}

impl Sink for ListSink {
    ghost use Rattle.std.specs.Prelude.{◌≡◌};
    ghost use Rattle.base_types.specs.SinkState.{told_of, AnswersWrite, after_write};
    ghost use Rattle.base_types.specs.Writing.{Wrote};

    ghost told = { λ s. told_of s.kept };

    ghost faults = { λ s. s.faults };

    fn write(&mut self, piece: &[u8]) -> Result<(), SinkFault>
        ensures wrote { Wrote (told_of self.old.kept) (told_of self.new.kept)
            self.old.faults self.new.faults piece.now result }
        ensures answer { AnswersWrite self.old result }
        ensures state { self.new ≡ after_write self.old piece.now result }
    {
        self.calls = self.calls.saturating_add(1);
        if self.failing.contains(&self.calls) {
            self.faults = self.faults.saturating_add(1);
            return Err(SinkFault::Failed);
        }
        self.kept.take(piece);
        Ok(())
    }
}
