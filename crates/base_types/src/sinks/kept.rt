// Bytes that are kept within a room.

use std::alloc::{AllocError, Global};
use std::marker::Model;

// The first `room` bytes of all that came. The memory for them is taken at the start.
#[derive(Drop)]
pub(crate) struct KeptBytes {
    bytes: Vec<u8>,
    room: u64,
    beyond: u64,
}

impl Model for KeptBytes {
    ghost use Rattle.std.specs.Prelude.{◌≡◌, ◌<◌, ◌≤◌, vec_len, vec_capacity};
    ghost use Rattle.base_types.specs.SinkState.{Kept, IsKeptWithin};

    ghost Value = { Kept };

    ghost view = { λ k. record { bytes = k.bytes.items; room = k.room; beyond = k.beyond } };

    ghost invariant = { λ k. IsKeptWithin (vec_len k.bytes) (vec_capacity k.bytes) k.room k.beyond };
}

impl KeptBytes {
    ghost use Rattle.std.specs.Prelude.{◌≡◌, [], IfOk};
    ghost use Rattle.base_types.specs.SinkState.{after_piece, told_of};

    pub(crate) fn new(alloc: Global, room: u64) -> Result<KeptBytes, AllocError>
        ensures { IfOk result (λ kept. kept ≡ record { bytes = []; room = room; beyond = 0 }) }
    {
        Ok(KeptBytes {
            bytes: Vec::with_capacity(alloc, room as usize)?,
            room,
            beyond: 0,
        })
    }

    pub(crate) fn take(&mut self, piece: &[u8])
        ensures { self.new ≡ after_piece self.old piece.now }
    {
        let left = self.room as usize - self.bytes.len();
        let taken = left.min(piece.len());
        self.bytes.extend_from_slice(&piece[..taken]).unwrap();
        self.beyond = self.beyond.saturating_add((piece.len() - taken) as u64);
    }

    pub(crate) fn bytes(&self) -> &[u8]
        ensures { result.now ≡ self.now.bytes }
    {
        self.bytes.as_slice()
    }
}
