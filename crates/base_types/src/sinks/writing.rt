// Sinks for written text, and what writing to one may answer.

/// Why a write did not take the whole piece.
#[derive(Clone, Copy, Debug, PartialEq)]
pub enum SinkFault {
    /// The count of faults rose, and a prefix of the piece was appended.
    Failed,
}

/// What takes written text.
///
/// An implementation may tell the bytes that it has, or keep them untold; clauses on bytes hold
/// where they are reported before and after a call, and what is not told stays so. The count of
/// `faults` is always told and never falls.
pub trait Sink {
    ghost use Rattle.std.specs.Prelude.{ℕ, List, Option};
    ghost use Rattle.base_types.specs.Writing.{Wrote};

    ghost told: { Self → Option (List ℕ) };

    ghost faults: { Self → ℕ };

    /// Appends the whole piece, or fails: the count of faults rises, and a prefix of the piece was
    /// appended. It takes no memory of the caller's.
    fn write(&mut self, piece: &[u8]) -> Result<(), SinkFault>
        ensures { Wrote (told self.old) (told self.new) (faults self.old) (faults self.new) piece.now result };
}
