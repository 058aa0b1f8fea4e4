// Files from outside, and what reading one may answer.

use std::alloc::{AllocError, AllocFailed, Global};

/// Why a read gave no bytes.
#[derive(Clone, Copy, Debug, PartialEq)]
pub enum FileFault {
    /// The file was not read. The count of faults rose, and the name is the one that failed last.
    Failed,
    /// More bytes than the limit are in the file.
    TooLong,
    /// Running out of memory.
    NoMemory,
}

impl From<AllocError> for FileFault {
    ghost use Rattle.std.specs.Prelude.{◌≡◌};
    ghost use Rattle.base_types.specs.declared.files.reading.FileFault.TheVariants.{NoMemory};

    ghost from_gives = { λ _ fault. fault ≡ NoMemory };

    fn from(_error: AllocError) -> FileFault {
        FileFault::NoMemory
    }
}

impl<T: Drop> From<AllocFailed<T>> for FileFault {
    ghost use Rattle.std.specs.Prelude.{◌≡◌};
    ghost use Rattle.base_types.specs.declared.files.reading.FileFault.TheVariants.{NoMemory};

    ghost from_gives = { λ _ fault. fault ≡ NoMemory };

    fn from(_error: AllocFailed<T>) -> FileFault {
        FileFault::NoMemory
    }
}

/// Files that can be read by name.
///
/// An implementation may tell its `content`, a map from names to bytes, or keep it untold; clauses
/// on bytes hold where it is reported. The count of `faults` is always told and never falls, and so is
/// the name that failed last, which is empty at first.
pub trait Files {
    ghost use Rattle.std.specs.Prelude.{◌≡◌, ℕ, List, Option};
    ghost use Rattle.base_types.specs.Reading.{Reads, Counts};

    ghost content: { Self → Option (List ℕ → List ℕ) };

    ghost faults: { Self → ℕ };

    ghost last_failed: { Self → List ℕ };

    /// The bytes that the file of this name holds, where there are at most `limit` of them.
    ///
    /// `Failed` comes only where the count of faults rises in this call, and `TooLong` exactly
    /// where the read does not fail and more than `limit` bytes are there.
    fn read(&mut self, alloc: Global, name: &str, limit: u64) -> Result<Vec<u8>, FileFault>
        ensures bytes { Reads (content self.old) name.now limit result }
        ensures counts { Counts (faults self.old) (faults self.new)
            (last_failed self.old) (last_failed self.new) name.now result }
        ensures content_stays { content self.new ≡ content self.old };
}
