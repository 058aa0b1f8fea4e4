// Why a body has no static codes.

ghost use Rattle.std.specs.Prelude.{◌≡◌};
ghost use Rattle.est_codes.specs.declared.refusal.CodeFault.TheVariants.{NoMemory as lacks_memory};

use base_types::Span;
use std::alloc::{AllocError, AllocFailed};
use thiserror::Error;

/// Why `codes` gives no codes.
#[derive(Debug, PartialEq, Drop, Error)]
pub enum CodeFault {
    /// The body of this loop can terminate in the instant in which it starts. Of all such loops this
    /// is the one whose place starts first, and of those that start there the one that ends first.
    #[error("the loop at byte {} is instantaneous", .0.start)]
    InstantLoop(Span),
    /// Running out of memory.
    #[error("no memory")]
    NoMemory,
}

impl From<AllocError> for CodeFault {
    ghost from_gives = { λ _ error. error ≡ lacks_memory };

    fn from(_error: AllocError) -> CodeFault {
        CodeFault::NoMemory
    }
}

impl<T: Drop> From<AllocFailed<T>> for CodeFault {
    ghost from_gives = { λ _ error. error ≡ lacks_memory };

    fn from(_error: AllocFailed<T>) -> CodeFault {
        CodeFault::NoMemory
    }
}

impl From<base_types::NoMemory> for CodeFault {
    ghost from_gives = { λ _ error. error ≡ lacks_memory };

    fn from(_error: base_types::NoMemory) -> CodeFault {
        CodeFault::NoMemory
    }
}
