// Why a body has no list of live instances.

ghost use Rattle.std.specs.Prelude.{◌≡◌};
ghost use Rattle.grc_layout.specs.declared.refusal.CopyFault.TheVariants.{NoMemory as lacks_memory};

use std::alloc::{AllocError, AllocFailed};
use thiserror::Error;

/// Why `copies` gives no instances.
#[derive(Debug, Drop, Error)]
pub enum CopyFault {
    /// There are more live instances than `Limits::INSTANCES`.
    #[error("too many instances")]
    TooManyInstances,
    /// Running out of memory.
    #[error("no memory")]
    NoMemory,
}

impl From<AllocError> for CopyFault {
    ghost from_gives = { λ _ error. error ≡ lacks_memory };

    fn from(_error: AllocError) -> CopyFault {
        CopyFault::NoMemory
    }
}

impl<T: Drop> From<AllocFailed<T>> for CopyFault {
    ghost from_gives = { λ _ error. error ≡ lacks_memory };

    fn from(_error: AllocFailed<T>) -> CopyFault {
        CopyFault::NoMemory
    }
}

impl From<base_types::NoMemory> for CopyFault {
    ghost from_gives = { λ _ error. error ≡ lacks_memory };

    fn from(_error: base_types::NoMemory) -> CopyFault {
        CopyFault::NoMemory
    }
}
