// Why a call ends early: by a fault of its own, or because memory ran out.

ghost use Rattle.std.specs.Prelude.{◌≡◌};
ghost use Rattle.base_types.specs.declared.stop.Stop.TheVariants.{NoMemory as lacks_memory};

use crate::memory::NoMemory;
use std::alloc::{AllocError, AllocFailed};

/// Why a call was not done, where its own faults are those of a type: `NoMemory` is out of memory, which no clause
/// ties to a cause.
#[derive(Drop)]
pub enum Stop<F> {
    /// The call has this fault.
    Fault(F),
    /// Running out of memory.
    NoMemory,
}

impl<F> From<NoMemory> for Stop<F> {
    ghost from_gives = { λ _ stop. stop ≡ lacks_memory };

    fn from(_error: NoMemory) -> Stop<F> {
        Stop::NoMemory
    }
}

impl<F> From<AllocError> for Stop<F> {
    ghost from_gives = { λ _ stop. stop ≡ lacks_memory };

    fn from(_error: AllocError) -> Stop<F> {
        Stop::NoMemory
    }
}

impl<F, T: Drop> From<AllocFailed<T>> for Stop<F> {
    ghost from_gives = { λ _ stop. stop ≡ lacks_memory };

    fn from(_error: AllocFailed<T>) -> Stop<F> {
        Stop::NoMemory
    }
}
