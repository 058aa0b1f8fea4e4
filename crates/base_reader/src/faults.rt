// Where and why a reader stops.

ghost use Rattle.std.specs.Prelude.{◌≡◌};
ghost use Rattle.base_reader.specs.declared.faults.ReadError.TheVariants as errors;

use std::alloc::{AllocError, AllocFailed};

/// A place where a list of tokens leaves the language, counted from the end of the list, and
/// whether it is only the nesting that goes too far there.
#[derive(Clone, Copy, Debug, PartialEq)]
pub struct Fault {
    /// With more room the token at the place could are there.
    pub deep: bool,
    /// How many tokens are left from the place on. It is 0 at the end of the list.
    pub left: usize,
}

/// Why a reader that allocates gives no value.
#[derive(Clone, Copy, Debug, PartialEq)]
pub enum ReadError {
    /// The tokens are no member of the language.
    Fault(Fault),
    /// Running out of memory, which no clause ties to a cause.
    NoMemory,
}

impl From<Fault> for ReadError {
    ghost from_gives = { λ fault e. e ≡ errors.Fault fault };

    fn from(fault: Fault) -> ReadError {
        ReadError::Fault(fault)
    }
}

impl From<AllocError> for ReadError {
    ghost from_gives = { λ _ e. e ≡ errors.NoMemory };

    fn from(_error: AllocError) -> ReadError {
        ReadError::NoMemory
    }
}

impl<T: Drop> From<AllocFailed<T>> for ReadError {
    ghost from_gives = { λ _ e. e ≡ errors.NoMemory };

    fn from(_error: AllocFailed<T>) -> ReadError {
        ReadError::NoMemory
    }
}
