// Why a text has no tokens.

ghost use Rattle.std.specs.Prelude.{◌≡◌};
ghost use Rattle.est_lex.specs.declared.refusal.LexError.TheVariants.{NoMemory as lacks_memory};

use std::alloc::{AllocError, AllocFailed};
use thiserror::Error;

/// Why `lex` gives no tokens. Places are bytes of the text, from 0.
#[derive(Debug, Drop, Error)]
pub enum LexError {
    /// At this place no space, comment or token begins. The text before it is cut into such.
    #[error("byte {0} begins no token")]
    BadByte(u32),
    /// At this place stands `%{`, and no `}%` follows.
    #[error("the comment at byte {0} is not closed")]
    OpenComment(u32),
    /// The digits from this place on are a number above the greatest of 128 bits.
    #[error("the number at byte {0} is too great")]
    BigNumber(u32),
    /// Running out of memory.
    #[error("no memory")]
    NoMemory,
}

impl From<AllocError> for LexError {
    ghost from_gives = { λ _ error. error ≡ lacks_memory };

    fn from(_error: AllocError) -> LexError {
        LexError::NoMemory
    }
}

impl<T: Drop> From<AllocFailed<T>> for LexError {
    ghost from_gives = { λ _ error. error ≡ lacks_memory };

    fn from(_error: AllocFailed<T>) -> LexError {
        LexError::NoMemory
    }
}

impl From<base_types::NoMemory> for LexError {
    ghost from_gives = { λ _ error. error ≡ lacks_memory };

    fn from(_error: base_types::NoMemory) -> LexError {
        LexError::NoMemory
    }
}
