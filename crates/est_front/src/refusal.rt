// Why a source is refused.

ghost use Rattle.std.specs.Prelude.{◌≡◌};
ghost use Rattle.est_front.specs.declared.refusal.SourceRefusal.TheVariants.{NoMemory as lacks_memory};

use base_types::Span;
use est_expand::ScopeFault;
use est_names::NameFault;
use std::alloc::AllocFailed;
use thiserror::Error;

/// A static fault of a source, with its place.
#[derive(Debug, Drop, Error)]
pub enum Fault {
    /// At this byte no space, comment or token begins.
    #[error("byte {0} begins no token")]
    BadByte(u32),
    /// At this byte stands `%{`, and no `}%` follows.
    #[error("the comment at byte {0} has no end")]
    OpenComment(u32),
    /// The digits from this byte on are a number above the greatest of 128 bits.
    #[error("the number at byte {0} has over 128 bits")]
    BigNumber(u32),
    /// No program has this token where it stands: the token's number from 0, and the byte at which it begins. Where
    /// every token can stand but the program has not ended, these are the number of tokens and the length of the
    /// source.
    #[error("the token at byte {1} cannot stand there")]
    Syntax(u32, u32),
    /// A name is declared twice, or is no input in a relation, or no module has the main one's.
    #[error(transparent)]
    Name(NameFault),
    /// A name, a `run` or an `exit` has no meaning where it stands.
    #[error(transparent)]
    Scope(ScopeFault),
    /// A count is 0 or above 255.
    #[error("the count at byte {} is not 1 to 255", .0.start)]
    BadCount(Span),
    /// The body of this loop can terminate in the instant in which it starts. Of all such loops this is the one whose
    /// place starts first, and of those that start there the one that ends first.
    #[error("the loop at byte {} can end at once", .0.start)]
    InstantLoop(Span),
}

/// What passes its limit; `base_types::Limits` has the numbers.
#[derive(Clone, Copy, Debug)]
pub enum Quantity {
    /// The nesting of the source.
    Nesting,
    /// The statements that the expansion of `run` meets.
    Statements,
    /// The signals of the program.
    Signals,
    /// The nodes of the kernel body.
    Kernel,
    /// The height of the kernel body, or the statements that one statement is in during the expansion.
    Height,
    /// The traps one in another.
    Traps,
}

/// Why a source has no kernel program.
#[derive(Debug, Drop, Error)]
pub enum SourceRefusal {
    /// The source's first static fault.
    #[error(transparent)]
    Static(Fault),
    /// The quantity passes its limit.
    #[error("a limit is passed")]
    Limit(Quantity),
    /// Running out of memory.
    #[error("no memory")]
    NoMemory,
}

impl<T: Drop> From<AllocFailed<T>> for SourceRefusal {
    ghost from_gives = { λ _ refusal. refusal ≡ lacks_memory };

    fn from(_error: AllocFailed<T>) -> SourceRefusal {
        SourceRefusal::NoMemory
    }
}
