// Why a program is not flattened.

ghost use Rattle.std.specs.Prelude.{◌≡◌};
ghost use Rattle.est_expand.specs.declared.refusal.ExpandFault.TheVariants.{NoMemory as lacks_memory};

use base_types::{Span, Text};
use std::alloc::{AllocError, AllocFailed};
use thiserror::Error;

/// A name, a `run` or an `exit` that has no meaning where it stands. A place is that of the name at fault.
#[derive(Debug, Drop, Error)]
pub enum ScopeFault {
    /// A `run` of a module that is not there.
    #[error("the module at byte {} is unknown", .0.start)]
    UnknownModule(Span),
    /// A `run` that leads back to a module that it is in. The names are those of the modules from the
    /// main one to the repeated one.
    #[error("the module at byte {} runs itself", .0.start)]
    Recursive(Span, Vec<Text>),
    /// A formal that is no signal of its module's interface, or that was renamed before.
    #[error("the formal at byte {} cannot be renamed", .0.start)]
    BadRename(Span),
    /// A name that no binder and no interface around it declares.
    #[error("the signal at byte {} is unknown", .0.start)]
    UnknownSignal(Span),
    /// A `run` of a module, at its name, with a formal that is not renamed and has no visible signal of
    /// its name: the first such one.
    #[error("a signal of the module at byte {} is not given", .0.start)]
    Unbound(Span, Text),
    /// An `exit` that is in no trap of its name in its module, or a `handle` of another name than its
    /// trap's.
    #[error("the trap at byte {} is unknown", .0.start)]
    UnknownTrap(Span),
    /// An `emit` or a `sustain` of what is an input of its module or of the main module.
    #[error("the signal at byte {} is an input", .0.start)]
    EmitInput(Span),
}

/// Why `expand` gives no flat program.
#[derive(Debug, Drop)]
pub enum ExpandFault {
    /// The first name without a meaning, in the order of the walk.
    Scope(ScopeFault),
    /// More than 65,536 statements are met.
    TooManyStatements,
    /// A statement is in more than 2,048 statements.
    TooDeep,
    /// More than 4,096 signals are met.
    TooManySignals,
    /// Running out of memory.
    NoMemory,
}

impl From<AllocError> for ExpandFault {
    ghost from_gives = { λ _ error. error ≡ lacks_memory };

    fn from(_error: AllocError) -> ExpandFault {
        ExpandFault::NoMemory
    }
}

impl<T: Drop> From<AllocFailed<T>> for ExpandFault {
    ghost from_gives = { λ _ error. error ≡ lacks_memory };

    fn from(_error: AllocFailed<T>) -> ExpandFault {
        ExpandFault::NoMemory
    }
}

impl From<base_types::NoMemory> for ExpandFault {
    ghost from_gives = { λ _ error. error ≡ lacks_memory };

    fn from(_error: base_types::NoMemory) -> ExpandFault {
        ExpandFault::NoMemory
    }
}
