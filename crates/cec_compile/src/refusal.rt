// Why a source has no text.

ghost use Rattle.std.specs.Prelude.{◌≡◌};
ghost use Rattle.cec_compile.specs.Limits.{limit_of, refusal_of, copying_refusal, building_refusal};
ghost use Rattle.cec_compile.specs.declared.refusal.Refusal.TheVariants.{NoMemory as lacks_memory};

use crate::cycles::Cycle;
use base_types::NoMemory;
use est_front::{Fault, Quantity};
use grc_build::BuildFault;
use grc_layout::CopyFault;
use std::alloc::AllocError;
use thiserror::Error;

/// What passes its limit; `base_types::Limits` has the numbers.
#[derive(Clone, Copy, Debug, PartialEq, Eq)]
pub enum Limit {
    /// The bytes of the source.
    Source,
    /// The bytes of the trace.
    Trace,
    /// The bytes of a text that is read.
    Text,
    /// The nesting of the source.
    Nesting,
    /// The statements that the expansion of `run` meets.
    Statements,
    /// The signals of the program.
    Signals,
    /// The nodes of the kernel body.
    Kernel,
    /// The height of the kernel body, or the statements that one statement is in during the expansion.
    Height,
    /// The traps one in another.
    Traps,
    /// The live instances.
    Instances,
    /// The wires and the live test nodes, together.
    Wires,
}

/// Why a source has no text.
#[derive(Debug, Drop, Error)]
pub enum Refusal {
    /// The source's first static fault.
    #[error(transparent)]
    Static(Fault),
    /// The dependency relation has this cycle.
    #[error("the dependencies have a cycle")]
    Cyclic(Cycle),
    /// The quantity passes its limit.
    #[error("a limit is passed")]
    Limit(Limit),
    /// Running out of memory.
    #[error("no memory")]
    NoMemory,
}

impl From<Quantity> for Limit {
    ghost from_gives = { λ quantity limit. limit ≡ limit_of quantity };

    fn from(quantity: Quantity) -> Limit {
        match quantity {
            Quantity::Nesting => Limit::Nesting,
            Quantity::Statements => Limit::Statements,
            Quantity::Signals => Limit::Signals,
            Quantity::Kernel => Limit::Kernel,
            Quantity::Height => Limit::Height,
            Quantity::Traps => Limit::Traps,
        }
    }
}

impl From<est_front::SourceRefusal> for Refusal {
    ghost from_gives = { λ given refusal. refusal ≡ refusal_of given };

    fn from(refusal: est_front::SourceRefusal) -> Refusal {
        match refusal {
            est_front::SourceRefusal::Static(fault) => Refusal::Static(fault),
            est_front::SourceRefusal::Limit(quantity) => Refusal::Limit(Limit::from(quantity)),
            est_front::SourceRefusal::NoMemory => Refusal::NoMemory,
        }
    }
}

impl From<CopyFault> for Refusal {
    ghost from_gives = { λ fault refusal. refusal ≡ copying_refusal fault };

    fn from(fault: CopyFault) -> Refusal {
        match fault {
            CopyFault::TooManyInstances => Refusal::Limit(Limit::Instances),
            CopyFault::NoMemory => Refusal::NoMemory,
        }
    }
}

impl From<BuildFault> for Refusal {
    ghost from_gives = { λ fault refusal. refusal ≡ building_refusal fault };

    fn from(fault: BuildFault) -> Refusal {
        match fault {
            BuildFault::TooManyWires => Refusal::Limit(Limit::Wires),
            BuildFault::NoMemory => Refusal::NoMemory,
        }
    }
}

impl From<NoMemory> for Refusal {
    ghost from_gives = { λ _ refusal. refusal ≡ lacks_memory };

    fn from(_error: NoMemory) -> Refusal {
        Refusal::NoMemory
    }
}

impl From<AllocError> for Refusal {
    ghost from_gives = { λ _ refusal. refusal ≡ lacks_memory };

    fn from(_error: AllocError) -> Refusal {
        Refusal::NoMemory
    }
}
