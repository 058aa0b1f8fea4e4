// Why a flat program has no kernel program.

use base_types::Span;
use thiserror::Error;

/// Why `dismantle` gives no kernel program, where it does not lack memory.
#[derive(Debug, PartialEq, Drop, Error)]
pub enum DismantleFault {
    /// The first count that is 0 or above 255, in the order in which they are written.
    #[error("the count at byte {} is not from 1 to 255", .0.start)]
    BadCount(Span),
    /// The kernel body has more than 65,536 nodes.
    #[error("the kernel has more than 65536 nodes")]
    TooLarge,
    /// Some way down the kernel body has more than 1,024 nodes.
    #[error("the kernel is higher than 1024 nodes")]
    TooHigh,
    /// More than 60 traps stand one in another.
    #[error("more than 60 traps stand one in another")]
    TooManyTraps,
}
