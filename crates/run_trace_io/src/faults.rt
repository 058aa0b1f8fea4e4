// The faults of a trace.

use base_types::Text;
use thiserror::Error;

/// The first fault of a trace. Instants count from 1, without the resets; relations count from 1.
#[derive(Debug, Drop, Error)]
pub enum TraceFault {
    /// The byte at this place has no place in a trace.
    #[error("byte {0} has no place in a trace")]
    BadByte(u32),
    /// In this instant stands a name that no input has.
    #[error("instant {0} has an unknown input")]
    UnknownInput(u32, Text),
    /// In this instant stands the name of an input a second time.
    #[error("instant {0} has an input twice")]
    Repeated(u32, Text),
    /// Where this instant would stand, `!reset` and another name are in one group.
    #[error("instant {0} has another name beside `!reset`")]
    BadReset(u32),
    /// At the end of the text stand names of this instant, without a `;` after them.
    #[error("instant {0} has no end")]
    OpenInstant(u32),
    /// This instant breaks a relation of the inputs; this is the first one that it breaks.
    #[error("instant {0} breaks relation {1}")]
    Breaks(u32, u32),
}

/// Why there is no next item.
#[derive(Debug, Drop, Error)]
pub enum TraceError {
    /// The trace has this fault here.
    #[error(transparent)]
    Fault(TraceFault),
    /// Memory was wanted and not found.
    #[error("no memory")]
    NoMemory,
}
