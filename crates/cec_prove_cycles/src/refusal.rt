// Why there is no comparison of two sources.

use cec_cycles::CycleRefusal;
use thiserror::Error;

/// Why there is no comparison: one of the sources has no constructive netlist.
#[derive(Debug, Drop, Error)]
pub enum CyclePairRefusal {
    /// The first source has none, for this cause.
    #[error(transparent)]
    First(CycleRefusal),
    /// The first source has one, and the second source has none, for this cause.
    #[error(transparent)]
    Second(CycleRefusal),
}
