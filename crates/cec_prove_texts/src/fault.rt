// Why there is no comparison of two texts.

use blif_read::BlifFault;
use thiserror::Error;

/// One of two texts has no netlist.
#[derive(Debug, Drop, Error)]
pub enum PairFault {
    /// The first text has this fault.
    #[error(transparent)]
    First(BlifFault),
    /// The first text has a netlist, and the second text has this fault.
    #[error(transparent)]
    Second(BlifFault),
}
