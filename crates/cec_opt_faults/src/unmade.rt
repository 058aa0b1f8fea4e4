// Why no text is made.

use std::fmt::Display;
use thiserror::Error;

/// Why no text is made of a source, or of a BLIF text.
#[derive(Debug, Drop, Error)]
#[error_bound(C: Display, F: Display)]
pub enum Unmade<C, F> {
    /// It has no netlist, for this cause.
    #[error(transparent)]
    NoNet(C),
    /// It has a netlist, and the netlist has no text, for this cause.
    #[error(transparent)]
    NoText(F),
}
