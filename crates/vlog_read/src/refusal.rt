// The faults of a text of structural Verilog.

use base_types::Text;
use thiserror::Error;

/// Why a text of structural Verilog is not taken: the first of its faults, in the order in which they are looked for.
/// The contract of a call states which of them it can have.
#[derive(Debug, Drop, Error)]
pub enum VlogFault {
    /// The text is longer than 256 MiB.
    #[error("text is too long")]
    TooLong,
    /// At this byte is the first token that no text of the subset has there, or the text ends here too early.
    #[error("byte {0} cannot stand here")]
    Syntax(u32),
    /// The first name that is declared a second time.
    #[error("a name is declared twice")]
    Twice(Text),
    /// The first port that is not the declaration at its place. Else the first declared input or output that is no
    /// port. Else the first of these with a name that it may not have. Else the name after `posedge`, if it is not
    /// the first input.
    #[error("a port is wrong")]
    Port(Text),
    /// The first name that is used and not declared, that is used and the clock, or that is under `initial` or left
    /// of `<=` and no reg.
    #[error("a name is not declared")]
    Undeclared(Text),
    /// The first name that is driven a second time. Inputs and regs are driven before any `assign`.
    #[error("a name is driven twice")]
    TwoDrivers(Text),
    /// The first declared reg, wire or output without its drivers.
    #[error("a name is not driven")]
    NoDriver(Text),
    /// A combinational cycle: each next name is in the expression that is assigned to the one before, and the first in
    /// that of the last.
    #[error("the assignments have a cycle")]
    Loop(Vec<Text>),
}
