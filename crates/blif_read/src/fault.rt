// The faults of a BLIF text.

use base_types::Text;
use thiserror::Error;

/// Why a BLIF text is not taken: the first of its faults, in the order in which they are looked for. The contract of a
/// call states which of them it can have.
#[derive(Debug, Drop, Error)]
pub enum BlifFault {
    /// The text has more bytes than `Limits::TEXT_BYTES`.
    #[error("the text is too long")]
    TooLong,
    /// The first line that is no line of the profile in its place, counted from 1. A missing `.end` is
    /// refused at the number after that of the last line.
    #[error("line {0} is not in the profile")]
    Line(u32),
    /// The first name in the text that is driven a second time.
    #[error("a name has two drivers")]
    TwoDrivers(Text),
    /// The first name in the text that is used and not driven.
    #[error("a name has no driver")]
    NoDriver(Text),
    /// The last output is not `_paused`, or there is none.
    #[error("the last output is not `_paused`")]
    NoPause,
    /// The model's name is no letter followed by letters, digits and `_`.
    #[error("the name of the model is none")]
    Model(Text),
    /// The first input whose name is none.
    #[error("the name of an input is none")]
    Input(Text),
    /// The first output that is neither such a name, of no input, nor the name of an input with `.out` after it.
    #[error("the name of an output is none")]
    Output(Text),
    /// The first output that stands a second time.
    #[error("an output is declared twice")]
    Again(Text),
    /// A combinational cycle: each next name is an input of the table that drives the one before, and the first is an
    /// input of the table that drives the last.
    #[error("the tables have a cycle")]
    Loop(Vec<Text>),
    /// The netlist might need more than 2^32 nets: two for each cell of a row and two for each row, one for each table,
    /// each input and each latch, and one more.
    #[error("the netlist needs too many nets")]
    TooManyNets,
    /// The text has a netlist, and this is the first name of a given relation that is none of its inputs.
    #[error("a relation names no input")]
    NoInput(Text),
}
