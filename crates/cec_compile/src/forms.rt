// The forms of the texts of sources.

/// A form of the texts that are made of sources.
#[derive(Clone, Copy)]
pub enum TextForm {
    /// BLIF, with a latch for each pause.
    Blif,
    /// BLIF whose latches hold the state in a code.
    EncodedBlif,
    /// The C subset.
    C,
    /// The C subset, with gates in blocks that a call skips.
    Guarded,
    /// Structural Verilog.
    Verilog,
}
