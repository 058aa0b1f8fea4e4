// Loop bodies around statements.

/// How many loop bodies there are around a statement.
#[derive(Clone, Copy)]
pub struct LoopBodies {
    /// Those that it is in.
    pub above: u32,
    /// Those that it is in or is.
    pub inside: u32,
}
