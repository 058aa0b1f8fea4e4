// Decisions.

/// Whether a literal of a netlist is ever true.
#[derive(Drop)]
pub enum Decision {
    /// The literal is never true.
    Never,
    /// The literal is true in the last instant of these events.
    Reached(Vec<Vec<bool>>),
    /// The effort was used up. As far as the search goes, no events of at most this length make it true.
    Unknown(usize),
}
