// What a caller chooses for the text of a net.

/// How a reset works.
#[derive(Clone, Copy)]
pub struct Manner {
    /// It takes effect at once, and not only at rising edges of the clock.
    pub is_asynchronous: bool,
    /// It is active where its port is low.
    pub is_active_low: bool,
    /// The registers have their first values at power-up too, by `initial`.
    pub is_initialized: bool,
}

/// The names of a module with a reset, and how the reset works.
#[derive(Clone, Copy)]
pub struct ResetOptions<'a> {
    /// The name of the module, if it is another than the net's.
    pub name: Option<&'a [u8]>,
    /// The name of the port of the reset.
    pub reset: &'a [u8],
    pub manner: Manner,
    /// Inputs and outputs are `i_X` and `o_X`, where X is the name of the signal. Else they have the names of their
    /// signals.
    pub has_prefixes: bool,
}
