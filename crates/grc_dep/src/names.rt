// Wires by name.

use base_types::SigId;
use grc_graph::Instance;

/// A wire by what it says, whether or not the graph has it.
#[derive(Clone, Copy)]
pub enum NamedWire {
    /// The outgoing signal is present.
    Out(SigId),
    /// The instance runs.
    Go(Instance),
    /// The signal of the Local is present, as this instance has it.
    Status(Instance),
    /// The instance ends with this completion code.
    End(Instance, u8),
}
