// The wires and the nodes of a graph.

use base_types::{InstId, SigId, WireId};

/// A wire of a graph.
#[derive(Clone, Copy, PartialEq)]
pub enum Wire {
    /// The instance runs.
    Go(InstId),
    /// The instance ends with this completion code.
    End(InstId, u8),
    /// The signal of a Local is present, as this instance of the Local has it.
    Local(InstId),
    /// The outgoing signal is present.
    Out(SigId),
}

/// A node of the control-flow graph, one per live instance (Potop-Butucaru, Edwards and Berry,
/// "Compiling Esterel").
#[derive(Clone, Copy)]
pub enum Node {
    /// Starts both branches of a parallel, in these instances.
    Fork(InstId, InstId),
    /// Waits for the branches of a resumed parallel.
    Sync(InstId),
    /// Resumes the part that holds a selected pause.
    Switch(InstId),
    /// Chooses a branch by a test, or suspends.
    Test(InstId),
    /// Enters a pause.
    Enter(InstId),
    /// Emits on a status wire.
    Emit(InstId, WireId),
    /// Defines the status wire of a local signal.
    Define(InstId, WireId),
    /// Leaves a trap with this code.
    Exit(InstId, u8),
    /// Passes control through.
    Through(InstId),
}
