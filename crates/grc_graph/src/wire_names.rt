// The names of wires, by the paths of statements.

use base_types::Text;

/// The place of a statement in a body: the child numbers from the body down. Of two parts the first has
/// the number 0 and the second 1; a single part has 0.
#[derive(Debug, Drop)]
pub struct Path {
    pub steps: Vec<u8>,
}

/// A layer by the path of its root.
#[derive(Debug, Drop)]
pub enum LayerName {
    Resumed,
    Started(Path),
}

/// The name of a wire, which says what it is without the numbers of a graph.
#[derive(Debug, Drop)]
pub enum WireName {
    /// The instance runs.
    Go(Path, LayerName),
    /// The instance ends with this completion code.
    End(Path, LayerName, u8),
    /// The signal of a Local is present, as this instance of the Local has it; with the signal's name.
    Local(Path, LayerName, Text),
    /// The outgoing signal of this name is present.
    Out(Text),
}
