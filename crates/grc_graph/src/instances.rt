// The live instances of a kernel body.

use base_types::PathId;

/// In which way a statement runs in an instant.
#[derive(Clone, Copy)]
pub enum Layer {
    /// It holds control from an earlier instant.
    Resumed,
    /// It is started in this instant: by the start of the statement with this number, which is the
    /// body, a second part of a sequence or the body of a loop.
    Started(PathId),
}

/// A statement in a layer.
#[derive(Clone, Copy)]
pub struct Instance {
    pub path: PathId,
    pub layer: Layer,
}

/// The live instances of a body: statements in preorder, and at one statement resumed first, then
/// started by ascending roots.
#[derive(Drop)]
pub struct Instances {
    pub list: Vec<Instance>,
}
