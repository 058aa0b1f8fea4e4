// Typed indices, so that a wire is never taken for a signal.

/// A signal of a kernel program, from 0: the inputs, those that are input and output, the outputs, each kind in
/// declared order, then the local ones.
#[derive(Clone, Copy, Debug, PartialEq)]
pub struct SigId(pub u32);

/// A kernel statement, by its number in preorder; the body has 0.
#[derive(Clone, Copy, PartialEq)]
pub struct PathId(pub u32);

/// A live instance of a kernel statement, by its place in the list of instances, from 0.
#[derive(Clone, Copy, PartialEq)]
pub struct InstId(pub u32);

/// A wire of a graph, from 0.
#[derive(Clone, Copy, Default, PartialEq, Eq, PartialOrd, Ord)]
pub struct WireId(pub u32);

/// A net of a netlist: the inputs, then the latches, then the gates, from 0.
#[derive(Clone, Copy, PartialEq, Eq, Hash)]
pub struct NetId(pub u32);
