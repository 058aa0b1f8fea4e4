// The formulas of a graph.

use base_types::{InstId, PathId, SigId, WireId};

/// A formula over wires. It is read by two truth values, or by three.
#[derive(Drop)]
pub enum Formula {
    Const(bool),
    /// This is the first instant.
    Boot,
    /// The event gives the signal.
    Input(SigId),
    Wire(WireId),
    /// A selected pause lies in the statement.
    Selected(PathId),
    /// The instance ends with a code of at most this one.
    Upto(InstId, u8),
    /// Every parallel that encloses the instance, in its own instance, ends with code 1.
    Kept(InstId),
    /// Some resumed suspension, at the instance or enclosing it, runs with a true test, and every
    /// parallel that encloses that suspension ends with code 1.
    Held(InstId),
    Not(Box<Formula>),
    And(Box<Formula>, Box<Formula>),
    Or(Box<Formula>, Box<Formula>),
    /// The or of these wires; of none it is false.
    AnyOf(Vec<WireId>),
}
