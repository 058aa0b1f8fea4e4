// Names of equations, resolved to slots.

use indexmap::IndexSet;

/// The names that have a value, each with its place as its slot: those that are given, and after them the outputs of
/// the equations.
#[derive(Drop)]
pub struct Resolved<'a> {
    pub names: Vec<&'a [u8]>,
    pub slots: IndexSet<&'a [u8]>,
    /// The slot of the first equation's output.
    pub first: usize,
    /// For each equation the slots that it reads.
    pub reads: Vec<Vec<usize>>,
}
