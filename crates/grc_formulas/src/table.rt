// The table of words.

ghost use Rattle.std.specs.Prelude.{◌*◌, ◌≤◌, length};
ghost use Rattle.base_types.specs.declared.bounds.TheConstants.Limits.{WIRES};

use base_types::{SigId, WireId};

/// What a row, or a word, reads.
#[derive(Clone, Copy)]
pub enum Source {
    Const(bool),
    /// The leaf with this number is selected at the start of the instant.
    Leaf(u32),
    /// The event gives the signal.
    Input(SigId),
    Wire(WireId),
    /// The row with this number.
    Row(usize),
}

/// A row of the table.
#[derive(Clone, Copy)]
pub enum Row {
    Not(Source),
    And(Source, Source),
    Or(Source, Source),
}

/// What the words of a graph's formulas, and what is shown of an instant, are made of. Rows are
/// numbered from 0, and each reads rows of lower numbers alone.
#[derive(Drop)]
pub struct Words {
    pub rows: Vec<Row>,
    /// The number of rows at the front that read neither wires nor the event.
    pub early: usize,
    /// For each statement, what says that it holds a selected pause.
    pub selected: Vec<Source>,
    /// For each instance, what says that every parallel that encloses it ends with code 1.
    pub kept: Vec<Source>,
    /// For each instance, what says that it is held by a suspension.
    pub held: Vec<Source>,
    /// For each instance, the first of its wires that are ends, which stand side by side.
    pub ends: Vec<WireId>,
    /// For each outgoing signal, in order, what says that it is present.
    pub outputs: Vec<Source>,
    /// What says that the program pauses.
    pub paused: Source,
    ghost few: { length rows.items ≤ 15 * WIRES },
}
