// Circuits as BLIF texts describe them.

use base_types::Text;

/// A cell of a table's row: an input of the value 0, one of the value 1, or one of any value fits it.
#[derive(Clone, Copy, PartialEq)]
pub enum Cell {
    Zero,
    One,
    Any,
}

/// A row of a table: a cell for each input.
#[derive(Drop)]
pub struct Row {
    pub cells: Vec<Cell>,
}

/// A table. Its output is true where some row fits its inputs.
#[derive(Drop)]
pub struct Table {
    pub inputs: Vec<Text>,
    pub output: Text,
    pub rows: Vec<Row>,
}

/// A latch. Its name `to` has the value `init` at the first event and at the first one after a reset,
/// and at every other event the value that the name `from` had one event before.
#[derive(Drop)]
pub struct BlifLatch {
    pub from: Text,
    pub to: Text,
    pub init: bool,
}

/// A circuit: a name, inputs, outputs, latches and tables, each in the order of the text. In the circuit
/// of a text no name is driven twice, by an input, a latch's `to` or a table's output, and each name that
/// is used is driven: an output, a latch's `from`, an input of a table.
#[derive(Drop)]
pub struct Blif {
    pub name: Text,
    pub inputs: Vec<Text>,
    pub outputs: Vec<Text>,
    pub latches: Vec<BlifLatch>,
    pub tables: Vec<Table>,
}
