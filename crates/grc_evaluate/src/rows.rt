// The values of sources and rows.

ghost use Rattle.std.specs.Prelude.{◌≡◌, length, IsTrue};
ghost use Rattle.grc_formulas.specs.Rows.{source_value, row_value, source_fits, row_fits};
ghost use Rattle.grc_evaluate.specs.Evaluations.{bounds_of, surroundings_of};

use grc_formulas::{Row, Source};

/// What an instant begins with: whether it is the first, which leaves are selected, and the event.
#[derive(Clone, Copy)]
pub struct Start<'a> {
    pub boot: bool,
    pub selected: &'a [bool],
    pub inputs: &'a [bool],
}

/// The value of a source, where the wires and the rows have these values. It takes no memory.
pub fn source_value(start: &Start<'_>, wires: &[bool], rows: &[bool], source: Source) -> bool
    requires { IsTrue (source_fits (bounds_of start.now wires.now (length rows.now)) source) }
    ensures { result ≡ source_value (surroundings_of start.now wires.now) rows.now source }
{
    match source {
        Source::Const(value) => value,
        Source::Leaf(leaf) => start.selected[leaf as usize],
        Source::Input(signal) => start.inputs[signal.0 as usize],
        Source::Wire(wire) => wires[wire.0 as usize],
        Source::Row(row) => rows[row],
    }
}

/// The value of a row, where the wires and the rows before it have these values. It takes no memory.
pub fn row_value(start: &Start<'_>, wires: &[bool], rows: &[bool], row: Row) -> bool
    requires { IsTrue (row_fits (bounds_of start.now wires.now (length rows.now)) row) }
    ensures { result ≡ row_value (surroundings_of start.now wires.now) rows.now row }
{
    match row {
        Row::Not(a) => !source_value(start, wires, rows, a),
        Row::And(a, b) => {
            let first = source_value(start, wires, rows, a);
            let second = source_value(start, wires, rows, b);
            first && second
        }
        Row::Or(a, b) => {
            let first = source_value(start, wires, rows, a);
            let second = source_value(start, wires, rows, b);
            first || second
        }
    }
}
