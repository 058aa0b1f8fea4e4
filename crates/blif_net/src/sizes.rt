// Whether the nets of a circuit's netlist have numbers.

ghost use Rattle.std.specs.Prelude.{◌+◌, ◌*◌, ◌≤◌, ◌^◌, ◌↔◌, length, map, IsTrue};
ghost use Rattle.std.specs.List.{sum_by};
ghost use Rattle.blif_text.specs.Plain.{plain_circuit, plain_row, plain_table};
ghost use Rattle.blif_net.specs.Rooms.{Leaves};
ghost use Rattle.blif_net.specs.Sizes.{nets_at_most, row_nets, table_nets};

use blif_text::{Blif, Row, Table};

/// How many nets have numbers.
const NETS: u64 = 0x1_0000_0000;

/// Whether the netlist of a circuit needs at most 2^32 nets.
pub(crate) fn has_few_nets(blif: &Blif) -> bool
    ensures { IsTrue result ↔ (nets_at_most (plain_circuit blif.now) ≤ 2 ^ 32) }
{
    match room_behind_names(blif) {
        Some(room) => room_behind_tables(room, &blif.tables).is_some(),
        None => false,
    }
}

// What is left after the inputs, the latches, and the net that is never true.
fn room_behind_names(blif: &Blif) -> Option<u64>
    ensures { Leaves (2 ^ 32) (length blif.now.inputs.items + length blif.now.latches.items + 1) result }
{
    let inputs = blif.inputs.len() as u64;
    let latches = blif.latches.len() as u64;
    NETS.checked_sub(inputs)?
        .checked_sub(latches)?
        .checked_sub(1)
}

// What is left of this room after the nets of tables.
fn room_behind_tables(room: u64, tables: &[Table]) -> Option<u64>
    ensures { Leaves room (sum_by (λ t. table_nets t.rows) (map plain_table tables.now)) result }
{
    let mut left = room;
    for table in tables {
        left = room_behind_table(left, &table.rows)?;
    }
    Some(left)
}

// What is left of this room after the nets of a table with these rows.
fn room_behind_table(room: u64, rows: &[Row]) -> Option<u64>
    ensures { Leaves room (table_nets (map plain_row rows.now)) result }
{
    room_behind_rows(room, rows)?.checked_sub(1)
}

// What is left of this room after the nets of rows.
fn room_behind_rows(room: u64, rows: &[Row]) -> Option<u64>
    ensures { Leaves room (sum_by row_nets (map plain_row rows.now)) result }
{
    let mut left = room;
    for row in rows {
        left = room_behind_cells(left, row.cells.len() as u64)?;
    }
    Some(left)
}

// What is left of this room after the nets of a row of this many cells.
fn room_behind_cells(room: u64, cells: u64) -> Option<u64>
    ensures { Leaves room (2 * cells + 2) result }
{
    room.checked_sub(cells)?.checked_sub(cells)?.checked_sub(2)
}
