// Gates that compute tables.

ghost use Rattle.std.specs.Prelude.{◌≡◌, ℕ, ◌+◌, ◌*◌, ◌<◌, ◌≤◌, ◌^◌, ◌&&◌, ◌||◌, true, false, Some, None, map, length};
ghost use Rattle.std.specs.Prelude.{All, IfOk, OnOk, slice_index_or};
ghost use Rattle.std.specs.List.{list_any, sum_by};
ghost use Rattle.blif_text.specs.Plain.{plain_row};
ghost use Rattle.blif_text.specs.Runs.{cell_fits, row_fits};
ghost use Rattle.blif_net.specs.Depths.{cell_depth, cells_depth, row_depth, row_joined, table_depth};
ghost use Rattle.blif_net.specs.Drawings.{IsDrawing, Deepens, Draws, Joins, depth_at, is_low, said, read_depths};
ghost use Rattle.blif_net.specs.Drawings.{read_values};
ghost use Rattle.blif_net.specs.Sizes.{cell_parts, if_wide, row_gates, row_nets, table_gates, table_nets};

use crate::gates::{both, either, push_gate};
use base_types::{NetId, NoMemory};
use blif_text::{Cell, Row};
use net_ir::{Gate, Op};

/// The net of a table with these rows, over the nets of its inputs.
pub(crate) fn table_net(
    first: usize,
    gates: &mut Vec<Gate>,
    reads: &[NetId],
    rows: &[Row],
) -> Result<NetId, NoMemory>
    requires drawing { IsDrawing first gates.old.items }
    requires low { All (λ n. n.0 < first + length gates.old.items) reads.now }
    requires room { first + length gates.old.items + table_nets (map plain_row rows.now) ≤ 2 ^ 32 }
    ensures draws { IfOk result (λ n. Draws first gates.old.items gates.new.items (Some n) false
        (λ values. list_any (λ row. row_fits row (read_values reads.now values)) (map plain_row rows.now))) }
    ensures deep { IfOk result (λ n. Deepens first gates.old.items gates.new.items (Some n)
        (λ depths. Some (table_depth (map plain_row rows.now) (read_depths reads.now depths)))) }
    ensures count { OnOk result (length gates.new.items
        ≡ length gates.old.items + table_gates (length reads.now) (map plain_row rows.now)) }
    ensures few { OnOk result (length gates.new.items ≤ length gates.old.items + table_nets (map plain_row rows.now)) }
{
    let mut any = None;
    for row in rows {
        any = with_row(first, gates, any, reads, row)?;
    }
    match any {
        Some(net) => Ok(net),
        None => push_gate(first, gates, Op::Const(false)),
    }
}

// The disjunction of what there is so far and a row. A row of another width fits nothing.
fn with_row(
    first: usize,
    gates: &mut Vec<Gate>,
    any: Option<NetId>,
    reads: &[NetId],
    row: &Row,
) -> Result<Option<NetId>, NoMemory>
    requires drawing { IsDrawing first gates.old.items }
    requires any { is_low (first + length gates.old.items) any }
    requires low { All (λ n. n.0 < first + length gates.old.items) reads.now }
    requires room { first + length gates.old.items + row_nets row.now.cells.items ≤ 2 ^ 32 }
    ensures draws { IfOk result (λ o. Draws first gates.old.items gates.new.items o false
        (λ values. said false any values || row_fits row.now.cells.items (read_values reads.now values))) }
    ensures deep { IfOk result (λ o. Deepens first gates.old.items gates.new.items o
        (λ depths. row_joined (read_depths reads.now depths) (depth_at any depths) row.now.cells.items)) }
    ensures joins { IfOk result (λ o. (before count : ℕ) → Joins before (length gates.old.items) any count
        → Joins (before + if_wide (length reads.now) row.now.cells.items (row_gates row.now.cells.items))
        (length gates.new.items) o (count + if_wide (length reads.now) row.now.cells.items 1)) }
    ensures few { OnOk result (length gates.new.items ≤ length gates.old.items + row_nets row.now.cells.items) }
{
    if row.cells.len() != reads.len() {
        return Ok(any);
    }
    let net = row_net(first, gates, reads, &row.cells)?;
    let with = either(first, gates, any, net)?;
    Ok(Some(with))
}

// The net of a row.
fn row_net(
    first: usize,
    gates: &mut Vec<Gate>,
    reads: &[NetId],
    cells: &[Cell],
) -> Result<NetId, NoMemory>
    requires drawing { IsDrawing first gates.old.items }
    requires low { All (λ n. n.0 < first + length gates.old.items) reads.now }
    requires width { length cells.now ≡ length reads.now }
    requires room { first + length gates.old.items + (2 * length cells.now + 1) ≤ 2 ^ 32 }
    ensures draws { IfOk result (λ n. Draws first gates.old.items gates.new.items (Some n) true
        (λ values. row_fits cells.now (read_values reads.now values))) }
    ensures deep { IfOk result (λ n. Deepens first gates.old.items gates.new.items (Some n)
        (λ depths. Some (row_depth cells.now (read_depths reads.now depths)))) }
    ensures count { OnOk result (length gates.new.items ≡ length gates.old.items + row_gates cells.now) }
    ensures few { OnOk result (length gates.new.items ≤ length gates.old.items + (2 * length cells.now + 1)) }
{
    match joined_cells(first, gates, reads, cells)? {
        Some(net) => Ok(net),
        None => push_gate(first, gates, Op::Const(true)),
    }
}

// The conjunction of the cells, or nothing where each one fits any value.
fn joined_cells(
    first: usize,
    gates: &mut Vec<Gate>,
    reads: &[NetId],
    cells: &[Cell],
) -> Result<Option<NetId>, NoMemory>
    requires drawing { IsDrawing first gates.old.items }
    requires low { All (λ n. n.0 < first + length gates.old.items) reads.now }
    requires width { length cells.now ≡ length reads.now }
    requires room { first + length gates.old.items + 2 * length cells.now ≤ 2 ^ 32 }
    ensures draws { IfOk result (λ o. Draws first gates.old.items gates.new.items o true
        (λ values. row_fits cells.now (read_values reads.now values))) }
    ensures deep { IfOk result (λ o. Deepens first gates.old.items gates.new.items o
        (λ depths. cells_depth None cells.now (read_depths reads.now depths))) }
    ensures joins { IfOk result (λ o. Joins (length gates.old.items) (length gates.new.items) o
        (sum_by cell_parts cells.now)) }
    ensures few { OnOk result (length gates.new.items ≤ length gates.old.items + 2 * length cells.now) }
{
    let mut all = None;
    for (k, cell) in cells.iter().enumerate() {
        all = with_cell(first, gates, all, *cell, reads[k])?;
    }
    Ok(all)
}

// The conjunction of what there is so far and a cell over a net.
fn with_cell(
    first: usize,
    gates: &mut Vec<Gate>,
    all: Option<NetId>,
    cell: Cell,
    net: NetId,
) -> Result<Option<NetId>, NoMemory>
    requires drawing { IsDrawing first gates.old.items }
    requires all { is_low (first + length gates.old.items) all }
    requires low { is_low (first + length gates.old.items) (Some net) }
    requires room { first + length gates.old.items + 2 ≤ 2 ^ 32 }
    ensures draws { IfOk result (λ o. Draws first gates.old.items gates.new.items o true
        (λ values. said true all values && cell_fits cell (said true (Some net) values))) }
    ensures deep { IfOk result (λ o. Deepens first gates.old.items gates.new.items o
        (λ depths. cell_depth (depth_at all depths) cell (slice_index_or depths net.0 0))) }
    ensures joins { IfOk result (λ o. (before parts : ℕ) → Joins before (length gates.old.items) all parts
        → Joins before (length gates.new.items) o (parts + cell_parts cell)) }
    ensures few { OnOk result (length gates.new.items ≤ length gates.old.items + 2) }
{
    match cell {
        Cell::Any => Ok(all),
        Cell::One => {
            let with = both(first, gates, all, net)?;
            Ok(Some(with))
        }
        Cell::Zero => {
            let opposite = push_gate(first, gates, Op::Not(net))?;
            let with = both(first, gates, all, opposite)?;
            Ok(Some(with))
        }
    }
}
