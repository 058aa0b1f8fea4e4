// Nets of sources and rows.

ghost use Rattle.std.specs.Prelude.{◌≡◌, ◌+◌, ◌<◌, ◌≤◌, ◌^◌, length, IfOk, OnOk, IsTrue};
ghost use Rattle.grc_formulas.specs.Rows.{row_fits, source_fits};
ghost use Rattle.net_cycles.specs.Bases.{IsReady, RowsAdded, RowsFit, bounds_of, row_op, source_net};

use crate::base::Base;
use base_types::NetId;
use grc_formulas::{Row, Source, Words};
use grc_graph::Graph;
use net_ir::Op;
use net_unroll::{GrowFault, Growing};

// The net of a source.
pub fn source_net(base: Base, wires: &[NetId], rows: &[NetId], source: Source) -> NetId
    requires fits { IsTrue (source_fits (bounds_of base (length wires.now) (length rows.now)) source) }
    requires few { base.given + 1 + base.leaves < 2 ^ 32 }
    ensures { result ≡ source_net base wires.now rows.now source }
{
    match source {
        Source::Const(value) => { if value { base.yes } else { base.no } }
        Source::Leaf(leaf) => NetId(base.given + 1 + leaf),
        Source::Input(signal) => NetId(signal.0),
        Source::Wire(wire) => wires[wire.0 as usize],
        Source::Row(row) => rows[row],
    }
}

// A row as an operator.
fn row_op(base: Base, wires: &[NetId], rows: &[NetId], row: Row) -> Op
    requires fits { IsTrue (row_fits (bounds_of base (length wires.now) (length rows.now)) row) }
    requires few { base.given + 1 + base.leaves < 2 ^ 32 }
    ensures { result ≡ row_op base wires.now rows.now row }
{
    match row {
        Row::Not(a) => Op::Not(source_net(base, wires, rows, a)),
        Row::And(a, b) => Op::And(
            source_net(base, wires, rows, a),
            source_net(base, wires, rows, b),
        ),
        Row::Or(a, b) => Op::Or(
            source_net(base, wires, rows, a),
            source_net(base, wires, rows, b),
        ),
    }
}

/// Adds a gate for each row from the first one that has none up to another.
pub fn add_rows(
    gates: &mut Growing,
    base: Base,
    graph: &Graph,
    words: &Words,
    wires: &[NetId],
    rows: &mut Vec<NetId>,
    to: usize,
) -> Result<(), GrowFault>
    requires ready { IsReady graph.now words.now base wires.now rows.old.items gates.old }
    requires from { length rows.old.items ≤ to }
    requires to { to ≤ length words.now.rows.items }
    requires fits { RowsFit base words.now (length wires.now) (length rows.old.items) to }
    ensures { OnOk result (RowsAdded graph.now words.now base gates.old gates.new wires.now rows.new.items to) }
{
    for row in rows.len()..to {
        let op = row_op(base, wires, rows.as_slice(), words.rows[row]);
        let net = gates.push(op)?;
        rows.push(net)?;
    }
    Ok(())
}
