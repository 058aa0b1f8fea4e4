// The gates of a circuit's tables, drawn one after another.

ghost use Rattle.std.specs.Prelude.{◌≡◌, ℕ, ◌+◌, ◌<◌, ◌≤◌, ◌^◌, [], None, false, length, map, min, slice_index_or, All};
ghost use Rattle.std.specs.Prelude.{IfOk, OnOk, replicate};
ghost use Rattle.base_types.specs.declared.indices.NetId.{NetId};
ghost use Rattle.blif_text.specs.Plain.{plain_circuit, plain_row};
ghost use Rattle.blif_run.specs.Loops.{IsDescribed, equations_of};
ghost use Rattle.blif_run.specs.Plans.{given_names};
ghost use Rattle.run_steps.specs.Order.{IsEvaluationOrder};
ghost use Rattle.run_steps.specs.Solvers.{IsResolved, equation_edges, ordered_steps};
ghost use Rattle.blif_net.specs.Depths.{HasDepth, gate_depths, greatest};
ghost use Rattle.blif_net.specs.Drawings.{IsDrawing};
ghost use Rattle.blif_net.specs.Sizes.{gates_of, nets_at_most, table_gates, table_nets};
ghost use Rattle.blif_net.specs.Tables.{Settles, AddsDepth, AddsStep, BeginsFlat, rows_step, slots_depth};

use crate::tables::table_net;
use base_types::{NetId, NoMemory};
use blif_run::Resolved;
use blif_text::{Blif, Row};
use net_ir::{Gate, Op};
use std::alloc::Global;

/// Gates, and for each slot the net of its name; a name whose table is not drawn yet has a net that is never true.
#[derive(Drop)]
pub(crate) struct Drawing {
    pub gates: Vec<Gate>,
    pub nets: Vec<NetId>,
}

/// The tables drawn in this order, in which each one comes after those that it reads.
pub(crate) fn drawn_tables(
    alloc: Global,
    blif: &Blif,
    resolved: &Resolved<'_>,
    order: &[usize],
) -> Result<Drawing, NoMemory>
    requires described { IsDescribed (plain_circuit blif.now) }
    requires resolved { IsResolved (given_names (plain_circuit blif.now)) (equations_of (plain_circuit blif.now))
        (map (λ w. w.now) resolved.now.names.items) (map (λ k. k.now) resolved.now.slots.keys) resolved.now.first
        (map (λ s. s.items) resolved.now.reads.items) }
    requires order { IsEvaluationOrder (length (equations_of (plain_circuit blif.now)))
        (equation_edges (given_names (plain_circuit blif.now)) (equations_of (plain_circuit blif.now))) order.now }
    requires few { nets_at_most (plain_circuit blif.now) ≤ 2 ^ 32 }
    ensures settles { IfOk result (λ d. Settles (length (given_names (plain_circuit blif.now)))
        (length (equations_of (plain_circuit blif.now))) d.gates.items d.nets.items
        (ordered_steps (given_names (plain_circuit blif.now)) (equations_of (plain_circuit blif.now)) order.now)) }
    ensures count { IfOk result (λ d. length d.gates.items ≡ gates_of (plain_circuit blif.now)) }
    ensures deep { IfOk result (λ d. HasDepth (plain_circuit blif.now)
        (greatest (gate_depths (replicate (length (given_names (plain_circuit blif.now))) 0) d.gates.items))) }
{
    let first = resolved.first;
    let mut drawing = first_drawing(alloc, first, blif.tables.len())?;
    for table in order {
        draw_table(
            alloc,
            first,
            &mut drawing,
            &resolved.reads[*table],
            &blif.tables[*table].rows,
            first + *table,
        )?;
    }
    Ok(drawing)
}

// Before the first table: the nets of the inputs and of the latches, and the one that is never true for all others.
fn first_drawing(alloc: Global, first: usize, count: usize) -> Result<Drawing, NoMemory>
    requires sum { first + count < 2 ^ 64 }
    requires few { first < 2 ^ 32 }
    ensures settles { IfOk result (λ d. Settles first count d.gates.items d.nets.items []) }
    ensures one { IfOk result (λ d. length d.gates.items ≡ 1) }
    ensures deep { IfOk result (λ d. BeginsFlat first count d.gates.items d.nets.items) }
{
    let nets = first_nets(alloc, first, count)?;
    let gates = vec![in alloc; never()]?;
    Ok(Drawing { gates, nets })
}

fn never() -> Gate
    ensures { result ≡ record { op = Op.Const false; wire = None } }
{
    Gate {
        op: Op::Const(false),
        wire: None,
    }
}

fn first_nets(alloc: Global, first: usize, count: usize) -> Result<Vec<NetId>, NoMemory>
    requires sum { first + count < 2 ^ 64 }
    requires few { first < 2 ^ 32 }
    ensures each { IfOk result (λ v. length v.items ≡ first + count) }
    ensures own { IfOk result (λ v. (k : ℕ) (d : NetId) → k < first + count
        → (slice_index_or v.items k d).0 ≡ min k first) }
{
    let mut nets = Vec::new(alloc);
    for slot in 0..first + count {
        nets.push(NetId(slot.min(first) as u32))?;
    }
    Ok(nets)
}

// Draws a table with these rows, whose output and inputs have these slots.
fn draw_table(
    alloc: Global,
    first: usize,
    drawing: &mut Drawing,
    reads: &[usize],
    rows: &[Row],
    slot: usize,
) -> Result<(), NoMemory>
    requires drawing { IsDrawing first drawing.old.gates.items }
    requires low { All (λ n. n.0 < first + length drawing.old.gates.items) drawing.old.nets.items }
    requires reads { All (λ s. s < length drawing.old.nets.items) reads.now }
    requires slot { slot < length drawing.old.nets.items }
    requires room { first + length drawing.old.gates.items + table_nets (map plain_row rows.now) ≤ 2 ^ 32 }
    ensures adds { OnOk result (AddsStep first drawing.old.gates.items drawing.old.nets.items drawing.new.gates.items
        drawing.new.nets.items (rows_step slot reads.now (map plain_row rows.now))) }
    ensures deep { OnOk result (AddsDepth first drawing.old.gates.items drawing.old.nets.items drawing.new.gates.items
        drawing.new.nets.items slot (slots_depth reads.now (map plain_row rows.now))) }
    ensures count { OnOk result (length drawing.new.gates.items
        ≡ length drawing.old.gates.items + table_gates (length reads.now) (map plain_row rows.now)) }
    ensures few { OnOk result (length drawing.new.gates.items
        ≤ length drawing.old.gates.items + table_nets (map plain_row rows.now)) }
{
    let inputs = nets_at(alloc, &drawing.nets, reads)?;
    let net = table_net(first, &mut drawing.gates, &inputs, rows)?;
    let nets = &mut drawing.nets;
    nets[slot] = net;
    Ok(())
}

fn nets_at(alloc: Global, nets: &[NetId], slots: &[usize]) -> Result<Vec<NetId>, NoMemory>
    requires { All (λ s. s < length nets.now) slots.now }
    ensures { IfOk result (λ v. v.items ≡ map (λ s. slice_index_or nets.now s (record { 0 = 0 })) slots.now) }
{
    let mut found = Vec::new(alloc);
    for slot in slots {
        found.push(nets[*slot])?;
    }
    Ok(found)
}
