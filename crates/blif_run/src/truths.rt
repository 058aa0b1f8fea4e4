// The truth tables of tables, and the plan that looks them up.

ghost use Rattle.std.specs.Prelude.{◌≡◌, ◌+◌, ◌<◌, ◌≤◌, map, length, All, IfOk, OnOk};
ghost use Rattle.blif_text.specs.Plain.{plain_row, plain_table};
ghost use Rattle.blif_text.specs.Runs.{cell_fits, row_fits};
ghost use Rattle.run_steps.specs.Plans.{Adds, Makes, digits};
ghost use Rattle.blif_run.specs.Truths.{truth_at, truth_of, step_of, step_at};

use base_types::NoMemory;
use blif_text::{Cell, Row, Table};
use run_steps::Plan;
use std::alloc::Global;

// The plan of tables in this order, where this many slots have names.
pub fn table_plan(
    alloc: Global,
    named: usize,
    tables: &[Table],
    first: usize,
    reads: &[Vec<usize>],
    order: &[usize],
) -> Result<Plan, NoMemory>
    requires few { All (λ t. length t.inputs ≤ 8) (map plain_table tables.now) }
    requires fits { first + length tables.now ≤ named }
    requires each_table { length reads.now ≡ length tables.now }
    requires within { All (λ r. All (λ slot. slot < named) r.items) reads.now }
    requires each_input { map length (map (λ r. r.items) reads.now)
        ≡ map (λ t. length t.inputs) (map plain_table tables.now) }
    requires nodes { All (λ t. t < length tables.now) order.now }
    ensures named { IfOk result (λ p. p.named ≡ named) }
    ensures makes { IfOk result (λ p. Makes p
        (map (step_at (map plain_table tables.now) first (map (λ r. r.items) reads.now)) order.now)) }
{
    let mut plan = Plan::new(alloc, named)?;
    for table in order {
        push_step(
            alloc,
            &mut plan,
            &tables[*table],
            first + *table,
            &reads[*table],
        )?;
    }
    Ok(plan)
}

// Adds the step of a table whose output and inputs have these slots.
fn push_step(
    alloc: Global,
    plan: &mut Plan,
    table: &Table,
    output: usize,
    reads: &[usize],
) -> Result<(), NoMemory>
    requires few { length table.now.inputs.items ≤ 8 }
    requires each_input { length reads.now ≡ length table.now.inputs.items }
    requires output { output < plan.old.named }
    requires reads { All (λ slot. slot < plan.old.named) reads.now }
    ensures { OnOk result (Adds (step_of (plain_table table.now) output reads.now) plan.old plan.new) }
{
    let truth = truth_table(alloc, table.inputs.len(), &table.rows)?;
    plan.push_table(alloc, output, reads, &truth)
}

// The truth table of rows of this width.
fn truth_table(alloc: Global, width: usize, rows: &[Row]) -> Result<Vec<bool>, NoMemory>
    requires { width ≤ 8 }
    ensures { IfOk result (λ t. t.items ≡ truth_of width (map plain_row rows.now)) }
{
    let count = 1usize << width;
    let mut truth = Vec::with_capacity(alloc, count)?;
    for place in 0..count {
        truth.push(some_row_fits(rows, width, place))?;
    }
    Ok(truth)
}

// Whether some row fits the inputs that are the digits of this place.
fn some_row_fits(rows: &[Row], width: usize, place: usize) -> bool
    ensures { result ≡ truth_at width (map plain_row rows.now) place }
{
    for row in rows {
        if row_fits(&row.cells, width, place) {
            return true;
        }
    }
    false
}

fn row_fits(cells: &[Cell], width: usize, place: usize) -> bool
    ensures { result ≡ row_fits cells.now (digits width place) }
{
    if cells.len() != width {
        return false;
    }
    let mut rest = place;
    for cell in cells {
        if !cell_fits(*cell, rest % 2 == 1) {
            return false;
        }
        rest /= 2;
    }
    true
}

fn cell_fits(cell: Cell, value: bool) -> bool
    ensures { result ≡ cell_fits cell value }
{
    match cell {
        Cell::Zero => !value,
        Cell::One => value,
        Cell::Any => true,
    }
}
