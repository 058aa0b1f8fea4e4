// The circuit of some statements, put together from the last one to the first.

ghost use Rattle.std.specs.Prelude.{◌≡◌, ◌++◌, IfOk, OnOk, map, reverse};
ghost use Rattle.blif_text.specs.Circuits.{circuit_of};
ghost use Rattle.blif_text.specs.Plain.{plain_row, plain_circuit};
ghost use Rattle.blif_read.specs.PlainStatements.{plain_statement};
ghost use Rattle.blif_read.specs.Drafts.{draft_parts, in_front, parts_circuit};

use crate::statements::Statement;
use base_types::{NoMemory, Text};
use blif_text::{Blif, BlifLatch, Row, Table};
use std::alloc::Global;
use std::mem;

// What the statements after some place describe, each list from its last element to its first. A table's
// rows come after its names, so the rows of the table in front are there before the table is.
#[derive(Drop)]
struct Draft {
    name: Text,
    inputs: Vec<Text>,
    outputs: Vec<Text>,
    latches: Vec<BlifLatch>,
    tables: Vec<Table>,
    rows: Vec<Row>,
}

// The circuit that statements describe.
pub fn circuit(alloc: Global, mut statements: Vec<Statement>) -> Result<Blif, NoMemory>
    ensures { IfOk result (λ b. plain_circuit b ≡ circuit_of (map plain_statement statements.items)) }
{
    let mut draft = Draft {
        name: Text::from_bytes(alloc, b"")?,
        inputs: Vec::new(alloc),
        outputs: Vec::new(alloc),
        latches: Vec::new(alloc),
        tables: Vec::new(alloc),
        rows: Vec::new(alloc),
    };
    while let Some(statement) = statements.pop() {
        put(alloc, &mut draft, statement)?;
    }
    Ok(finished(draft))
}

// The circuit of a draft.
fn finished(draft: Draft) -> Blif
    ensures { plain_circuit result ≡ parts_circuit (draft_parts draft) }
{
    let Draft {
        name,
        mut inputs,
        mut outputs,
        mut latches,
        mut tables,
        rows: _,
    } = draft;
    inputs.reverse();
    outputs.reverse();
    latches.reverse();
    tables.reverse();
    Blif {
        name,
        inputs,
        outputs,
        latches,
        tables,
    }
}

// Puts a statement in front.
fn put(alloc: Global, draft: &mut Draft, statement: Statement) -> Result<(), NoMemory>
    ensures { OnOk result (draft_parts draft.new ≡ in_front (plain_statement statement) (draft_parts draft.old)) }
{
    let mut rows = mem::replace(&mut draft.rows, Vec::new(alloc));
    match statement {
        Statement::Model(name) => draft.name = name,
        Statement::Inputs(names) => put_all(&mut draft.inputs, names)?,
        Statement::Outputs(names) => put_all(&mut draft.outputs, names)?,
        Statement::Latch(latch) => draft.latches.push(latch)?,
        Statement::Names(inputs, output) => {
            draft.tables.push(table(inputs, output, rows))?;
        }
        Statement::Row(row) => {
            rows.push(row)?;
            draft.rows = rows;
        }
        Statement::End => {}
    }
    Ok(())
}

// A table with these rows, of which the last one stands first.
fn table(inputs: Vec<Text>, output: Text, mut rows: Vec<Row>) -> Table
    ensures inputs { result.inputs.items ≡ inputs.items }
    ensures output { result.output ≡ output }
    ensures rows { map plain_row result.rows.items ≡ reverse (map plain_row rows.items) }
{
    rows.reverse();
    Table {
        inputs,
        output,
        rows,
    }
}

// Puts names in front, the last one first.
fn put_all(names: &mut Vec<Text>, mut more: Vec<Text>) -> Result<(), NoMemory>
    ensures { OnOk result (names.new.items ≡ names.old.items ++ reverse more.items) }
{
    while let Some(name) = more.pop() {
        names.push(name)?;
    }
    Ok(())
}
