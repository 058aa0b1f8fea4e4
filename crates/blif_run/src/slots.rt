// The names that a circuit drives, and the slots of those that its tables and latches read.

ghost use Rattle.std.specs.Prelude.{◌≡◌, map, IfOk};
ghost use Rattle.blif_text.specs.Plain.{plain_circuit, plain_latch, plain_table};
ghost use Rattle.blif_text.specs.Runs.{driven_names};
ghost use Rattle.run_steps.specs.Slots.{slot_in};

use base_types::NoMemory;
use blif_text::{Blif, BlifLatch, Table};
use indexmap::IndexSet;
use run_steps::{slot_of, slots_of};
use std::alloc::Global;

// The names that a circuit drives: inputs, latches, tables.
pub fn driven_names<'a>(alloc: Global, blif: &'a Blif) -> Result<Vec<&'a [u8]>, NoMemory>
    ensures { IfOk result (λ v. map (λ w. w.now) v.items ≡ driven_names (plain_circuit blif.now)) }
{
    let mut names = Vec::new(alloc);
    for name in &blif.inputs {
        names.push(name.bytes())?;
    }
    for latch in &blif.latches {
        names.push(latch.to.bytes())?;
    }
    for table in &blif.tables {
        names.push(table.output.bytes())?;
    }
    Ok(names)
}

// For each table the slots that it reads.
pub fn slots_read(
    alloc: Global,
    slots: &IndexSet<&[u8]>,
    tables: &[Table],
) -> Result<Vec<Vec<usize>>, NoMemory>
    ensures { IfOk result
        (λ v. map (λ r. r.items) v.items
        ≡ map (λ t. map (slot_in (map (λ k. k.now) slots.now.keys)) t.inputs) (map plain_table tables.now)) }
{
    let mut reads = Vec::with_capacity(alloc, tables.len())?;
    for table in tables {
        reads.push(slots_of(alloc, slots, &table.inputs)?)?;
    }
    Ok(reads)
}

// The slots of the sources of latches.
pub fn source_slots(
    alloc: Global,
    slots: &IndexSet<&[u8]>,
    latches: &[BlifLatch],
) -> Result<Vec<usize>, NoMemory>
    ensures { IfOk result
        (λ v. v.items
        ≡ map (slot_in (map (λ k. k.now) slots.now.keys)) (map (λ l. l.source) (map plain_latch latches.now))) }
{
    let mut found = Vec::with_capacity(alloc, latches.len())?;
    for latch in latches {
        found.push(slot_of(slots, latch.from.bytes()))?;
    }
    Ok(found)
}
