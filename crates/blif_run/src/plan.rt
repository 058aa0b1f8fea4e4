// The plan of a circuit's reactions: its tables as steps in order, and which slots the latches and outputs take.

ghost use Rattle.std.specs.Prelude.{IfOk, OnOk};
ghost use Rattle.base_types.specs.Stops.{IfFault};
ghost use Rattle.blif_text.specs.Plain.{plain_circuit};
ghost use Rattle.blif_run.specs.Loops.{IsDescribed, LoopFault, HasNoLoop, equations_of};
ghost use Rattle.run_steps.specs.Solvers.{AreOrdered, AreResolved};
ghost use Rattle.blif_run.specs.Plans.{IsPlan, given_names};

use crate::slots::{driven_names, slots_read, source_slots};
use crate::truths::table_plan;
use base_types::{NoMemory, Stop};
use blif_read::BlifFault;
use blif_text::Blif;
use run_steps::{Plan, Resolved, evaluation_order, slot_table, slots_of};
use std::alloc::Global;

#[derive(Drop)]
pub struct CircuitPlan {
    // The tables, each one after those that it reads.
    pub tables: Plan,
    // For each latch the slot whose value it gets.
    pub sources: Vec<usize>,
    // For each output its slot.
    pub shown: Vec<usize>,
}

// The plan of a circuit, or a combinational cycle.
pub fn circuit_plan(alloc: Global, blif: &Blif) -> Result<CircuitPlan, Stop<BlifFault>>
    requires { IsDescribed (plain_circuit blif.now) }
    ensures plan { IfOk result (λ p. IsPlan (plain_circuit blif.now) p.tables p.sources.items p.shown.items) }
    ensures acyclic { OnOk result (HasNoLoop (plain_circuit blif.now)) }
    ensures cyclic { IfFault result (LoopFault (plain_circuit blif.now)) }
{
    let resolved = resolved_names(alloc, blif)?;
    let order = table_order(alloc, blif, &resolved)?;
    Ok(ordered_plan(alloc, blif, &resolved, &order)?)
}

// The plan of a circuit whose tables are evaluated in this order.
fn ordered_plan(
    alloc: Global,
    blif: &Blif,
    resolved: &Resolved<'_>,
    order: &[usize],
) -> Result<CircuitPlan, NoMemory>
    requires described { IsDescribed (plain_circuit blif.now) }
    requires resolved { AreResolved (given_names (plain_circuit blif.now)) (equations_of (plain_circuit blif.now))
        resolved.now }
    requires order { AreOrdered (given_names (plain_circuit blif.now)) (equations_of (plain_circuit blif.now))
        order.now }
    ensures { IfOk result (λ p. IsPlan (plain_circuit blif.now) p.tables p.sources.items p.shown.items) }
{
    let sources = source_slots(alloc, &resolved.slots, &blif.latches)?;
    let shown = slots_of(alloc, &resolved.slots, &blif.outputs)?;
    let tables = table_plan(
        alloc,
        resolved.names.len(),
        &blif.tables,
        resolved.first,
        &resolved.reads,
        order,
    )?;
    Ok(CircuitPlan {
        tables,
        sources,
        shown,
    })
}

/// The slots of the names of a circuit. Its only error is out of memory.
pub fn resolved_names<'a>(alloc: Global, blif: &'a Blif) -> Result<Resolved<'a>, NoMemory>
    requires { IsDescribed (plain_circuit blif.now) }
    ensures { IfOk result
        (AreResolved (given_names (plain_circuit blif.now)) (equations_of (plain_circuit blif.now))) }
{
    let names = driven_names(alloc, blif)?;
    let slots = slot_table(alloc, &names)?;
    let reads = slots_read(alloc, &slots, &blif.tables)?;
    Ok(Resolved {
        first: names.len() - blif.tables.len(),
        names,
        slots,
        reads,
    })
}

/// The tables in an order in which each one comes after those that it reads, or a combinational cycle.
pub fn table_order(
    alloc: Global,
    blif: &Blif,
    resolved: &Resolved<'_>,
) -> Result<Vec<usize>, Stop<BlifFault>>
    requires described { IsDescribed (plain_circuit blif.now) }
    requires resolved { AreResolved (given_names (plain_circuit blif.now)) (equations_of (plain_circuit blif.now))
        resolved.now }
    ensures order { IfOk result
        (λ order. AreOrdered (given_names (plain_circuit blif.now)) (equations_of (plain_circuit blif.now))
        order.items) }
    ensures acyclic { OnOk result (HasNoLoop (plain_circuit blif.now)) }
    ensures cyclic { IfFault result (LoopFault (plain_circuit blif.now)) }
{
    match evaluation_order(alloc, &resolved.names, resolved.first, &resolved.reads) {
        Ok(order) => Ok(order),
        Err(Stop::Fault(names)) => Err(Stop::Fault(BlifFault::Loop(names))),
        Err(Stop::NoMemory) => Err(Stop::NoMemory),
    }
}
