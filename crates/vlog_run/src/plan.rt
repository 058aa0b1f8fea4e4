// The plan of a module's reactions: its assignments as steps in order, and which slots the registers and outputs take.

ghost use Rattle.std.specs.Prelude.{◌≡◌, ◌<◌, map, length, All, IfOk, OnOk};
ghost use Rattle.base_types.specs.Stops.{IfFault};
ghost use Rattle.run_steps.specs.Plans.{Adds, Makes};
ghost use Rattle.run_steps.specs.Slots.{slot_in};
ghost use Rattle.run_steps.specs.Solvers.{AreOrdered, AreResolved};
ghost use Rattle.vlog_run.specs.Loops.{IsDescribed, HasNoLoop, LoopFault, equations_of};
ghost use Rattle.vlog_run.specs.Plans.{IsPlan, assign_step, given_names, step_at};
ghost use Rattle.vlog_text.specs.Views.{assign_of, module_of};

use crate::slots::{driven_names, slots_read, source_slots};
use base_types::{NoMemory, Stop};
use indexmap::IndexSet;
use run_steps::{Plan, Resolved, evaluation_order, push_expr, slot_table, slots_of};
use std::alloc::Global;
use vlog_read::VlogFault;
use vlog_text::{Assign, Module};

#[derive(Drop)]
pub struct ModulePlan {
    // The assignments, each one after those that it reads.
    pub assigns: Plan,
    // For each register the slot whose value it gets.
    pub sources: Vec<usize>,
    // For each output its slot.
    pub shown: Vec<usize>,
}

// The plan of a module. The fault is a combinational cycle.
pub fn module_plan(alloc: Global, design: &Module) -> Result<ModulePlan, Stop<VlogFault>>
    requires { IsDescribed (module_of design.now) }
    ensures plan { IfOk result (λ p. IsPlan (module_of design.now) p.assigns p.sources.items p.shown.items) }
    ensures acyclic { OnOk result (HasNoLoop (module_of design.now)) }
    ensures cyclic { IfFault result (LoopFault (module_of design.now)) }
{
    let resolved = resolved_names(alloc, design)?;
    let order = assign_order(alloc, design, &resolved)?;
    Ok(ordered_plan(alloc, design, &resolved, &order)?)
}

// The plan of a module whose assignments are made in this order.
fn ordered_plan(
    alloc: Global,
    design: &Module,
    resolved: &Resolved<'_>,
    order: &[usize],
) -> Result<ModulePlan, NoMemory>
    requires described { IsDescribed (module_of design.now) }
    requires resolved { AreResolved (given_names (module_of design.now)) (equations_of (module_of design.now))
        resolved.now }
    requires order { AreOrdered (given_names (module_of design.now)) (equations_of (module_of design.now)) order.now }
    ensures { IfOk result (λ p. IsPlan (module_of design.now) p.assigns p.sources.items p.shown.items) }
{
    let sources = source_slots(alloc, &resolved.slots, &design.registers)?;
    let shown = slots_of(alloc, &resolved.slots, &design.outputs)?;
    let assigns = assign_plan(alloc, &resolved.slots, &design.assigns, order)?;
    Ok(ModulePlan {
        assigns,
        sources,
        shown,
    })
}

// The plan of assignments in this order.
fn assign_plan(
    alloc: Global,
    slots: &IndexSet<&[u8]>,
    assigns: &[Assign],
    order: &[usize],
) -> Result<Plan, NoMemory>
    requires targets { All (λ a. slot_in (map (λ k. k.now) slots.now.keys) a.to < length slots.now.keys) assigns.now }
    requires nodes { All (λ k. k < length assigns.now) order.now }
    ensures named { IfOk result (λ p. p.named ≡ length slots.now.keys) }
    ensures makes { IfOk result (λ p. Makes p
        (map (step_at (map (λ k. k.now) slots.now.keys) (map assign_of assigns.now)) order.now)) }
{
    let mut plan = Plan::new(alloc, slots.len())?;
    for node in order {
        push_assign(&mut plan, slots, &assigns[*node])?;
    }
    Ok(plan)
}

// Adds the step of an assignment.
fn push_assign(plan: &mut Plan, slots: &IndexSet<&[u8]>, assign: &Assign) -> Result<(), NoMemory>
    requires { slot_in (map (λ k. k.now) slots.now.keys) assign.now.to < plan.old.named }
    ensures { OnOk result
        (Adds (assign_step (map (λ k. k.now) slots.now.keys) (assign_of assign.now)) plan.old plan.new) }
{
    push_expr(plan, slots, assign.to.bytes(), &assign.value)
}

// The slots of the names of a module.
fn resolved_names<'a>(alloc: Global, design: &'a Module) -> Result<Resolved<'a>, NoMemory>
    requires { IsDescribed (module_of design.now) }
    ensures { IfOk result
        (AreResolved (given_names (module_of design.now)) (equations_of (module_of design.now))) }
{
    let names = driven_names(alloc, design)?;
    let slots = slot_table(alloc, &names)?;
    let reads = slots_read(alloc, &slots, &design.assigns)?;
    Ok(Resolved {
        first: names.len() - design.assigns.len(),
        names,
        slots,
        reads,
    })
}

// The assignments in an order in which each one comes after those that it reads, or a combinational cycle.
fn assign_order(
    alloc: Global,
    design: &Module,
    resolved: &Resolved<'_>,
) -> Result<Vec<usize>, Stop<VlogFault>>
    requires described { IsDescribed (module_of design.now) }
    requires resolved { AreResolved (given_names (module_of design.now)) (equations_of (module_of design.now))
        resolved.now }
    ensures order { IfOk result
        (λ order. AreOrdered (given_names (module_of design.now)) (equations_of (module_of design.now)) order.items) }
    ensures acyclic { OnOk result (HasNoLoop (module_of design.now)) }
    ensures cyclic { IfFault result (LoopFault (module_of design.now)) }
{
    match evaluation_order(alloc, &resolved.names, resolved.first, &resolved.reads) {
        Ok(order) => Ok(order),
        Err(Stop::Fault(names)) => Err(Stop::Fault(VlogFault::Loop(names))),
        Err(Stop::NoMemory) => Err(Stop::NoMemory),
    }
}
