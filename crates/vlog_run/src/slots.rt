// The names that a module drives, and the slots of those that its assignments and registers read.

ghost use Rattle.std.specs.Prelude.{◌≡◌, map, IfOk};
ghost use Rattle.net_expressions.specs.Names.{names_in};
ghost use Rattle.net_expressions.specs.Views.{expr_of};
ghost use Rattle.run_steps.specs.Slots.{slot_in};
ghost use Rattle.vlog_text.specs.Machine.{driven_names, given_inputs};
ghost use Rattle.vlog_text.specs.Views.{assign_of, module_of, register_of};

use base_types::{NoMemory, Text};
use indexmap::IndexSet;
use net_expressions::{Expr, names_in};
use run_steps::slot_of;
use std::alloc::Global;
use vlog_text::{Assign, Module, Register};

// The inputs without the clock.
pub fn given_inputs(design: &Module) -> &[Text]
    ensures { result.now ≡ given_inputs (module_of design.now) }
{
    let inputs = design.inputs.as_slice();
    if inputs.is_empty() {
        inputs
    } else {
        &inputs[1..]
    }
}

// The names that a module drives: its inputs without the clock, its registers, and the targets of its assignments.
pub fn driven_names<'a>(alloc: Global, design: &'a Module) -> Result<Vec<&'a [u8]>, NoMemory>
    ensures { IfOk result (λ v. map (λ w. w.now) v.items ≡ driven_names (module_of design.now)) }
{
    let mut names = Vec::new(alloc);
    for name in given_inputs(design) {
        names.push(name.bytes())?;
    }
    for register in &design.registers {
        names.push(register.name.bytes())?;
    }
    for assign in &design.assigns {
        names.push(assign.to.bytes())?;
    }
    Ok(names)
}

// For each assignment the slots that it reads.
pub fn slots_read(
    alloc: Global,
    slots: &IndexSet<&[u8]>,
    assigns: &[Assign],
) -> Result<Vec<Vec<usize>>, NoMemory>
    ensures { IfOk result
        (λ v. map (λ r. r.items) v.items
        ≡ map (λ a. map (slot_in (map (λ k. k.now) slots.now.keys)) (names_in a.value)) (map assign_of assigns.now)) }
{
    let mut reads = Vec::with_capacity(alloc, assigns.len())?;
    for assign in assigns {
        reads.push(expr_slots(alloc, slots, &assign.value)?)?;
    }
    Ok(reads)
}

// The slots of the names in an expression, from the left.
fn expr_slots(alloc: Global, slots: &IndexSet<&[u8]>, value: &Expr) -> Result<Vec<usize>, NoMemory>
    ensures { IfOk result
        (λ v. v.items ≡ map (slot_in (map (λ k. k.now) slots.now.keys)) (names_in (expr_of value.now))) }
{
    let names = names_in(alloc, value)?;
    let mut found = Vec::with_capacity(alloc, names.len())?;
    for name in &names {
        found.push(slot_of(slots, name))?;
    }
    Ok(found)
}

// The slots of the names whose values registers get.
pub fn source_slots(
    alloc: Global,
    slots: &IndexSet<&[u8]>,
    registers: &[Register],
) -> Result<Vec<usize>, NoMemory>
    ensures { IfOk result
        (λ v. v.items
        ≡ map (slot_in (map (λ k. k.now) slots.now.keys)) (map (λ r. r.from) (map register_of registers.now))) }
{
    let mut found = Vec::with_capacity(alloc, registers.len())?;
    for register in registers {
        found.push(slot_of(slots, register.from.bytes()))?;
    }
    Ok(found)
}
