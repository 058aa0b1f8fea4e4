// What a machine does at a call, with the names resolved.

ghost use Rattle.std.specs.Prelude.{◌≡◌, ◌<◌, false, [], ◌++◌, map, filter, length, All, IfOk, OnOk};
ghost use Rattle.csub_text.specs.Grammar.{begins_input, begins_output};
ghost use Rattle.csub_text.specs.Names.{declared, inputs_of, outputs_of};
ghost use Rattle.csub_text.specs.Views.{assign_of, program_of, state_of};
ghost use Rattle.run_steps.specs.Slots.{slot_in};
ghost use Rattle.run_steps.specs.Plans.{Adds, Makes};
ghost use Rattle.csub_run.specs.Runners.{KeepsNames};
ghost use Rattle.csub_run.specs.Plans.{IsBody, IsPlan, assign_step, first_values};

use base_types::{NoMemory, Text};
use csub_text::{Assign, CProgram, State, begins_input, begins_output, declared_names};
use indexmap::IndexSet;
use run_steps::{Plan, Term, expr_term, push_expr, slot_of, slot_table};
use std::alloc::Global;

/// The variables have the slots that their places among the declared names are: states, globals, locals.
#[derive(Drop)]
pub struct CallPlan {
    pub inputs: Vec<usize>,
    pub outputs: Vec<usize>,
    pub body: Plan,
    // The value that is returned, after the body.
    pub answer: Term,
    // The values of the variables before the first call.
    pub initial: Vec<bool>,
}

// The plan of a program.
pub fn plan_of(alloc: Global, program: &CProgram) -> Result<CallPlan, NoMemory>
    requires { KeepsNames (program_of program.now) }
    ensures { IfOk result (IsPlan (program_of program.now)) }
{
    let names = declared_names(alloc, program)?;
    let slots = slot_table(alloc, &names)?;
    let Places {
        inputs,
        outputs,
        initial,
    } = places_of(alloc, &slots, program)?;
    let Body { plan, answer } = body_plan(alloc, &slots, program)?;
    Ok(CallPlan {
        inputs,
        outputs,
        body: plan,
        answer,
        initial,
    })
}

// The slots of the inputs and outputs, and the values of the variables before the first call.
#[derive(Drop)]
struct Places {
    inputs: Vec<usize>,
    outputs: Vec<usize>,
    initial: Vec<bool>,
}

fn places_of(alloc: Global, slots: &IndexSet<&[u8]>, program: &CProgram) -> Result<Places, NoMemory>
    ensures inputs { IfOk result (λ p. p.inputs.items
        ≡ map (slot_in (map (λ k. k.now) slots.now.keys)) (inputs_of (program_of program.now))) }
    ensures outputs { IfOk result (λ p. p.outputs.items
        ≡ map (slot_in (map (λ k. k.now) slots.now.keys)) (outputs_of (program_of program.now))) }
    ensures initial { IfOk result (λ p. p.initial.items ≡ first_values (program_of program.now)) }
{
    Ok(Places {
        inputs: input_slots(alloc, slots, &program.globals)?,
        outputs: output_slots(alloc, slots, &program.globals)?,
        initial: initial_values(alloc, program)?,
    })
}

// The plan of a body, and the term of the value that is returned after it.
#[derive(Drop)]
struct Body {
    plan: Plan,
    answer: Term,
}

fn body_plan(alloc: Global, slots: &IndexSet<&[u8]>, program: &CProgram) -> Result<Body, NoMemory>
    requires names { KeepsNames (program_of program.now) }
    requires slots { map (λ k. k.now) slots.now.keys ≡ declared (program_of program.now) }
    ensures { IfOk result (λ b. IsBody (program_of program.now) b.plan b.answer) }
{
    let mut plan = Plan::new(alloc, slots.len())?;
    push_assigns(&mut plan, slots, &program.body)?;
    let answer = expr_term(&mut plan, slots, &program.answer)?;
    plan.slots();
    Ok(Body { plan, answer })
}

/// Adds the steps of assignments. Its only error is out of memory.
pub fn push_assigns(
    plan: &mut Plan,
    slots: &IndexSet<&[u8]>,
    body: &[Assign],
) -> Result<(), NoMemory>
    requires named { plan.old.named ≡ length slots.now.keys }
    requires declared { All (λ a. slot_in (map (λ k. k.now) slots.now.keys) a.to < plan.old.named) body.now }
    requires none { Makes plan.old [] }
    ensures named { OnOk result (plan.new.named ≡ plan.old.named) }
    ensures tables { OnOk result (plan.new.tables ≡ plan.old.tables) }
    ensures makes { OnOk result
        (Makes plan.new (map (assign_step (map (λ k. k.now) slots.now.keys)) (map assign_of body.now))) }
{
    for assign in body {
        push_assign(plan, slots, assign)?;
    }
    Ok(())
}

/// Adds the step of an assignment. Its only error is out of memory.
pub fn push_assign(
    plan: &mut Plan,
    slots: &IndexSet<&[u8]>,
    assign: &Assign,
) -> Result<(), NoMemory>
    requires { slot_in (map (λ k. k.now) slots.now.keys) assign.now.to < plan.old.named }
    ensures tables { OnOk result (plan.new.tables ≡ plan.old.tables) }
    ensures adds { OnOk result
        (Adds (assign_step (map (λ k. k.now) slots.now.keys) (assign_of assign.now)) plan.old plan.new) }
{
    push_expr(plan, slots, assign.to.bytes(), &assign.value)
}

// The values that the variables have before the first call.
fn initial_values(alloc: Global, program: &CProgram) -> Result<Vec<bool>, NoMemory>
    ensures { IfOk result (λ v. v.items ≡ first_values (program_of program.now)) }
{
    variable_values(alloc, &program.states, &program.globals, &program.locals)
}

/// The values of these variables before the first call: those of the states as they are declared, and 0. Its only error
/// is out of memory.
pub fn variable_values(
    alloc: Global,
    states: &[State],
    globals: &[Text],
    locals: &[Text],
) -> Result<Vec<bool>, NoMemory>
    ensures { IfOk result (λ v. v.items ≡ (map (λ s. s.init) (map state_of states.now) ++ map (λ _. false) globals.now)
        ++ map (λ _. false) locals.now) }
{
    let mut values = Vec::new(alloc);
    for state in states {
        values.push(state.init)?;
    }
    for _ in globals {
        values.push(false)?;
    }
    for _ in locals {
        values.push(false)?;
    }
    Ok(values)
}

/// The slots of the inputs among the globals. Its only error is out of memory.
pub fn input_slots(
    alloc: Global,
    slots: &IndexSet<&[u8]>,
    globals: &[Text],
) -> Result<Vec<usize>, NoMemory>
    ensures { IfOk result
        (λ v. v.items ≡ map (slot_in (map (λ k. k.now) slots.now.keys)) (filter begins_input globals.now)) }
{
    let mut found = Vec::new(alloc);
    for name in globals {
        if begins_input(name.bytes()) {
            found.push(slot_of(slots, name.bytes()))?;
        }
    }
    Ok(found)
}

/// The slots of the outputs among the globals. Its only error is out of memory.
pub fn output_slots(
    alloc: Global,
    slots: &IndexSet<&[u8]>,
    globals: &[Text],
) -> Result<Vec<usize>, NoMemory>
    ensures { IfOk result
        (λ v. v.items ≡ map (slot_in (map (λ k. k.now) slots.now.keys)) (filter begins_output globals.now)) }
{
    let mut found = Vec::new(alloc);
    for name in globals {
        if begins_output(name.bytes()) {
            found.push(slot_of(slots, name.bytes()))?;
        }
    }
    Ok(found)
}
