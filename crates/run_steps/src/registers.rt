// Registers: a plan that is run from instant to instant.

ghost use Rattle.std.specs.Prelude.{◌≡◌, ◌+◌, ◌<◌, ◌≤◌, ◌++◌, false, map, length, take, replicate, All, IfOk};
ghost use Rattle.run_steps.specs.Slots.{value_at};
ghost use Rattle.run_steps.specs.Registers.{Advances, Restarts, IsBegun};

use crate::plan::Plan;
use base_types::NoMemory;
use std::alloc::Global;
use std::marker::Model;

/// Registers, whose values are kept from instant to instant, and the plan of an instant. The slots of the inputs stand
/// first, then those of the registers. A contract sees them as `Frame`.
#[derive(Drop)]
pub struct Registers {
    plan: Plan,
    inputs: usize,
    // For each register its value at first, and the slot whose value it gets.
    initial: Vec<bool>,
    sources: Vec<usize>,
    // For each output its slot.
    shown: Vec<usize>,
    registers: Vec<bool>,
    // The value of each slot.
    values: Vec<bool>,
    outputs: Vec<bool>,
}

impl Model for Registers {
    ghost use Rattle.run_steps.specs.Registers.{Frame};

    ghost Value = { Frame };

    ghost use Rattle.run_steps.specs.Registers.{frame_of, IsFramed};

    ghost view = { frame_of };

    ghost invariant = { IsFramed };
}

impl Registers {
    /// Registers before the first instant: a number of inputs, for each register its first value and the slot of a name
    /// whose value it gets after an instant, and the slots of the outputs. Its only error is out of memory.
    pub fn new(
        alloc: Global,
        plan: Plan,
        inputs: usize,
        initial: Vec<bool>,
        sources: Vec<usize>,
        shown: Vec<usize>,
    ) -> Result<Registers, NoMemory>
        requires front { inputs + length initial.items ≤ plan.named }
        requires each_source { length sources.items ≡ length initial.items }
        requires sources { All (λ slot. slot < plan.named) sources.items }
        requires shown { All (λ slot. slot < plan.named) shown.items }
        ensures plan { IfOk result (λ r. r.plan ≡ plan) }
        ensures inputs { IfOk result (λ r. r.inputs ≡ inputs) }
        ensures initial { IfOk result (λ r. r.initial ≡ initial.items) }
        ensures sources { IfOk result (λ r. r.sources ≡ sources.items) }
        ensures shown { IfOk result (λ r. r.shown ≡ shown.items) }
        ensures begun { IfOk result IsBegun }
    {
        let Values {
            registers,
            values,
            outputs,
        } = first_values(alloc, &initial, plan.slots(), shown.len())?;
        Ok(Registers {
            plan,
            inputs,
            initial,
            sources,
            shown,
            registers,
            values,
            outputs,
        })
    }

    /// One instant with these values of the inputs. It takes no memory.
    pub fn react(&mut self, inputs: &[bool])
        requires { length inputs.now ≡ self.old.inputs }
        ensures { Advances self.old inputs.now self.new }
    {
        put_first(&mut self.values, inputs, &self.registers);
        self.plan.run(&mut self.values);
        take_values(&self.sources, &self.values, &mut self.registers);
        take_values(&self.shown, &self.values, &mut self.outputs);
    }

    /// The values of the outputs in the last instant; all false before the first one and after a reset. It takes no
    /// memory.
    pub fn outputs(&self) -> &[bool]
        ensures { result.now ≡ self.now.outputs }
    {
        self.outputs.as_slice()
    }

    /// Puts the registers back to their first values. It takes no memory.
    pub fn reset(&mut self)
        ensures { Restarts self.old self.new }
    {
        self.registers.copy_from_slice(&self.initial);
        put_false(&mut self.outputs);
    }
}

// The values that are kept beside a plan.
#[derive(Drop)]
struct Values {
    registers: Vec<bool>,
    values: Vec<bool>,
    outputs: Vec<bool>,
}

// The values before the first instant.
fn first_values(
    alloc: Global,
    initial: &[bool],
    slots: usize,
    outputs: usize,
) -> Result<Values, NoMemory>
    ensures registers { IfOk result (λ v. v.registers.items ≡ initial.now) }
    ensures values { IfOk result (λ v. length v.values.items ≡ slots) }
    ensures outputs { IfOk result (λ v. v.outputs.items ≡ replicate outputs false) }
{
    Ok(Values {
        registers: Vec::from_slice(alloc, initial)?,
        values: vec![in alloc; false; slots]?,
        outputs: vec![in alloc; false; outputs]?,
    })
}

// Makes all values false.
fn put_false(values: &mut [bool])
    ensures { values.new ≡ replicate (length values.old) false }
{
    for value in values.iter_mut() {
        *value = false;
    }
}

// Puts the values of the inputs and registers in front.
fn put_first(values: &mut [bool], inputs: &[bool], registers: &[bool])
    requires { length inputs.now + length registers.now ≤ length values.old }
    ensures len { length values.new ≡ length values.old }
    ensures front { take (length inputs.now + length registers.now) values.new ≡ inputs.now ++ registers.now }
{
    let (given, others) = values.split_at_mut(inputs.len());
    given.copy_from_slice(inputs);
    let (kept, _) = others.split_at_mut(registers.len());
    kept.copy_from_slice(registers);
}

/// Takes the values of these slots. It takes no memory.
pub fn take_values(slots: &[usize], values: &[bool], taken: &mut [bool])
    requires each { length taken.old ≡ length slots.now }
    requires within { All (λ slot. slot < length values.now) slots.now }
    ensures { taken.new ≡ map (value_at values.now) slots.now }
{
    for (k, slot) in slots.iter().enumerate() {
        taken[k] = values[*slot];
    }
}
