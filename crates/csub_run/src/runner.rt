// The machine of a program of the C subset, as one that items drive.

ghost use Rattle.std.specs.Prelude.{◌≡◌, ◌<◌, ◌≤◌, [], map, length, take, drop, All, IfOk, IsTrue};
ghost use Rattle.base_types.specs.Distinct.{all_differ};
ghost use Rattle.base_types.specs.Names.{is_same_name};
ghost use Rattle.csub_text.specs.Names.{declared, inputs_of};
ghost use Rattle.csub_text.specs.Views.{program_of};
ghost use Rattle.csub_run.specs.ProgramAnswers.{bare_inputs, bare_outputs};
ghost use Rattle.csub_run.specs.Runners.{KeepsNames, program_in, Reacts, IsFresh};
ghost use Rattle.csub_run.specs.Plans.{IsPlan, first_values, put_all};
ghost use Rattle.run_steps.specs.Slots.{value_at};

use crate::interface::globals_interface;
use crate::plan::{CallPlan, plan_of};
use base_types::NoMemory;
use csub_text::CProgram;
use run_over_traces::{Interface, Runner, word_of};
use run_steps::take_values;
use run_trace_io::Word;
use std::alloc::Global;
use std::marker::Model;

/// The machine of a program, as one that items drive: an event is one call, whose returned value gives the word. A
/// contract sees it as the program and the values of its variables.
#[derive(Drop)]
pub struct CRunner {
    program: CProgram,
    plan: CallPlan,
    // The value of each slot.
    values: Vec<bool>,
    outputs: Vec<bool>,
}

impl Model for CRunner {
    ghost use Rattle.csub_run.specs.Runners.{Runner};

    ghost Value = { Runner };

    ghost use Rattle.net_expressions.specs.contracts.trees.Expr as e;
    ghost use Rattle.std.specs.Coded.{codes};

    ghost coded = { Prim.hlevel (codes, e.the_row.coded) };

    ghost use Rattle.csub_run.specs.Insides.{runner_of, KeepsPlan};

    ghost view = { runner_of };

    ghost invariant = { KeepsPlan };
}

impl CRunner {
    /// The machine of a program before its first call. The program keeps the rules on names, as each one does that
    /// some text describes. Running out of memory is the only error.
    pub fn new(alloc: Global, program: CProgram) -> Result<CRunner, NoMemory>
        requires { KeepsNames (program_of program) }
        ensures program { IfOk result (λ m. m.code ≡ program) }
        ensures fresh { IfOk result IsFresh }
    {
        let Parts {
            plan,
            values,
            outputs,
        } = runner_parts(alloc, &program)?;
        Ok(CRunner {
            program,
            plan,
            values,
            outputs,
        })
    }

    /// The interface of the program itself: its inputs and outputs without their signs; no relations.
    /// Running out of memory is the only error.
    pub fn interface(&self, alloc: Global) -> Result<Interface, NoMemory>
        ensures given { IfOk result (λ i. i.given.items ≡ bare_inputs (program_in self.now)) }
        ensures outgoing { IfOk result (λ i. i.outgoing.items ≡ bare_outputs (program_in self.now)) }
        ensures relations { IfOk result (λ i. i.relations.items ≡ []) }
        ensures differ { IfOk result (λ i. IsTrue (all_differ is_same_name i.given.items)) }
    {
        match globals_interface(alloc, &self.program.globals) {
            Ok(interface) => Ok(interface),
            Err(NoMemory) => Err(NoMemory),
        }
    }

    // One call with these values of the inputs: the returned value.
    fn call(&mut self, inputs: &[bool]) -> bool
        requires { length inputs.now ≡ length (inputs_of (program_in self.old)) }
        ensures { Reacts self.old inputs.now result self.new }
    {
        put_values(&self.plan.inputs, inputs, &mut self.values);
        self.plan.body.run(&mut self.values);
        take_values(&self.plan.outputs, &self.values, &mut self.outputs);
        self.plan.answer.value(&self.values)
    }
}

impl Runner for CRunner {
    ghost use Rattle.std.specs.Prelude.{⊤, length};
    ghost use Rattle.csub_text.specs.Names.{inputs_of, outputs_of};
    ghost use Rattle.csub_run.specs.Runners.{outputs_shown, program_in};
    ghost use Rattle.csub_run.specs.Showing.{runner_shows};
    ghost use Rattle.csub_run.specs.Ends.{shows_nothing};

    ghost input_count = { λ r. length (inputs_of (program_in r)) };

    ghost output_count = { λ r. length (outputs_of (program_in r)) };

    ghost present = { outputs_shown };

    ghost shows = { runner_shows };

    ghost becomes = { λ r items last. ⊤ };

    fn react(&mut self, inputs: &[bool]) -> Word {
        word_of(self.call(inputs))
    }

    fn outputs(&self) -> &[bool] {
        self.outputs.as_slice()
    }

    fn reset(&mut self) {
        put_front(&mut self.values, &self.plan.initial);
        take_values(&self.plan.outputs, &self.values, &mut self.outputs);
    }

    ghost ends = { λ r. shows_nothing r };

    ghost stays = { λ r. tt };
}

// What a machine has in addition to its program.
#[derive(Drop)]
struct Parts {
    plan: CallPlan,
    values: Vec<bool>,
    outputs: Vec<bool>,
}

// The plan of a program, and the values before the first call.
fn runner_parts(alloc: Global, program: &CProgram) -> Result<Parts, NoMemory>
    requires { KeepsNames (program_of program.now) }
    ensures plan { IfOk result (λ p. IsPlan (program_of program.now) p.plan) }
    ensures slots { IfOk result (λ p. length p.values.items ≡ p.plan.body.slots) }
    ensures values { IfOk result (λ p. take (length (declared (program_of program.now))) p.values.items
        ≡ first_values (program_of program.now)) }
    ensures outputs { IfOk result (λ p. p.outputs.items ≡ map (value_at p.values.items) p.plan.outputs.items) }
{
    let plan = plan_of(alloc, program)?;
    let mut values = vec![in alloc; false; plan.body.slots()]?;
    put_front(&mut values, &plan.initial);
    let mut outputs = vec![in alloc; false; plan.outputs.len()]?;
    take_values(&plan.outputs, &values, &mut outputs);
    Ok(Parts {
        plan,
        values,
        outputs,
    })
}

/// Puts these values in front.
pub fn put_front(values: &mut [bool], front: &[bool])
    requires { length front.now ≤ length values.old }
    ensures len { length values.new ≡ length values.old }
    ensures front { take (length front.now) values.new ≡ front.now }
    ensures rest { drop (length front.now) values.new ≡ drop (length front.now) values.old }
{
    let (first, _) = values.split_at_mut(front.len());
    first.copy_from_slice(front);
}

/// Puts each value into its slot.
pub fn put_values(slots: &[usize], given: &[bool], values: &mut [bool])
    requires each { length given.now ≡ length slots.now }
    requires within { All (λ slot. slot < length values.old) slots.now }
    ensures { values.new ≡ put_all slots.now given.now values.old }
{
    for (k, slot) in slots.iter().enumerate() {
        values[*slot] = given[k];
    }
}
