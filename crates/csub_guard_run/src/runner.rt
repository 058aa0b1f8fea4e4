// The machine of a guarded program, as one that items drive.

ghost use Rattle.std.specs.Prelude.{◌≡◌, ◌<◌, ◌^◌, [], map, length, take, IfOk, IsTrue};
ghost use Rattle.base_types.specs.Distinct.{all_differ};
ghost use Rattle.base_types.specs.Names.{is_same_name};
ghost use Rattle.csub_guard.specs.Machine.{inputs_of};
ghost use Rattle.csub_guard.specs.Names.{declared};
ghost use Rattle.csub_guard.specs.Views.{program_of};
ghost use Rattle.csub_guard_run.specs.Plans.{IsPlan, first_values};
ghost use Rattle.csub_guard_run.specs.ProgramAnswers.{bare_inputs, bare_outputs};
ghost use Rattle.csub_guard_run.specs.Runners.{KeepsNames, Reacts};
ghost use Rattle.csub_guard_run.specs.Showing.{IsHeld, IsNew, IsSum, counted_program};
ghost use Rattle.csub_guard_run.specs.Totals.{worth_of, HasRoom};
ghost use Rattle.run_steps.specs.Slots.{value_at};

use crate::plan::{CallPlan, plan_of};
use crate::run::run_track;
use crate::total::{Total, held, sum_of};
use base_types::NoMemory;
use csub_guard::GuardedProgram;
use csub_run::{globals_interface, put_front, put_values};
use run_over_traces::{Interface, Runner, word_of};
use run_steps::take_values;
use run_trace_io::Word;
use std::alloc::Global;
use std::marker::Model;

/// The machine of a guarded program, as one that items drive: an event is one call, whose returned value gives the
/// word. A contract sees it as the machine of the program and the number of assignments that all calls so far ran.
#[derive(Drop)]
pub struct GuardedRunner {
    program: GuardedProgram,
    plan: CallPlan,
    // The value of each slot.
    values: Vec<bool>,
    outputs: Vec<bool>,
    // The number of assignments that the last call ran.
    count: u128,
    // None where no counter holds it.
    total: Option<Total>,
}

impl Model for GuardedRunner {
    ghost use Rattle.csub_guard_run.specs.Showing.{Counter};

    ghost Value = { Counter };

    ghost use Rattle.net_expressions.specs.contracts.trees.Expr as e;
    ghost use Rattle.std.specs.Coded.{codes};

    ghost coded = { Prim.hlevel (codes, e.the_row.coded) };

    ghost use Rattle.csub_guard_run.specs.Insides.{counter_of, KeepsPlan};

    ghost view = { counter_of };

    ghost invariant = { KeepsPlan };
}

impl GuardedRunner {
    /// The machine of a program before its first call. The program keeps the rules on names, as each one does that
    /// some text describes. Running out of memory is the only error.
    pub fn new(alloc: Global, program: GuardedProgram) -> Result<GuardedRunner, NoMemory>
        requires { KeepsNames (program_of program) }
        ensures program { IfOk result (λ m. m.calls.code ≡ program) }
        ensures fresh { IfOk result IsNew }
    {
        let Parts {
            plan,
            values,
            outputs,
        } = runner_parts(alloc, &program)?;
        Ok(GuardedRunner {
            program,
            plan,
            values,
            outputs,
            count: 0,
            total: Some(Total { high: 0, low: 0 }),
        })
    }

    /// The interface of the program itself: its inputs and outputs without their signs; no relations.
    /// Running out of memory is the only error.
    pub fn interface(&self, alloc: Global) -> Result<Interface, NoMemory>
        ensures given { IfOk result (λ i. i.given.items ≡ bare_inputs (counted_program self.now)) }
        ensures outgoing { IfOk result (λ i. i.outgoing.items ≡ bare_outputs (counted_program self.now)) }
        ensures relations { IfOk result (λ i. i.relations.items ≡ []) }
        ensures differ { IfOk result (λ i. IsTrue (all_differ is_same_name i.given.items)) }
    {
        match globals_interface(alloc, &self.program.globals) {
            Ok(interface) => Ok(interface),
            Err(NoMemory) => Err(NoMemory),
        }
    }

    /// The number of assignments that all calls so far ran; none where it is 2^64 or more.
    pub fn total(&self) -> Option<u64>
        ensures { IsHeld self.now.total result }
    {
        held(self.total)
    }

    // The number of assignments that all calls so far ran, where a counter holds it.
    pub(crate) fn sum(&self) -> Option<Total>
        ensures worth { worth_of result ≡ self.now.total }
        ensures room { HasRoom result }
    {
        self.total
    }

    // One call with these values of the inputs: the returned value.
    fn call(&mut self, inputs: &[bool]) -> bool
        requires { length inputs.now ≡ length (inputs_of (counted_program self.old)) }
        ensures reacts { Reacts self.old.calls inputs.now result self.new.calls }
        ensures sum { IsSum self.old.total self.new.calls.count self.new.total }
        ensures small { self.new.calls.count < 2 ^ 128 }
    {
        put_values(&self.plan.inputs, inputs, &mut self.values);
        self.count = run_track(&self.plan.track, &mut self.values);
        self.total = sum_of(self.total, self.count);
        take_values(&self.plan.outputs, &self.values, &mut self.outputs);
        self.plan.answer.value(&self.values)
    }
}

impl Runner for GuardedRunner {
    ghost use Rattle.std.specs.Prelude.{length};
    ghost use Rattle.csub_guard.specs.Machine.{inputs_of, outputs_of};
    ghost use Rattle.csub_guard_run.specs.Ends.{shows_nothing, adds_nothing};
    ghost use Rattle.csub_guard_run.specs.Runners.{outputs_shown};
    ghost use Rattle.csub_guard_run.specs.Showing.{counted_program, counter_shows, adds_up};

    ghost input_count = { λ m. length (inputs_of (counted_program m)) };

    ghost output_count = { λ m. length (outputs_of (counted_program m)) };

    ghost present = { λ m. outputs_shown m.calls };

    ghost shows = { counter_shows };

    ghost becomes = { adds_up };

    fn react(&mut self, inputs: &[bool]) -> Word {
        word_of(self.call(inputs))
    }

    fn outputs(&self) -> &[bool] {
        self.outputs.as_slice()
    }

    fn reset(&mut self) {
        put_front(&mut self.values, &self.plan.initial);
        take_values(&self.plan.outputs, &self.values, &mut self.outputs);
        self.count = 0;
    }

    ghost ends = { λ m. shows_nothing m };

    ghost stays = { λ m. adds_nothing m };
}

// What a machine has in addition to its program.
#[derive(Drop)]
struct Parts {
    plan: CallPlan,
    values: Vec<bool>,
    outputs: Vec<bool>,
}

// The plan of a program, and the values before the first call.
fn runner_parts(alloc: Global, program: &GuardedProgram) -> Result<Parts, NoMemory>
    requires { KeepsNames (program_of program.now) }
    ensures plan { IfOk result (λ p. IsPlan (program_of program.now) p.plan) }
    ensures slots { IfOk result (λ p. length p.values.items ≡ p.plan.track.gates.slots) }
    ensures values { IfOk result (λ p. take (length (declared (program_of program.now))) p.values.items
        ≡ first_values (program_of program.now)) }
    ensures outputs { IfOk result (λ p. p.outputs.items ≡ map (value_at p.values.items) p.plan.outputs.items) }
{
    let plan = plan_of(alloc, program)?;
    let mut values = vec![in alloc; false; plan.track.gates.slots()]?;
    put_front(&mut values, &plan.initial);
    let mut outputs = vec![in alloc; false; plan.outputs.len()]?;
    take_values(&plan.outputs, &values, &mut outputs);
    Ok(Parts {
        plan,
        values,
        outputs,
    })
}
