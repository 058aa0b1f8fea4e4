// The runner of a module, as a machine that items drive.

ghost use Rattle.std.specs.Prelude.{◌≡◌, [], map, length, IfOk, IsTrue, OnOk};
ghost use Rattle.base_types.specs.Distinct.{all_differ};
ghost use Rattle.base_types.specs.Names.{is_same_name};
ghost use Rattle.base_types.specs.Stops.{IfFault};
ghost use Rattle.run_steps.specs.Registers.{IsBegun};
ghost use Rattle.vlog_run.specs.Loops.{IsDescribed, HasNoLoop, LoopFault};
ghost use Rattle.vlog_run.specs.ModuleAnswers.{bare_name, bare_inputs, bare_outputs, listed_count};
ghost use Rattle.vlog_run.specs.Plans.{IsPlan};
ghost use Rattle.vlog_run.specs.Runners.{IsFresh, module_in};
ghost use Rattle.vlog_text.specs.Machine.{given_inputs, initial_registers};
ghost use Rattle.vlog_text.specs.Views.{module_of, register_of};

use crate::plan::{ModulePlan, module_plan};
use crate::slots::given_inputs;
use base_types::{NoMemory, Stop, Text};
use run_over_traces::{Interface, Runner, listed_count, told_word};
use run_steps::Registers;
use run_trace_io::Word;
use std::alloc::Global;
use std::marker::Model;
use vlog_read::VlogFault;
use vlog_text::{Module, Register};

/// A runner of a module, as one that items drive. A last output `paused` is none of the outgoing signals. Its value
/// says whether the program is still active; without that output, nothing is said. A contract sees it as the module,
/// the values that the registers have in the next instant, and those that the outputs had in the last one.
#[derive(Drop)]
pub struct VlogRunner {
    design: Module,
    registers: Registers,
}

impl Model for VlogRunner {
    ghost use Rattle.vlog_run.specs.Runners.{Runner};

    ghost Value = { Runner };

    ghost use Rattle.net_expressions.specs.contracts.trees.Expr as e;
    ghost use Rattle.std.specs.Coded.{codes};

    ghost coded = { Prim.hlevel (codes, e.the_row.coded) };

    ghost use Rattle.vlog_run.specs.Insides.{runner_of, KeepsPlan};

    ghost view = { runner_of };

    ghost invariant = { KeepsPlan };
}

impl VlogRunner {
    /// A runner of a module before its first event. The module is one that some text describes.
    ///
    /// The only fault is a combinational cycle, where there is one, and out of memory is the only other error.
    pub fn new(alloc: Global, design: Module) -> Result<VlogRunner, Stop<VlogFault>>
        requires { IsDescribed (module_of design) }
        ensures code { IfOk result (λ r. r.code ≡ design) }
        ensures fresh { IfOk result IsFresh }
        ensures acyclic { OnOk result (HasNoLoop (module_of design)) }
        ensures cyclic { IfFault result (LoopFault (module_of design)) }
    {
        let registers = module_registers(alloc, &design)?;
        Ok(VlogRunner { design, registers })
    }

    /// The interface of the text itself: its inputs without the clock, and its outputs without a last `paused`. The
    /// names lack the two bytes of their signs, and there are no relations. Its only error is out of memory.
    pub fn interface(&self, alloc: Global) -> Result<Interface, NoMemory>
        ensures given { IfOk result (λ i. i.given.items ≡ bare_inputs (module_in self.now)) }
        ensures outgoing { IfOk result (λ i. i.outgoing.items ≡ bare_outputs (module_in self.now)) }
        ensures relations { IfOk result (λ i. i.relations.items ≡ []) }
        ensures differ { IfOk result (λ i. IsTrue (all_differ is_same_name i.given.items)) }
        ensures each_output { IfOk result (λ i. length i.outgoing.items ≡ listed_count (module_in self.now).outputs) }
    {
        match module_interface(alloc, &self.design) {
            Ok(interface) => Ok(interface),
            Err(NoMemory) => Err(NoMemory),
        }
    }
}

impl Runner for VlogRunner {
    ghost use Rattle.std.specs.Prelude.{⊤, length, take};
    ghost use Rattle.vlog_run.specs.Ends.{shows_nothing};
    ghost use Rattle.vlog_run.specs.ModuleAnswers.{listed_count};
    ghost use Rattle.vlog_run.specs.Runners.{module_in};
    ghost use Rattle.vlog_run.specs.Showing.{runner_shows};
    ghost use Rattle.vlog_text.specs.Machine.{given_inputs};

    ghost input_count = { λ r. length (given_inputs (module_in r)) };

    ghost output_count = { λ r. listed_count (module_in r).outputs };

    ghost present = { λ r. take (listed_count (module_in r).outputs) r.outputs };

    ghost shows = { runner_shows };

    ghost becomes = { λ r items last. ⊤ };

    fn react(&mut self, inputs: &[bool]) -> Word {
        self.registers.react(inputs);
        told_word(PAUSED, &self.design.outputs, self.registers.outputs())
    }

    fn outputs(&self) -> &[bool] {
        &self.registers.outputs()[..listed_count(PAUSED, &self.design.outputs)]
    }

    fn reset(&mut self) {
        self.registers.reset();
    }

    ghost ends = { λ r. shows_nothing r };

    ghost stays = { λ r. tt };
}

// The registers of a module, and the plan of its reactions. The fault is a combinational cycle.
fn module_registers(alloc: Global, design: &Module) -> Result<Registers, Stop<VlogFault>>
    requires { IsDescribed (module_of design.now) }
    ensures plan { IfOk result (λ r. IsPlan (module_of design.now) r.plan r.sources r.shown) }
    ensures inputs { IfOk result (λ r. r.inputs ≡ length (given_inputs (module_of design.now))) }
    ensures initial { IfOk result (λ r. r.initial ≡ initial_registers (module_of design.now)) }
    ensures begun { IfOk result IsBegun }
    ensures acyclic { OnOk result (HasNoLoop (module_of design.now)) }
    ensures cyclic { IfFault result (LoopFault (module_of design.now)) }
{
    let plan = module_plan(alloc, design)?;
    let initial = initial_values(alloc, &design.registers)?;
    let ModulePlan {
        assigns,
        sources,
        shown,
    } = plan;
    let inputs = given_inputs(design).len();
    Ok(Registers::new(alloc, assigns, inputs, initial, sources, shown)?)
}

// The values that registers have at first.
fn initial_values(alloc: Global, registers: &[Register]) -> Result<Vec<bool>, NoMemory>
    ensures { IfOk result (λ v. v.items ≡ map (λ r. r.init) (map register_of registers.now)) }
{
    let mut values = Vec::with_capacity(alloc, registers.len())?;
    for register in registers {
        values.push(register.init)?;
    }
    Ok(values)
}

// The names of the inputs and of the listed outputs of a module, without their signs; no relations.
fn module_interface(alloc: Global, design: &Module) -> Result<Interface, NoMemory>
    ensures given { IfOk result (λ i. i.given.items ≡ bare_inputs (module_of design.now)) }
    ensures outgoing { IfOk result (λ i. i.outgoing.items ≡ bare_outputs (module_of design.now)) }
    ensures relations { IfOk result (λ i. i.relations.items ≡ []) }
{
    let outputs = &design.outputs;
    Ok(Interface {
        given: bare_names(alloc, given_inputs(design))?,
        outgoing: bare_names(alloc, &outputs[..listed_count(PAUSED, outputs)])?,
        relations: Vec::new(alloc),
    })
}

// The names without their signs.
fn bare_names(alloc: Global, names: &[Text]) -> Result<Vec<Text>, NoMemory>
    ensures { IfOk result (λ bare. bare.items ≡ map bare_name names.now) }
{
    let mut bare = Vec::with_capacity(alloc, names.len())?;
    for name in names {
        bare.push(Text::from_bytes(alloc, bare_name(name.bytes()))?)?;
    }
    Ok(bare)
}

// The bytes of a name after the first two.
fn bare_name(name: &[u8]) -> &[u8]
    ensures { result.now ≡ bare_name name.now }
{
    if name.len() < 2 { b"" } else { &name[2..] }
}

const PAUSED: &[u8] = b"paused";
