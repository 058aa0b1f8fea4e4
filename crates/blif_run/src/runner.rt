// The runner of a BLIF text's circuit, as a machine that items drive.

ghost use Rattle.std.specs.Prelude.{◌≡◌, ◌≤◌, [], map, length, IfOk, IsTrue, OnOk};
ghost use Rattle.base_types.specs.Distinct.{all_differ};
ghost use Rattle.base_types.specs.Names.{is_same_name};
ghost use Rattle.base_types.specs.Stops.{IfFault};
ghost use Rattle.blif_text.specs.Plain.{plain_circuit, plain_latch};
ghost use Rattle.blif_text.specs.Runs.{circuit_latches};
ghost use Rattle.run_steps.specs.Registers.{IsBegun};
ghost use Rattle.blif_run.specs.CircuitAnswers.{tells_pause, listed_count, listed_names};
ghost use Rattle.blif_run.specs.Loops.{IsDescribed, LoopFault, HasNoLoop};
ghost use Rattle.blif_run.specs.Plans.{IsPlan};
ghost use Rattle.blif_run.specs.Runners.{IsFresh};

use crate::plan::{CircuitPlan, circuit_plan};
use base_types::{NoMemory, Stop, Text};
use blif_read::BlifFault;
use blif_text::{Blif, BlifLatch};
use run_over_traces::{Interface, Runner, copied_names, told_word};
use run_steps::Registers;
use run_trace_io::Word;
use std::alloc::Global;
use std::marker::Model;

/// A runner of the circuit of a BLIF text. A last output `_paused` is none of the outgoing signals, and its value says
/// whether the program is still active; where there is none, nothing is said. A contract sees it as the circuit, the
/// values that the latches have in the next instant, and those that the outputs had in the last one.
#[derive(Drop)]
pub struct BlifRunner {
    blif: Blif,
    registers: Registers,
}

impl Model for BlifRunner {
    ghost use Rattle.blif_run.specs.Runners.{Runner};

    ghost Value = { Runner };

    ghost use Rattle.blif_run.specs.Insides.{runner_of, KeepsPlan};

    ghost view = { runner_of };

    ghost invariant = { KeepsPlan };
}

impl BlifRunner {
    /// A runner of a circuit before its first event. The circuit is one that some text describes.
    ///
    /// The only fault is a combinational cycle, where there is one, and out of memory is the only other error.
    pub fn new(alloc: Global, blif: Blif) -> Result<BlifRunner, Stop<BlifFault>>
        requires { IsDescribed (plain_circuit blif) }
        ensures circuit { IfOk result (λ r. r.circuit ≡ plain_circuit blif) }
        ensures fresh { IfOk result IsFresh }
        ensures acyclic { OnOk result (HasNoLoop (plain_circuit blif)) }
        ensures cyclic { IfFault result (LoopFault (plain_circuit blif)) }
    {
        let registers = circuit_registers(alloc, &blif)?;
        Ok(BlifRunner { blif, registers })
    }

    /// The interface of the text itself: its inputs, and its outputs except for a last `_paused`; no relations.
    /// Its only error is out of memory.
    pub fn interface(&self, alloc: Global) -> Result<Interface, NoMemory>
        ensures given { IfOk result (λ i. i.given.items ≡ self.now.circuit.inputs) }
        ensures outgoing { IfOk result (λ i. i.outgoing.items ≡ listed_names self.now.circuit.outputs) }
        ensures relations { IfOk result (λ i. i.relations.items ≡ []) }
        ensures differ { IfOk result (λ i. IsTrue (all_differ is_same_name i.given.items)) }
        ensures each_output { IfOk result (λ i. length i.outgoing.items ≡ listed_count self.now.circuit.outputs) }
    {
        let outputs = &self.blif.outputs;
        Ok(Interface {
            given: copied_names(alloc, &self.blif.inputs)?,
            outgoing: copied_names(alloc, &outputs[..listed_count(outputs)])?,
            relations: Vec::new(alloc),
        })
    }
}

impl Runner for BlifRunner {
    ghost use Rattle.std.specs.Prelude.{⊤, take};
    ghost use Rattle.blif_run.specs.CircuitAnswers.{listed_count};
    ghost use Rattle.blif_run.specs.Showing.{runner_shows};
    ghost use Rattle.blif_run.specs.Ends.{shows_nothing};

    ghost input_count = { λ r. length r.circuit.inputs };

    ghost output_count = { λ r. listed_count r.circuit.outputs };

    ghost present = { λ r. take (listed_count r.circuit.outputs) r.outputs };

    ghost shows = { runner_shows };

    ghost becomes = { λ r items last. ⊤ };

    fn react(&mut self, inputs: &[bool]) -> Word {
        self.registers.react(inputs);
        told_word(PAUSED, &self.blif.outputs, self.registers.outputs())
    }

    fn outputs(&self) -> &[bool] {
        &self.registers.outputs()[..listed_count(&self.blif.outputs)]
    }

    fn reset(&mut self) {
        self.registers.reset();
    }

    ghost ends = { λ r. shows_nothing r };

    ghost stays = { λ r. tt };
}

// The latches of a circuit, and the plan of its reactions.
fn circuit_registers(alloc: Global, blif: &Blif) -> Result<Registers, Stop<BlifFault>>
    requires { IsDescribed (plain_circuit blif.now) }
    ensures plan { IfOk result (λ r. IsPlan (plain_circuit blif.now) r.plan r.sources r.shown) }
    ensures inputs { IfOk result (λ r. r.inputs ≡ length blif.now.inputs.items) }
    ensures initial { IfOk result (λ r. r.initial ≡ circuit_latches (plain_circuit blif.now)) }
    ensures begun { IfOk result IsBegun }
    ensures acyclic { OnOk result (HasNoLoop (plain_circuit blif.now)) }
    ensures cyclic { IfFault result (LoopFault (plain_circuit blif.now)) }
{
    let plan = circuit_plan(alloc, blif)?;
    let initial = initial_values(alloc, &blif.latches)?;
    let CircuitPlan {
        tables,
        sources,
        shown,
    } = plan;
    let count = blif.inputs.len();
    Ok(Registers::new(alloc, tables, count, initial, sources, shown)?)
}

// The values that latches have at first.
fn initial_values(alloc: Global, latches: &[BlifLatch]) -> Result<Vec<bool>, NoMemory>
    ensures { IfOk result (λ v. v.items ≡ map (λ l. l.init) (map plain_latch latches.now)) }
{
    let mut values = Vec::with_capacity(alloc, latches.len())?;
    for latch in latches {
        values.push(latch.init)?;
    }
    Ok(values)
}

const PAUSED: &[u8] = b"_paused";

/// Whether the last of the outputs is `_paused`.
pub fn tells_pause(outputs: &[Text]) -> bool
    ensures { result ≡ tells_pause outputs.now }
{
    run_over_traces::tells_pause(PAUSED, outputs)
}

/// How many of the outputs are listed.
pub fn listed_count(outputs: &[Text]) -> usize
    ensures count { result ≡ listed_count outputs.now }
    ensures within { result ≤ length outputs.now }
{
    run_over_traces::listed_count(PAUSED, outputs)
}
