// BLIF texts as a language of texts that are run over traces.

ghost use Rattle.std.specs.Prelude.{◌≤◌, length, IfOk};
ghost use Rattle.base_types.specs.Stops.{IfFault};
ghost use Rattle.blif_run.specs.Runners.{IsFresh};
ghost use Rattle.blif_run.specs.Texts.{ReadsCircuit, IsTextFault};

use crate::runner::BlifRunner;
use base_types::{Limits, NoMemory, Stop};
use blif_read::{BlifFault, read_blif};
use net_ir::{Net, look_at_wires};
use run_over_traces::{Interface, Language};
use std::alloc::Global;

/// The language of BLIF texts, whose meaning is in `blif_text`, after Berkeley's BLIF.
pub struct BlifTexts {}

impl Language for BlifTexts {
    ghost use Rattle.blif_text.specs.Circuits.{Circuit};
    ghost use Rattle.blif_run.specs.CircuitAnswers.{listed_names, circuit_shows};
    ghost use Rattle.blif_run.specs.Texts.{ReadsCircuit, IsTextFault, IsWritten};

    type Fault = BlifFault;

    type Machine = BlifRunner;

    ghost Plain = { Circuit };

    ghost reads = { ReadsCircuit };

    ghost given = { λ c. c.inputs };

    ghost outgoing = { λ c. listed_names c.outputs };

    ghost shows = { circuit_shows };

    ghost faulty = { IsTextFault };

    ghost means = { IsWritten };

    ghost plain = { λ m. m.circuit };

    fn read(alloc: Global, text: &[u8]) -> Result<BlifRunner, Stop<BlifFault>> {
        read_machine(alloc, text)
    }

    fn interface(alloc: Global, machine: &BlifRunner) -> Result<Interface, NoMemory> {
        machine.interface(alloc)
    }

    fn read_back(alloc: Global, net: &Net, text: &[u8]) -> Result<BlifRunner, NoMemory> {
        look_at_wires(net);
        match read_machine(alloc, text) {
            Ok(machine) => Ok(machine),
            Err(Stop::NoMemory) => Err(NoMemory),
            Err(Stop::Fault(_)) => unreachable!(),
        }
    }
}

// The machine of a text before its first item.
fn read_machine(alloc: Global, text: &[u8]) -> Result<BlifRunner, Stop<BlifFault>>
    requires { length text.now ≤ Limits.TEXT_BYTES }
    ensures reads { IfOk result (λ m. ReadsCircuit text.now m.circuit) }
    ensures fresh { IfOk result IsFresh }
    ensures fault { IfFault result (IsTextFault text.now) }
{
    let blif = read_blif(alloc, text)?;
    BlifRunner::new(alloc, blif)
}
