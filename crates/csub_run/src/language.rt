// Texts of the C subset as a language of texts that are run over traces.

ghost use Rattle.std.specs.Prelude.{◌≤◌, length, IfOk};
ghost use Rattle.base_types.specs.Stops.{IfFault};
ghost use Rattle.csub_read.specs.Faults.{ReadsAs};
ghost use Rattle.csub_run.specs.Runners.{IsFresh, program_in};
ghost use Rattle.csub_run.specs.Texts.{IsTextFault};

use crate::runner::CRunner;
use base_types::{Limits, NoMemory, Stop};
use csub_read::{CFault, read_c};
use net_ir::Net;
use run_over_traces::{Interface, Language};
use std::alloc::Global;

/// The language of texts of the C subset, whose meaning is in `csub_text`.
pub struct CTexts {}

impl Language for CTexts {
    ghost use Rattle.csub_read.specs.Faults.{ReadsAs};
    ghost use Rattle.csub_text.specs.Trees.{Program};
    ghost use Rattle.csub_run.specs.ProgramAnswers.{bare_inputs, bare_outputs, program_shows};
    ghost use Rattle.csub_run.specs.Runners.{program_in};
    ghost use Rattle.csub_run.specs.Texts.{IsTextFault, IsWritten};

    type Fault = CFault;

    type Machine = CRunner;

    ghost Plain = { Program };

    ghost reads = { ReadsAs };

    ghost given = { bare_inputs };

    ghost outgoing = { bare_outputs };

    ghost shows = { program_shows };

    ghost faulty = { IsTextFault };

    ghost means = { IsWritten };

    ghost plain = { λ m. program_in m };

    fn read(alloc: Global, text: &[u8]) -> Result<CRunner, Stop<CFault>> {
        read_machine(alloc, text)
    }

    fn interface(alloc: Global, machine: &CRunner) -> Result<Interface, NoMemory> {
        machine.interface(alloc)
    }

    fn read_back(alloc: Global, net: &Net, text: &[u8]) -> Result<CRunner, NoMemory> {
        match read_machine(alloc, text) {
            Ok(machine) => Ok(machine),
            Err(Stop::NoMemory) => Err(NoMemory),
            Err(Stop::Fault(_)) => unreachable!(),
        }
    }
}

// The machine of a text before its first call.
fn read_machine(alloc: Global, text: &[u8]) -> Result<CRunner, Stop<CFault>>
    requires { length text.now ≤ Limits.TEXT_BYTES }
    ensures reads { IfOk result (λ m. ReadsAs text.now (program_in m)) }
    ensures fresh { IfOk result IsFresh }
    ensures fault { IfFault result (IsTextFault text.now) }
{
    let program = read_c(alloc, text)?;
    Ok(CRunner::new(alloc, program)?)
}
