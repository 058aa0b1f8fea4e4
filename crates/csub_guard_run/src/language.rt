// Guarded texts as a language of texts that are run over traces.

ghost use Rattle.std.specs.Prelude.{◌≤◌, length, IfOk};
ghost use Rattle.base_types.specs.Stops.{IfFault};
ghost use Rattle.net_ir.specs.Runs.{netlist_of};
ghost use Rattle.csub_guard_read.specs.Faults.{ReadsAs};
ghost use Rattle.csub_guard_run.specs.Showing.{IsNew, counted_program};
ghost use Rattle.csub_guard_run.specs.Texts.{IsTextFault, Means};
ghost use Rattle.csub_guard_run.specs.Tracing.{IsProgramOf};

use crate::runner::GuardedRunner;
use base_types::{Limits, NoMemory, Stop};
use csub_guard_read::{GuardedFault, read_guarded};
use net_ir::Net;
use run_over_traces::{Interface, Language};
use std::alloc::Global;

/// The language of guarded texts, whose meaning is in `csub_guard`.
pub struct GuardedTexts {}

impl Language for GuardedTexts {
    ghost use Rattle.csub_guard.specs.Trees.{Program};
    ghost use Rattle.csub_guard_read.specs.Faults.{ReadsAs};
    ghost use Rattle.csub_guard_run.specs.ProgramAnswers.{bare_inputs, bare_outputs, program_shows};
    ghost use Rattle.csub_guard_run.specs.Showing.{counted_program};
    ghost use Rattle.csub_guard_run.specs.Texts.{IsTextFault, Means};

    type Fault = GuardedFault;

    type Machine = GuardedRunner;

    ghost Plain = { Program };

    ghost reads = { ReadsAs };

    ghost given = { bare_inputs };

    ghost outgoing = { bare_outputs };

    ghost shows = { program_shows };

    ghost faulty = { IsTextFault };

    ghost means = { Means };

    ghost plain = { λ m. counted_program m };

    fn read(alloc: Global, text: &[u8]) -> Result<GuardedRunner, Stop<GuardedFault>> {
        read_machine(alloc, text)
    }

    fn interface(alloc: Global, machine: &GuardedRunner) -> Result<Interface, NoMemory> {
        machine.interface(alloc)
    }

    fn read_back(alloc: Global, net: &Net, text: &[u8]) -> Result<GuardedRunner, NoMemory> {
        match written_machine(alloc, net, text) {
            Ok(machine) => Ok(machine),
            Err(NoMemory) => Err(NoMemory),
        }
    }
}

/// The machine of a text before its first item. Its errors are the first fault of the text, and out of memory.
pub fn read_machine(alloc: Global, text: &[u8]) -> Result<GuardedRunner, Stop<GuardedFault>>
    requires { length text.now ≤ Limits.TEXT_BYTES }
    ensures reads { IfOk result (λ m. ReadsAs text.now (counted_program m)) }
    ensures fresh { IfOk result IsNew }
    ensures fault { IfFault result (IsTextFault text.now) }
{
    let program = read_guarded(alloc, text)?;
    Ok(GuardedRunner::new(alloc, program)?)
}

/// The machine of the text that was written of a net, before its first item. Its only error is out of memory.
pub fn written_machine(alloc: Global, net: &Net, text: &[u8]) -> Result<GuardedRunner, NoMemory>
    requires written { Means text.now (netlist_of net.now) }
    requires fits { length text.now ≤ Limits.TEXT_BYTES }
    ensures program { IfOk result (λ m. IsProgramOf text.now (netlist_of net.now) (counted_program m)) }
    ensures fresh { IfOk result IsNew }
{
    match read_machine(alloc, text) {
        Ok(machine) => Ok(machine),
        Err(Stop::NoMemory) => Err(NoMemory),
        Err(Stop::Fault(_)) => unreachable!(),
    }
}
