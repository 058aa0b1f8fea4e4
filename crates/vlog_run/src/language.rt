// Texts of structural Verilog as a language of texts that are run over traces.

ghost use Rattle.std.specs.Prelude.{◌≤◌, length, IfOk};
ghost use Rattle.base_types.specs.Stops.{IfFault};
ghost use Rattle.vlog_run.specs.Runners.{IsFresh, module_in};
ghost use Rattle.vlog_run.specs.Texts.{ReadsModule, IsTextFault};

use crate::runner::VlogRunner;
use base_types::{Limits, NoMemory, Stop};
use net_ir::{Net, look_at_wires};
use run_over_traces::{Interface, Language};
use std::alloc::Global;
use vlog_read::{VlogFault, read_verilog};

/// The language of texts of structural Verilog, whose meaning is in `vlog_text`.
pub struct VerilogTexts {}

impl Language for VerilogTexts {
    ghost use Rattle.vlog_text.specs.Trees.{VerilogModule};
    ghost use Rattle.vlog_run.specs.ModuleAnswers.{bare_inputs, bare_outputs, module_shows};
    ghost use Rattle.vlog_run.specs.Runners.{module_in};
    ghost use Rattle.vlog_run.specs.Texts.{ReadsModule, IsTextFault, IsWritten};

    type Fault = VlogFault;

    type Machine = VlogRunner;

    ghost Plain = { VerilogModule };

    ghost reads = { ReadsModule };

    ghost given = { bare_inputs };

    ghost outgoing = { bare_outputs };

    ghost shows = { module_shows };

    ghost faulty = { IsTextFault };

    ghost means = { IsWritten };

    ghost plain = { λ m. module_in m };

    fn read(alloc: Global, text: &[u8]) -> Result<VlogRunner, Stop<VlogFault>> {
        read_machine(alloc, text)
    }

    fn interface(alloc: Global, machine: &VlogRunner) -> Result<Interface, NoMemory> {
        machine.interface(alloc)
    }

    fn read_back(alloc: Global, net: &Net, text: &[u8]) -> Result<VlogRunner, NoMemory> {
        look_at_wires(net);
        match read_machine(alloc, text) {
            Ok(machine) => Ok(machine),
            Err(Stop::NoMemory) => Err(NoMemory),
            Err(Stop::Fault(_)) => unreachable!(),
        }
    }
}

// The machine of a text before its first item.
fn read_machine(alloc: Global, text: &[u8]) -> Result<VlogRunner, Stop<VlogFault>>
    requires { length text.now ≤ Limits.TEXT_BYTES }
    ensures reads { IfOk result (λ m. ReadsModule text.now (module_in m)) }
    ensures fresh { IfOk result IsFresh }
    ensures fault { IfFault result (IsTextFault text.now) }
{
    let design = read_verilog(alloc, text)?;
    VlogRunner::new(alloc, design)
}
