// The names of a netlist: those of the program and of its interface.

ghost use Rattle.std.specs.Prelude.{◌≡◌, ◌+◌, ◌<◌, ◌≤◌, Some, length, map, slice_get, IfOk, All};
ghost use Rattle.est_kernel.specs.Plain.{program_of, interface_count, outgoing_count, given_names, outgoing_names};
ghost use Rattle.grc_formulas.specs.declared.table.Source.{Source};
ghost use Rattle.net_gen.specs.Drawings.{drawing_of};
ghost use Rattle.net_gen.specs.Readiness.{SourceReady, source_net};

use crate::circuit::Draft;
use base_types::{NoMemory, Text};
use est_kernel::KernelProgram;
use grc_formulas::Source;
use net_ir::NetOut;
use std::alloc::Global;

/// The names of the given signals, in order. The error is out of memory.
pub fn input_names(alloc: Global, program: &KernelProgram) -> Result<Vec<Text>, NoMemory>
    requires { interface_count (program_of program.now) ≤ length program.now.signals.items }
    ensures { IfOk result (λ names. names.items ≡ given_names (program_of program.now)) }
{
    let given = program.inputs as usize + program.both as usize;
    let mut names = Vec::new(alloc);
    for signal in 0..given {
        names.push(copied_name(alloc, program, signal)?)?;
    }
    Ok(names)
}

/// The name of a signal, in memory of its own. The error is out of memory.
pub fn copied_name(alloc: Global, program: &KernelProgram, signal: usize) -> Result<Text, NoMemory>
    requires { signal < length program.now.signals.items }
    ensures { IfOk result (λ name. slice_get (program_of program.now).signals signal ≡ Some name) }
{
    let name = &program.signals[signal].name;
    Ok(Text::from_bytes(alloc, name.bytes())?)
}

/// The outputs: each outgoing signal, in order, with the net of the source that says that it is
/// present.
pub(crate) fn outputs_of(
    alloc: Global,
    program: &KernelProgram,
    circuit: &Draft,
    sources: &[Source],
) -> Result<Vec<NetOut>, NoMemory>
    requires interface { interface_count (program_of program.now) ≤ length program.now.signals.items }
    requires one_each { length sources.now ≡ outgoing_count (program_of program.now) }
    requires ready { All (λ s. SourceReady (drawing_of circuit.now) s) sources.now }
    ensures names { IfOk result (λ outs. map (λ o. o.name) outs.items ≡ outgoing_names (program_of program.now)) }
    ensures nets { IfOk result (λ outs. map (λ o. o.net) outs.items ≡
        map (source_net (drawing_of circuit.now)) sources.now) }
{
    let first = program.inputs as usize;
    let mut outs = Vec::new(alloc);
    for (place, source) in sources.iter().enumerate() {
        let name = copied_name(alloc, program, first + place)?;
        let net = circuit.source(*source);
        outs.push(NetOut { name, net })?;
    }
    Ok(outs)
}
