// Texts of any language, run over traces.

ghost use Rattle.std.specs.Prelude.{◌≡◌, ◌<◌, ◌≤◌, ◌^◌, [], length, map, IfOk};
ghost use Rattle.base_types.specs.Relations.{relation_of};
ghost use Rattle.base_types.specs.SinkChanges.{change};
ghost use Rattle.net_ir.specs.Runs.{netlist_of};
ghost use Rattle.run_trace_io.specs.Answers.{beginning};
ghost use Rattle.run_over_traces.specs.Languages.{IsOfProgram, ShowsNet};
ghost use Rattle.run_over_traces.specs.Machines.{Brings};
ghost use Rattle.run_over_traces.specs.Running.{RunsTrace};

use crate::language::Language;
use crate::running::{Interface, RunFault, run_trace};
use base_types::{InputRelation, Limits, NoMemory, Sink, Text};
use net_ir::{Net, NetOut};
use std::alloc::Global;

/// Runs a text that was read over a trace, by its own interface: one line for each instant, right after its reaction.
/// Its errors are the first fault of the trace, a write that failed, and out of memory.
pub fn run_text<L: Language, O: Sink>(
    alloc: Global,
    machine: L::Machine,
    trace: Vec<u8>,
    out: &mut O,
) -> Result<(), RunFault>
    requires shows { IsOfProgram L.Machine.shows L.shows machine (L.plain machine) }
    requires short { length trace.items ≤ 2 ^ 24 }
    ensures { RunsTrace (Brings L.shows (L.outgoing (L.plain machine)) (L.plain machine))
        (beginning trace.items (L.given (L.plain machine)) [])
        (change O.told O.faults out.old out.new) result }
{
    let mut machine = machine;
    match L::interface(alloc, &machine) {
        Ok(interface) => run_trace(alloc, &mut machine, interface, trace, out),
        Err(NoMemory) => Err(RunFault::NoMemory),
    }
}

/// Reads the text that was written of a net, and runs it over a trace, with these names in its lines. What is written
/// is what the net shows.
/// Its errors are the first fault of the trace, a write that failed, and out of memory.
pub fn run_written<L: Language, O: Sink>(
    alloc: Global,
    net: &Net,
    text: &[u8],
    interface: Interface,
    trace: Vec<u8>,
    out: &mut O,
) -> Result<(), RunFault>
    requires means { L.means text.now (netlist_of net.now) }
    requires fits { length text.now ≤ Limits.TEXT_BYTES }
    requires given { interface.given.items ≡ net.now.inputs.items }
    requires outgoing { length interface.outgoing.items ≡ length net.now.outputs.items }
    requires countable { length interface.relations.items < 2 ^ 32 }
    requires short { length trace.items ≤ 2 ^ 24 }
    ensures { RunsTrace (ShowsNet interface.outgoing.items (netlist_of net.now))
        (beginning trace.items interface.given.items (map relation_of interface.relations.items))
        (change O.told O.faults out.old out.new) result }
{
    match L::read_back(alloc, net, text) {
        Ok(read) => {
            let mut machine = read;
            run_trace(alloc, &mut machine, interface, trace, out)
        }
        Err(NoMemory) => Err(RunFault::NoMemory),
    }
}

/// The interface of a net: the names of its inputs and outputs, with these relations of its inputs.
/// Its only error is out of memory.
pub fn net_interface(
    alloc: Global,
    net: &Net,
    relations: Vec<InputRelation>,
) -> Result<Interface, NoMemory>
    ensures given { IfOk result (λ i. i.given.items ≡ net.now.inputs.items) }
    ensures outgoing { IfOk result (λ i. i.outgoing.items ≡ map (λ o. o.name) net.now.outputs.items) }
    ensures relations { IfOk result (λ i. i.relations.items ≡ relations.items) }
{
    Ok(Interface {
        given: copied_names(alloc, &net.inputs)?,
        outgoing: output_names(alloc, &net.outputs)?,
        relations,
    })
}

/// Names, copied. Its only error is out of memory.
pub fn copied_names(alloc: Global, names: &[Text]) -> Result<Vec<Text>, NoMemory>
    ensures { IfOk result (λ copied. copied.items ≡ names.now) }
{
    let mut copied = Vec::with_capacity(alloc, names.len())?;
    for name in names {
        copied.push(Text::from_bytes(alloc, name.bytes())?)?;
    }
    Ok(copied)
}

// The names of outputs, copied.
fn output_names(alloc: Global, outputs: &[NetOut]) -> Result<Vec<Text>, NoMemory>
    ensures { IfOk result (λ names. names.items ≡ map (λ o. o.name) outputs.now) }
{
    let mut names = Vec::with_capacity(alloc, outputs.len())?;
    for output in outputs {
        names.push(Text::from_bytes(alloc, output.name.bytes())?)?;
    }
    Ok(names)
}
