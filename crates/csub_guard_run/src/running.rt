// Runs of guarded texts over traces, with the line of their count.

ghost use Rattle.std.specs.Prelude.{◌≡◌, ◌<◌, ◌≤◌, ◌^◌, length, map, IfOk, IsTrue};
ghost use Rattle.base_types.specs.Distinct.{all_differ};
ghost use Rattle.base_types.specs.Names.{is_same_name};
ghost use Rattle.base_types.specs.Relations.{relation_of};
ghost use Rattle.base_types.specs.SinkChanges.{change};
ghost use Rattle.net_ir.specs.Runs.{netlist_of};
ghost use Rattle.csub_guard.specs.Machine.{inputs_of, outputs_of};
ghost use Rattle.csub_guard_run.specs.CountedRuns.{CountsNet, CountsProgram, RunsCounted};
ghost use Rattle.csub_guard_run.specs.ProgramAnswers.{count_line, last_line};
ghost use Rattle.csub_guard_run.specs.Showing.{IsNew, counted_program, counter_shows};
ghost use Rattle.csub_guard_run.specs.Texts.{Means};
ghost use Rattle.csub_guard_run.specs.Totals.{worth};
ghost use Rattle.csub_guard_run.specs.Tracing.{CountCame};
ghost use Rattle.run_trace_io.specs.Answers.{beginning};
ghost use Rattle.run_over_traces.specs.Machines.{Brings};

use crate::language::written_machine;
use crate::runner::GuardedRunner;
use crate::total::{Total, put_total};
use base_types::{Limits, NoMemory, Sink, SinkFault, put, put_number};
use net_ir::Net;
use run_over_traces::{Interface, RunFault, run_trace};
use std::alloc::Global;

/// Runs a text that was read over a trace, by its own interface: one line for each instant, right after its reaction,
/// and, where the whole trace was read, the number of assignments that all calls ran.
/// Its errors are the first fault of the trace, a write that failed, and out of memory.
pub fn run_counted<O: Sink>(
    alloc: Global,
    machine: GuardedRunner,
    trace: Vec<u8>,
    out: &mut O,
) -> Result<(), RunFault>
    requires fresh { IsNew machine }
    requires short { length trace.items ≤ 2 ^ 24 }
    ensures { CountsProgram (counted_program machine) trace.items (change O.told O.faults out.old out.new) result }
{
    match machine.interface(alloc) {
        Ok(interface) => run_over(alloc, machine, interface, trace, out),
        Err(NoMemory) => Err(RunFault::NoMemory),
    }
}

/// Reads the text that was written of a net, and runs it over a trace, with these names in its lines. What is written
/// is what the net shows, and, where the whole trace was read, the number of assignments that all calls ran.
/// Its errors are the first fault of the trace, a write that failed, and out of memory.
pub fn run_written_counted<O: Sink>(
    alloc: Global,
    net: &Net,
    text: &[u8],
    interface: Interface,
    trace: Vec<u8>,
    out: &mut O,
) -> Result<(), RunFault>
    requires means { Means text.now (netlist_of net.now) }
    requires fits { length text.now ≤ Limits.TEXT_BYTES }
    requires given { interface.given.items ≡ net.now.inputs.items }
    requires outgoing { length interface.outgoing.items ≡ length net.now.outputs.items }
    requires countable { length interface.relations.items < 2 ^ 32 }
    requires short { length trace.items ≤ 2 ^ 24 }
    ensures { CountsNet text.now interface.outgoing.items (netlist_of net.now)
        (beginning trace.items interface.given.items (map relation_of interface.relations.items))
        (change O.told O.faults out.old out.new) result }
{
    match written_machine(alloc, net, text) {
        Ok(machine) => run_over(alloc, machine, interface, trace, out),
        Err(NoMemory) => Err(RunFault::NoMemory),
    }
}

// Runs a new machine over a trace, and writes the line of its count after the others.
fn run_over<O: Sink>(
    alloc: Global,
    machine: GuardedRunner,
    interface: Interface,
    trace: Vec<u8>,
    out: &mut O,
) -> Result<(), RunFault>
    requires fresh { IsNew machine }
    requires short { length trace.items ≤ 2 ^ 24 }
    requires names_differ { IsTrue (all_differ is_same_name interface.given.items) }
    requires countable { length interface.relations.items < 2 ^ 32 }
    requires each_input { length interface.given.items ≡ length (inputs_of (counted_program machine)) }
    requires each_output { length interface.outgoing.items ≡ length (outputs_of (counted_program machine)) }
    ensures { RunsCounted (Brings counter_shows interface.outgoing.items machine) (last_line (counted_program machine))
        (beginning trace.items interface.given.items (map relation_of interface.relations.items))
        (change O.told O.faults out.old out.new) result }
{
    let mut machine = machine;
    match run_trace(alloc, &mut machine, interface, trace, out) {
        Ok(()) => match machine.sum() {
            Some(total) => write_count(alloc, total, out),
            // as many calls as a trace has cannot run more assignments than a counter holds
            None => unreachable!(),
        },
        Err(fault) => Err(fault),
    }
}

// Writes the line of a count.
fn write_count<O: Sink>(alloc: Global, total: Total, out: &mut O) -> Result<(), RunFault>
    requires room { total.low < 10 ^ 38 }
    ensures { CountCame (worth total) (change O.told O.faults out.old out.new) result }
{
    let line = match count_line(alloc, total) {
        Ok(line) => line,
        Err(NoMemory) => return Err(RunFault::NoMemory),
    };
    match out.write(&line) {
        Ok(()) => Ok(()),
        Err(SinkFault::Failed) => Err(RunFault::Write),
    }
}

// The line of a count.
fn count_line(alloc: Global, total: Total) -> Result<Vec<u8>, NoMemory>
    requires room { total.low < 10 ^ 38 }
    ensures { IfOk result (λ line. line.items ≡ count_line (worth total)) }
{
    let mut line = Vec::new(alloc);
    put(&mut line, b"assignments ")?;
    put_total(&mut line, total)?;
    put(&mut line, b"\n")?;
    Ok(line)
}
