// Events that raise the alarm, run by three-valued reactions.

ghost use Rattle.std.specs.Prelude.{◌≡◌, IfOk, IfSome};
ghost use Rattle.est_kernel.specs.Plain.{given_names, program_of};
ghost use Rattle.grc_ternary_stops.specs.Stops.{IsStop};
ghost use Rattle.cec_compile.specs.Graphs.{IsBuilt};
ghost use Rattle.cec_cycles.specs.Findings.{IsFinding};

use crate::findings::{Constructiveness, Stuck};
use base_types::NoMemory;
use cec_compile::joined_texts;
use cec_prove_sources::{Layout, trace_of};
use est_kernel::KernelProgram;
use grc_graph::Graph;
use grc_ternary_stops::{StuckEvent, first_stop};
use net_ir::Net;
use std::alloc::Global;

/// What is found by events that raise the alarm: they lead to an instant that is not constructive. None where the
/// program reacts to each of them, so that a longer schedule is needed.
pub(crate) fn finding_over(
    alloc: Global,
    graph: &Graph,
    net: &Net,
    events: &[Vec<bool>],
) -> Result<Option<Constructiveness>, NoMemory>
    requires built { IsBuilt graph.now (program_of graph.now.program) }
    requires inputs { net.now.inputs.items ≡ given_names (program_of graph.now.program) }
    ensures { IfOk result (λ found. IfSome found (IsFinding (program_of graph.now.program))) }
{
    let found = first_stop(alloc, graph, events)?;
    match found {
        Some(stop) => {
            let finding = finding_at(alloc, &graph.program, net, events, stop)?;
            Ok(Some(finding))
        }
        None => Ok(None),
    }
}

// What is found where the program has no reaction to one of the events. The trace of the events up to there is read
// again. It is undecided where one of them breaks a relation, or where the trace is too long.
fn finding_at(
    alloc: Global,
    program: &KernelProgram,
    net: &Net,
    events: &[Vec<bool>],
    stop: StuckEvent,
) -> Result<Constructiveness, NoMemory>
    requires inputs { net.now.inputs.items ≡ given_names (program_of program.now) }
    requires stops { IsStop (program_of program.now) events.now stop }
    ensures { IfOk result (IsFinding (program_of program.now)) }
{
    let StuckEvent { before, wires } = stop;
    let instant = before + 1;
    let front = &events[..instant];
    let found = trace_of(alloc, program, net, Layout::LinePerInstant, front)?;
    match found {
        Some(trace) => {
            let text = joined_texts(alloc, &wires, b", ")?;
            Ok(Constructiveness::NotConstructive(Stuck {
                trace,
                instant,
                wires,
                text,
            }))
        }
        None => Ok(Constructiveness::Undecided),
    }
}
