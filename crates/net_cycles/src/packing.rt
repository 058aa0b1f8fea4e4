// The netlist around the circuit of a schedule, and the one around its alarm.

ghost use Rattle.std.specs.Prelude.{◌≡◌, ◌+◌, ◌≤◌, ◌<◌, ◌^◌, length, map, IfOk, IfSome, IsTrue, All};
ghost use Rattle.std.specs.List.{range_with_len};
ghost use Rattle.est_kernel.specs.Plain.{interface_count, outgoing_count, outgoing_names, program_of};
ghost use Rattle.est_kernel.specs.WellFormed.{HasNames};
ghost use Rattle.grc_formulas.specs.Rows.{source_fits};
ghost use Rattle.grc_formulas.specs.WordLaws.{AreWordsOf};
ghost use Rattle.net_ir.specs.Runs.{netlist_of};
ghost use Rattle.net_cycles.specs.Bases.{bounds_of, source_net};
ghost use Rattle.net_cycles.specs.Drawings.{CanDraw, IsDrawn};
ghost use Rattle.net_cycles.specs.Packings.{AreCycleNets, CanCheck, IsAroundDrawn, IsCheckMade, IsChecked};
ghost use Rattle.net_cycles.specs.Packings.{alarm_outputs};

use crate::drawing::{Drawn, draw};
use crate::rows::source_net;
use base_types::{NetId, NoMemory, Text};
use est_kernel::KernelProgram;
use grc_formulas::{Source, Words};
use grc_graph::Graph;
use grc_ternary_gates::System;
use net_gen::{copied_name, input_names, make_latches};
use net_ir::{Gate, Latch, Net, NetOut};
use net_simp::copied_names;
use net_unroll::{GrowFault, raise_alarm};
use std::alloc::Global;

/// The netlist of a graph along a schedule, and the netlist that checks it. The check has the same latches and gates,
/// further gates, and one output: that is true in an instant in which the schedule leaves a node of the system unknown.
#[derive(Drop)]
pub struct CycleNets {
    pub net: Net,
    pub check: Net,
}

/// The netlist of a graph along a schedule of its system, and its check. There are none where one of them would have
/// more than 2^32 nets. The error is out of memory.
///
/// Example: in the graph of `present A else emit A end` the status of A stays unknown along every schedule, so the
/// output of the check is true in each instant in which the statement starts.
pub fn cycle_nets(
    alloc: Global,
    graph: &Graph,
    words: &Words,
    system: &System,
    schedule: &[usize],
) -> Result<Option<CycleNets>, NoMemory>
    requires draws { CanDraw graph.now words.now system.now schedule.now }
    requires signals { interface_count (program_of graph.now.program) ≤ length graph.now.program.signals.items }
    requires names { HasNames (program_of graph.now.program) }
    ensures { IfOk result (λ found. IfSome found (λ made. AreCycleNets graph.now words.now system.now schedule.now
        (netlist_of made.net) (netlist_of made.check))) }
{
    match nets_along(alloc, graph, words, system, schedule) {
        Ok(nets) => Ok(Some(nets)),
        Err(GrowFault::TooManyNets) => Ok(None),
        Err(GrowFault::NoMemory) => Err(NoMemory),
    }
}

// The same, with a fault where there would be too many nets.
fn nets_along(
    alloc: Global,
    graph: &Graph,
    words: &Words,
    system: &System,
    schedule: &[usize],
) -> Result<CycleNets, GrowFault>
    requires draws { CanDraw graph.now words.now system.now schedule.now }
    requires signals { interface_count (program_of graph.now.program) ≤ length graph.now.program.signals.items }
    requires names { HasNames (program_of graph.now.program) }
    ensures { IfOk result (λ made. AreCycleNets graph.now words.now system.now schedule.now
        (netlist_of made.net) (netlist_of made.check)) }
{
    let drawn = draw(alloc, graph, words, system, schedule)?;
    let net = net_around(alloc, graph, words, system, schedule, &drawn)?;
    let check = check_of(alloc, graph, words, system, schedule, &net, drawn)?;
    Ok(CycleNets { net, check })
}

// The netlist around the circuit of a schedule.
fn net_around(
    alloc: Global,
    graph: &Graph,
    words: &Words,
    system: &System,
    schedule: &[usize],
    drawn: &Drawn,
) -> Result<Net, NoMemory>
    requires words { AreWordsOf graph.now words.now }
    requires signals { interface_count (program_of graph.now.program) ≤ length graph.now.program.signals.items }
    requires names { HasNames (program_of graph.now.program) }
    requires drawn { IsDrawn graph.now words.now system.now schedule.now drawn.now }
    ensures { IfOk result (λ net. IsAroundDrawn graph.now words.now drawn.now (netlist_of net)) }
{
    let program = graph.program();
    let name = Text::from_bytes(alloc, program.name.bytes())?;
    let inputs = input_names(alloc, program)?;
    let outputs = outputs_of(alloc, program, drawn, &words.outputs)?;
    let latches = make_latches(alloc, drawn.base.no, &drawn.next)?;
    let gates = copied_gates(alloc, &drawn.gates.list)?;
    let paused = source_net(drawn.base, &drawn.copies, &drawn.rows, words.paused);
    Ok(Net {
        name,
        inputs,
        outputs,
        paused,
        latches,
        gates,
    })
}

// The outputs: each outgoing signal, in order, with the net of the source that says that it is present.
fn outputs_of(
    alloc: Global,
    program: &KernelProgram,
    drawn: &Drawn,
    sources: &[Source],
) -> Result<Vec<NetOut>, NoMemory>
    requires interface { interface_count (program_of program.now) ≤ length program.now.signals.items }
    requires one_each { length sources.now ≡ outgoing_count (program_of program.now) }
    requires fit { All (λ s. IsTrue (source_fits
        (bounds_of drawn.now.base (length drawn.now.copies.items) (length drawn.now.rows.items)) s)) sources.now }
    requires few { drawn.now.base.given + 1 + drawn.now.base.leaves < 2 ^ 32 }
    ensures names { IfOk result (λ outs. map (λ o. o.name) outs.items ≡ outgoing_names (program_of program.now)) }
    ensures nets { IfOk result (λ outs. map (λ o. o.net) outs.items
        ≡ map (source_net drawn.now.base drawn.now.copies.items drawn.now.rows.items) sources.now) }
{
    let first = program.inputs as usize;
    let mut outs = Vec::new(alloc);
    for (place, source) in sources.iter().enumerate() {
        let name = copied_name(alloc, program, first + place)?;
        let net = source_net(drawn.base, &drawn.copies, &drawn.rows, *source);
        outs.push(NetOut { name, net })?;
    }
    Ok(outs)
}

fn copied_gates(alloc: Global, gates: &[Gate]) -> Result<Vec<Gate>, NoMemory>
    ensures { IfOk result (λ copy. copy.items ≡ gates.now) }
{
    let mut copy = Vec::with_capacity(alloc, gates.len())?;
    for gate in gates {
        copy.push(*gate)?;
    }
    Ok(copy)
}

fn copied_latches(alloc: Global, latches: &[Latch]) -> Result<Vec<Latch>, NoMemory>
    ensures { IfOk result (λ copy. copy.items ≡ latches.now) }
{
    let mut copy = Vec::with_capacity(alloc, latches.len())?;
    for latch in latches {
        copy.push(*latch)?;
    }
    Ok(copy)
}

// The numbers of all nodes.
fn all_nodes(alloc: Global, count: usize) -> Result<Vec<usize>, NoMemory>
    ensures { IfOk result (λ nodes. nodes.items ≡ range_with_len 0 count) }
{
    let mut nodes = Vec::with_capacity(alloc, count)?;
    for node in 0..count {
        nodes.push(node)?;
    }
    Ok(nodes)
}

// The check of the netlist around the circuit of a schedule.
fn check_of(
    alloc: Global,
    graph: &Graph,
    words: &Words,
    system: &System,
    schedule: &[usize],
    net: &Net,
    drawn: Drawn,
) -> Result<Net, GrowFault>
    requires drawn { IsDrawn graph.now words.now system.now schedule.now drawn }
    requires around { IsAroundDrawn graph.now words.now drawn (netlist_of net.now) }
    requires signals { interface_count (program_of graph.now.program) ≤ length graph.now.program.signals.items }
    ensures { IfOk result (λ check. IsChecked system.now schedule.now drawn (netlist_of net.now) (netlist_of check)) }
{
    let Drawn {
        base,
        mut gates,
        sources,
        ..
    } = drawn;
    let watched = all_nodes(alloc, system.gates.len())?;
    let alarm = raise_alarm(
        alloc,
        &mut gates,
        &system.gates,
        &sources,
        base.no,
        schedule,
        &watched,
    )?;
    let check = check_around(alloc, net, gates.list, alarm)?;
    Ok(check)
}

// The netlist with the inputs and the latches of another one, with these gates, and with the alarm as its one output.
fn check_around(alloc: Global, net: &Net, gates: Vec<Gate>, alarm: NetId) -> Result<Net, NoMemory>
    requires { CanCheck (netlist_of net.now) gates.items alarm.0 }
    ensures { IfOk result (λ check. IsCheckMade (netlist_of net.now) (netlist_of check) gates.items alarm) }
{
    let name = Text::from_bytes(alloc, net.name.bytes())?;
    let inputs = copied_names(alloc, &net.inputs)?;
    let outputs = alarm_output(alloc, alarm)?;
    let latches = copied_latches(alloc, &net.latches)?;
    Ok(Net {
        name,
        inputs,
        outputs,
        paused: alarm,
        latches,
        gates,
    })
}

// The alarm as the one output.
fn alarm_output(alloc: Global, alarm: NetId) -> Result<Vec<NetOut>, NoMemory>
    ensures { IfOk result (λ outs. outs.items ≡ alarm_outputs alarm) }
{
    let name = Text::from_bytes(alloc, b"alarm")?;
    let outs = vec![in alloc; NetOut { name, net: alarm }]?;
    Ok(outs)
}
