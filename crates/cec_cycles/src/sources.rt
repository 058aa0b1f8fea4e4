// The constructive netlists of sources.

ghost use Rattle.std.specs.Prelude.{◌≤◌, length, IfErr, IfOk, OnOk, option_map};
ghost use Rattle.est_kernel.specs.Plain.{program_of};
ghost use Rattle.net_ir.specs.Runs.{netlist_of};
ghost use Rattle.cec_compile.specs.Refusals.{IsRefused};
ghost use Rattle.cec_compile.specs.declared.cycles.Cycle.{Cycle};
ghost use Rattle.cec_opt_sources.specs.declared.light.Coding.TheVariants.{Lighter};
ghost use Rattle.cec_cycles.specs.Constructive.{HasCycle, IsConstructiveNetOf, IsRefusedConstructive};
ghost use Rattle.cec_cycles.specs.Constructive.{StandsForConstructiveMade, StandsForConstructiveNet};

use crate::deciding::constructiveness_of;
use crate::findings::{Constructiveness, CycleRefusal};
use base_types::{Limits, NoMemory};
use cec_compile::{Cycle, Made, Refusal, graph_of};
use cec_opt_sources::{Coding, coded_net};
use grc_graph::Graph;
use grc_order::Picker;
use net_ir::Net;
use std::alloc::Global;

/// The netlist of a source whose dependencies may have a cycle, where its program is constructive over every
/// list of events that meet its relations, and resets. It keeps what the program means (`NetKeeps`). Where the
/// dependencies have no cycle, it is that of `cec_opt_sources::coded_net`; with a cycle, the state has no code. The
/// effort is one of `net_search`.
///
/// It refuses what `coded_net` refuses, except for a cycle. For that it has three causes: the program is not
/// constructive, with a trace; it was not shown within the effort; the netlist would be too large.
pub fn constructive_net<P: Picker>(
    alloc: Global,
    text: &[u8],
    main: Option<&[u8]>,
    picker: &mut P,
    coding: Coding,
    effort: u64,
) -> Result<Net, CycleRefusal>
    requires { length text.now ≤ Limits.SOURCE_BYTES }
    ensures compiles { IfOk result (λ net. StandsForConstructiveNet text.now
        (option_map (λ m. m.now) main.entry) (netlist_of net)) }
    ensures made { IfOk result (λ net. IsConstructiveNetOf coding text.now
        (option_map (λ m. m.now) main.entry) (netlist_of net)) }
    ensures refuses { IfErr result (IsRefusedConstructive text.now (option_map (λ m. m.now) main.entry)) }
{
    match coded_net(alloc, text, main, picker, coding) {
        Ok(net) => Ok(net),
        Err(refusal) => {
            let made = cyclic_made(alloc, text, main, refusal, effort)?;
            let Made { net, .. } = made;
            Ok(net)
        }
    }
}

/// The netlist of a source whose dependencies have this cycle, the same.
pub fn cyclic_net(
    alloc: Global,
    text: &[u8],
    main: Option<&[u8]>,
    cycle: Cycle,
    effort: u64,
) -> Result<Net, CycleRefusal>
    requires short { length text.now ≤ Limits.SOURCE_BYTES }
    requires cyclic { HasCycle text.now (option_map (λ m. m.now) main) cycle }
    ensures compiles { IfOk result (λ net. StandsForConstructiveNet text.now
        (option_map (λ m. m.now) main.entry) (netlist_of net)) }
    ensures made { IfOk result (λ net. IsConstructiveNetOf Lighter text.now
        (option_map (λ m. m.now) main.entry) (netlist_of net)) }
    ensures refuses { IfErr result (IsRefusedConstructive text.now (option_map (λ m. m.now) main.entry)) }
{
    let made = made_along(alloc, text, main, cycle, effort)?;
    let Made { net, .. } = made;
    Ok(net)
}

/// The program and the netlist of a source that is refused for this cause, where the cause is a cycle, the same. The
/// other causes stay errors.
pub fn cyclic_made(
    alloc: Global,
    text: &[u8],
    main: Option<&[u8]>,
    refusal: Refusal,
    effort: u64,
) -> Result<Made, CycleRefusal>
    requires short { length text.now ≤ Limits.SOURCE_BYTES }
    requires refused { IsRefused text.now (option_map (λ m. m.now) main) refusal }
    ensures compiles { IfOk result (λ made. StandsForConstructiveMade text.now
        (option_map (λ m. m.now) main.entry) (program_of made.program) (netlist_of made.net)) }
    ensures cyclic { OnOk result ((cycle : Cycle) × HasCycle text.now (option_map (λ m. m.now) main.entry) cycle) }
    ensures refuses { IfErr result (IsRefusedConstructive text.now (option_map (λ m. m.now) main.entry)) }
{
    match refusal {
        Refusal::Cyclic(cycle) => made_along(alloc, text, main, cycle, effort),
        Refusal::Static(fault) => Err(CycleRefusal::Source(Refusal::Static(fault))),
        Refusal::Limit(limit) => Err(CycleRefusal::Source(Refusal::Limit(limit))),
        Refusal::NoMemory => Err(CycleRefusal::Source(Refusal::NoMemory)),
    }
}

// The program and the netlist of a source whose dependencies have this cycle.
fn made_along(
    alloc: Global,
    text: &[u8],
    main: Option<&[u8]>,
    cycle: Cycle,
    effort: u64,
) -> Result<Made, CycleRefusal>
    requires short { length text.now ≤ Limits.SOURCE_BYTES }
    requires cyclic { HasCycle text.now (option_map (λ m. m.now) main) cycle }
    ensures compiles { IfOk result (λ made. StandsForConstructiveMade text.now
        (option_map (λ m. m.now) main.entry) (program_of made.program) (netlist_of made.net)) }
    ensures refuses { IfErr result (IsRefusedConstructive text.now (option_map (λ m. m.now) main.entry)) }
{
    let graph = match graph_of(alloc, text, main) {
        Ok(graph) => graph,
        Err(refusal) => return Err(CycleRefusal::Source(refusal)),
    };
    match constructiveness_of(alloc, &graph, effort) {
        Ok(Constructiveness::Constructive(net)) => {
            let Graph { program, .. } = graph;
            Ok(Made { program, net })
        }
        Ok(Constructiveness::NotConstructive(stuck)) => Err(CycleRefusal::NotConstructive(stuck)),
        Ok(Constructiveness::Undecided) => Err(CycleRefusal::Undecided(cycle)),
        Ok(Constructiveness::TooManyNets) => Err(CycleRefusal::TooManyNets(cycle)),
        Err(NoMemory) => Err(CycleRefusal::Source(Refusal::NoMemory)),
    }
}
