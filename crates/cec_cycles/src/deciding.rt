// Whether a program is constructive in each instant, and its netlist where it is.

ghost use Rattle.std.specs.Prelude.{◌≡◌, length, true, IfOk, IfSome};
ghost use Rattle.est_kernel.specs.Plain.{given_names, program_of};
ghost use Rattle.est_kernel.specs.WellFormed.{IsWellFormed};
ghost use Rattle.net_ir.specs.Runs.{netlist_of};
ghost use Rattle.net_never.specs.GateClauses.{signed};
ghost use Rattle.net_loops.specs.CheckedNets.{IsCheckedNet};
ghost use Rattle.cec_compile.specs.Graphs.{IsBuilt};
ghost use Rattle.cec_prove_sources.specs.NetClaims.{output_net};
ghost use Rattle.cec_cycles.specs.Alarms.{IsAlarmDecision};
ghost use Rattle.cec_cycles.specs.Findings.{IsFinding};

use crate::findings::Constructiveness;
use crate::stopping::finding_over;
use base_types::NoMemory;
use cec_opt_sources::related_small;
use cec_prove_sources::relation_clauses;
use est_kernel::KernelProgram;
use grc_graph::Graph;
use net_cycles::CycleNets;
use net_ir::Net;
use net_loops::loop_nets;
use net_opt::optimize;
use net_search::{Decision, decide};
use sat_kernel::Literal;
use std::alloc::Global;

// How often a node of a circle occurs in the longest schedule that is tried.
const PASSES: usize = 8;

/// Whether a program is constructive over every list of events that meet its relations, and resets, by its graph,
/// whose dependencies may have a cycle. Where it is, the netlist keeps what the program means (`NetKeeps`).
/// Where it is not, a trace leads to an instant to which it has no reaction (`IsStuck`). The effort is one of
/// `net_search`, for each schedule that is tried. The error is out of memory.
///
/// Example: `present A then emit B end || present B then emit A end` is not constructive, at the first event.
pub fn constructiveness_of(
    alloc: Global,
    graph: &Graph,
    effort: u64,
) -> Result<Constructiveness, NoMemory>
    requires { IsBuilt graph.now (program_of graph.now.program) }
    ensures { IfOk result (IsFinding (program_of graph.now.program)) }
{
    for passes in 2..=PASSES {
        let found = found_along(alloc, graph, passes, effort)?;
        if let Some(finding) = found {
            return Ok(finding);
        }
    }
    Ok(Constructiveness::Undecided)
}

// What is found along the schedule of this number of passes. None where a longer one is needed.
fn found_along(
    alloc: Global,
    graph: &Graph,
    passes: usize,
    effort: u64,
) -> Result<Option<Constructiveness>, NoMemory>
    requires { IsBuilt graph.now (program_of graph.now.program) }
    ensures { IfOk result (λ found. IfSome found (IsFinding (program_of graph.now.program))) }
{
    let found = loop_nets(alloc, graph, passes)?;
    match found {
        Some(nets) => found_by(alloc, graph, &nets, effort),
        None => Ok(Some(Constructiveness::TooManyNets)),
    }
}

// What is found by a netlist and its check.
fn found_by(
    alloc: Global,
    graph: &Graph,
    nets: &CycleNets,
    effort: u64,
) -> Result<Option<Constructiveness>, NoMemory>
    requires built { IsBuilt graph.now (program_of graph.now.program) }
    requires nets { IsCheckedNet (program_of graph.now.program) (netlist_of nets.now.net) (netlist_of nets.now.check) }
    ensures { IfOk result (λ found. IfSome found (IsFinding (program_of graph.now.program))) }
{
    let decision = alarm_decided(alloc, &graph.program, &nets.check, effort)?;
    match decision {
        Decision::Never => {
            let net = related_small(alloc, &graph.program, &nets.net)?;
            Ok(Some(Constructiveness::Constructive(net)))
        }
        Decision::Reached(events) => finding_over(alloc, graph, &nets.net, &events),
        Decision::Unknown(_) => Ok(Some(Constructiveness::Undecided)),
    }
}

// Whether the one output of a check is ever true.
fn alarm_decided(
    alloc: Global,
    program: &KernelProgram,
    check: &Net,
    effort: u64,
) -> Result<Decision, NoMemory>
    requires formed { IsWellFormed (program_of program.now) }
    requires inputs { (netlist_of check.now).inputs ≡ given_names (program_of program.now) }
    requires one { length check.now.outputs.items ≡ 1 }
    ensures { IfOk result (IsAlarmDecision (program_of program.now) (netlist_of check.now)) }
{
    let small = optimize(alloc, check)?;
    let allowed = relation_clauses(alloc, program)?;
    let alarm = alarm_literal(&small);
    let decision = decide(alloc, &small, &allowed, alarm, effort)?;
    Ok(decision)
}

// The net of the one output is true.
fn alarm_literal(check: &Net) -> Literal
    requires { length check.now.outputs.items ≡ 1 }
    ensures { result ≡ signed (output_net check.now.outputs.items 0) true }
{
    Literal {
        variable: check.outputs[0].net.0,
        positive: true,
    }
}
