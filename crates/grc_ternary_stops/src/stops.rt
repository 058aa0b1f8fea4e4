// The first of some events to which a program has no reaction.

ghost use Rattle.std.specs.Prelude.{◌≡◌, IfOk, IfSome};
ghost use Rattle.est_kernel.specs.Plain.{given_count, program_of, term_of};
ghost use Rattle.est_kernel.specs.StaticCodes.{NoInstantLoop};
ghost use Rattle.grc_graph.specs.BuiltGraphs.{IsGraphOf};
ghost use Rattle.grc_ternary_run.specs.Runners.{program_in};
ghost use Rattle.grc_ternary_stops.specs.Reaches.{StopsRunner};
ghost use Rattle.grc_ternary_stops.specs.Stops.{IsStop};

use crate::marks::unknown_names;
use base_types::NoMemory;
use grc_graph::{Graph, WireName};
use grc_ternary_run::TriRunner;
use std::alloc::Global;

/// An event to which a program has no reaction: the number of the events before it, and the names of the wires that are
/// unknown there.
#[derive(Drop)]
pub struct StuckEvent {
    pub before: usize,
    pub wires: Vec<WireName>,
}

/// The first of some events to which a program has no reaction, by its graph. None where it reacts to each of them;
/// also where an event has not one value for each given signal. The error is out of memory.
///
/// Example: of `present A else emit A end` it is the first event.
pub fn first_stop(
    alloc: Global,
    graph: &Graph,
    events: &[Vec<bool>],
) -> Result<Option<StuckEvent>, NoMemory>
    requires no_loop { NoInstantLoop (term_of graph.now.program.body) }
    requires graph { IsGraphOf graph.now (program_of graph.now.program) }
    ensures { IfOk result (λ found. IfSome found (IsStop (program_of graph.now.program) events.now)) }
{
    let mut runner = TriRunner::new(alloc, graph)?;
    let program = graph.program();
    let given = program.inputs as usize + program.both as usize;
    match stop_place(&mut runner, given, events) {
        None => Ok(None),
        Some(before) => {
            let wires = unknown_names(alloc, graph, runner.unknown())?;
            Ok(Some(StuckEvent { before, wires }))
        }
    }
}

// The place of the first event to which a runner does not react.
fn stop_place(runner: &mut TriRunner<'_>, given: usize, events: &[Vec<bool>]) -> Option<usize>
    requires { given ≡ given_count (program_in runner.old) }
    ensures stops { IfSome result (StopsRunner runner.old runner.new events.now) }
    ensures graph_stays { runner.new.graph ≡ runner.old.graph }
{
    for (place, event) in events.iter().enumerate() {
        if event.len() != given {
            return None;
        }
        if let Err(_) = runner.react(event) {
            return Some(place);
        }
    }
    None
}
