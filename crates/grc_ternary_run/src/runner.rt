// The runner.

ghost use Rattle.std.specs.Prelude.{◌≡◌, length, map, IfErr, IfOk};
ghost use Rattle.est_kernel.specs.Plain.{given_count, program_of, term_of};
ghost use Rattle.est_kernel.specs.StaticCodes.{NoInstantLoop};
ghost use Rattle.grc_graph.specs.BuiltGraphs.{IsGraphOf};
ghost use Rattle.grc_ternary_run.specs.Runners.{HasPlaces, IsFresh, IsStuck, Resets, Stays, Steps};
ghost use Rattle.grc_ternary_run.specs.Runners.{TriReacts, program_in};

use crate::state::{NotConstructive, State};
use crate::systems::graph_system;
use base_types::NoMemory;
use grc_formulas::{Words, words};
use grc_graph::Graph;
use grc_ternary_gates::System;
use std::alloc::Global;
use std::marker::Model;

/// A runner of a graph, cyclic or not, by three-valued reactions. A contract sees it as the graph, what the next
/// instant begins with, what went out in the last instant, and which wires stayed unknown in the last call.
#[derive(Drop)]
pub struct TriRunner<'a> {
    graph: &'a Graph,
    words: Words,
    system: System,
    state: State,
}

impl<'a> Model for TriRunner<'a> {
    ghost use Rattle.grc_ternary_run.specs.Runners.{Runner};

    ghost Value = { Runner };

    ghost use Rattle.grc_graph.specs.contracts.graph.Graph as graphs;
    ghost use Rattle.std.specs.Coded.{codes};

    ghost coded = { Prim.hlevel (codes, graphs.the_row.coded) };

    ghost use Rattle.grc_ternary_run.specs.Insides.{KeepsRunner, runner_of};

    ghost view = { runner_of };

    ghost invariant = { KeepsRunner };
}

impl<'a> TriRunner<'a> {
    /// A runner of the graph of a program before its first event. Its only error is out of memory.
    pub fn new(alloc: Global, graph: &'a Graph) -> Result<TriRunner<'a>, NoMemory>
        requires no_loop { NoInstantLoop (term_of graph.now.program.body) }
        requires graph { IsGraphOf graph.now (program_of graph.now.program) }
        ensures graph { IfOk result (λ r. r.graph ≡ graph.now) }
        ensures fresh { IfOk result IsFresh }
        ensures places { IfOk result HasPlaces }
    {
        let words = words(alloc, graph)?;
        let system = graph_system(alloc, graph, &words)?;
        let state = State::new(alloc, graph, &words, &system)?;
        Ok(TriRunner {
            graph,
            words,
            system,
            state,
        })
    }

    /// One reaction to this event, which has one truth value per given signal: whether the program pauses. The
    /// error is that the program is not constructive in this instant: some wire stays unknown, and the state
    /// and the outputs are as before. It takes no memory.
    pub fn react(&mut self, inputs: &[bool]) -> Result<bool, NotConstructive>
        requires { length inputs.now ≡ given_count (program_in self.old) }
        ensures reacts { IfOk result (λ paused. TriReacts self.old inputs.now paused self.new) }
        ensures stuck { IfErr result (λ e. IsStuck self.old inputs.now self.new) }
        ensures steps { IfOk result (λ paused. Steps self.old inputs.now paused self.new) }
        ensures stays { IfErr result (λ e. Stays self.old inputs.now self.new) }
    {
        let graph = self.graph;
        self.state.react(graph, &self.words, &self.system, inputs)
    }

    /// Which outgoing signals were present in the last instant that was constructive, in order; all false
    /// before the first one and after a reset. It takes no memory.
    pub fn outputs(&self) -> &[bool]
        ensures { result.now ≡ self.now.outputs }
    {
        self.state.outputs.as_slice()
    }

    /// For each wire of the graph whether it stayed unknown in the last call of `react`; all false before the
    /// first one and after a reset. It takes no memory.
    pub fn unknown(&self) -> &[bool]
        ensures { result.now ≡ self.now.unknown }
    {
        self.state.unknown.as_slice()
    }

    /// Puts the runner back to its beginning. It takes no memory.
    pub fn reset(&mut self)
        ensures resets { Resets self.old self.new }
        ensures places { HasPlaces self.new }
    {
        let graph = self.graph;
        self.state.reset(graph, &self.words, &self.system);
    }
}
