// What a runner keeps from instant to instant.

ghost use Rattle.std.specs.Prelude.{◌≡◌, length, IfOk, IfErr};
ghost use Rattle.est_kernel.specs.Plain.{given_count, program_of};
ghost use Rattle.grc_ternary_run.specs.Runners.{IsFresh, Stays, Steps};
ghost use Rattle.grc_ternary_run.specs.States.{KeepsState, ReadsGraph, runner_with};

use crate::room::{Room, make_room, mark_unknown};
use base_types::NoMemory;
use grc_evaluate::Start;
use grc_formulas::Words;
use grc_graph::Graph;
use grc_ternary_gates::System;
use std::alloc::Global;

/// The program is not constructive in an instant.
#[derive(Clone, Copy, Debug)]
pub struct NotConstructive;

/// Whether the next instant is the first, and which leaves are selected in it; what went out in the last
/// instant, and which wires stayed unknown in the last call; and room for the values of an instant.
#[derive(Drop)]
pub(crate) struct State {
    pub boot: bool,
    pub selected: Vec<bool>,
    pub outputs: Vec<bool>,
    pub unknown: Vec<bool>,
    pub room: Room,
}

impl State {
    /// The state before the first event. Its only error is out of memory.
    pub fn new(
        alloc: Global,
        graph: &Graph,
        words: &Words,
        system: &System,
    ) -> Result<State, NoMemory>
        ensures keeps { IfOk result (λ s. KeepsState graph.now words.now system.now s) }
        ensures fresh { IfOk result (λ s. IsFresh (runner_with graph.now s)) }
    {
        Ok(State {
            boot: true,
            selected: vec![in alloc; false; graph.next.len()]?,
            outputs: vec![in alloc; false; words.outputs.len()]?,
            unknown: vec![in alloc; false; graph.wires.len()]?,
            room: make_room(alloc, graph, words, system)?,
        })
    }

    /// One reaction to this event, which has one truth value per given signal: whether the program pauses. Where
    /// some wire stays unknown, the state and the outputs stay as they are. It takes no memory.
    pub fn react(
        &mut self,
        graph: &Graph,
        words: &Words,
        system: &System,
        inputs: &[bool],
    ) -> Result<bool, NotConstructive>
        requires reads { ReadsGraph graph.now words.now system.now }
        requires keeps { KeepsState graph.now words.now system.now self.old }
        requires inputs { length inputs.now ≡ given_count (program_of graph.now.program) }
        ensures keeps { KeepsState graph.now words.now system.now self.new }
        ensures steps { IfOk result (λ paused. Steps (runner_with graph.now self.old) inputs.now paused
            (runner_with graph.now self.new)) }
        ensures stays { IfErr result (λ e. Stays (runner_with graph.now self.old) inputs.now
            (runner_with graph.now self.new)) }
    {
        let start = Start {
            boot: self.boot,
            selected: &self.selected,
            inputs,
        };
        self.room.settle(graph, words, system, &start);
        if mark_unknown(&self.room.solver.values, &mut self.unknown) {
            return Err(NotConstructive);
        }
        self.room.read_off(graph, words, system, &start);
        let paused = self.room.show(graph, words, &start, &mut self.outputs);
        self.boot = false;
        self.selected.copy_from_slice(&self.room.next);
        Ok(paused)
    }

    /// Puts everything back to the beginning. It takes no memory.
    pub fn reset(&mut self, graph: &Graph, words: &Words, system: &System)
        requires { KeepsState graph.now words.now system.now self.old }
        ensures keeps { KeepsState graph.now words.now system.now self.new }
        ensures fresh { IsFresh (runner_with graph.now self.new) }
    {
        self.boot = true;
        self.selected.as_mut_slice().fill(false);
        self.outputs.as_mut_slice().fill(false);
        self.unknown.as_mut_slice().fill(false);
    }
}
