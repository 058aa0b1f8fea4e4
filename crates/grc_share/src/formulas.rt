// The formulas of shared wires.

ghost use Rattle.std.specs.Prelude.{◌≡◌, ◌<◌, ◌++◌, [], ◌∷◌, List, length, nat_lt, if◌then◌else◌};
ghost use Rattle.std.specs.Prelude.{All, IfOk};
ghost use Rattle.est_kernel.specs.Plain.{program_of, term_of, given_count};
ghost use Rattle.est_kernel.specs.Preorder.{statement_count};
ghost use Rattle.grc_graph.specs.BuiltGraphs.{IsGraphOf};
ghost use Rattle.grc_graph.specs.Formulas.{Input, any_of};
ghost use Rattle.grc_graph.specs.Instances.{Instance as plain_instance};
ghost use Rattle.grc_graph.specs.PlainGraphs.{instance_at, instances_of, names_of, wire_at};
ghost use Rattle.grc_graph.specs.Wires.{Wire as plain_wire};
ghost use Rattle.grc_share.specs.Renamings.{AreEmissions, AreGuards, AreNumbersOf, HasOwnStart, StandsFor, StandsIn};
ghost use Rattle.grc_share.specs.Renamings.{formula_at, values};
ghost use Rattle.grc_share.specs.SharedGraphs.{shared_end, shared_formula, shared_go};
ghost use Rattle.grc_share.specs.SharedInstances.{body_sharing};
ghost use Rattle.grc_share.specs.SharedWires.{shared_layer, shared_wire, shared_wires};

use crate::renaming::{Numbers, both, either, renamed};
use base_types::{InstId, NoMemory, SigId, WireId};
use grc_graph::{Formula, Graph, Layer, Wire};
use std::alloc::Global;

/// What the formulas of a graph's shared wires are made of.
#[derive(Clone, Copy)]
pub(crate) struct Given<'a> {
    /// The numbers of the shared instances and wires.
    pub numbers: Numbers<'a>,
    /// For each statement whether it ends where it runs alone.
    pub guarded: &'a [bool],
}

/// The formula of the shared wire with this least member; what is emitted on it is given.
pub(crate) fn shared_formula(
    alloc: Global,
    graph: &Graph,
    given: &Given,
    emissions: &[WireId],
    w: WireId,
) -> Result<Formula, NoMemory>
    requires built { IsGraphOf graph.now (program_of graph.now.program) }
    requires numbers { AreNumbersOf graph.now given.now.numbers.least.now given.now.numbers.instances.now
        given.now.numbers.wires.now }
    requires each { length given.now.guarded.now ≡ statement_count (term_of graph.now.program.body) }
    requires guarded { AreGuards (program_of graph.now.program) given.now.guarded.now }
    requires within { w.0 < length graph.now.wires.items }
    requires own { shared_wire (body_sharing (program_of graph.now.program).body) (wire_at (names_of graph.now) w.0)
        ≡ wire_at (names_of graph.now) w.0 }
    requires emissions { AreEmissions (program_of graph.now.program) (wire_at (names_of graph.now) w.0) emissions.now }
    ensures { IfOk result (StandsIn (program_of graph.now.program)
        (shared_formula (program_of graph.now.program) (wire_at (names_of graph.now) w.0) (formula_at graph.now w.0))) }
{
    match graph.wires[w.0 as usize] {
        Wire::Out(signal) => output_formula(alloc, graph, signal, emissions),
        Wire::Local(_) => any_of(alloc, emissions),
        Wire::Go(i) => go_formula(alloc, graph, given, i, w),
        Wire::End(i, _) => end_formula(alloc, graph, given, i, w),
    }
}

// An outgoing signal is present where it is given or emitted.
fn output_formula(
    alloc: Global,
    graph: &Graph,
    signal: SigId,
    emissions: &[WireId],
) -> Result<Formula, NoMemory>
    ensures { IfOk result (λ f. (insts : List plain_instance) (names : List plain_wire)
        → All (λ w. w.0 < length names) emissions.now
        → StandsFor insts names (any_of ((if nat_lt signal.0 (given_count (program_of graph.now.program))
        then Input signal.0 ∷ [] else []) ++ values names emissions.now)) f) }
{
    if signal.0 >= graph.program.inputs + graph.program.both {
        return any_of(alloc, emissions);
    }
    if emissions.is_empty() {
        return Ok(Formula::Input(signal));
    }
    let emitted = any_of(alloc, emissions)?;
    either(alloc, Formula::Input(signal), emitted)
}

// The or of these wires.
fn any_of(alloc: Global, wires: &[WireId]) -> Result<Formula, NoMemory>
    ensures { IfOk result (λ f. (insts : List plain_instance) (names : List plain_wire)
        → All (λ w. w.0 < length names) wires.now → StandsFor insts names (any_of (values names wires.now)) f) }
{
    let list = Vec::from_slice(alloc, wires)?;
    Ok(Formula::AnyOf(list))
}

// What lets a shared instance run: what lets its least member run, or what starts another member by itself.
fn go_formula(
    alloc: Global,
    graph: &Graph,
    given: &Given,
    i: InstId,
    w: WireId,
) -> Result<Formula, NoMemory>
    requires built { IsGraphOf graph.now (program_of graph.now.program) }
    requires numbers { AreNumbersOf graph.now given.now.numbers.least.now given.now.numbers.instances.now
        given.now.numbers.wires.now }
    requires within { w.0 < length graph.now.wires.items }
    requires instance { i.0 < length graph.now.instances.list.items }
    requires own { shared_layer (body_sharing (program_of graph.now.program).body)
        (instance_at (instances_of graph.now) i.0).path (instance_at (instances_of graph.now) i.0).layer
        ≡ (instance_at (instances_of graph.now) i.0).layer }
    ensures { IfOk result (StandsIn (program_of graph.now.program) (shared_go (program_of graph.now.program)
        (instance_at (instances_of graph.now) i.0).path (instance_at (instances_of graph.now) i.0).layer
        (formula_at graph.now w.0))) }
{
    let entry = renamed(alloc, graph.equation(w), &given.numbers)?;
    match own_start(graph, &given.numbers, i) {
        Some(own) => {
            let start = graph.equation(graph.neighbours().go(own));
            let start = renamed(alloc, start, &given.numbers)?;
            either(alloc, entry, start)
        }
        None => Ok(entry),
    }
}

// Another member of a shared instance that is started by itself: the one whose root is the statement.
fn own_start(graph: &Graph, numbers: &Numbers, i: InstId) -> Option<InstId>
    requires built { IsGraphOf graph.now (program_of graph.now.program) }
    requires numbers { AreNumbersOf graph.now numbers.now.least.now numbers.now.instances.now numbers.now.wires.now }
    requires instance { i.0 < length graph.now.instances.list.items }
    requires own { shared_layer (body_sharing (program_of graph.now.program).body)
        (instance_at (instances_of graph.now) i.0).path (instance_at (instances_of graph.now) i.0).layer
        ≡ (instance_at (instances_of graph.now) i.0).layer }
    ensures { HasOwnStart (body_sharing (program_of graph.now.program).body) (instances_of graph.now)
        (instance_at (instances_of graph.now) i.0) result }
{
    let path = graph.instances.list[i.0 as usize].path;
    match graph.instances.list[i.0 as usize].layer {
        Layer::Resumed => None,
        Layer::Started(_) => match graph
            .neighbours()
            .find_instance(path.0, Layer::Started(path))
        {
            Some(own) => {
                if own.0 != i.0 && numbers.least[own.0 as usize].0 == i.0 {
                    Some(own)
                } else {
                    None
                }
            }
            None => None,
        },
    }
}

// What a shared instance ends with: what its least member does, in a sequence and in a loop where it runs.
fn end_formula(
    alloc: Global,
    graph: &Graph,
    given: &Given,
    i: InstId,
    w: WireId,
) -> Result<Formula, NoMemory>
    requires built { IsGraphOf graph.now (program_of graph.now.program) }
    requires numbers { AreNumbersOf graph.now given.now.numbers.least.now given.now.numbers.instances.now
        given.now.numbers.wires.now }
    requires each { length given.now.guarded.now ≡ statement_count (term_of graph.now.program.body) }
    requires guarded { AreGuards (program_of graph.now.program) given.now.guarded.now }
    requires within { w.0 < length graph.now.wires.items }
    requires instance { i.0 < length graph.now.instances.list.items }
    requires own { shared_layer (body_sharing (program_of graph.now.program).body)
        (instance_at (instances_of graph.now) i.0).path (instance_at (instances_of graph.now) i.0).layer
        ≡ (instance_at (instances_of graph.now) i.0).layer }
    ensures { IfOk result (StandsIn (program_of graph.now.program) (shared_end (program_of graph.now.program)
        (instance_at (instances_of graph.now) i.0).path (instance_at (instances_of graph.now) i.0).layer
        (formula_at graph.now w.0))) }
{
    let end = renamed(alloc, graph.equation(w), &given.numbers)?;
    if given.guarded[graph.instances.list[i.0 as usize].path.0 as usize] {
        let go = graph.neighbours().go(i);
        let runs = Formula::Wire(WireId(given.numbers.wires[go.0 as usize]));
        both(alloc, runs, end)
    } else {
        Ok(end)
    }
}
