// The edges from and to status wires.

ghost use Rattle.std.specs.Prelude.{◌≡◌, ◌++◌, length, map, flat_map, option_map, OnOk};
ghost use Rattle.est_kernel.specs.Plain.{expression_of};
ghost use Rattle.grc_graph.specs.PlainInstances.{layer_of};
ghost use Rattle.grc_graph.specs.Scopes.{Scope};
ghost use Rattle.grc_graph.specs.Statements.{signals_in};
ghost use Rattle.grc_graph.specs.StatementViews.{binding_of};
ghost use Rattle.grc_graph.specs.Wires.{status_wire};
ghost use Rattle.grc_graph.specs.Edges.{edges_if, status_to, to_status, test_to};
ghost use Rattle.grc_dep.specs.Names.{wire_named};
ghost use Rattle.grc_dep.specs.Found.{found_by};

use crate::linking::push_edge;
use crate::lookups::Lookups;
use crate::names::NamedWire;
use base_types::{NoMemory, PathId, SigId, WireId};
use est_kernel::Test;
use grc_graph::{Binding, Instance, Layer, layer_above};
use std::alloc::Global;

// The status wire of a signal with this binding, as seen from a place in this layer.
pub fn status_name(binding: Binding, signal: SigId, layer: Layer) -> Option<NamedWire>
    ensures { option_map wire_named result ≡ status_wire (binding_of binding) signal.0 (layer_of layer) }
{
    match binding {
        Binding::Entering | Binding::Unbound => None,
        Binding::Outgoing => Some(NamedWire::Out(signal)),
        Binding::Bound(number) => Some(NamedWire::Status(Instance {
            path: PathId(number),
            layer: layer_above(number, layer),
        })),
    }
}

// From an emission to the status wire, where there is one.
pub fn push_emission(
    lookups: &Lookups,
    from: NamedWire,
    status: Option<NamedWire>,
    pairs: &mut Vec<(WireId, WireId)>,
) -> Result<(), NoMemory>
    ensures { OnOk result (pairs.new.items ≡ pairs.old.items
        ++ found_by lookups.now (to_status (wire_named from) (option_map wire_named status))) }
{
    match status {
        Some(to) => push_edge(lookups, from, to, pairs),
        None => Ok(()),
    }
}

// A test with the bindings of its signals, in order.
#[derive(Clone, Copy)]
pub struct BoundTest<'a> {
    pub test: &'a Test,
    pub bindings: &'a [Binding],
}

// From each status wire that a test reads, where a condition holds.
pub fn push_test_if(
    alloc: Global,
    lookups: &Lookups,
    holds: bool,
    test: &BoundTest,
    layer: Layer,
    to: NamedWire,
    pairs: &mut Vec<(WireId, WireId)>,
) -> Result<(), NoMemory>
    requires { length test.now.bindings.now ≡ length (signals_in (expression_of test.now.test.now)) }
    ensures { OnOk result ((B : Scope)
        → map binding_of test.now.bindings.now ≡ map B (signals_in (expression_of test.now.test.now))
        → pairs.new.items ≡ pairs.old.items ++ found_by lookups.now
        (edges_if holds (test_to B (expression_of test.now.test.now) (layer_of layer) (wire_named to)))) }
{
    if !holds {
        return Ok(());
    }
    let mut signals = Vec::new(alloc);
    list_signals(test.test, &mut signals)?;
    push_statuses(lookups, &signals, test.bindings, layer, to, pairs)
}

// Appends the signals of a test.
fn list_signals(test: &Test, signals: &mut Vec<SigId>) -> Result<(), NoMemory>
    ensures { OnOk result (map (λ s. s.0) signals.new.items
        ≡ map (λ s. s.0) signals.old.items ++ signals_in (expression_of test.now)) }
{
    match test {
        Test::Tick => Ok(()),
        Test::Sig(signal) => {
            signals.push(*signal)?;
            Ok(())
        }
        Test::Not(part) => list_signals(part, signals),
        Test::And(left, right) | Test::Or(left, right) => {
            list_signals(left, signals)?;
            list_signals(right, signals)
        }
    }
}

// From the status wire of each signal, where there is one.
fn push_statuses(
    lookups: &Lookups,
    signals: &[SigId],
    bindings: &[Binding],
    layer: Layer,
    to: NamedWire,
    pairs: &mut Vec<(WireId, WireId)>,
) -> Result<(), NoMemory>
    requires { length bindings.now ≡ length signals.now }
    ensures { OnOk result ((B : Scope) → map binding_of bindings.now ≡ map B (map (λ s. s.0) signals.now)
        → pairs.new.items ≡ pairs.old.items ++ found_by lookups.now
        (flat_map (λ s. status_to (status_wire (B s) s (layer_of layer)) (wire_named to))
        (map (λ s. s.0) signals.now))) }
{
    for (k, signal) in signals.iter().enumerate() {
        let from = status_name(bindings[k], *signal, layer);
        push_status(lookups, from, to, pairs)?;
    }
    Ok(())
}

// From a status wire, where there is one.
fn push_status(
    lookups: &Lookups,
    status: Option<NamedWire>,
    to: NamedWire,
    pairs: &mut Vec<(WireId, WireId)>,
) -> Result<(), NoMemory>
    ensures { OnOk result (pairs.new.items ≡ pairs.old.items
        ++ found_by lookups.now (status_to (option_map wire_named status) (wire_named to))) }
{
    match status {
        Some(from) => push_edge(lookups, from, to, pairs),
        None => Ok(()),
    }
}
