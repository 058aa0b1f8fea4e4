// The names of wires.

ghost use Rattle.std.specs.Prelude.{◌≡◌, ◌<◌, All, IsTrue, length, map, IfOk};
ghost use Rattle.est_kernel.specs.Plain.{term_of, program_of};
ghost use Rattle.grc_graph.specs.GraphShapes.{wire_fits};
ghost use Rattle.grc_graph.specs.WireNames.{path_at, bound_at, wire_name, layer_name, signal_name, bound_name};
ghost use Rattle.grc_graph.specs.PlainWireNames.{wire_name_of, layer_name_of};
ghost use Rattle.grc_graph.specs.PlainInstances.{layer_of};
ghost use Rattle.grc_graph.specs.PlainGraphs.{instance_at, wire_of, wire_at, instances_of, names_of};

use crate::places::Places;
use base_types::{InstId, NoMemory, SigId, SignalInfo, Text, WireId};
use grc_graph::{Graph, Layer, LayerName, Path, Wire, WireName};
use std::alloc::Global;

/// The name of a wire. The time is linear in the body; for many wires take `names_of`.
/// Its only error is out of memory.
pub fn name_of(alloc: Global, graph: &Graph, wire: WireId) -> Result<WireName, NoMemory>
    requires { wire.0 < length graph.now.wires.items }
    ensures { IfOk result (λ name. wire_name_of name
        ≡ wire_name (program_of graph.now.program) (wire_at (names_of graph.now) wire.0)) }
{
    let places = Places::new(alloc, &graph.program.body)?;
    let wire = graph.wires[wire.0 as usize];
    wire_name(alloc, graph, &places, wire)
}

/// The names of some wires, in the same order. The time is linear in the body and in the names.
/// Its only error is out of memory.
pub fn names_of(alloc: Global, graph: &Graph, wires: &[WireId]) -> Result<Vec<WireName>, NoMemory>
    requires { All (λ w. w.0 < length graph.now.wires.items) wires.now }
    ensures { IfOk result (λ names. map wire_name_of names.items
        ≡ map (λ w. wire_name (program_of graph.now.program) (wire_at (names_of graph.now) w.0)) wires.now) }
{
    let places = Places::new(alloc, &graph.program.body)?;
    let mut names = Vec::new(alloc);
    for wire in wires {
        let wire = graph.wires[wire.0 as usize];
        names.push(wire_name(alloc, graph, &places, wire)?)?;
    }
    Ok(names)
}

// The name of a wire of the graph, where the places are those of its body.
pub fn wire_name(
    alloc: Global,
    graph: &Graph,
    places: &Places,
    wire: Wire,
) -> Result<WireName, NoMemory>
    requires body { term_of places.now.body.now ≡ term_of graph.now.program.body }
    requires fits { IsTrue (wire_fits (length graph.now.instances.list.items) wire) }
    ensures { IfOk result (λ name. wire_name_of name
        ≡ wire_name (program_of graph.now.program) (wire_of (instances_of graph.now) wire)) }
{
    match wire {
        Wire::Go(number) => {
            let (path, layer) = instance_name(alloc, graph, places, number)?;
            Ok(WireName::Go(path, layer))
        }
        Wire::End(number, code) => {
            let (path, layer) = instance_name(alloc, graph, places, number)?;
            Ok(WireName::End(path, layer, code))
        }
        Wire::Local(number) => {
            let (path, layer) = instance_name(alloc, graph, places, number)?;
            let signal = Text::from_bytes(alloc, status_name(graph, places, number))?;
            Ok(WireName::Local(path, layer, signal))
        }
        Wire::Out(signal) => {
            let name = signal_name(&graph.program.signals, signal);
            Ok(WireName::Out(Text::from_bytes(alloc, name)?))
        }
    }
}

// The path of an instance's statement, and its layer by name.
fn instance_name(
    alloc: Global,
    graph: &Graph,
    places: &Places,
    number: InstId,
) -> Result<(Path, LayerName), NoMemory>
    requires { number.0 < length graph.now.instances.list.items }
    ensures path { IfOk result (λ name. name.0.steps.items
        ≡ path_at (term_of places.now.body.now) (instance_at (instances_of graph.now) number.0).path) }
    ensures layer { IfOk result (λ name. layer_name_of name.1
        ≡ layer_name (term_of places.now.body.now) (instance_at (instances_of graph.now) number.0).layer) }
{
    let instance = graph.instances.list[number.0 as usize];
    let path = places.path_at(alloc, instance.path)?;
    let layer = layer_name(alloc, places, instance.layer)?;
    Ok((path, layer))
}

// A layer by name.
fn layer_name(alloc: Global, places: &Places, layer: Layer) -> Result<LayerName, NoMemory>
    ensures { IfOk result (λ name. layer_name_of name
        ≡ layer_name (term_of places.now.body.now) (layer_of layer)) }
{
    match layer {
        Layer::Resumed => Ok(LayerName::Resumed),
        Layer::Started(root) => Ok(LayerName::Started(places.path_at(alloc, root)?)),
    }
}

// The name of the signal that an instance's statement binds.
fn status_name<'a>(graph: &'a Graph, places: &Places, number: InstId) -> &'a [u8]
    requires { number.0 < length graph.now.instances.list.items }
    ensures { result.now ≡ bound_name (program_of graph.now.program).signals
        (bound_at (term_of places.now.body.now) (instance_at (instances_of graph.now) number.0).path) }
{
    let instance = graph.instances.list[number.0 as usize];
    match places.bound_at(instance.path) {
        Some(signal) => signal_name(&graph.program.signals, signal),
        None => b"",
    }
}

// The name of a signal by its number.
fn signal_name<'a>(signals: &'a [SignalInfo], signal: SigId) -> &'a [u8]
    ensures { result.now ≡ signal_name (map (λ s. s.name) signals.now) signal.0 }
{
    match signals.get(signal.0 as usize) {
        Some(info) => info.name.bytes(),
        None => b"",
    }
}
