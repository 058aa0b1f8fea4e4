// Live instances and wires of a graph, which are read by name.

ghost use Rattle.grc_graph.specs.WireTables.{AreFirsts, AreNeighbours};

use crate::instances::{Instance, Instances, Layer};
use crate::wires::Wire;
use base_types::{InstId, PathId, SigId, WireId};
use est_kernel::KernelProgram;

/// The live instances and the wires of a graph, each found by its name: an instance in steps that are logarithmic in
/// the number of those of its statement, the wires of an instance in steps that are linear in the number of its codes.
#[derive(Clone, Copy)]
pub struct Neighbours<'a> {
    list: &'a [Instance],
    wires: &'a [Wire],
    // For each instance the number of its first wire, and at last the number of wires.
    first: &'a [u32],
    // For each statement the number of its first instance, and at last the number of instances.
    first_instances: &'a [u32],
    inputs: u32,
    outgoing: u32,
    ghost tables: { AreNeighbours list.now wires.now first.now inputs outgoing },
    ghost statements: { AreFirsts list.now first_instances.now },
}

impl<'a> Neighbours<'a> {
    ghost use Rattle.std.specs.Prelude.{◌≡◌, ℕ, ◌+◌, ◌<◌, ◌≤◌, length, slice_index, slice_index_or};
    ghost use Rattle.std.specs.Prelude.{MatchOption};
    ghost use Rattle.grc_graph.specs.declared.wires.Wire.{Wire as stored_wire};
    ghost use Rattle.grc_graph.specs.Layers.{layer_above};
    ghost use Rattle.grc_graph.specs.Neighbouring.{instances_in, names_in};
    ghost use Rattle.grc_graph.specs.PlainGraphs.{instance_at};
    ghost use Rattle.grc_graph.specs.PlainInstances.{instance_of, layer_of};
    ghost use Rattle.grc_graph.specs.WireTables.{IsNumberOf, HasInstance, HasName};
    ghost use Rattle.grc_graph.specs.Wires.{Out, Go, StatusOf, End};

    /// These instances and wires of a program's graph, with the first wire of each instance and the first instance of
    /// each statement.
    pub fn over(
        program: &KernelProgram,
        live: &'a Instances,
        wires: &'a [Wire],
        first_wires: &'a [u32],
        first_instances: &'a [u32],
    ) -> Neighbours<'a>
        requires tables { AreNeighbours live.now.list.items wires.now first_wires.now program.now.inputs
            (program.now.both + program.now.outputs) }
        requires statements { AreFirsts live.now.list.items first_instances.now }
        ensures instances { result.list.now ≡ live.now.list.items }
        ensures wires { result.wires.now ≡ wires.now }
    {
        Neighbours {
            list: live.list.as_slice(),
            wires,
            first: first_wires,
            first_instances,
            inputs: program.inputs,
            outgoing: program.both + program.outputs,
        }
    }

    /// The wires by number. It takes no memory.
    pub fn wires(&self) -> &'a [Wire]
        ensures { result.now ≡ self.now.wires.now }
    {
        self.wires
    }

    /// The number of instances. It takes no memory.
    pub fn count(&self) -> u32
        ensures { result ≡ length (instances_in self.now) }
    {
        self.list.len() as u32
    }

    /// The instance with this number. It takes no memory.
    pub fn instance(&self, i: InstId) -> Instance
        requires { i.0 < length (instances_in self.now) }
        ensures { IsNumberOf (instances_in self.now) i.0 (instance_of result) }
    {
        self.list[i.0 as usize]
    }

    /// The number of the instance of a statement in a layer; None where it is not live. It takes no
    /// memory.
    pub fn find_instance(&self, path: u32, layer: Layer) -> Option<InstId>
        ensures { HasInstance (instances_in self.now) result (record { path = path; layer = layer_of layer }) }
    {
        let statement = path as usize;
        if statement + 1 >= self.first_instances.len() {
            return None;
        }
        let from = self.first_instances[statement] as usize;
        let to = self.first_instances[statement + 1] as usize;
        let path = PathId(path);
        match find_place(&self.list[from..to], Instance { path, layer }) {
            Some(place) => Some(InstId((from + place) as u32)),
            None => None,
        }
    }

    /// The instance of an enclosing statement, as seen from an instance. It takes no memory.
    pub fn find_above(&self, path: u32, layer: Layer) -> Option<InstId>
        ensures { HasInstance (instances_in self.now) result
            (record { path = path; layer = layer_above path (layer_of layer) }) }
    {
        self.find_instance(path, layer_above(path, layer))
    }

    /// The `go` of an instance. It takes no memory.
    pub fn go(&self, i: InstId) -> WireId
        requires { i.0 < length (instances_in self.now) }
        ensures { IsNumberOf (names_in self.now) result.0
            (Go (instance_at (instances_in self.now) i.0).path (instance_at (instances_in self.now) i.0).layer) }
    {
        WireId(self.first[i.0 as usize])
    }

    /// The status wire of an instance of a Local; None where it has none. It takes no memory.
    pub fn status(&self, i: InstId) -> Option<WireId>
        requires { i.0 < length (instances_in self.now) }
        ensures { HasName (names_in self.now) result
            (StatusOf (instance_at (instances_in self.now) i.0).path (instance_at (instances_in self.now) i.0).layer) }
    {
        self.find_wire(i, Wire::Local(i))
    }

    /// The wire of an instance's end with this code; None where the instance does not have the code.
    /// It takes no memory.
    pub fn end(&self, i: InstId, code: u8) -> Option<WireId>
        requires { i.0 < length (instances_in self.now) }
        ensures { HasName (names_in self.now) result
            (End (instance_at (instances_in self.now) i.0).path (instance_at (instances_in self.now) i.0).layer code) }
    {
        self.find_wire(i, Wire::End(i, code))
    }

    /// The `go` of a statement in a layer; None where it is not live there. It takes no memory.
    pub fn find_go(&self, path: u32, layer: Layer) -> Option<WireId>
        ensures { HasName (names_in self.now) result (Go path (layer_of layer)) }
    {
        match self.find_instance(path, layer) {
            Some(i) => Some(self.go(i)),
            None => None,
        }
    }

    /// The status wire of a Local in a layer; None where there is none. It takes no memory.
    pub fn find_status(&self, path: u32, layer: Layer) -> Option<WireId>
        ensures { HasName (names_in self.now) result (StatusOf path (layer_of layer)) }
    {
        match self.find_instance(path, layer) {
            Some(i) => self.status(i),
            None => None,
        }
    }

    /// The wire of a statement's end with this code in a layer; None where there is none. It takes no
    /// memory.
    pub fn find_end(&self, path: u32, layer: Layer, code: u8) -> Option<WireId>
        ensures { HasName (names_in self.now) result (End path (layer_of layer) code) }
    {
        match self.find_instance(path, layer) {
            Some(i) => self.end(i, code),
            None => None,
        }
    }

    /// The wire of an outgoing signal; None where the signal does not go out. It takes no memory.
    pub fn out(&self, signal: SigId) -> Option<WireId>
        ensures { HasName (names_in self.now) result (Out signal.0) }
    {
        if signal.0 >= self.inputs && signal.0 - self.inputs < self.outgoing {
            Some(WireId(signal.0 - self.inputs))
        } else {
            None
        }
    }

    // The number of a wire among those of an instance.
    fn find_wire(&self, i: InstId, wanted: Wire) -> Option<WireId>
        requires { i.0 < length self.now.list.now }
        ensures { MatchOption result
            ((w : ℕ) (d : stored_wire) → slice_index self.now.first.now i.0 ≤ w
            → w < slice_index self.now.first.now (i.0 + 1) → slice_index_or self.now.wires.now w d ≡ wanted → ⊥)
            (λ w. IsNumberOf self.now.wires.now w.0 wanted) }
    {
        for w in self.first[i.0 as usize]..self.first[i.0 as usize + 1] {
            if self.wires[w as usize] == wanted {
                return Some(WireId(w));
            }
        }
        None
    }
}

ghost use Rattle.std.specs.Prelude.{◌≡◌, ◌≤◌, length, map, Contains, MatchOption};
ghost use Rattle.grc_graph.specs.PlainInstances.{instance_of, layer_of};
ghost use Rattle.grc_graph.specs.WireTables.{comes_before, layer_before, Ascending, IsNumberOf, SplitsAt};
ghost use Rattle.grc_graph.specs.Layers.{layer_above};

/// The layer in which an enclosing statement runs, as seen from an instance in this layer.
pub fn layer_above(path: u32, layer: Layer) -> Layer
    ensures { layer_of result ≡ layer_above path (layer_of layer) }
{
    match layer {
        Layer::Resumed => Layer::Resumed,
        Layer::Started(root) => {
            if root.0 <= path {
                Layer::Started(root)
            } else {
                Layer::Resumed
            }
        }
    }
}

// The place of an instance in a list that ascends; None where it is not there.
fn find_place(list: &[Instance], wanted: Instance) -> Option<usize>
    requires { Ascending list.now }
    ensures { MatchOption result (¬ Contains (map instance_of list.now) (instance_of wanted))
        (λ i. IsNumberOf (map instance_of list.now) i (instance_of wanted)) }
{
    let place = place_of(list, wanted);
    if place < list.len() && !comes_before(wanted, list[place]) {
        Some(place)
    } else {
        None
    }
}

// The number of instances that come before this one.
fn place_of(list: &[Instance], wanted: Instance) -> usize
    requires { Ascending list.now }
    ensures within { result ≤ length list.now }
    ensures place { SplitsAt (instance_of wanted) list.now result }
{
    list.partition_point(|x| comes_before(*x, wanted))
}

// Whether an instance comes before another in the order of the graph.
fn comes_before(x: Instance, y: Instance) -> bool
    ensures { result ≡ comes_before (instance_of x) (instance_of y) }
{
    x.path.0 < y.path.0 || x.path.0 == y.path.0 && layer_before(x.layer, y.layer)
}

// Whether a layer comes before another.
fn layer_before(x: Layer, y: Layer) -> bool
    ensures { result ≡ layer_before (layer_of x) (layer_of y) }
{
    match x {
        Layer::Resumed => match y {
            Layer::Resumed => false,
            Layer::Started(_) => true,
        },
        Layer::Started(q) => match y {
            Layer::Resumed => false,
            Layer::Started(r) => q.0 < r.0,
        },
    }
}
