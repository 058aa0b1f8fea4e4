// The graph of a kernel program.

ghost use Rattle.std.specs.Prelude.{◌+◌, length, map};
ghost use Rattle.std.proofs.Props.{props};
ghost use Rattle.est_kernel.specs.CodeLists.{AreCodesOf};
ghost use Rattle.est_kernel.specs.Plain.{program_of, term_of};
ghost use Rattle.grc_graph.specs.FewGates.{HasFewGates};
ghost use Rattle.grc_graph.specs.GraphShapes.{IndicesFit};
ghost use Rattle.grc_graph.specs.LayoutFacts.{exits-prop, signals-prop, relates-prop};
ghost use Rattle.grc_graph.specs.Layouts.{IsLaidOut};
ghost use Rattle.grc_graph.specs.LoopTables.{KeepsLoops};
ghost use Rattle.grc_graph.specs.PlainInstances.{instance_of};
ghost use Rattle.grc_graph.specs.WireTables.{AreFirsts, AreNeighbours};

use crate::formulas::Formula;
use crate::instances::Instances;
use crate::loops::LoopBodies;
use crate::neighbours::Neighbours;
use crate::trees::SelTree;
use crate::wires::{Node, Wire};
use base_types::{InstId, WireId};
use est_kernel::{Codes, KernelProgram};

/// A graph of a kernel program: a node per instance, an equation per wire, and a formula per leaf of the selection
/// tree, which says whether the leaf is selected in the next instant. Each index in it is in range. Its instances are
/// live ones of the program's body, each with the one around it, and each has its wires: in the program's own graph all
/// of them, in a graph of shared wires those that name the shared ones. With it go the static codes and the selection
/// tree of the body, and where each instance and each wire is found (`neighbours`).
#[derive(Drop)]
pub struct Graph {
    /// The program that this is the graph of.
    pub program: KernelProgram,
    /// The static codes of the program's body.
    pub codes: Codes,
    /// The live instances; an `InstId` is a place in this list.
    pub instances: Instances,
    /// The selection tree of the program's body.
    pub tree: SelTree,
    /// What each instance is in the control-flow graph, by its `InstId`.
    pub nodes: Vec<Node>,
    /// What each wire is; a `WireId` is a place in this list.
    pub wires: Vec<Wire>,
    /// The equation of each wire, by its `WireId`.
    pub equations: Vec<Formula>,
    /// For each leaf of the selection tree, in their order, when it is selected in the next instant.
    pub next: Vec<Formula>,
    /// For each instance the number of its first wire, and at last the number of wires.
    pub first_wires: Vec<u32>,
    /// For each statement the number of its first instance, and at last the number of instances.
    pub first_instances: Vec<u32>,
    /// Where instances are shared ones, for each statement the loop bodies around it; none in a program's own graph.
    pub loops: Option<Vec<LoopBodies>>,
    ghost laid_out: { IsLaidOut (program_of program) (map instance_of instances.list.items) wires.items
        tree.nodes.items (length next.items) } by { Prim.hlevel (props, exits-prop, signals-prop, relates-prop) },
    ghost code_sets: { AreCodesOf codes (term_of program.body) },
    ghost indices: { IndicesFit (length instances.list.items) wires.items nodes.items equations.items next.items },
    ghost tables: { AreNeighbours instances.list.items wires.items first_wires.items program.inputs
        (program.both + program.outputs) },
    ghost statements: { AreFirsts instances.list.items first_instances.items },
    ghost counted: { KeepsLoops loops (term_of program.body) } by { Prim.hlevel props },
    ghost few: { HasFewGates (program_of program) (map instance_of instances.list.items) loops (length wires.items)
        equations.items next.items },
}

impl Graph {
    ghost use Rattle.std.specs.Prelude.{◌≡◌, ◌<◌, slice_get, Some};
    ghost use Rattle.grc_graph.specs.Neighbouring.{instances_in, names_in};
    ghost use Rattle.grc_graph.specs.PlainGraphs.{instances_of, names_of};

    /// The wires by number. It takes no memory.
    pub fn wires(&self) -> &[Wire]
        ensures { result.now ≡ self.now.wires.items }
    {
        self.wires.as_slice()
    }

    /// The program that the graph was built of. It takes no memory.
    pub fn program(&self) -> &KernelProgram
        ensures { result.now ≡ self.now.program }
    {
        &self.program
    }

    /// The live instances of the program's body. It takes no memory.
    pub fn instances(&self) -> &Instances
        ensures { result.now ≡ self.now.instances }
    {
        &self.instances
    }

    /// The instances and wires, each found by its name. It takes no memory.
    pub fn neighbours(&self) -> Neighbours<'_>
        ensures instances { instances_in result ≡ instances_of self.now }
        ensures wires { names_in result ≡ names_of self.now }
    {
        Neighbours::over(
            &self.program,
            &self.instances,
            &self.wires,
            &self.first_wires,
            &self.first_instances,
        )
    }

    /// The node of an instance. It takes no memory.
    pub fn node_of(&self, i: InstId) -> Node
        requires { i.0 < length self.now.instances.list.items }
        ensures { slice_get self.now.nodes.items i.0 ≡ Some result }
    {
        self.nodes[i.0 as usize]
    }

    /// The formula of a wire. It takes no memory.
    pub fn equation(&self, w: WireId) -> &Formula
        requires { w.0 < length self.now.wires.items }
        ensures { slice_get self.now.equations.items w.0 ≡ Some result.now }
    {
        &self.equations[w.0 as usize]
    }

    /// The formula that says whether a leaf is selected in the next instant. It takes no memory.
    pub fn next(&self, leaf: u32) -> &Formula
        requires { leaf < length self.now.next.items }
        ensures { slice_get self.now.next.items leaf ≡ Some result.now }
    {
        &self.next[leaf as usize]
    }
}
