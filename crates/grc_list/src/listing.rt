// The listing of a graph.

ghost use Rattle.std.specs.Prelude.{◌≡◌, ◌++◌, ◌∷◌, [], flat_map, map, codes, decimal, IfOk, OnOk};
ghost use Rattle.std.specs.List.{concat};
ghost use Rattle.est_kernel.specs.Plain.{term_of, program_of};
ghost use Rattle.grc_graph.specs.BuiltGraphs.{IsGraphOf};
ghost use Rattle.grc_graph.specs.TreeForms.{tree_node};
ghost use Rattle.grc_graph.specs.PlainGraphs.{names_of};
ghost use Rattle.grc_graph.specs.PlainWireNames.{wire_name_of};
ghost use Rattle.grc_list.specs.Listings.{node_line, wire_text, wire_lines, program_listing};

use crate::names::wire_name;
use crate::places::Places;
use crate::texts::{put_node, put_wire};
use base_types::{NoMemory, put, put_number};
use grc_graph::{Graph, SelTree, WireName};
use std::alloc::Global;

/// The listing of a graph with the selection tree of its body: the line `grc 1`, a line for each node of the tree,
/// and a line for each wire by its number. The time is linear in the body and in the text.
/// Its only error is out of memory.
pub fn list(alloc: Global, graph: &Graph) -> Result<Vec<u8>, NoMemory>
    requires { IsGraphOf graph.now (program_of graph.now.program) }
    ensures { IfOk result (λ text. text.items ≡ program_listing (program_of graph.now.program)) }
{
    let places = Places::new(alloc, &graph.program.body)?;
    let mut text = Vec::new(alloc);
    put(&mut text, b"grc 1\n")?;
    put_nodes(alloc, &mut text, &places, &graph.tree)?;
    put_wires(alloc, &mut text, graph, &places)?;
    Ok(text)
}

// A line for each node of the tree.
fn put_nodes(
    alloc: Global,
    text: &mut Vec<u8>,
    places: &Places,
    tree: &SelTree,
) -> Result<(), NoMemory>
    ensures { OnOk result (text.new.items ≡ text.old.items
        ++ flat_map (node_line (term_of places.now.body.now)) (map tree_node tree.now.nodes.items)) }
{
    for node in &tree.nodes {
        let path = places.path_at(alloc, node.path)?;
        put_node(text, node.form, &path)?;
        put(text, b"\n")?;
    }
    Ok(())
}

// A line for each wire of the graph.
fn put_wires(
    alloc: Global,
    text: &mut Vec<u8>,
    graph: &Graph,
    places: &Places,
) -> Result<(), NoMemory>
    requires { term_of places.now.body.now ≡ term_of graph.now.program.body }
    ensures { OnOk result (text.new.items ≡ text.old.items
        ++ wire_lines (program_of graph.now.program) 0 (names_of graph.now)) }
{
    for (number, wire) in graph.wires.iter().enumerate() {
        let name = wire_name(alloc, graph, places, *wire)?;
        put_wire_line(text, number, &name)?;
    }
    Ok(())
}

// The line of the wire with this number and name.
fn put_wire_line(text: &mut Vec<u8>, number: usize, name: &WireName) -> Result<(), NoMemory>
    ensures { OnOk result (text.new.items ≡ text.old.items ++ concat (codes "w" ∷ decimal number ∷ codes " "
        ∷ wire_text (wire_name_of name.now) ∷ codes "\n" ∷ [])) }
{
    put_number(text, b"w", number)?;
    put(text, b" ")?;
    put_wire(text, name)?;
    put(text, b"\n")
}
