// Wires and nodes of selection trees as texts.

ghost use Rattle.std.specs.Prelude.{◌≡◌, ◌++◌, flat_map, codes, decimal, IfOk, OnOk};
ghost use Rattle.grc_graph.specs.PlainWireNames.{wire_name_of, layer_name_of};
ghost use Rattle.grc_graph.specs.TreeForms.{form_of};
ghost use Rattle.grc_list.specs.Listings.{path_text, layer_text, wire_text, mark_text, node_text};

use base_types::{NoMemory, put, put_number};
use grc_graph::{LayerName, Path, SelForm, WireName};
use std::alloc::Global;

/// The text of a wire: `out NAME`, `go PATH LAYER`, `st PATH LAYER NAME` or `end PATH LAYER CODE`.
/// Its only error is out of memory.
///
/// Example: `out O` is the output O, and `go .0 s .` starts the first part of a body that is started as a whole.
pub fn wire_text(alloc: Global, name: &WireName) -> Result<Vec<u8>, NoMemory>
    ensures { IfOk result (λ text. text.items ≡ wire_text (wire_name_of name.now)) }
{
    let mut text = Vec::new(alloc);
    put_wire(&mut text, name)?;
    Ok(text)
}

// The text of a wire.
pub fn put_wire(text: &mut Vec<u8>, name: &WireName) -> Result<(), NoMemory>
    ensures { OnOk result (text.new.items ≡ text.old.items ++ wire_text (wire_name_of name.now)) }
{
    match name {
        WireName::Out(signal) => {
            put(text, b"out ")?;
            put(text, signal.bytes())
        }
        WireName::Go(path, layer) => put_instance(text, b"go ", path, layer),
        WireName::Local(path, layer, signal) => {
            put_instance(text, b"st ", path, layer)?;
            put(text, b" ")?;
            put(text, signal.bytes())
        }
        WireName::End(path, layer, code) => {
            put_instance(text, b"end ", path, layer)?;
            put_number(text, b" ", usize::from(*code))
        }
    }
}

// A word, the path of a statement and a layer.
fn put_instance(
    text: &mut Vec<u8>,
    word: &[u8],
    path: &Path,
    layer: &LayerName,
) -> Result<(), NoMemory>
    ensures { OnOk result (text.new.items ≡ text.old.items
        ++ (word.now ++ (path_text path.now.steps.items ++ (codes " " ++ layer_text (layer_name_of layer.now))))) }
{
    put(text, word)?;
    put_path(text, path)?;
    put(text, b" ")?;
    put_layer(text, layer)
}

// A layer.
fn put_layer(text: &mut Vec<u8>, layer: &LayerName) -> Result<(), NoMemory>
    ensures { OnOk result (text.new.items ≡ text.old.items ++ layer_text (layer_name_of layer.now)) }
{
    match layer {
        LayerName::Resumed => put(text, b"r"),
        LayerName::Started(root) => {
            put(text, b"s ")?;
            put_path(text, root)
        }
    }
}

// The text of a node of a selection tree, by its form and the path of its statement.
pub fn put_node(text: &mut Vec<u8>, form: SelForm, path: &Path) -> Result<(), NoMemory>
    ensures { OnOk result (text.new.items ≡ text.old.items ++ node_text (form_of form) path.now.steps.items) }
{
    match form {
        SelForm::Leaf(_) => put_word(text, b"leaf ", path),
        SelForm::Excl => put_word(text, b"excl ", path),
        SelForm::Par(over, other) => {
            put_word(text, b"par ", path)?;
            put(text, b" ")?;
            put(text, mark(over))?;
            put(text, mark(other))
        }
        SelForm::Pass => put_word(text, b"pass ", path),
    }
}

// The mark of a branch.
fn mark(marked: bool) -> &'static [u8]
    ensures { result.now ≡ mark_text marked }
{
    if marked { b"1" } else { b"0" }
}

// A word and a path.
fn put_word(text: &mut Vec<u8>, word: &[u8], path: &Path) -> Result<(), NoMemory>
    ensures { OnOk result (text.new.items ≡ text.old.items ++ (word.now ++ path_text path.now.steps.items)) }
{
    put(text, word)?;
    put_path(text, path)
}

// A path.
fn put_path(text: &mut Vec<u8>, path: &Path) -> Result<(), NoMemory>
    ensures { OnOk result (text.new.items ≡ text.old.items ++ path_text path.now.steps.items) }
{
    if path.steps.is_empty() {
        return put(text, b".");
    }
    put_steps(text, &path.steps)
}

// A full stop and the child number for each step.
fn put_steps(text: &mut Vec<u8>, steps: &[u8]) -> Result<(), NoMemory>
    ensures { OnOk result (text.new.items ≡ text.old.items
        ++ flat_map (λ child. codes "." ++ decimal child) steps.now) }
{
    for child in steps {
        put_number(text, b".", usize::from(*child))?;
    }
    Ok(())
}
