// The values of formulas.

ghost use Rattle.std.specs.Prelude.{◌≡◌, ◌<◌, length, IsTrue, All};
ghost use Rattle.std.specs.List.{list_any};
ghost use Rattle.grc_graph.specs.GraphShapes.{formula_fits};
ghost use Rattle.grc_graph.specs.PlainGraphs.{formula_of, instances_of, names_of};
ghost use Rattle.grc_formulas.specs.WordLaws.{AreWordsOf, first_end, ends_upto, any_from};
ghost use Rattle.grc_evaluate.specs.Evaluations.{Stage, IsKnown, formula_under, value_at};

use crate::rows::{Start, source_value};
use base_types::{InstId, WireId};
use grc_formulas::{Words, is_end_upto, selected_source};
use grc_graph::{Formula, Graph};

/// The value of a formula, where the wires and the rows have these values. It takes no memory.
pub fn evaluate(
    graph: &Graph,
    words: &Words,
    start: &Start<'_>,
    wires: &[bool],
    rows: &[bool],
    formula: &Formula,
) -> bool
    requires stage { Stage graph.now words.now start.now wires.now rows.now }
    requires fits { IsTrue (formula_fits (length graph.now.instances.list.items)
        (length graph.now.wires.items) formula.now) }
    requires known { IsKnown (length rows.now ≡ length words.now.rows.items) formula.now }
    ensures { result ≡ formula_under graph.now start.now wires.now
        (formula_of (instances_of graph.now) (names_of graph.now) formula.now) }
{
    match formula {
        Formula::Const(value) => *value,
        Formula::Boot => start.boot,
        Formula::Input(signal) => value_at(start.inputs, signal.0 as usize),
        Formula::Wire(wire) => wires[wire.0 as usize],
        Formula::Selected(path) => source_value(start, wires, rows, selected_source(words, *path)),
        Formula::Upto(instance, code) => ends_by(graph, words, wires, *instance, *code),
        Formula::Kept(instance) => {
            source_value(start, wires, rows, words.kept[instance.0 as usize])
        }
        Formula::Held(instance) => {
            source_value(start, wires, rows, words.held[instance.0 as usize])
        }
        Formula::Not(part) => !evaluate(graph, words, start, wires, rows, part),
        Formula::And(left, right) => {
            let first = evaluate(graph, words, start, wires, rows, left);
            let second = evaluate(graph, words, start, wires, rows, right);
            first && second
        }
        Formula::Or(left, right) => {
            let first = evaluate(graph, words, start, wires, rows, left);
            let second = evaluate(graph, words, start, wires, rows, right);
            first || second
        }
        Formula::AnyOf(list) => any_of(wires, list),
    }
}

// The value at a place; after the last one it is false.
fn value_at(values: &[bool], place: usize) -> bool
    ensures { result ≡ value_at values.now place }
{
    if place < values.len() {
        values[place]
    } else {
        false
    }
}

// Whether an instance ends with a code of at most this one. Its ends stand side by side, in ascending
// order of their codes.
fn ends_by(graph: &Graph, words: &Words, wires: &[bool], instance: InstId, code: u8) -> bool
    requires words { AreWordsOf graph.now words.now }
    requires wires { length wires.now ≡ length graph.now.wires.items }
    requires instance { instance.0 < length graph.now.instances.list.items }
    ensures { result ≡ any_from (value_at wires.now) (first_end words.now instance.0)
        (ends_upto graph.now words.now instance.0 code) }
{
    let first = words.ends[instance.0 as usize].0 as usize;
    for wire in first..graph.wires.len() {
        if !is_end_upto(graph.wires[wire], instance, code) {
            return false;
        }
        if wires[wire] {
            return true;
        }
    }
    false
}

// Whether one of the wires is true.
fn any_of(wires: &[bool], list: &[WireId]) -> bool
    requires { All (λ v. v.0 < length wires.now) list.now }
    ensures { result ≡ list_any (λ v. value_at wires.now v.0) list.now }
{
    for wire in list {
        if wires[wire.0 as usize] {
            return true;
        }
    }
    false
}
