// The values of an instant.

ghost use Rattle.std.specs.Prelude.{◌≡◌, ℕ, ◌+◌, ◌<◌, ◌≤◌, ◌++◌, ◌∷◌, [], true, false, length, map, take};
ghost use Rattle.std.specs.Prelude.{slice_index_or, All, IfOk, IsTrue};
ghost use Rattle.std.specs.List.{list_any};
ghost use Rattle.grc_graph.specs.GraphRuns.{shown};
ghost use Rattle.grc_graph.specs.PlainGraphs.{names_of, plain_graph};
ghost use Rattle.grc_solutions.specs.Evaluations.{valuation_of};
ghost use Rattle.grc_evaluate.specs.Evaluations.{Begins, Late, bounds_of, formula_under, start_state, surroundings_of};
ghost use Rattle.grc_formulas.specs.Rows.{row_fits, row_values, source_fits, source_value};
ghost use Rattle.grc_formulas.specs.declared.table.Row.{Row};
ghost use Rattle.grc_formulas.specs.declared.table.Source.{Source};
ghost use Rattle.grc_evaluate.specs.Evaluations.{IsKnown};
ghost use Rattle.grc_ternary_gates.specs.Systems.{is_unknown};
ghost use Rattle.grc_ternary_run.specs.Rooms.{HasRoom, Settled, are_true, are_unknown, is_true, sources_in};
ghost use Rattle.grc_ternary_run.specs.Systems.{IsSystemOf};

use crate::numbers::{BOOT, FALSE, INPUTS, TRUE};
use base_types::NoMemory;
use grc_evaluate::{Start, evaluate, row_value, source_value};
use grc_formulas::{Row, Source, Words};
use grc_graph::Graph;
use grc_ternary_gates::{Solver, System, Value};
use std::alloc::Global;

/// Room for the values of an instant: of the nodes and sources of the system, of the rows of the table of
/// words, of the wires once all are known, and of the leaves in the next instant.
#[derive(Drop)]
pub(crate) struct Room {
    pub solver: Solver,
    pub sources: Vec<bool>,
    pub rows: Vec<bool>,
    pub wires: Vec<bool>,
    pub next: Vec<bool>,
}

impl Room {
    /// Finds the least solution of the system in an instant. It takes no memory.
    pub fn settle(&mut self, graph: &Graph, words: &Words, system: &System, start: &Start<'_>)
        requires room { HasRoom graph.now words.now system.now self.old }
        requires system { IsSystemOf graph.now words.now system.now }
        requires plain { All (λ f. IsKnown ⊥ f) graph.now.equations.items }
        requires begins { Begins graph.now words.now start.now }
        ensures room { HasRoom graph.now words.now system.now self.new }
        ensures settled { Settled graph.now start.now self.new }
    {
        let early = words.early;
        fill_rows(start, &self.wires, &words.rows, 0, early, &mut self.rows);
        put_sources(words, start, &self.rows[..early], &mut self.sources);
        self.solver.settle(system, &self.sources);
    }

    /// Reads off the solution, in which all wires are known, what the leaves are in the next instant, with the
    /// values of all wires and rows. It takes no memory.
    pub fn read_off(&mut self, graph: &Graph, words: &Words, system: &System, start: &Start<'_>)
        requires room { HasRoom graph.now words.now system.now self.old }
        requires system { IsSystemOf graph.now words.now system.now }
        requires begins { Begins graph.now words.now start.now }
        ensures room { HasRoom graph.now words.now system.now self.new }
        ensures wires { self.new.wires.items ≡ are_true (length graph.now.wires.items) self.old.solver.values.items }
        ensures late { Late graph.now words.now start.now self.new.wires.items self.new.rows.items }
        ensures next { self.new.next.items
            ≡ map (formula_under graph.now start.now self.new.wires.items) (plain_graph graph.now).next }
    {
        put_true(&self.solver.values, &mut self.wires);
        let rows = words.rows.len();
        fill_rows(start, &self.wires, &words.rows, 0, rows, &mut self.rows);
        put_next(graph, words, start, &self.wires, &self.rows, &mut self.next);
    }
}

impl Room {
    /// What is shown of the instant: which outgoing signals are present, and, as the answer, whether the program
    /// pauses. It takes no memory.
    pub fn show(
        &self,
        graph: &Graph,
        words: &Words,
        start: &Start<'_>,
        outputs: &mut Vec<bool>,
    ) -> bool
        requires late { Late graph.now words.now start.now self.now.wires.items self.now.rows.items }
        requires room { length outputs.old.items ≡ length words.now.outputs.items }
        ensures len { length outputs.new.items ≡ length outputs.old.items }
        ensures outputs { outputs.new.items
            ≡ (shown (plain_graph graph.now) (valuation_of (names_of graph.now) self.now.wires.items)).outputs }
        ensures paused { result
            ≡ (shown (plain_graph graph.now) (valuation_of (names_of graph.now) self.now.wires.items)).paused }
    {
        put_values(start, &self.wires, &self.rows, &words.outputs, 0, outputs);
        source_value(start, &self.wires, &self.rows, words.paused)
    }
}

/// Room for the values of an instant. Its only error is out of memory.
pub(crate) fn make_room(
    alloc: Global,
    graph: &Graph,
    words: &Words,
    system: &System,
) -> Result<Room, NoMemory>
    ensures { IfOk result (λ r. HasRoom graph.now words.now system.now r) }
{
    Ok(Room {
        solver: Solver::new(alloc, system.gates.len())?,
        sources: vec![in alloc; false; system.sources]?,
        rows: vec![in alloc; false; words.rows.len()]?,
        wires: vec![in alloc; false; graph.wires.len()]?,
        next: vec![in alloc; false; graph.next.len()]?,
    })
}

// Gives the rows from one number up to another their values, where those before have theirs.
fn fill_rows(
    start: &Start<'_>,
    wires: &[bool],
    table: &[Row],
    from: usize,
    to: usize,
    rows: &mut Vec<bool>,
)
    requires from { from ≤ to }
    requires to { to ≤ length table.now }
    requires room { length rows.old.items ≡ length table.now }
    requires fits { (k : ℕ) (d : Row) → k < to
        → IsTrue (row_fits (bounds_of start.now wires.now k) (slice_index_or table.now k d)) }
    requires before { take from rows.old.items
        ≡ row_values (surroundings_of start.now wires.now) [] (take from table.now) }
    ensures len { length rows.new.items ≡ length rows.old.items }
    ensures values { take to rows.new.items ≡ row_values (surroundings_of start.now wires.now) [] (take to table.now) }
{
    for k in from..to {
        let value = row_value(start, wires, &rows[..k], table[k]);
        rows[k] = value;
    }
}

// Gives the sources their values in an instant.
fn put_sources(words: &Words, start: &Start<'_>, rows: &[bool], sources: &mut Vec<bool>)
    requires room { length sources.old.items
        ≡ 3 + length start.now.inputs.now + length words.now.selected.items }
    requires fits { (k : ℕ) (d : Source) → k < length words.now.selected.items
        → IsTrue (source_fits (bounds_of start.now [] (length rows.now))
        (slice_index_or words.now.selected.items k d)) }
    ensures { sources.new.items ≡ sources_in words.now start.now rows.now }
{
    put_given(start, sources);
    let from = INPUTS + start.inputs.len();
    put_values(start, &[], rows, &words.selected, from, sources);
}

// Gives the first sources their values: the constants, whether this is the first instant, and the event.
fn put_given(start: &Start<'_>, sources: &mut Vec<bool>)
    requires { 3 + length start.now.inputs.now ≤ length sources.old.items }
    ensures len { length sources.new.items ≡ length sources.old.items }
    ensures front { take (3 + length start.now.inputs.now) sources.new.items
        ≡ false ∷ (true ∷ (start.now.boot ∷ start.now.inputs.now)) }
{
    sources[FALSE] = false;
    sources[TRUE] = true;
    sources[BOOT] = start.boot;
    for (k, given) in start.inputs.iter().enumerate() {
        sources[INPUTS + k] = *given;
    }
}

// Gives each place from this one on the value of its source.
fn put_values(
    start: &Start<'_>,
    wires: &[bool],
    rows: &[bool],
    list: &[Source],
    from: usize,
    values: &mut Vec<bool>,
)
    requires room { length values.old.items ≡ from + length list.now }
    requires fits { (k : ℕ) (d : Source) → k < length list.now
        → IsTrue (source_fits (bounds_of start.now wires.now (length rows.now)) (slice_index_or list.now k d)) }
    ensures { values.new.items ≡ take from values.old.items
        ++ map (source_value (surroundings_of start.now wires.now) rows.now) list.now }
{
    for (k, source) in list.iter().enumerate() {
        values[from + k] = source_value(start, wires, rows, *source);
    }
}

fn is_true(value: Value) -> bool
    ensures { result ≡ is_true value }
{
    matches!(value, Value::True)
}

fn is_unknown(value: Value) -> bool
    ensures { result ≡ is_unknown value }
{
    matches!(value, Value::Unknown)
}

// For each wire whether it is true.
fn put_true(values: &[Value], wires: &mut Vec<bool>)
    requires { length wires.old.items ≤ length values.now }
    ensures { wires.new.items ≡ are_true (length wires.old.items) values.now }
{
    for wire in 0..wires.len() {
        wires[wire] = is_true(values[wire]);
    }
}

/// For each wire whether it is unknown; the answer is whether one is. It takes no memory.
pub(crate) fn mark_unknown(values: &[Value], marks: &mut Vec<bool>) -> bool
    requires { length marks.old.items ≤ length values.now }
    ensures marks { marks.new.items ≡ are_unknown (length marks.old.items) values.now }
    ensures some { result ≡ list_any (λ b. b) marks.new.items }
{
    let mut some = false;
    for wire in 0..marks.len() {
        let unknown = is_unknown(values[wire]);
        marks[wire] = unknown;
        some = some || unknown;
    }
    some
}

// For each leaf whether it is selected in the next instant.
fn put_next(
    graph: &Graph,
    words: &Words,
    start: &Start<'_>,
    wires: &[bool],
    rows: &[bool],
    next: &mut Vec<bool>,
)
    requires late { Late graph.now words.now start.now wires.now rows.now }
    requires room { length next.old.items ≡ length graph.now.next.items }
    ensures { next.new.items ≡ map (formula_under graph.now start.now wires.now) (plain_graph graph.now).next }
{
    for (leaf, formula) in graph.next.iter().enumerate() {
        next[leaf] = evaluate(graph, words, start, wires, rows, formula);
    }
}
