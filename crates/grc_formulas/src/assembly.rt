// The table of words of a graph.

ghost use Rattle.std.specs.Prelude.{◌≡◌, ◌+◌, ◌<◌, ◌≤◌, ◌^◌, length, map, IfOk};
ghost use Rattle.est_kernel.specs.Plain.{program_of, interface_count, outgoing_count};
ghost use Rattle.grc_graph.specs.Neighbouring.{names_in};
ghost use Rattle.grc_graph.specs.PlainGraphs.{names_of};
ghost use Rattle.grc_graph.specs.Statements.{program_listed};
ghost use Rattle.grc_graph.specs.StatementViews.{view_of};
ghost use Rattle.grc_formulas.specs.Building.{RowsFit};
ghost use Rattle.grc_formulas.specs.EndLists.{EndsFound, OutputsSaid, PausedMade};
ghost use Rattle.grc_formulas.specs.MadeSources.{AreMade};
ghost use Rattle.grc_formulas.specs.Sizes.{rows_at_most};
ghost use Rattle.grc_formulas.specs.WordLaws.{AreWordsOf, late_bounds};

use crate::building::either;
use crate::held::make_holdings;
use crate::selected::selected_sources;
use crate::table::{Row, Source, Words};
use crate::tests_of::wire_source;
use base_types::{NoMemory, PathId, SigId, WireId};
use grc_graph::{Graph, Layer, Neighbours, Statement, Wire, list_statements};
use std::alloc::Global;

/// The table of words of a graph. Its only error is out of memory.
pub fn words(alloc: Global, graph: &Graph) -> Result<Words, NoMemory>
    ensures words { IfOk result (λ words. AreWordsOf graph.now words) }
    ensures size { IfOk result (λ words. length words.rows.items ≤ rows_at_most graph.now) }
{
    let statements = list_statements(alloc, graph.program())?;
    words_over(alloc, graph, &statements)
}

// The table, where these are the statements of the graph's body.
fn words_over(alloc: Global, graph: &Graph, statements: &[Statement<'_>]) -> Result<Words, NoMemory>
    requires { map view_of statements.now ≡ program_listed (program_of graph.now.program) }
    ensures words { IfOk result (λ words. AreWordsOf graph.now words) }
    ensures size { IfOk result (λ words. length words.rows.items ≤ rows_at_most graph.now) }
{
    let mut rows = Vec::new(alloc);
    let made = made_sources(alloc, graph, statements, &mut rows)?;
    let found = wire_places(alloc, graph)?;
    Ok(Words {
        rows,
        early: made.early,
        selected: made.selected,
        kept: made.kept,
        held: made.held,
        ends: found.ends,
        outputs: found.outputs,
        paused: made.paused,
    })
}

/// What is said by rows, with the number of those that read neither wires nor the event.
#[derive(Drop)]
struct MadeSources {
    early: usize,
    selected: Vec<Source>,
    kept: Vec<Source>,
    held: Vec<Source>,
    paused: Source,
}

// Appends all rows to none, and answers what they say.
fn made_sources(
    alloc: Global,
    graph: &Graph,
    statements: &[Statement<'_>],
    rows: &mut Vec<Row>,
) -> Result<MadeSources, NoMemory>
    requires statements { map view_of statements.now ≡ program_listed (program_of graph.now.program) }
    requires begun { length rows.old.items ≡ 0 }
    ensures { IfOk result (λ made. AreMade graph.now rows.new.items made) }
{
    let near = graph.neighbours();
    let selected = selected_sources(alloc, graph, statements, rows)?;
    let early = rows.len();
    let made = make_holdings(alloc, graph, &near, statements, rows)?;
    let paused = paused_source(graph, &near, rows)?;
    Ok(MadeSources {
        early,
        selected,
        kept: made.kept,
        held: made.held,
        paused,
    })
}

/// What wires say alone: where the ends of each instance begin, and what says that each outgoing signal is present.
#[derive(Drop)]
struct WirePlaces {
    ends: Vec<WireId>,
    outputs: Vec<Source>,
}

// The same for the wires of a graph.
fn wire_places(alloc: Global, graph: &Graph) -> Result<WirePlaces, NoMemory>
    ensures ends { IfOk result (λ found. EndsFound graph.now 0 found.ends.items) }
    ensures outputs { IfOk result (λ found. OutputsSaid graph.now
        (outgoing_count (program_of graph.now.program)) found.outputs.items) }
{
    let near = graph.neighbours();
    let ends = first_ends(alloc, graph)?;
    let outputs = output_sources(alloc, graph, &near)?;
    Ok(WirePlaces { ends, outputs })
}

// What says that the program pauses.
fn paused_source(graph: &Graph, near: &Neighbours, rows: &mut Vec<Row>) -> Result<Source, NoMemory>
    requires names { names_in near.now ≡ names_of graph.now }
    requires fit { RowsFit (late_bounds graph.now 0) rows.old.items }
    ensures { IfOk result (λ paused. PausedMade graph.now rows.old.items rows.new.items paused) }
{
    let resumed = wire_source(near.find_end(0, Layer::Resumed, 1));
    let started = wire_source(near.find_end(0, Layer::Started(PathId(0)), 1));
    let paused = either(rows, resumed, started)?;
    Ok(paused)
}

// For each outgoing signal, in order, what says that it is present.
fn output_sources(alloc: Global, graph: &Graph, near: &Neighbours) -> Result<Vec<Source>, NoMemory>
    requires names { names_in near.now ≡ names_of graph.now }
    requires few { interface_count (program_of graph.now.program) < 2 ^ 32 }
    ensures { IfOk result (λ outputs. OutputsSaid graph.now
        (outgoing_count (program_of graph.now.program)) outputs.items) }
{
    let program = graph.program();
    let count = program.both + program.outputs;
    let mut outputs = Vec::new(alloc);
    for k in 0..count {
        outputs.push(wire_source(near.out(SigId(program.inputs + k))))?;
    }
    Ok(outputs)
}

// For each instance the first of its wires that are ends; one after the last wire where it has none.
fn first_ends(alloc: Global, graph: &Graph) -> Result<Vec<WireId>, NoMemory>
    ensures { IfOk result (λ ends. EndsFound graph.now 0 ends.items) }
{
    let mut ends = vec![in alloc; WireId(graph.wires.len() as u32); graph.instances.list.len()]?;
    for w in (0..graph.wires.len()).rev() {
        if let Wire::End(i, _) = graph.wires[w] {
            ends[i.0 as usize] = WireId(w as u32);
        }
    }
    Ok(ends)
}
