// What says that an instance is kept, and that it is held.

ghost use Rattle.std.specs.Prelude.{◌≡◌, ◌+◌, ◌<◌, ◌≤◌, ◌||◌, ◌&&◌, length, map, option_map, slice_index_or};
ghost use Rattle.std.specs.Prelude.{IfOk, IsTrue};
ghost use Rattle.est_kernel.specs.Plain.{program_of, term_of, expression_of};
ghost use Rattle.est_kernel.specs.Preorder.{statement_count};
ghost use Rattle.grc_graph.specs.Layers.{Resumed, layer_above};
ghost use Rattle.grc_graph.specs.Neighbouring.{instances_in, names_in};
ghost use Rattle.grc_graph.specs.PlainGraphs.{instances_of, names_of, instance_at, plain_graph};
ghost use Rattle.grc_graph.specs.PlainInstances.{instance_of, layer_of};
ghost use Rattle.grc_graph.specs.Readings.{Valuation};
ghost use Rattle.grc_graph.specs.Statements.{program_listed};
ghost use Rattle.grc_graph.specs.StatementViews.{view_of, entry_view};
ghost use Rattle.grc_graph.specs.Wires.{End};
ghost use Rattle.grc_formulas.specs.Building.{RowsFit};
ghost use Rattle.grc_formulas.specs.Enclosures.{around};
ghost use Rattle.grc_formulas.specs.Holdings.{AreListed, IsLive, AboveMade, LastsMade, OwnMade, HoldingsMade};
ghost use Rattle.grc_formulas.specs.Holdings.{StatementRead};
ghost use Rattle.grc_formulas.specs.Sizes.{lasting_rows};
ghost use Rattle.grc_graph.specs.RowCosts.{test_of};
ghost use Rattle.grc_formulas.specs.WordLaws.{late_bounds};

use crate::building::{both, either};
use crate::table::{Row, Source};
use crate::tests_of::{test_source, wire_source};
use base_types::{InstId, NoMemory};
use est_kernel::{Kernel, Test};
use grc_graph::{Entry, Graph, Instance, Layer, Neighbours, Statement, layer_above};
use std::alloc::Global;

/// For each instance so far, what says that it is kept, and that it is held.
#[derive(Drop)]
pub(crate) struct Holdings {
    pub kept: Vec<Source>,
    pub held: Vec<Source>,
}

/// The sources of all instances, in order: what an instance's statement says, and what is said of the
/// instance around it, which stands before it.
pub(crate) fn make_holdings(
    alloc: Global,
    graph: &Graph,
    near: &Neighbours,
    statements: &[Statement<'_>],
    rows: &mut Vec<Row>,
) -> Result<Holdings, NoMemory>
    requires listed { AreListed graph.now near.now statements.now }
    requires fit { RowsFit (late_bounds graph.now 0) rows.old.items }
    ensures { IfOk result (λ made. HoldingsMade graph.now rows.old.items rows.new.items made.kept.items made.held.items
        (length graph.now.instances.list.items)) }
{
    let mut made = Holdings {
        kept: Vec::new(alloc),
        held: Vec::new(alloc),
    };
    for i in 0..graph.instances.list.len() {
        let instance = graph.instances.list[i];
        let statement = &statements[instance.path.0 as usize];
        let above = above_sources(graph, near, statements, &made, instance, rows)?;
        let own = own_source(graph, near, i, statement, instance, rows)?;
        let kept_own = both(rows, above.kept, own)?;
        let held = either(rows, above.held, kept_own)?;
        made.kept.push(above.kept)?;
        made.held.push(held)?;
    }
    Ok(made)
}

/// What is said of an instance from around.
#[derive(Clone, Copy)]
struct Above {
    /// It is kept.
    kept: Source,
    /// Some suspension around it holds it.
    held: Source,
}

// The number of the statement around one that is entered so.
fn around(control: Entry<'_>) -> Option<u32>
    ensures { result ≡ around (entry_view control.entry) }
{
    match control {
        Entry::Body => None,
        Entry::Part(n)
        | Entry::Branch(n)
        | Entry::Then(n, _)
        | Entry::Else(n, _)
        | Entry::Suspended(n, _)
        | Entry::Second(n)
        | Entry::Looped(n) => Some(n),
    }
}

// What is said of an instance from around.
fn above_sources(
    graph: &Graph,
    near: &Neighbours,
    statements: &[Statement<'_>],
    made: &Holdings,
    instance: Instance,
    rows: &mut Vec<Row>,
) -> Result<Above, NoMemory>
    requires listed { AreListed graph.now near.now statements.now }
    requires live { IsLive graph.now (length made.now.kept.items) (instance_of instance) }
    requires made { HoldingsMade graph.now rows.old.items rows.old.items made.now.kept.items made.now.held.items
        (length made.now.kept.items) }
    ensures { IfOk result (λ above. AboveMade graph.now
        (instance_of instance) rows.old.items rows.new.items above.kept above.held) }
{
    let path = instance.path.0;
    match around(statements[path as usize].control) {
        None => Ok(Above {
            kept: Source::Const(true),
            held: Source::Const(false),
        }),
        Some(n) => {
            let i = match near.find_above(n, instance.layer) {
                Some(i) => i.0 as usize,
                None => unreachable!(),
            };
            let layer = layer_above(n, instance.layer);
            let lasts = lasts_source(graph, near, statements[n as usize].body, n, layer, rows)?;
            let kept = both(rows, made.kept[i], lasts)?;
            Ok(Above {
                kept,
                held: made.held[i],
            })
        }
    }
}

// What says that a parallel with this number ends with code 1, as what is in it sees it in this layer; of other
// statements nothing is asked.
fn lasts_source(
    graph: &Graph,
    near: &Neighbours,
    body: &Kernel,
    path: u32,
    layer: Layer,
    rows: &mut Vec<Row>,
) -> Result<Source, NoMemory>
    requires names { names_in near.now ≡ names_of graph.now }
    requires fit { RowsFit (late_bounds graph.now 0) rows.old.items }
    requires within { path < statement_count (term_of graph.now.program.body) }
    requires root { layer_above path (layer_of layer) ≡ layer_of layer }
    ensures { IfOk result (LastsMade graph.now (term_of body.now) path (layer_of layer) rows.old.items rows.new.items) }
{
    match body {
        Kernel::Par(_, _) => {
            let own = wire_source(near.find_end(path, layer, 1));
            if sees_resumed(graph, path, layer) {
                let resumed = wire_source(near.find_end(path, Layer::Resumed, 1));
                either(rows, own, resumed)
            } else {
                Ok(own)
            }
        }
        _ => Ok(Source::Const(true)),
    }
}

// Whether what is in a statement with this number sees it resumed, where it sees it in this layer.
fn sees_resumed(graph: &Graph, path: u32, layer: Layer) -> bool
    requires within { path < statement_count (term_of graph.now.program.body) }
    requires root { layer_above path (layer_of layer) ≡ layer_of layer }
    ensures sees { (V : Valuation) → (plain_graph graph.now).lasting V (End path (layer_of layer) 1)
        ≡ (V (End path (layer_of layer) 1) || (result && V (End path Resumed 1))) }
    ensures rows { IsTrue result → lasting_rows graph.now ≡ 1 }
{
    match layer {
        Layer::Resumed => false,
        Layer::Started(root) => match &graph.loops {
            None => false,
            Some(loops) => loops[path as usize].inside == loops[root.0 as usize].above,
        },
    }
}

// What says that an instance is a resumed suspension that runs with a true test.
fn own_source(
    graph: &Graph,
    near: &Neighbours,
    i: usize,
    statement: &Statement<'_>,
    instance: Instance,
    rows: &mut Vec<Row>,
) -> Result<Source, NoMemory>
    requires instances { instances_in near.now ≡ instances_of graph.now }
    requires wires { names_in near.now ≡ names_of graph.now }
    requires fit { RowsFit (late_bounds graph.now 0) rows.old.items }
    requires number { i < length graph.now.instances.list.items }
    requires instance { instance_at (instances_of graph.now) i ≡ instance_of instance }
    requires statement { StatementRead graph.now (instance_of instance).path (view_of statement.now) }
    ensures { IfOk result (λ own. OwnMade graph.now (instance_of instance) rows.old.items rows.new.items own) }
{
    match suspension_test(statement.body) {
        Some(test) => match instance.layer {
            Layer::Resumed => {
                let go = near.go(InstId(i as u32));
                let tested = test_source(graph, near, test, statement.signals.as_slice(), 0, rows)?;
                let source = both(rows, Source::Wire(go), tested.source)?;
                Ok(source)
            }
            Layer::Started(_) => Ok(Source::Const(false)),
        },
        None => Ok(Source::Const(false)),
    }
}

// The test of a suspension.
fn suspension_test(body: &Kernel) -> Option<&Test>
    ensures { option_map (λ t. expression_of t.now) result ≡ test_of (term_of body.now) }
{
    match body {
        Kernel::Suspend(test, _) => Some(test),
        _ => None,
    }
}
