// What says that a statement holds a selected pause.

ghost use Rattle.std.specs.Prelude.{◌≡◌, ◌<◌, ◌≤◌, length, map, IfOk, OnOk};
ghost use Rattle.est_kernel.specs.Plain.{program_of, term_of};
ghost use Rattle.est_kernel.specs.Preorder.{statement_count};
ghost use Rattle.grc_graph.specs.Statements.{program_listed};
ghost use Rattle.grc_graph.specs.StatementViews.{view_of};
ghost use Rattle.grc_formulas.specs.Choosing.{LeavesChosen, SelectedMade};
ghost use Rattle.grc_formulas.specs.PartKinds.{parts_of};

use crate::building::either;
use crate::table::{Row, Source};
use base_types::NoMemory;
use est_kernel::Kernel;
use grc_graph::{Graph, SelForm, Statement};
use std::alloc::Global;

/// For each statement, what says that it holds a selected pause, by rows that are appended to none. These are the
/// statements of the graph's body.
pub(crate) fn selected_sources(
    alloc: Global,
    graph: &Graph,
    statements: &[Statement<'_>],
    rows: &mut Vec<Row>,
) -> Result<Vec<Source>, NoMemory>
    requires statements { map view_of statements.now ≡ program_listed (program_of graph.now.program) }
    requires begun { length rows.old.items ≡ 0 }
    ensures { IfOk result (λ sources. SelectedMade graph.now sources.items rows.new.items 0) }
{
    let mut sources = leaf_sources(alloc, graph, statements.len())?;
    select_parts(graph, statements, &mut sources, rows)?;
    Ok(sources)
}

// For each statement, what says that it is a selected pause.
fn leaf_sources(alloc: Global, graph: &Graph, count: usize) -> Result<Vec<Source>, NoMemory>
    requires { count ≡ statement_count (term_of graph.now.program.body) }
    ensures { IfOk result (λ sources. LeavesChosen graph.now count sources.items) }
{
    let tree = &graph.tree;
    let mut sources = vec![in alloc; Source::Const(false); count]?;
    for place in (0..tree.nodes.len()).rev() {
        let node = tree.nodes[place];
        if let SelForm::Leaf(leaf) = node.form {
            sources[node.path.0 as usize] = Source::Leaf(leaf);
        }
    }
    Ok(sources)
}

// For each statement, what says that it holds a selected pause: the or of what its parts say. The
// parts of a statement come after it.
fn select_parts(
    graph: &Graph,
    statements: &[Statement<'_>],
    sources: &mut [Source],
    rows: &mut Vec<Row>,
) -> Result<(), NoMemory>
    requires statements { map view_of statements.now ≡ program_listed (program_of graph.now.program) }
    requires leaves { LeavesChosen graph.now (length statements.now) sources.old }
    requires begun { length rows.old.items ≡ 0 }
    ensures { OnOk result (SelectedMade graph.now sources.new rows.new.items 0) }
{
    for place in (0..statements.len()).rev() {
        let own = sources[place];
        let source = match parts_of(&statements[place]) {
            Parts::Itself => own,
            Parts::None => Source::Const(false),
            Parts::One => sources[place + 1],
            Parts::Two(second) => {
                let first = sources[place + 1];
                let other = sources[second as usize];
                either(rows, first, other)?
            }
        };
        sources[place] = source;
    }
    Ok(())
}

/// The parts of a statement that may hold a selected pause: a pause is one itself, and a second part
/// goes by its number.
#[derive(Clone, Copy)]
enum Parts {
    Itself,
    None,
    One,
    Two(u32),
}

fn parts_of(statement: &Statement<'_>) -> Parts
    ensures { result ≡ parts_of (view_of statement.now) }
{
    match statement.body {
        Kernel::Pause => Parts::Itself,
        Kernel::Nothing | Kernel::Emit(_) | Kernel::Exit(_) => Parts::None,
        Kernel::Suspend(_, _) | Kernel::Loop(_, _) | Kernel::Trap(_) | Kernel::Local(_, _) => {
            Parts::One
        }
        Kernel::Present(_, _, _) | Kernel::Seq(_, _) | Kernel::Par(_, _) => {
            Parts::Two(statement.second)
        }
    }
}
