// The signals of points, and their emissions.

ghost use Rattle.std.specs.Prelude.{◌≡◌, ◌+◌, ◌≤◌, IfOk, IsTrue};
ghost use Rattle.est_ast.specs.FlatTrees.{At, MoreStmts, NoStmts, Seq};
ghost use Rattle.est_ast.specs.FlatViews.{flat_stmt_of};
ghost use Rattle.est_cover.specs.Covered.{emission};
ghost use Rattle.est_cover.specs.Nodes.{in_portion, signal_moved, with_mark};
ghost use Rattle.est_cover.specs.Portions.{portion_of};

use crate::portions::Portion;
use base_types::{NoMemory, SigId, Span};
use est_ast::{FlatForm, FlatStmt};
use std::alloc::Global;

/// Whether the point with this number is in it.
#[tactic(auto, unfolding(crate::specs::Nodes::in_portion))]
pub(crate) fn is_in(portion: Portion, number: usize) -> bool
    ensures { result ≡ in_portion portion number }
{
    number >= portion.first && number - portion.first < portion.count as usize
}

/// A signal in the covered program.
#[tactic(auto, unfolding(crate::specs::Nodes::signal_moved))]
pub(crate) fn moved(portion: Portion, signal: SigId) -> SigId
    ensures { result.0 ≡ signal_moved portion signal.0 }
{
    if signal.0 < portion.seen {
        signal
    } else {
        SigId(signal.0.saturating_add(portion.count))
    }
}

/// The emission of the signal of a point.
#[tactic(auto, using(crate::proofs::Rows::in_rows))]
pub(crate) fn mark(portion: Portion, number: usize, at: Span) -> FlatStmt
    requires { IsTrue (in_portion portion number) }
    ensures { flat_stmt_of result ≡ emission (portion_of portion) number at }
{
    let place = (number - portion.first) as u32;
    FlatStmt {
        span: at,
        form: FlatForm::Emit(SigId(portion.seen + place)),
    }
}

/// A statement that starts at a point, with the emission of its signal in front, where the point is in the portion.
#[tactic(auto, using(crate::proofs::Rows::mark_rows))]
pub(crate) fn marked(
    alloc: Global,
    portion: Portion,
    number: usize,
    at: Span,
    statement: FlatStmt,
) -> Result<FlatStmt, NoMemory>
    ensures { IfOk result (λ p. flat_stmt_of p ≡ with_mark portion number at (flat_stmt_of statement)) }
{
    if !is_in(portion, number) {
        return Ok(statement);
    }
    after_emission(alloc, portion, number, at, statement)
}

// The emission of the signal of a point, and then the statement. It waits in a box: a tree that is owned where memory
// runs out is dropped by a call.
#[tactic(auto, using(crate::proofs::Rows::mark_rows))]
fn after_emission(
    alloc: Global,
    portion: Portion,
    number: usize,
    at: Span,
    statement: FlatStmt,
) -> Result<FlatStmt, NoMemory>
    requires { IsTrue (in_portion portion number) }
    ensures { IfOk result (λ p. flat_stmt_of p ≡ At at (Seq (MoreStmts (emission (portion_of portion) number at)
        (MoreStmts (flat_stmt_of statement) NoStmts)))) }
{
    let statement = Box::new(alloc, statement)?;
    let mut parts = Vec::with_capacity(alloc, 2)?;
    parts.push(mark(portion, number, at))?;
    parts.push(Box::into_inner(statement))?;
    let form = FlatForm::Seq(parts);
    Ok(FlatStmt { span: at, form })
}
