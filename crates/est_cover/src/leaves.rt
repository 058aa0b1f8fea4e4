// A function for each form of a statement without parts that is a point.

ghost use Rattle.std.specs.Prelude.{◌≡◌, IfOk, OnOk};
ghost use Rattle.est_ast.specs.FlatViews.{flat_stmt_of};
ghost use Rattle.est_ast.specs.declared.flat.FlatForm.TheVariants.{Emit, Halt, Pause, Sustain};
ghost use Rattle.est_cover.specs.Nodes.{node_covered, node_points};

use crate::covering::start;
use crate::marks::{marked, moved};
use crate::points::{Point, PointKind};
use crate::portions::Portion;
use base_types::{NoMemory, SigId, Span};
use est_ast::{FlatForm, FlatStmt};
use std::alloc::Global;

/// `pause`.
#[tactic(auto, using(crate::proofs::Rows::pause_rows))]
pub(crate) fn cover_pause(
    alloc: Global,
    portion: Portion,
    points: &mut Vec<Point>,
    at: Span,
) -> Result<FlatStmt, NoMemory>
    ensures covers { IfOk result (λ p. flat_stmt_of p ≡ node_covered portion points.old.items at Pause) }
    ensures points { OnOk result (points.new.items ≡ node_points points.old.items at Pause) }
{
    let number = points.len();
    start(points, PointKind::Pause, at)?;
    let form = FlatForm::Pause;
    marked(alloc, portion, number, at, FlatStmt { span: at, form })
}

/// `halt`.
#[tactic(auto, using(crate::proofs::Rows::halt_rows))]
pub(crate) fn cover_halt(
    alloc: Global,
    portion: Portion,
    points: &mut Vec<Point>,
    at: Span,
) -> Result<FlatStmt, NoMemory>
    ensures covers { IfOk result (λ p. flat_stmt_of p ≡ node_covered portion points.old.items at Halt) }
    ensures points { OnOk result (points.new.items ≡ node_points points.old.items at Halt) }
{
    let number = points.len();
    start(points, PointKind::Halt, at)?;
    let form = FlatForm::Halt;
    marked(alloc, portion, number, at, FlatStmt { span: at, form })
}

/// `emit S`.
#[tactic(auto, using(crate::proofs::Rows::emit_rows))]
pub(crate) fn cover_emit(
    alloc: Global,
    portion: Portion,
    points: &mut Vec<Point>,
    at: Span,
    signal: SigId,
) -> Result<FlatStmt, NoMemory>
    ensures covers { IfOk result (λ p. flat_stmt_of p ≡ node_covered portion points.old.items at (Emit signal)) }
    ensures points { OnOk result (points.new.items ≡ node_points points.old.items at (Emit signal)) }
{
    let number = points.len();
    start(points, PointKind::Emit, at)?;
    let form = FlatForm::Emit(moved(portion, signal));
    marked(alloc, portion, number, at, FlatStmt { span: at, form })
}

/// `sustain S`.
#[tactic(auto, using(crate::proofs::Rows::sustain_rows))]
pub(crate) fn cover_sustain(
    alloc: Global,
    portion: Portion,
    points: &mut Vec<Point>,
    at: Span,
    signal: SigId,
) -> Result<FlatStmt, NoMemory>
    ensures covers { IfOk result (λ p. flat_stmt_of p ≡ node_covered portion points.old.items at (Sustain signal)) }
    ensures points { OnOk result (points.new.items ≡ node_points points.old.items at (Sustain signal)) }
{
    let number = points.len();
    start(points, PointKind::Sustain, at)?;
    let form = FlatForm::Sustain(moved(portion, signal));
    marked(alloc, portion, number, at, FlatStmt { span: at, form })
}
