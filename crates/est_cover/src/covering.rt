// Covered statements: the walk that adds the points of a statement to a list, and emits the signal of each point that
// is in a portion.

ghost use Rattle.std.specs.Prelude.{◌≡◌, IfOk, OnOk, length, map};
ghost use Rattle.est_ast.specs.FlatTrees.{At as flat_at, Missing, Written};
ghost use Rattle.est_ast.specs.FlatViews.{flat_case_of, flat_expr_of, flat_form_of, flat_part_of, flat_stmt_of};
ghost use Rattle.est_cover.specs.Nodes.{case_covered, case_points, choice_points, choices_covered, empty_covered};
ghost use Rattle.est_cover.specs.Nodes.{list_covered};
ghost use Rattle.est_cover.specs.Nodes.{list_points, more_points, node_covered, node_points, part_covered, part_points};
ghost use Rattle.est_cover.specs.Nodes.{rest_covered, rest_points, stmt_covered, stmt_points, with_mark};

use crate::marks::{is_in, mark, marked};
use crate::moving::moved_test;
use crate::points::{Point, PointKind};
use crate::portions::Portion;
use crate::{forms as rows, leaves};
use base_types::{NoMemory, Span};
use est_ast::{FlatCase, FlatExpr, FlatForm, FlatStmt};
use std::alloc::Global;

/// One more point.
#[tactic(auto, unfolding(crate::specs::Nodes::more_points))]
pub(crate) fn start(points: &mut Vec<Point>, kind: PointKind, at: Span) -> Result<(), NoMemory>
    ensures { OnOk result (points.new.items ≡ more_points kind at points.old.items) }
{
    points.push(Point { kind, span: at })?;
    Ok(())
}

/// The covered statement. The points of the statement come after the others.
#[cycle(covering)]
#[tactic(auto, using(crate::proofs::Rows::stmt_rows))]
pub(crate) fn cover(
    alloc: Global,
    portion: Portion,
    points: &mut Vec<Point>,
    statement: &FlatStmt,
) -> Result<FlatStmt, NoMemory>
    ensures covers { IfOk result (λ p. flat_stmt_of p ≡ stmt_covered portion points.old.items statement.now) }
    ensures points { OnOk result (points.new.items ≡ stmt_points points.old.items statement.now) }
{
    cover_form(alloc, portion, points, statement.span, &statement.form)
}

// That of a statement of this form.
#[cycle(covering)]
#[tactic(auto, using(crate::proofs::Rows::bare_rows))]
fn cover_form(
    alloc: Global,
    portion: Portion,
    points: &mut Vec<Point>,
    at: Span,
    form: &FlatForm,
) -> Result<FlatStmt, NoMemory>
    ensures covers { IfOk result (λ p. flat_stmt_of p ≡ node_covered portion points.old.items at form.now) }
    ensures points { OnOk result (points.new.items ≡ node_points points.old.items at form.now) }
{
    match form {
        FlatForm::Nothing => Ok(plain(at, FlatForm::Nothing)),
        FlatForm::Exit(between) => Ok(plain(at, FlatForm::Exit(*between))),
        FlatForm::Pause => leaves::cover_pause(alloc, portion, points, at),
        FlatForm::Halt => leaves::cover_halt(alloc, portion, points, at),
        FlatForm::Emit(signal) => leaves::cover_emit(alloc, portion, points, at, *signal),
        FlatForm::Sustain(signal) => leaves::cover_sustain(alloc, portion, points, at, *signal),
        FlatForm::Await(delay, rest) => rows::cover_await(alloc, portion, points, at, delay, rest),
        FlatForm::AwaitCase(cases) => rows::cover_await_case(alloc, portion, points, at, cases),
        FlatForm::Present(test, yes, no) => {
            rows::cover_present(alloc, portion, points, at, test, yes, no)
        }
        FlatForm::PresentCase(cases, no) => {
            rows::cover_present_case(alloc, portion, points, at, cases, no)
        }
        FlatForm::Loop(body) => rows::cover_loop(alloc, portion, points, at, body),
        FlatForm::LoopEach(body, delay) => {
            rows::cover_loop_each(alloc, portion, points, at, body, delay)
        }
        FlatForm::Every(delay, body) => rows::cover_every(alloc, portion, points, at, delay, body),
        FlatForm::Repeat(count, place, body) => {
            rows::cover_repeat(alloc, portion, points, at, *count, *place, body)
        }
        FlatForm::Abort(body, delay, rest) => {
            rows::cover_abort(alloc, portion, points, at, body, delay, rest)
        }
        FlatForm::AbortCase(body, cases) => {
            rows::cover_abort_case(alloc, portion, points, at, body, cases)
        }
        FlatForm::WeakAbort(body, delay) => {
            rows::cover_weak_abort(alloc, portion, points, at, body, delay)
        }
        FlatForm::Suspend(body, delay) => {
            rows::cover_suspend(alloc, portion, points, at, body, delay)
        }
        FlatForm::Trap(body, rest) => rows::cover_trap(alloc, portion, points, at, body, rest),
        FlatForm::Signal(signals, body) => {
            rows::cover_signal(alloc, portion, points, at, signals, body)
        }
        FlatForm::Seq(parts) => rows::cover_seq(alloc, portion, points, at, parts),
        FlatForm::Par(parts) => rows::cover_par(alloc, portion, points, at, parts),
    }
}

// A statement of this form.
fn plain(span: Span, form: FlatForm) -> FlatStmt
    ensures { flat_stmt_of result ≡ flat_at span (flat_form_of form) }
{
    FlatStmt { span, form }
}

/// The covered statement in a box.
#[cycle(covering)]
#[inline(never)]
pub(crate) fn inside(
    alloc: Global,
    portion: Portion,
    points: &mut Vec<Point>,
    body: &Box<FlatStmt>,
) -> Result<Box<FlatStmt>, NoMemory>
    ensures covers { IfOk result (λ p. flat_stmt_of p.value ≡ stmt_covered portion points.old.items body.now.value) }
    ensures points { OnOk result (points.new.items ≡ stmt_points points.old.items body.now.value) }
{
    let made = cover(alloc, portion, points, body)?;
    Ok(Box::new(alloc, made)?)
}

// The covered statement, which starts at a point of this kind.
#[cycle(covering)]
#[inline(never)]
fn begun(
    alloc: Global,
    portion: Portion,
    points: &mut Vec<Point>,
    kind: PointKind,
    body: &FlatStmt,
) -> Result<FlatStmt, NoMemory>
    ensures covers { IfOk result (λ p. flat_stmt_of p ≡ with_mark portion (length points.old.items) body.now.span
        (stmt_covered portion (more_points kind body.now.span points.old.items) body.now)) }
    ensures points { OnOk result (points.new.items
        ≡ stmt_points (more_points kind body.now.span points.old.items) body.now) }
{
    let number = points.len();
    let at = body.span;
    start(points, kind, at)?;
    let made = cover(alloc, portion, points, body)?;
    marked(alloc, portion, number, at, made)
}

/// A branch of a test. Where it is not written, it has a point nevertheless.
#[cycle(covering)]
#[inline(never)]
#[tactic(auto, using(crate::proofs::Rows::branch_rows))]
pub(crate) fn branch(
    alloc: Global,
    portion: Portion,
    points: &mut Vec<Point>,
    kind: PointKind,
    at: Span,
    part: &Option<Box<FlatStmt>>,
) -> Result<Option<Box<FlatStmt>>, NoMemory>
    ensures covers { IfOk result (λ q. flat_part_of q ≡ part_covered portion kind at points.old.items part.now) }
    ensures points { OnOk result (points.new.items ≡ part_points kind at points.old.items part.now) }
{
    match part {
        None => empty_branch(alloc, portion, points, kind, at),
        Some(body) => {
            let made = begun(alloc, portion, points, kind, body)?;
            Ok(Some(Box::new(alloc, made)?))
        }
    }
}

// A branch that is not written.
#[tactic(auto, using(crate::proofs::Rows::part_rows))]
fn empty_branch(
    alloc: Global,
    portion: Portion,
    points: &mut Vec<Point>,
    kind: PointKind,
    at: Span,
) -> Result<Option<Box<FlatStmt>>, NoMemory>
    ensures covers { IfOk result (λ q. flat_part_of q ≡ empty_covered portion (length points.old.items) at) }
    ensures points { OnOk result (points.new.items ≡ more_points kind at points.old.items) }
{
    let number = points.len();
    start(points, kind, at)?;
    if is_in(portion, number) {
        Ok(Some(Box::new(alloc, mark(portion, number, at))?))
    } else {
        Ok(None)
    }
}

/// What comes after a wait, an abortion or a trap, where it is written.
#[cycle(covering)]
#[inline(never)]
#[tactic(auto, using(crate::proofs::Rows::handler_rows))]
pub(crate) fn handler(
    alloc: Global,
    portion: Portion,
    points: &mut Vec<Point>,
    kind: PointKind,
    part: &Option<Box<FlatStmt>>,
) -> Result<Option<Box<FlatStmt>>, NoMemory>
    ensures covers { IfOk result (λ q. flat_part_of q ≡ rest_covered portion kind points.old.items part.now) }
    ensures points { OnOk result (points.new.items ≡ rest_points kind points.old.items part.now) }
{
    match part {
        None => Ok(None),
        Some(body) => {
            let made = begun(alloc, portion, points, kind, body)?;
            Ok(Some(Box::new(alloc, made)?))
        }
    }
}

/// Statements in a list.
#[cycle(covering)]
pub(crate) fn parts_of(
    alloc: Global,
    portion: Portion,
    points: &mut Vec<Point>,
    parts: &[FlatStmt],
) -> Result<Vec<FlatStmt>, NoMemory>
    ensures covers { IfOk result (λ made. map flat_stmt_of made.items
        ≡ list_covered portion points.old.items parts.now) }
    ensures points { OnOk result (points.new.items ≡ list_points points.old.items parts.now) }
{
    let mut made = Vec::new(alloc);
    for part in parts {
        made.push(cover(alloc, portion, points, part)?)?;
    }
    Ok(made)
}

/// Cases.
#[cycle(covering)]
pub(crate) fn cases_of(
    alloc: Global,
    portion: Portion,
    points: &mut Vec<Point>,
    at: Span,
    cases: &[FlatCase],
) -> Result<Vec<FlatCase>, NoMemory>
    ensures covers { IfOk result (λ made. map flat_case_of made.items
        ≡ choices_covered portion at points.old.items cases.now) }
    ensures points { OnOk result (points.new.items ≡ choice_points at points.old.items cases.now) }
{
    let mut made = Vec::new(alloc);
    for case in cases {
        made.push(case_of(alloc, portion, points, at, case)?)?;
    }
    Ok(made)
}

// A case.
#[cycle(covering)]
#[tactic(auto, using(crate::proofs::Rows::case_rows))]
fn case_of(
    alloc: Global,
    portion: Portion,
    points: &mut Vec<Point>,
    at: Span,
    case: &FlatCase,
) -> Result<FlatCase, NoMemory>
    ensures covers { IfOk result (λ c. flat_case_of c ≡ case_covered portion at points.old.items case.now) }
    ensures points { OnOk result (points.new.items ≡ case_points at points.old.items case.now) }
{
    let event = moved_test(alloc, portion, &case.event)?;
    let Some(body) = &case.body else {
        return empty_case(portion, points, at, event);
    };
    let body = begun(alloc, portion, points, PointKind::Case, body)?;
    Ok(written_case(event, body))
}

// A case in which nothing is written.
#[tactic(auto, using(crate::proofs::Rows::part_rows))]
fn empty_case(
    portion: Portion,
    points: &mut Vec<Point>,
    at: Span,
    event: FlatExpr,
) -> Result<FlatCase, NoMemory>
    ensures covers { IfOk result (λ c. flat_case_of c
        ≡ (flat_expr_of event, empty_covered portion (length points.old.items) at)) }
    ensures points { OnOk result (points.new.items ≡ more_points PointKind.Case at points.old.items) }
{
    let number = points.len();
    start(points, PointKind::Case, at)?;
    if is_in(portion, number) {
        Ok(written_case(event, mark(portion, number, at)))
    } else {
        Ok(bare_case(event))
    }
}

// A case that does this.
fn written_case(event: FlatExpr, body: FlatStmt) -> FlatCase
    ensures { flat_case_of result ≡ (flat_expr_of event, Written (flat_stmt_of body)) }
{
    let body = Some(body);
    FlatCase { event, body }
}

// A case that does nothing.
fn bare_case(event: FlatExpr) -> FlatCase
    ensures { flat_case_of result ≡ (flat_expr_of event, Missing) }
{
    let body = None;
    FlatCase { event, body }
}
