// A function for each form of a statement with parts: statements are in one another up to the limit on depths, and the
// walk keeps on the stack what one form needs and no other's. So none is inlined into the function that chooses among
// them. Each takes its parts as the form holds them, boxes and lists, so that its contract can name the form.

ghost use Rattle.std.specs.Prelude.{◌≡◌, IfOk, OnOk};
ghost use Rattle.est_ast.specs.FlatViews.{flat_stmt_of};
ghost use Rattle.est_ast.specs.declared.flat.FlatForm.TheVariants.{Abort, AbortCase, Await, AwaitCase, Every, Loop};
ghost use Rattle.est_ast.specs.declared.flat.FlatForm.TheVariants.{LoopEach, Par, Present, PresentCase, Repeat, Seq};
ghost use Rattle.est_ast.specs.declared.flat.FlatForm.TheVariants.{Signal, Suspend, Trap, WeakAbort};
ghost use Rattle.est_cover.specs.Nodes.{node_covered, node_points};

use crate::covering::{branch, cases_of, handler, inside, parts_of, start};
use crate::marks::marked;
use crate::moving::{moved_delay, moved_signals, moved_test};
use crate::points::{Point, PointKind};
use crate::portions::Portion;
use base_types::{NoMemory, SigId, Span};
use est_ast::{FlatCase, FlatDelay, FlatExpr, FlatForm, FlatStmt};
use std::alloc::Global;

/// `await d`, and what comes after it.
#[cycle(covering)]
#[inline(never)]
#[tactic(auto, using(crate::proofs::Rows::await_rows))]
pub(crate) fn cover_await(
    alloc: Global,
    portion: Portion,
    points: &mut Vec<Point>,
    at: Span,
    delay: &FlatDelay,
    rest: &Option<Box<FlatStmt>>,
) -> Result<FlatStmt, NoMemory>
    ensures covers { IfOk result (λ p. flat_stmt_of p
        ≡ node_covered portion points.old.items at (Await delay.now rest.now)) }
    ensures points { OnOk result (points.new.items ≡ node_points points.old.items at (Await delay.now rest.now)) }
{
    let number = points.len();
    start(points, PointKind::Await, at)?;
    let rest = handler(alloc, portion, points, PointKind::Do, rest)?;
    let delay = moved_delay(alloc, portion, delay)?;
    let span = at;
    let form = FlatForm::Await(delay, rest);
    marked(alloc, portion, number, at, FlatStmt { span, form })
}

/// `await` of cases.
#[cycle(covering)]
#[inline(never)]
#[tactic(auto, using(crate::proofs::Rows::await_case_rows))]
pub(crate) fn cover_await_case(
    alloc: Global,
    portion: Portion,
    points: &mut Vec<Point>,
    at: Span,
    cases: &Vec<FlatCase>,
) -> Result<FlatStmt, NoMemory>
    ensures covers { IfOk result (λ p. flat_stmt_of p
        ≡ node_covered portion points.old.items at (AwaitCase cases.now)) }
    ensures points { OnOk result (points.new.items ≡ node_points points.old.items at (AwaitCase cases.now)) }
{
    let number = points.len();
    start(points, PointKind::Await, at)?;
    let cases = cases_of(alloc, portion, points, at, cases.as_slice())?;
    let span = at;
    let form = FlatForm::AwaitCase(cases);
    marked(alloc, portion, number, at, FlatStmt { span, form })
}

/// `present e`, and its two parts.
#[cycle(covering)]
#[inline(never)]
#[tactic(auto, using(crate::proofs::Rows::present_rows))]
pub(crate) fn cover_present(
    alloc: Global,
    portion: Portion,
    points: &mut Vec<Point>,
    at: Span,
    test: &FlatExpr,
    yes: &Option<Box<FlatStmt>>,
    no: &Option<Box<FlatStmt>>,
) -> Result<FlatStmt, NoMemory>
    ensures covers { IfOk result (λ p. flat_stmt_of p
        ≡ node_covered portion points.old.items at (Present test.now yes.now no.now)) }
    ensures points { OnOk result (points.new.items
        ≡ node_points points.old.items at (Present test.now yes.now no.now)) }
{
    let yes = branch(alloc, portion, points, PointKind::Then, at, yes)?;
    let no = branch(alloc, portion, points, PointKind::Else, at, no)?;
    let test = moved_test(alloc, portion, test)?;
    let span = at;
    let form = FlatForm::Present(test, yes, no);
    Ok(FlatStmt { span, form })
}

/// `present` of cases, and the part after `else`.
#[cycle(covering)]
#[inline(never)]
#[tactic(auto, using(crate::proofs::Rows::present_case_rows))]
pub(crate) fn cover_present_case(
    alloc: Global,
    portion: Portion,
    points: &mut Vec<Point>,
    at: Span,
    cases: &Vec<FlatCase>,
    no: &Option<Box<FlatStmt>>,
) -> Result<FlatStmt, NoMemory>
    ensures covers { IfOk result (λ p. flat_stmt_of p
        ≡ node_covered portion points.old.items at (PresentCase cases.now no.now)) }
    ensures points { OnOk result (points.new.items ≡ node_points points.old.items at (PresentCase cases.now no.now)) }
{
    let cases = cases_of(alloc, portion, points, at, cases.as_slice())?;
    let no = branch(alloc, portion, points, PointKind::Else, at, no)?;
    let span = at;
    let form = FlatForm::PresentCase(cases, no);
    Ok(FlatStmt { span, form })
}

/// `loop p end`.
#[cycle(covering)]
#[inline(never)]
#[tactic(auto, using(crate::proofs::Rows::loop_rows))]
pub(crate) fn cover_loop(
    alloc: Global,
    portion: Portion,
    points: &mut Vec<Point>,
    at: Span,
    body: &Box<FlatStmt>,
) -> Result<FlatStmt, NoMemory>
    ensures covers { IfOk result (λ p. flat_stmt_of p
        ≡ node_covered portion points.old.items at (Loop body.now)) }
    ensures points { OnOk result (points.new.items ≡ node_points points.old.items at (Loop body.now)) }
{
    let body = inside(alloc, portion, points, body)?;
    let span = at;
    let form = FlatForm::Loop(body);
    Ok(FlatStmt { span, form })
}

/// `loop p each d`.
#[cycle(covering)]
#[inline(never)]
#[tactic(auto, using(crate::proofs::Rows::loop_each_rows))]
pub(crate) fn cover_loop_each(
    alloc: Global,
    portion: Portion,
    points: &mut Vec<Point>,
    at: Span,
    body: &Box<FlatStmt>,
    delay: &FlatDelay,
) -> Result<FlatStmt, NoMemory>
    ensures covers { IfOk result (λ p. flat_stmt_of p
        ≡ node_covered portion points.old.items at (LoopEach body.now delay.now)) }
    ensures points { OnOk result (points.new.items ≡ node_points points.old.items at (LoopEach body.now delay.now)) }
{
    let body = inside(alloc, portion, points, body)?;
    let delay = moved_delay(alloc, portion, delay)?;
    let span = at;
    let form = FlatForm::LoopEach(body, delay);
    Ok(FlatStmt { span, form })
}

/// `every d do p end`.
#[cycle(covering)]
#[inline(never)]
#[tactic(auto, using(crate::proofs::Rows::every_rows))]
pub(crate) fn cover_every(
    alloc: Global,
    portion: Portion,
    points: &mut Vec<Point>,
    at: Span,
    delay: &FlatDelay,
    body: &Box<FlatStmt>,
) -> Result<FlatStmt, NoMemory>
    ensures covers { IfOk result (λ p. flat_stmt_of p
        ≡ node_covered portion points.old.items at (Every delay.now body.now)) }
    ensures points { OnOk result (points.new.items ≡ node_points points.old.items at (Every delay.now body.now)) }
{
    let body = inside(alloc, portion, points, body)?;
    let delay = moved_delay(alloc, portion, delay)?;
    let span = at;
    let form = FlatForm::Every(delay, body);
    Ok(FlatStmt { span, form })
}

/// `repeat n times p end`.
#[cycle(covering)]
#[inline(never)]
#[tactic(auto, using(crate::proofs::Rows::repeat_rows))]
pub(crate) fn cover_repeat(
    alloc: Global,
    portion: Portion,
    points: &mut Vec<Point>,
    at: Span,
    count: u128,
    place: Span,
    body: &Box<FlatStmt>,
) -> Result<FlatStmt, NoMemory>
    ensures covers { IfOk result (λ p. flat_stmt_of p
        ≡ node_covered portion points.old.items at (Repeat count place body.now)) }
    ensures points { OnOk result (points.new.items ≡ node_points points.old.items at (Repeat count place body.now)) }
{
    let body = inside(alloc, portion, points, body)?;
    let span = at;
    let form = FlatForm::Repeat(count, place, body);
    Ok(FlatStmt { span, form })
}

/// `abort p when d`, and what comes after it.
#[cycle(covering)]
#[inline(never)]
#[tactic(auto, using(crate::proofs::Rows::abort_rows))]
pub(crate) fn cover_abort(
    alloc: Global,
    portion: Portion,
    points: &mut Vec<Point>,
    at: Span,
    body: &Box<FlatStmt>,
    delay: &FlatDelay,
    rest: &Option<Box<FlatStmt>>,
) -> Result<FlatStmt, NoMemory>
    ensures covers { IfOk result (λ p. flat_stmt_of p
        ≡ node_covered portion points.old.items at (Abort body.now delay.now rest.now)) }
    ensures points { OnOk result (points.new.items
        ≡ node_points points.old.items at (Abort body.now delay.now rest.now)) }
{
    let body = inside(alloc, portion, points, body)?;
    let rest = handler(alloc, portion, points, PointKind::Do, rest)?;
    let delay = moved_delay(alloc, portion, delay)?;
    let span = at;
    let form = FlatForm::Abort(body, delay, rest);
    Ok(FlatStmt { span, form })
}

/// `abort p when` one of these cases.
#[cycle(covering)]
#[inline(never)]
#[tactic(auto, using(crate::proofs::Rows::abort_case_rows))]
pub(crate) fn cover_abort_case(
    alloc: Global,
    portion: Portion,
    points: &mut Vec<Point>,
    at: Span,
    body: &Box<FlatStmt>,
    cases: &Vec<FlatCase>,
) -> Result<FlatStmt, NoMemory>
    ensures covers { IfOk result (λ p. flat_stmt_of p
        ≡ node_covered portion points.old.items at (AbortCase body.now cases.now)) }
    ensures points { OnOk result (points.new.items ≡ node_points points.old.items at (AbortCase body.now cases.now)) }
{
    let body = inside(alloc, portion, points, body)?;
    let cases = cases_of(alloc, portion, points, at, cases.as_slice())?;
    let span = at;
    let form = FlatForm::AbortCase(body, cases);
    Ok(FlatStmt { span, form })
}

/// `weak abort p when d`.
#[cycle(covering)]
#[inline(never)]
#[tactic(auto, using(crate::proofs::Rows::weak_abort_rows))]
pub(crate) fn cover_weak_abort(
    alloc: Global,
    portion: Portion,
    points: &mut Vec<Point>,
    at: Span,
    body: &Box<FlatStmt>,
    delay: &FlatDelay,
) -> Result<FlatStmt, NoMemory>
    ensures covers { IfOk result (λ p. flat_stmt_of p
        ≡ node_covered portion points.old.items at (WeakAbort body.now delay.now)) }
    ensures points { OnOk result (points.new.items ≡ node_points points.old.items at (WeakAbort body.now delay.now)) }
{
    let body = inside(alloc, portion, points, body)?;
    let delay = moved_delay(alloc, portion, delay)?;
    let span = at;
    let form = FlatForm::WeakAbort(body, delay);
    Ok(FlatStmt { span, form })
}

/// `suspend p when d`.
#[cycle(covering)]
#[inline(never)]
#[tactic(auto, using(crate::proofs::Rows::suspend_rows))]
pub(crate) fn cover_suspend(
    alloc: Global,
    portion: Portion,
    points: &mut Vec<Point>,
    at: Span,
    body: &Box<FlatStmt>,
    delay: &FlatDelay,
) -> Result<FlatStmt, NoMemory>
    ensures covers { IfOk result (λ p. flat_stmt_of p
        ≡ node_covered portion points.old.items at (Suspend body.now delay.now)) }
    ensures points { OnOk result (points.new.items ≡ node_points points.old.items at (Suspend body.now delay.now)) }
{
    let body = inside(alloc, portion, points, body)?;
    let delay = moved_delay(alloc, portion, delay)?;
    let span = at;
    let form = FlatForm::Suspend(body, delay);
    Ok(FlatStmt { span, form })
}

/// `trap T in p`, and its handler.
#[cycle(covering)]
#[inline(never)]
#[tactic(auto, using(crate::proofs::Rows::trap_rows))]
pub(crate) fn cover_trap(
    alloc: Global,
    portion: Portion,
    points: &mut Vec<Point>,
    at: Span,
    body: &Box<FlatStmt>,
    rest: &Option<Box<FlatStmt>>,
) -> Result<FlatStmt, NoMemory>
    ensures covers { IfOk result (λ p. flat_stmt_of p
        ≡ node_covered portion points.old.items at (Trap body.now rest.now)) }
    ensures points { OnOk result (points.new.items ≡ node_points points.old.items at (Trap body.now rest.now)) }
{
    let body = inside(alloc, portion, points, body)?;
    let rest = handler(alloc, portion, points, PointKind::Handle, rest)?;
    let span = at;
    let form = FlatForm::Trap(body, rest);
    Ok(FlatStmt { span, form })
}

/// `signal S in p end`.
#[cycle(covering)]
#[inline(never)]
#[tactic(auto, using(crate::proofs::Rows::signal_rows))]
pub(crate) fn cover_signal(
    alloc: Global,
    portion: Portion,
    points: &mut Vec<Point>,
    at: Span,
    signals: &Vec<SigId>,
    body: &Box<FlatStmt>,
) -> Result<FlatStmt, NoMemory>
    ensures covers { IfOk result (λ p. flat_stmt_of p
        ≡ node_covered portion points.old.items at (Signal signals.now body.now)) }
    ensures points { OnOk result (points.new.items ≡ node_points points.old.items at (Signal signals.now body.now)) }
{
    let signals = moved_signals(alloc, portion, signals.as_slice())?;
    let body = inside(alloc, portion, points, body)?;
    let span = at;
    let form = FlatForm::Signal(signals, body);
    Ok(FlatStmt { span, form })
}

/// Statements one after another.
#[cycle(covering)]
#[inline(never)]
#[tactic(auto, using(crate::proofs::Rows::seq_rows))]
pub(crate) fn cover_seq(
    alloc: Global,
    portion: Portion,
    points: &mut Vec<Point>,
    at: Span,
    parts: &Vec<FlatStmt>,
) -> Result<FlatStmt, NoMemory>
    ensures covers { IfOk result (λ p. flat_stmt_of p
        ≡ node_covered portion points.old.items at (Seq parts.now)) }
    ensures points { OnOk result (points.new.items ≡ node_points points.old.items at (Seq parts.now)) }
{
    let parts = parts_of(alloc, portion, points, parts.as_slice())?;
    let span = at;
    let form = FlatForm::Seq(parts);
    Ok(FlatStmt { span, form })
}

/// Statements in parallel.
#[cycle(covering)]
#[inline(never)]
#[tactic(auto, using(crate::proofs::Rows::par_rows))]
pub(crate) fn cover_par(
    alloc: Global,
    portion: Portion,
    points: &mut Vec<Point>,
    at: Span,
    parts: &Vec<FlatStmt>,
) -> Result<FlatStmt, NoMemory>
    ensures covers { IfOk result (λ p. flat_stmt_of p
        ≡ node_covered portion points.old.items at (Par parts.now)) }
    ensures points { OnOk result (points.new.items ≡ node_points points.old.items at (Par parts.now)) }
{
    let parts = parts_of(alloc, portion, points, parts.as_slice())?;
    let span = at;
    let form = FlatForm::Par(parts);
    Ok(FlatStmt { span, form })
}
