// A function for each form of a statement, so that a walk keeps on the stack what one form needs and no other's. None
// is inlined into the walk, whose frame would then have room for all of them.

ghost use Rattle.std.specs.Prelude.{◌≡◌, ◌+◌, map, OnOk};
ghost use Rattle.est_ast.specs.FlatViews.{flat_stmt_of};
ghost use Rattle.est_ast.specs.Trees.{stmts, cases as case_list, Emit, Sustain, Exit, Await, AwaitCase, Present};
ghost use Rattle.est_ast.specs.Trees.{PresentCase, Loop, LoopEach, Every, Repeat, Abort, AbortCase, WeakAbort, Suspend};
ghost use Rattle.est_ast.specs.Trees.{Seq, Par};
ghost use Rattle.est_ast.specs.Views.{stmt_of, expr_of, delay_of, part_of, case_of};
ghost use Rattle.est_expand.specs.Answers.{AnswersAsDefined};
ghost use Rattle.est_expand.specs.Flattening.{exit_of, emitted};
ghost use Rattle.est_expand.specs.Views.{around_of, site_walk, TrapsFit, Walks, Gives};

use crate::expressions::{flat_delay, flat_test, signal};
use crate::met::Met;
use crate::place::{Around, Site, Source};
use crate::refusal::{ExpandFault, ScopeFault};
use crate::scope::Scope;
use crate::traps::Traps;
use crate::walk::{boxed, each, each_case, part};
use base_types::{SigId, Span};
use est_ast::{Case, Delay, FlatForm, FlatStmt, Name, SigExpr, Stmt};
use std::alloc::Global;

/// `emit S`.
#[inline(never)]
pub fn flat_emit(site: &Site, around: &Around, name: &Name) -> Result<FlatStmt, ExpandFault>
    ensures { Gives flat_stmt_of result (site_walk site.now (around_of around.now) (Emit name.now)) }
{
    let form = FlatForm::Emit(emitted(&site.source, &around.scope, name)?);
    let span = site.span;
    Ok(FlatStmt { span, form })
}

/// `sustain S`.
#[inline(never)]
pub fn flat_sustain(site: &Site, around: &Around, name: &Name) -> Result<FlatStmt, ExpandFault>
    ensures { Gives flat_stmt_of result (site_walk site.now (around_of around.now) (Sustain name.now)) }
{
    let form = FlatForm::Sustain(emitted(&site.source, &around.scope, name)?);
    let span = site.span;
    Ok(FlatStmt { span, form })
}

/// `exit T`.
#[inline(never)]
pub fn flat_exit(site: &Site, around: &Around, name: &Name) -> Result<FlatStmt, ExpandFault>
    ensures { Gives flat_stmt_of result (site_walk site.now (around_of around.now) (Exit name.now)) }
{
    let form = FlatForm::Exit(exit(&around.traps, name)?);
    let span = site.span;
    Ok(FlatStmt { span, form })
}

// The signal that a name which is emitted means.
fn emitted(source: &Source, scope: &Scope, name: &Name) -> Result<SigId, ExpandFault>
    ensures { AnswersAsDefined (λ s. s.0) result (emitted source.now.inputs scope.now name.now) }
{
    let meaning = signal(scope, name)?;
    if meaning.input || meaning.signal < source.inputs {
        return Err(ExpandFault::Scope(ScopeFault::EmitInput(name.span)));
    }
    Ok(SigId(meaning.signal))
}

// How many traps stand between an exit and its trap.
fn exit(traps: &Traps, name: &Name) -> Result<u32, ExpandFault>
    ensures { AnswersAsDefined (λ k. k) result (exit_of traps.now name.now) }
{
    match traps.place(name.text.bytes()) {
        Some(place) => Ok(place),
        None => Err(ExpandFault::Scope(ScopeFault::UnknownTrap(name.span))),
    }
}

/// `await d`, and what comes after it.
#[cycle(walk)]
#[inline(never)]
pub fn flat_await<'a>(
    alloc: Global,
    site: &Site<'a>,
    around: &mut Around<'a>,
    met: &mut Met,
    delay: &'a Delay,
    q: &'a Option<Box<Stmt>>,
) -> Result<FlatStmt, ExpandFault>
    requires room { TrapsFit around.old (site.now.source.room + 1) }
    ensures walks { Walks flat_stmt_of result met.old met.new
        (site_walk site.now (around_of around.old) (Await (delay_of delay.now) (part_of q.now))) }
    ensures kept { OnOk result (around_of around.new ≡ around_of around.old) }
{
    let delay = flat_delay(alloc, &around.scope, delay)?;
    let q = part(alloc, &site.source, around, met, q)?;
    let form = FlatForm::Await(delay, q);
    let span = site.span;
    Ok(FlatStmt { span, form })
}

/// `await` of cases.
#[cycle(walk)]
#[inline(never)]
pub fn flat_await_case<'a>(
    alloc: Global,
    site: &Site<'a>,
    around: &mut Around<'a>,
    met: &mut Met,
    cases: &'a [Case],
) -> Result<FlatStmt, ExpandFault>
    requires room { TrapsFit around.old (site.now.source.room + 1) }
    ensures walks { Walks flat_stmt_of result met.old met.new
        (site_walk site.now (around_of around.old) (AwaitCase (case_list (map case_of cases.now)))) }
    ensures kept { OnOk result (around_of around.new ≡ around_of around.old) }
{
    let cases = each_case(alloc, &site.source, around, met, cases)?;
    let form = FlatForm::AwaitCase(cases);
    let span = site.span;
    Ok(FlatStmt { span, form })
}

/// `present e`, and its two parts.
#[cycle(walk)]
#[inline(never)]
pub fn flat_present<'a>(
    alloc: Global,
    site: &Site<'a>,
    around: &mut Around<'a>,
    met: &mut Met,
    e: &'a SigExpr,
    p: &'a Option<Box<Stmt>>,
    q: &'a Option<Box<Stmt>>,
) -> Result<FlatStmt, ExpandFault>
    requires room { TrapsFit around.old (site.now.source.room + 1) }
    ensures walks { Walks flat_stmt_of result met.old met.new
        (site_walk site.now (around_of around.old) (Present (expr_of e.now) (part_of p.now) (part_of q.now))) }
    ensures kept { OnOk result (around_of around.new ≡ around_of around.old) }
{
    let e = flat_test(alloc, &around.scope, e)?;
    let p = part(alloc, &site.source, around, met, p)?;
    let q = part(alloc, &site.source, around, met, q)?;
    let form = FlatForm::Present(e, p, q);
    let span = site.span;
    Ok(FlatStmt { span, form })
}

/// `present` of cases, and the part after `else`.
#[cycle(walk)]
#[inline(never)]
pub fn flat_present_case<'a>(
    alloc: Global,
    site: &Site<'a>,
    around: &mut Around<'a>,
    met: &mut Met,
    cases: &'a [Case],
    q: &'a Option<Box<Stmt>>,
) -> Result<FlatStmt, ExpandFault>
    requires room { TrapsFit around.old (site.now.source.room + 1) }
    ensures walks { Walks flat_stmt_of result met.old met.new
        (site_walk site.now (around_of around.old) (PresentCase (case_list (map case_of cases.now)) (part_of q.now))) }
    ensures kept { OnOk result (around_of around.new ≡ around_of around.old) }
{
    let cases = each_case(alloc, &site.source, around, met, cases)?;
    let q = part(alloc, &site.source, around, met, q)?;
    let form = FlatForm::PresentCase(cases, q);
    let span = site.span;
    Ok(FlatStmt { span, form })
}

/// `loop p end`.
#[cycle(walk)]
#[inline(never)]
pub fn flat_loop<'a>(
    alloc: Global,
    site: &Site<'a>,
    around: &mut Around<'a>,
    met: &mut Met,
    p: &'a Stmt,
) -> Result<FlatStmt, ExpandFault>
    requires room { TrapsFit around.old (site.now.source.room + 1) }
    ensures walks { Walks flat_stmt_of result met.old met.new
        (site_walk site.now (around_of around.old) (Loop (stmt_of p.now))) }
    ensures kept { OnOk result (around_of around.new ≡ around_of around.old) }
{
    let p = boxed(alloc, &site.source, around, met, p)?;
    let form = FlatForm::Loop(p);
    let span = site.span;
    Ok(FlatStmt { span, form })
}

/// `loop p each d`.
#[cycle(walk)]
#[inline(never)]
pub fn flat_loop_each<'a>(
    alloc: Global,
    site: &Site<'a>,
    around: &mut Around<'a>,
    met: &mut Met,
    p: &'a Stmt,
    delay: &'a Delay,
) -> Result<FlatStmt, ExpandFault>
    requires room { TrapsFit around.old (site.now.source.room + 1) }
    ensures walks { Walks flat_stmt_of result met.old met.new
        (site_walk site.now (around_of around.old) (LoopEach (stmt_of p.now) (delay_of delay.now))) }
    ensures kept { OnOk result (around_of around.new ≡ around_of around.old) }
{
    met.meet_delay(delay)?;
    let p = boxed(alloc, &site.source, around, met, p)?;
    let delay = flat_delay(alloc, &around.scope, delay)?;
    let form = FlatForm::LoopEach(p, delay);
    let span = site.span;
    Ok(FlatStmt { span, form })
}

/// `every d do p end`.
#[cycle(walk)]
#[inline(never)]
pub fn flat_every<'a>(
    alloc: Global,
    site: &Site<'a>,
    around: &mut Around<'a>,
    met: &mut Met,
    delay: &'a Delay,
    p: &'a Stmt,
) -> Result<FlatStmt, ExpandFault>
    requires room { TrapsFit around.old (site.now.source.room + 1) }
    ensures walks { Walks flat_stmt_of result met.old met.new
        (site_walk site.now (around_of around.old) (Every (delay_of delay.now) (stmt_of p.now))) }
    ensures kept { OnOk result (around_of around.new ≡ around_of around.old) }
{
    met.meet_delay(delay)?;
    let delay = flat_delay(alloc, &around.scope, delay)?;
    let p = boxed(alloc, &site.source, around, met, p)?;
    let form = FlatForm::Every(delay, p);
    let span = site.span;
    Ok(FlatStmt { span, form })
}

/// `repeat n times p end`.
#[cycle(walk)]
#[inline(never)]
pub fn flat_repeat<'a>(
    alloc: Global,
    site: &Site<'a>,
    around: &mut Around<'a>,
    met: &mut Met,
    count: u128,
    at: Span,
    p: &'a Stmt,
) -> Result<FlatStmt, ExpandFault>
    requires room { TrapsFit around.old (site.now.source.room + 1) }
    ensures walks { Walks flat_stmt_of result met.old met.new
        (site_walk site.now (around_of around.old) (Repeat count at (stmt_of p.now))) }
    ensures kept { OnOk result (around_of around.new ≡ around_of around.old) }
{
    let p = boxed(alloc, &site.source, around, met, p)?;
    let form = FlatForm::Repeat(count, at, p);
    let span = site.span;
    Ok(FlatStmt { span, form })
}

/// `abort p when d`, and what comes after it.
#[cycle(walk)]
#[inline(never)]
pub fn flat_abort<'a>(
    alloc: Global,
    site: &Site<'a>,
    around: &mut Around<'a>,
    met: &mut Met,
    p: &'a Stmt,
    delay: &'a Delay,
    q: &'a Option<Box<Stmt>>,
) -> Result<FlatStmt, ExpandFault>
    requires room { TrapsFit around.old (site.now.source.room + 1) }
    ensures walks { Walks flat_stmt_of result met.old met.new
        (site_walk site.now (around_of around.old) (Abort (stmt_of p.now) (delay_of delay.now) (part_of q.now))) }
    ensures kept { OnOk result (around_of around.new ≡ around_of around.old) }
{
    met.meet_delay(delay)?;
    let p = boxed(alloc, &site.source, around, met, p)?;
    let delay = flat_delay(alloc, &around.scope, delay)?;
    let q = part(alloc, &site.source, around, met, q)?;
    let form = FlatForm::Abort(p, delay, q);
    let span = site.span;
    Ok(FlatStmt { span, form })
}

/// `abort p when` one of these cases.
#[cycle(walk)]
#[inline(never)]
pub fn flat_abort_case<'a>(
    alloc: Global,
    site: &Site<'a>,
    around: &mut Around<'a>,
    met: &mut Met,
    p: &'a Stmt,
    cases: &'a [Case],
) -> Result<FlatStmt, ExpandFault>
    requires room { TrapsFit around.old (site.now.source.room + 1) }
    ensures walks { Walks flat_stmt_of result met.old met.new
        (site_walk site.now (around_of around.old) (AbortCase (stmt_of p.now) (case_list (map case_of cases.now)))) }
    ensures kept { OnOk result (around_of around.new ≡ around_of around.old) }
{
    let p = boxed(alloc, &site.source, around, met, p)?;
    let cases = each_case(alloc, &site.source, around, met, cases)?;
    let form = FlatForm::AbortCase(p, cases);
    let span = site.span;
    Ok(FlatStmt { span, form })
}

/// `weak abort p when d`.
#[cycle(walk)]
#[inline(never)]
pub fn flat_weak_abort<'a>(
    alloc: Global,
    site: &Site<'a>,
    around: &mut Around<'a>,
    met: &mut Met,
    p: &'a Stmt,
    delay: &'a Delay,
) -> Result<FlatStmt, ExpandFault>
    requires room { TrapsFit around.old (site.now.source.room + 1) }
    ensures walks { Walks flat_stmt_of result met.old met.new
        (site_walk site.now (around_of around.old) (WeakAbort (stmt_of p.now) (delay_of delay.now))) }
    ensures kept { OnOk result (around_of around.new ≡ around_of around.old) }
{
    let p = boxed(alloc, &site.source, around, met, p)?;
    let delay = flat_delay(alloc, &around.scope, delay)?;
    let form = FlatForm::WeakAbort(p, delay);
    let span = site.span;
    Ok(FlatStmt { span, form })
}

/// `suspend p when d`.
#[cycle(walk)]
#[inline(never)]
pub fn flat_suspend<'a>(
    alloc: Global,
    site: &Site<'a>,
    around: &mut Around<'a>,
    met: &mut Met,
    p: &'a Stmt,
    delay: &'a Delay,
) -> Result<FlatStmt, ExpandFault>
    requires room { TrapsFit around.old (site.now.source.room + 1) }
    ensures walks { Walks flat_stmt_of result met.old met.new
        (site_walk site.now (around_of around.old) (Suspend (stmt_of p.now) (delay_of delay.now))) }
    ensures kept { OnOk result (around_of around.new ≡ around_of around.old) }
{
    let p = boxed(alloc, &site.source, around, met, p)?;
    let delay = flat_delay(alloc, &around.scope, delay)?;
    let form = FlatForm::Suspend(p, delay);
    let span = site.span;
    Ok(FlatStmt { span, form })
}

/// Statements one after another.
#[cycle(walk)]
#[inline(never)]
pub fn flat_seq<'a>(
    alloc: Global,
    site: &Site<'a>,
    around: &mut Around<'a>,
    met: &mut Met,
    parts: &'a [Stmt],
) -> Result<FlatStmt, ExpandFault>
    requires room { TrapsFit around.old (site.now.source.room + 1) }
    ensures walks { Walks flat_stmt_of result met.old met.new
        (site_walk site.now (around_of around.old) (Seq (stmts (map stmt_of parts.now)))) }
    ensures kept { OnOk result (around_of around.new ≡ around_of around.old) }
{
    let parts = each(alloc, &site.source, around, met, parts)?;
    let form = FlatForm::Seq(parts);
    let span = site.span;
    Ok(FlatStmt { span, form })
}

/// Statements in parallel.
#[cycle(walk)]
#[inline(never)]
pub fn flat_par<'a>(
    alloc: Global,
    site: &Site<'a>,
    around: &mut Around<'a>,
    met: &mut Met,
    parts: &'a [Stmt],
) -> Result<FlatStmt, ExpandFault>
    requires room { TrapsFit around.old (site.now.source.room + 1) }
    ensures walks { Walks flat_stmt_of result met.old met.new
        (site_walk site.now (around_of around.old) (Par (stmts (map stmt_of parts.now)))) }
    ensures kept { OnOk result (around_of around.new ≡ around_of around.old) }
{
    let parts = each(alloc, &site.source, around, met, parts)?;
    let form = FlatForm::Par(parts);
    let span = site.span;
    Ok(FlatStmt { span, form })
}
