// The walk over statements. They are in one another up to the limit on depths, so what a level of it keeps on the
// stack counts: a form has a function of its own (`forms`), and what is in a statement is boxed as soon as it is
// found.

ghost use Rattle.std.specs.Prelude.{◌≡◌, ◌+◌, map, OnOk};
ghost use Rattle.est_ast.specs.FlatTrees.{stmts as flat_stmts, cases as flat_cases, At as flat_at};
ghost use Rattle.est_ast.specs.FlatViews.{flat_stmt_of, flat_form_of, flat_part_of, flat_case_of};
ghost use Rattle.est_ast.specs.Trees.{stmts, cases as case_list};
ghost use Rattle.est_ast.specs.Views.{stmt_of, form_of, part_of, case_of};
ghost use Rattle.est_expand.specs.Flattening.{part as part_walk, each as each_walk, each_case as each_case_walk};
ghost use Rattle.est_expand.specs.Views.{around_of, inside_of, site_walk, one_case, TrapsFit, Walks};

use crate::binders::{flat_signal, flat_trap, run};
use crate::expressions::flat_test;
use crate::forms::{
    flat_abort, flat_abort_case, flat_await, flat_await_case, flat_emit, flat_every, flat_exit,
    flat_loop, flat_loop_each, flat_par, flat_present, flat_present_case, flat_repeat, flat_seq,
    flat_suspend, flat_sustain, flat_weak_abort,
};
use crate::met::Met;
use crate::place::{Around, Site, Source};
use crate::refusal::ExpandFault;
use base_types::Span;
use est_ast::{Case, FlatCase, FlatForm, FlatStmt, Form, Stmt};
use std::alloc::Global;

/// The flat form of a statement.
#[cycle(walk)]
pub fn walk<'a>(
    alloc: Global,
    source: &Source<'a>,
    around: &mut Around<'a>,
    met: &mut Met,
    statement: &'a Stmt,
) -> Result<FlatStmt, ExpandFault>
    requires room { TrapsFit around.old source.now.room }
    ensures walks { Walks flat_stmt_of result met.old met.new
        (inside_of source.now (around_of around.old) (stmt_of statement.now)) }
    ensures kept { OnOk result (around_of around.new ≡ around_of around.old) }
{
    met.meet_statement()?;
    let Some(inner) = source.inside() else {
        return Err(ExpandFault::TooDeep);
    };
    let site = Site {
        source: inner,
        span: statement.span,
    };
    row(alloc, &site, around, met, &statement.form)
}

// A statement that has been counted.
#[cycle(walk)]
fn row<'a>(
    alloc: Global,
    site: &Site<'a>,
    around: &mut Around<'a>,
    met: &mut Met,
    form: &'a Form,
) -> Result<FlatStmt, ExpandFault>
    requires room { TrapsFit around.old (site.now.source.room + 1) }
    ensures walks { Walks flat_stmt_of result met.old met.new
        (site_walk site.now (around_of around.old) (form_of form.now)) }
    ensures kept { OnOk result (around_of around.new ≡ around_of around.old) }
{
    match form {
        Form::Nothing => Ok(flat(site.span, FlatForm::Nothing)),
        Form::Pause => Ok(flat(site.span, FlatForm::Pause)),
        Form::Halt => Ok(flat(site.span, FlatForm::Halt)),
        Form::Emit(name) => flat_emit(site, around, name),
        Form::Sustain(name) => flat_sustain(site, around, name),
        Form::Exit(name) => flat_exit(site, around, name),
        Form::Await(delay, q) => flat_await(alloc, site, around, met, delay, q),
        Form::AwaitCase(cases) => flat_await_case(alloc, site, around, met, cases),
        Form::Present(e, p, q) => flat_present(alloc, site, around, met, e, p, q),
        Form::PresentCase(cases, q) => flat_present_case(alloc, site, around, met, cases, q),
        Form::Loop(p) => flat_loop(alloc, site, around, met, p),
        Form::LoopEach(p, delay) => flat_loop_each(alloc, site, around, met, p, delay),
        Form::Every(delay, p) => flat_every(alloc, site, around, met, delay, p),
        Form::Repeat(count, at, p) => flat_repeat(alloc, site, around, met, *count, *at, p),
        Form::Abort(p, delay, q) => flat_abort(alloc, site, around, met, p, delay, q),
        Form::AbortCase(p, cases) => flat_abort_case(alloc, site, around, met, p, cases),
        Form::WeakAbort(p, delay) => flat_weak_abort(alloc, site, around, met, p, delay),
        Form::Suspend(p, delay) => flat_suspend(alloc, site, around, met, p, delay),
        Form::Trap(name, p, handle) => flat_trap(alloc, site, around, met, name, p, handle),
        Form::Signal(names, p) => flat_signal(alloc, site, around, met, names, p),
        Form::Run(name, renames) => run(alloc, &site.source, around, met, name, renames),
        Form::Seq(parts) => flat_seq(alloc, site, around, met, parts),
        Form::Par(parts) => flat_par(alloc, site, around, met, parts),
        Form::Group(p) => walk(alloc, &site.source, around, met, p),
    }
}

/// A statement of this form.
pub fn flat(span: Span, form: FlatForm) -> FlatStmt
    ensures { flat_stmt_of result ≡ flat_at span (flat_form_of form) }
{
    FlatStmt { span, form }
}

/// The flat form of a statement in a box.
#[cycle(walk)]
#[inline(never)]
pub fn boxed<'a>(
    alloc: Global,
    source: &Source<'a>,
    around: &mut Around<'a>,
    met: &mut Met,
    statement: &'a Stmt,
) -> Result<Box<FlatStmt>, ExpandFault>
    requires room { TrapsFit around.old source.now.room }
    ensures walks { Walks (λ p. flat_stmt_of p.value) result met.old met.new
        (inside_of source.now (around_of around.old) (stmt_of statement.now)) }
    ensures kept { OnOk result (around_of around.new ≡ around_of around.old) }
{
    let p = walk(alloc, source, around, met, statement)?;
    Ok(Box::new(alloc, p)?)
}

/// A part that may be left out.
#[cycle(walk)]
pub fn part<'a>(
    alloc: Global,
    source: &Source<'a>,
    around: &mut Around<'a>,
    met: &mut Met,
    part: &'a Option<Box<Stmt>>,
) -> Result<Option<Box<FlatStmt>>, ExpandFault>
    requires room { TrapsFit around.old source.now.room }
    ensures walks { Walks flat_part_of result met.old met.new
        (part_walk (inside_of source.now (around_of around.old)) (part_of part.now)) }
    ensures kept { OnOk result (around_of around.new ≡ around_of around.old) }
{
    let Some(p) = part else {
        return Ok(None);
    };
    Ok(Some(boxed(alloc, source, around, met, p)?))
}

/// Statements in a list.
#[cycle(walk)]
pub fn each<'a>(
    alloc: Global,
    source: &Source<'a>,
    around: &mut Around<'a>,
    met: &mut Met,
    parts: &'a [Stmt],
) -> Result<Vec<FlatStmt>, ExpandFault>
    requires room { TrapsFit around.old source.now.room }
    ensures walks { Walks (λ found. flat_stmts (map flat_stmt_of found.items)) result met.old met.new
        (each_walk (inside_of source.now (around_of around.old)) (stmts (map stmt_of parts.now))) }
    ensures kept { OnOk result (around_of around.new ≡ around_of around.old) }
{
    let mut found = Vec::new(alloc);
    for p in parts {
        found.push(walk(alloc, source, around, met, p)?)?;
    }
    Ok(found)
}

/// Cases.
#[cycle(walk)]
pub fn each_case<'a>(
    alloc: Global,
    source: &Source<'a>,
    around: &mut Around<'a>,
    met: &mut Met,
    cases: &'a [Case],
) -> Result<Vec<FlatCase>, ExpandFault>
    requires room { TrapsFit around.old source.now.room }
    ensures walks { Walks (λ found. flat_cases (map flat_case_of found.items)) result met.old met.new
        (each_case_walk (around_of around.old).scope (inside_of source.now (around_of around.old))
        (case_list (map case_of cases.now))) }
    ensures kept { OnOk result (around_of around.new ≡ around_of around.old) }
{
    let mut found = Vec::new(alloc);
    for case in cases {
        found.push(flat_case(alloc, source, around, met, case)?)?;
    }
    Ok(found)
}

// A case.
#[cycle(walk)]
fn flat_case<'a>(
    alloc: Global,
    source: &Source<'a>,
    around: &mut Around<'a>,
    met: &mut Met,
    case: &'a Case,
) -> Result<FlatCase, ExpandFault>
    requires room { TrapsFit around.old source.now.room }
    ensures walks { Walks flat_case_of result met.old met.new
        (one_case (around_of around.old).scope (inside_of source.now (around_of around.old)) (case_of case.now)) }
    ensures kept { OnOk result (around_of around.new ≡ around_of around.old) }
{
    let event = flat_test(alloc, &around.scope, &case.event)?;
    let Some(p) = &case.body else {
        let body = None;
        return Ok(FlatCase { event, body });
    };
    let body = Some(walk(alloc, source, around, met, p)?);
    Ok(FlatCase { event, body })
}
