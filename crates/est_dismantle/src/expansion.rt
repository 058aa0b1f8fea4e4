// Kernel expansion: the kernel term of a flat statement.

ghost use Rattle.std.specs.Prelude.{◌≡◌, ◌+◌, ◌<◌, ◌^◌, IfOk, OnOk, map};
ghost use Rattle.est_dismantle.specs.Boxes.{boxed_term};
ghost use Rattle.est_dismantle.specs.Choices.{choice_of};
ghost use Rattle.est_dismantle.specs.FlatNodes.{stmt_kernel, node_kernel, part_kernel, stmts_kernels, choices};
ghost use Rattle.est_dismantle.specs.FlatNodes.{case_choice, stmt_new, node_new, part_new, stmts_new, cases_new};
ghost use Rattle.est_dismantle.specs.FlatNodes.{case_new, stmt_traps, node_traps, part_traps, stmts_traps};
ghost use Rattle.est_dismantle.specs.FlatNodes.{cases_traps, case_traps};
ghost use Rattle.est_dismantle.specs.TrapLists.{traps_of, HasRoom};

use crate::choices::Choice;
use crate::events::test_of;
use crate::forms::{
    expand_abort, expand_abort_case, expand_await, expand_await_case, expand_every, expand_loop,
    expand_loop_each, expand_par, expand_present, expand_present_case, expand_repeat, expand_seq,
    expand_signal, expand_suspend, expand_trap, expand_weak_abort,
};
use crate::traps::{Traps, code};
use crate::{derived as rows, terms};
use base_types::{NoMemory, Span};
use est_ast::{FlatCase, FlatForm, FlatStmt};
use est_kernel::Kernel;
use std::alloc::Global;

/// The kernel term of a statement in these traps. The new signals of the statement have the numbers from `next`
/// on, and after them stands the next.
#[cycle(expansion)]
#[tactic(auto, using(crate::proofs::KernelNodes::stmt_rows))]
pub(crate) fn expand(
    alloc: Global,
    statement: &FlatStmt,
    traps: &Traps,
    next: &mut u32,
) -> Result<Box<Kernel>, NoMemory>
    requires room { HasRoom traps.now (stmt_traps statement.now) }
    requires numbers { next.old + stmt_new statement.now < 2 ^ 32 }
    ensures term { IfOk result (λ k. boxed_term k ≡ stmt_kernel (traps_of traps.now) next.old statement.now) }
    ensures next { OnOk result (next.new ≡ next.old + stmt_new statement.now) }
{
    Ok(expand_form(alloc, &statement.form, statement.span, traps, next)?)
}

#[cycle(expansion)]
#[tactic(auto, using(crate::proofs::KernelNodes::kernel_rows))]
fn expand_form(
    alloc: Global,
    form: &FlatForm,
    at: Span,
    traps: &Traps,
    next: &mut u32,
) -> Result<Box<Kernel>, NoMemory>
    requires room { HasRoom traps.now (node_traps form.now) }
    requires numbers { next.old + node_new form.now < 2 ^ 32 }
    ensures term { IfOk result (λ k. boxed_term k ≡ node_kernel (traps_of traps.now) next.old at form.now) }
    ensures next { OnOk result (next.new ≡ next.old + node_new form.now) }
{
    match form {
        FlatForm::Nothing => terms::node(alloc, Kernel::Nothing),
        FlatForm::Pause => terms::node(alloc, Kernel::Pause),
        FlatForm::Halt => Ok(rows::halting(alloc, at)?),
        FlatForm::Emit(signal) => terms::node(alloc, Kernel::Emit(*signal)),
        FlatForm::Sustain(signal) => Ok(rows::sustaining(alloc, at, *signal)?),
        FlatForm::Await(delay, rest) => expand_await(alloc, at, delay, rest, traps, next),
        FlatForm::AwaitCase(cases) => expand_await_case(alloc, at, cases, traps, next),
        FlatForm::Present(test, yes, no) => expand_present(alloc, test, yes, no, traps, next),
        FlatForm::PresentCase(cases, no) => expand_present_case(alloc, cases, no, traps, next),
        FlatForm::Loop(body) => expand_loop(alloc, at, body, traps, next),
        FlatForm::LoopEach(body, delay) => expand_loop_each(alloc, at, body, delay, traps, next),
        FlatForm::Every(delay, body) => expand_every(alloc, at, delay, body, traps, next),
        FlatForm::Repeat(count, place, body) => {
            expand_repeat(alloc, *count, *place, body, traps, next)
        }
        FlatForm::Abort(body, delay, rest) => {
            expand_abort(alloc, at, body, delay, rest, traps, next)
        }
        FlatForm::AbortCase(body, cases) => expand_abort_case(alloc, at, body, cases, traps, next),
        FlatForm::WeakAbort(body, delay) => expand_weak_abort(alloc, at, body, delay, traps, next),
        FlatForm::Suspend(body, delay) => expand_suspend(alloc, at, body, delay, traps, next),
        FlatForm::Trap(body, handler) => expand_trap(alloc, body, handler, traps, next),
        FlatForm::Exit(between) => {
            let code = code(traps, *between);
            terms::node(alloc, Kernel::Exit(code))
        }
        FlatForm::Signal(signals, body) => expand_signal(alloc, signals, body, traps, next),
        FlatForm::Seq(parts) => expand_seq(alloc, parts, traps, next),
        FlatForm::Par(parts) => expand_par(alloc, parts, traps, next),
    }
}

#[cycle(expansion)]
#[tactic(auto, using(crate::proofs::KernelNodes::kernel_rows))]
pub(crate) fn expand_part(
    alloc: Global,
    part: &Option<Box<FlatStmt>>,
    traps: &Traps,
    next: &mut u32,
) -> Result<Box<Kernel>, NoMemory>
    requires room { HasRoom traps.now (part_traps part.now) }
    requires numbers { next.old + part_new part.now < 2 ^ 32 }
    ensures term { IfOk result (λ k. boxed_term k ≡ part_kernel (traps_of traps.now) next.old part.now) }
    ensures next { OnOk result (next.new ≡ next.old + part_new part.now) }
{
    match part {
        None => terms::node(alloc, Kernel::Nothing),
        Some(statement) => Ok(expand(alloc, statement, traps, next)?),
    }
}

#[cycle(expansion)]
#[tactic(auto, using(crate::proofs::KernelNodes::list_rows))]
pub(crate) fn expand_parts(
    alloc: Global,
    parts: &[FlatStmt],
    traps: &Traps,
    next: &mut u32,
) -> Result<Vec<Box<Kernel>>, NoMemory>
    requires room { HasRoom traps.now (stmts_traps parts.now) }
    requires numbers { next.old + stmts_new parts.now < 2 ^ 32 }
    ensures terms { IfOk result (λ v. map boxed_term v.items ≡ stmts_kernels (traps_of traps.now) next.old parts.now) }
    ensures next { OnOk result (next.new ≡ next.old + stmts_new parts.now) }
{
    let mut kernels = Vec::new(alloc);
    for part in parts {
        kernels.push(expand(alloc, part, traps, next)?)?;
    }
    Ok(kernels)
}

#[cycle(expansion)]
#[tactic(auto, using(crate::proofs::KernelNodes::list_rows))]
pub(crate) fn expand_cases(
    alloc: Global,
    cases: &[FlatCase],
    traps: &Traps,
    next: &mut u32,
) -> Result<Vec<Choice>, NoMemory>
    requires room { HasRoom traps.now (cases_traps cases.now) }
    requires numbers { next.old + cases_new cases.now < 2 ^ 32 }
    ensures choices { IfOk result (λ v. map choice_of v.items ≡ choices (traps_of traps.now) next.old cases.now) }
    ensures next { OnOk result (next.new ≡ next.old + cases_new cases.now) }
{
    let mut found = Vec::new(alloc);
    for case in cases {
        found.push(expand_case(alloc, case, traps, next)?)?;
    }
    Ok(found)
}

#[cycle(expansion)]
#[tactic(auto, using(crate::proofs::KernelNodes::case_rows))]
fn expand_case(
    alloc: Global,
    case: &FlatCase,
    traps: &Traps,
    next: &mut u32,
) -> Result<Choice, NoMemory>
    requires room { HasRoom traps.now (case_traps case.now) }
    requires numbers { next.old + case_new case.now < 2 ^ 32 }
    ensures choice { IfOk result (λ c. choice_of c ≡ case_choice (traps_of traps.now) next.old case.now) }
    ensures next { OnOk result (next.new ≡ next.old + case_new case.now) }
{
    let event = test_of(alloc, &case.event)?;
    match &case.body {
        None => {
            let body = terms::node(alloc, Kernel::Nothing)?;
            Ok(Choice { event, body })
        }
        Some(statement) => {
            let body = expand(alloc, statement, traps, next)?;
            Ok(Choice { event, body })
        }
    }
}
