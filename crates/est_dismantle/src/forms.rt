// The kernel terms of statements with parts, a function for each form: statements are in one another up to the limit
// on depths, and an expansion keeps on the stack what one form needs and no other's. So none is inlined into the
// function that chooses among them. Each takes its parts as the form holds them, boxes and lists, so that its contract
// can name the form.

ghost use Rattle.std.specs.Prelude.{◌≡◌, ◌+◌, ◌<◌, ◌^◌, IfOk, OnOk};
ghost use Rattle.base_types.specs.declared.place.Span.{Span as CodeSpan};
ghost use Rattle.est_ast.specs.declared.flat.FlatForm.TheVariants.{Await, AwaitCase, Present, PresentCase, Loop};
ghost use Rattle.est_ast.specs.declared.flat.FlatForm.TheVariants.{LoopEach, Every, Repeat, Abort, AbortCase};
ghost use Rattle.est_ast.specs.declared.flat.FlatForm.TheVariants.{WeakAbort, Suspend, Trap, Signal, Seq, Par};
ghost use Rattle.est_dismantle.specs.Boxes.{boxed_term};
ghost use Rattle.est_dismantle.specs.FlatNodes.{node_kernel, node_new, node_traps, delay_new};
ghost use Rattle.est_dismantle.specs.TrapLists.{traps_of, HasRoom};

use crate::choices::{aborting_cases, awaiting_cases, choice_by, chosen};
use crate::expansion::{expand, expand_cases, expand_part, expand_parts};
use crate::traps::Traps;
use crate::{derived as rows, terms};
use base_types::{NoMemory, SigId, Span};
use est_ast::{FlatCase, FlatDelay, FlatExpr, FlatStmt};
use est_kernel::Kernel;
use std::alloc::Global;

/// `await d`, and what comes after it.
#[cycle(expansion)]
#[inline(never)]
#[tactic(auto, using(crate::proofs::KernelNodes::kernel_rows))]
pub(crate) fn expand_await(
    alloc: Global,
    at: Span,
    delay: &FlatDelay,
    rest: &Option<Box<FlatStmt>>,
    traps: &Traps,
    next: &mut u32,
) -> Result<Box<Kernel>, NoMemory>
    requires room { HasRoom traps.now (node_traps (Await delay.now rest.now)) }
    requires numbers { next.old + node_new (Await delay.now rest.now) < 2 ^ 32 }
    ensures term { IfOk result (λ k. boxed_term k
        ≡ node_kernel (traps_of traps.now) next.old at (Await delay.now rest.now)) }
    ensures next { OnOk result (next.new ≡ next.old + node_new (Await delay.now rest.now)) }
{
    match rest {
        None => Ok(rows::awaiting_delay(alloc, at, delay)?),
        Some(rest) => {
            let rest = expand(alloc, rest, traps, next)?;
            Ok(rows::after_delay(alloc, at, delay, rest)?)
        }
    }
}

/// `await` of cases.
#[cycle(expansion)]
#[inline(never)]
#[tactic(auto, using(crate::proofs::KernelNodes::kernel_rows))]
pub(crate) fn expand_await_case(
    alloc: Global,
    at: Span,
    cases: &Vec<FlatCase>,
    traps: &Traps,
    next: &mut u32,
) -> Result<Box<Kernel>, NoMemory>
    requires room { HasRoom traps.now (node_traps (AwaitCase cases.now)) }
    requires numbers { next.old + node_new (AwaitCase cases.now) < 2 ^ 32 }
    ensures term { IfOk result (λ k. boxed_term k
        ≡ node_kernel (traps_of traps.now) next.old at (AwaitCase cases.now)) }
    ensures next { OnOk result (next.new ≡ next.old + node_new (AwaitCase cases.now)) }
{
    let choices = expand_cases(alloc, cases.as_slice(), traps, next)?;
    Ok(awaiting_cases(alloc, at, cases.as_slice(), choices)?)
}

/// `present e`, and its two parts.
#[cycle(expansion)]
#[inline(never)]
#[tactic(auto, using(crate::proofs::KernelNodes::kernel_rows))]
pub(crate) fn expand_present(
    alloc: Global,
    test: &FlatExpr,
    yes: &Option<Box<FlatStmt>>,
    no: &Option<Box<FlatStmt>>,
    traps: &Traps,
    next: &mut u32,
) -> Result<Box<Kernel>, NoMemory>
    requires room { HasRoom traps.now (node_traps (Present test.now yes.now no.now)) }
    requires numbers { next.old + node_new (Present test.now yes.now no.now) < 2 ^ 32 }
    ensures term { (at : CodeSpan) → IfOk result (λ k. boxed_term k
        ≡ node_kernel (traps_of traps.now) next.old at (Present test.now yes.now no.now)) }
    ensures next { OnOk result (next.new ≡ next.old + node_new (Present test.now yes.now no.now)) }
{
    let yes = expand_part(alloc, yes, traps, next)?;
    let no = expand_part(alloc, no, traps, next)?;
    Ok(choice_by(alloc, test, yes, no)?)
}

/// `present` of cases, and the part after `else`.
#[cycle(expansion)]
#[inline(never)]
#[tactic(auto, using(crate::proofs::KernelNodes::kernel_rows))]
pub(crate) fn expand_present_case(
    alloc: Global,
    cases: &Vec<FlatCase>,
    no: &Option<Box<FlatStmt>>,
    traps: &Traps,
    next: &mut u32,
) -> Result<Box<Kernel>, NoMemory>
    requires room { HasRoom traps.now (node_traps (PresentCase cases.now no.now)) }
    requires numbers { next.old + node_new (PresentCase cases.now no.now) < 2 ^ 32 }
    ensures term { (at : CodeSpan) → IfOk result (λ k. boxed_term k
        ≡ node_kernel (traps_of traps.now) next.old at (PresentCase cases.now no.now)) }
    ensures next { OnOk result (next.new ≡ next.old + node_new (PresentCase cases.now no.now)) }
{
    let choices = expand_cases(alloc, cases.as_slice(), traps, next)?;
    let no = expand_part(alloc, no, traps, next)?;
    Ok(chosen(alloc, choices, no)?)
}

/// `loop p end`.
#[cycle(expansion)]
#[inline(never)]
#[tactic(auto, using(crate::proofs::KernelNodes::kernel_rows))]
pub(crate) fn expand_loop(
    alloc: Global,
    at: Span,
    body: &Box<FlatStmt>,
    traps: &Traps,
    next: &mut u32,
) -> Result<Box<Kernel>, NoMemory>
    requires room { HasRoom traps.now (node_traps (Loop body.now)) }
    requires numbers { next.old + node_new (Loop body.now) < 2 ^ 32 }
    ensures term { IfOk result (λ k. boxed_term k
        ≡ node_kernel (traps_of traps.now) next.old at (Loop body.now)) }
    ensures next { OnOk result (next.new ≡ next.old + node_new (Loop body.now)) }
{
    let body = expand(alloc, body, traps, next)?;
    Ok(terms::endless_loop(alloc, at, body)?)
}

/// `loop p each d`.
#[cycle(expansion)]
#[inline(never)]
#[tactic(auto, using(crate::proofs::KernelNodes::kernel_rows))]
pub(crate) fn expand_loop_each(
    alloc: Global,
    at: Span,
    body: &Box<FlatStmt>,
    delay: &FlatDelay,
    traps: &Traps,
    next: &mut u32,
) -> Result<Box<Kernel>, NoMemory>
    requires room { HasRoom traps.now (node_traps (LoopEach body.now delay.now)) }
    requires numbers { next.old + node_new (LoopEach body.now delay.now) < 2 ^ 32 }
    ensures term { IfOk result (λ k. boxed_term k
        ≡ node_kernel (traps_of traps.now) next.old at (LoopEach body.now delay.now)) }
    ensures next { OnOk result (next.new ≡ next.old + node_new (LoopEach body.now delay.now)) }
{
    let signal = new_signal(delay, next);
    let body = expand(alloc, body, &Traps::New(traps), next)?;
    Ok(rows::looping_each(alloc, at, delay, signal, body)?)
}

/// `every d do p end`.
#[cycle(expansion)]
#[inline(never)]
#[tactic(auto, using(crate::proofs::KernelNodes::kernel_rows))]
pub(crate) fn expand_every(
    alloc: Global,
    at: Span,
    delay: &FlatDelay,
    body: &Box<FlatStmt>,
    traps: &Traps,
    next: &mut u32,
) -> Result<Box<Kernel>, NoMemory>
    requires room { HasRoom traps.now (node_traps (Every delay.now body.now)) }
    requires numbers { next.old + node_new (Every delay.now body.now) < 2 ^ 32 }
    ensures term { IfOk result (λ k. boxed_term k
        ≡ node_kernel (traps_of traps.now) next.old at (Every delay.now body.now)) }
    ensures next { OnOk result (next.new ≡ next.old + node_new (Every delay.now body.now)) }
{
    let signal = new_signal(delay, next);
    let body = expand(alloc, body, &Traps::New(traps), next)?;
    Ok(rows::looping_every(alloc, at, delay, signal, body)?)
}

/// `repeat n times p end`. The place of its count is there for the contract.
#[cycle(expansion)]
#[inline(never)]
#[tactic(auto, using(crate::proofs::KernelNodes::kernel_rows))]
pub(crate) fn expand_repeat(
    alloc: Global,
    count: u128,
    place: Span,
    body: &Box<FlatStmt>,
    traps: &Traps,
    next: &mut u32,
) -> Result<Box<Kernel>, NoMemory>
    requires room { HasRoom traps.now (node_traps (Repeat count place body.now)) }
    requires numbers { next.old + node_new (Repeat count place body.now) < 2 ^ 32 }
    ensures term { (at : CodeSpan) → IfOk result (λ k. boxed_term k
        ≡ node_kernel (traps_of traps.now) next.old at (Repeat count place body.now)) }
    ensures next { OnOk result (next.new ≡ next.old + node_new (Repeat count place body.now)) }
{
    let body = expand(alloc, body, traps, next)?;
    Ok(terms::repeated(alloc, count, body)?)
}

/// `abort p when d`, and what comes after it.
#[cycle(expansion)]
#[inline(never)]
#[tactic(auto, using(crate::proofs::KernelNodes::kernel_rows))]
pub(crate) fn expand_abort(
    alloc: Global,
    at: Span,
    body: &Box<FlatStmt>,
    delay: &FlatDelay,
    rest: &Option<Box<FlatStmt>>,
    traps: &Traps,
    next: &mut u32,
) -> Result<Box<Kernel>, NoMemory>
    requires room { HasRoom traps.now (node_traps (Abort body.now delay.now rest.now)) }
    requires numbers { next.old + node_new (Abort body.now delay.now rest.now) < 2 ^ 32 }
    ensures term { IfOk result (λ k. boxed_term k
        ≡ node_kernel (traps_of traps.now) next.old at (Abort body.now delay.now rest.now)) }
    ensures next { OnOk result (next.new ≡ next.old + node_new (Abort body.now delay.now rest.now)) }
{
    let signal = new_signal(delay, next);
    let outer = Traps::New(traps);
    match rest {
        None => {
            let body = expand(alloc, body, &outer, next)?;
            Ok(rows::abortion(alloc, at, delay, signal, body)?)
        }
        Some(rest) => {
            let body = expand(alloc, body, &Traps::New(&outer), next)?;
            let rest = expand(alloc, rest, &outer, next)?;
            Ok(rows::handled_abortion(alloc, at, delay, signal, body, rest)?)
        }
    }
}

/// `abort p when` one of these cases.
#[cycle(expansion)]
#[inline(never)]
#[tactic(auto, using(crate::proofs::KernelNodes::kernel_rows))]
pub(crate) fn expand_abort_case(
    alloc: Global,
    at: Span,
    body: &Box<FlatStmt>,
    cases: &Vec<FlatCase>,
    traps: &Traps,
    next: &mut u32,
) -> Result<Box<Kernel>, NoMemory>
    requires room { HasRoom traps.now (node_traps (AbortCase body.now cases.now)) }
    requires numbers { next.old + node_new (AbortCase body.now cases.now) < 2 ^ 32 }
    ensures term { IfOk result (λ k. boxed_term k
        ≡ node_kernel (traps_of traps.now) next.old at (AbortCase body.now cases.now)) }
    ensures next { OnOk result (next.new ≡ next.old + node_new (AbortCase body.now cases.now)) }
{
    let outer = Traps::New(traps);
    let body = expand(alloc, body, &Traps::New(&outer), next)?;
    let choices = expand_cases(alloc, cases.as_slice(), &outer, next)?;
    Ok(aborting_cases(alloc, at, cases.as_slice(), body, choices)?)
}

/// `weak abort p when d`.
#[cycle(expansion)]
#[inline(never)]
#[tactic(auto, using(crate::proofs::KernelNodes::kernel_rows))]
pub(crate) fn expand_weak_abort(
    alloc: Global,
    at: Span,
    body: &Box<FlatStmt>,
    delay: &FlatDelay,
    traps: &Traps,
    next: &mut u32,
) -> Result<Box<Kernel>, NoMemory>
    requires room { HasRoom traps.now (node_traps (WeakAbort body.now delay.now)) }
    requires numbers { next.old + node_new (WeakAbort body.now delay.now) < 2 ^ 32 }
    ensures term { IfOk result (λ k. boxed_term k
        ≡ node_kernel (traps_of traps.now) next.old at (WeakAbort body.now delay.now)) }
    ensures next { OnOk result (next.new ≡ next.old + node_new (WeakAbort body.now delay.now)) }
{
    let body = expand(alloc, body, &Traps::New(traps), next)?;
    Ok(rows::aborting_weakly(alloc, at, delay, body)?)
}

/// `suspend p when d`.
#[cycle(expansion)]
#[inline(never)]
#[tactic(auto, using(crate::proofs::KernelNodes::kernel_rows))]
pub(crate) fn expand_suspend(
    alloc: Global,
    at: Span,
    body: &Box<FlatStmt>,
    delay: &FlatDelay,
    traps: &Traps,
    next: &mut u32,
) -> Result<Box<Kernel>, NoMemory>
    requires room { HasRoom traps.now (node_traps (Suspend body.now delay.now)) }
    requires numbers { next.old + node_new (Suspend body.now delay.now) < 2 ^ 32 }
    ensures term { IfOk result (λ k. boxed_term k
        ≡ node_kernel (traps_of traps.now) next.old at (Suspend body.now delay.now)) }
    ensures next { OnOk result (next.new ≡ next.old + node_new (Suspend body.now delay.now)) }
{
    let body = expand(alloc, body, traps, next)?;
    Ok(rows::suspension(alloc, at, delay, body)?)
}

/// `trap T in p end`, and what handles it.
#[cycle(expansion)]
#[inline(never)]
#[tactic(auto, using(crate::proofs::KernelNodes::kernel_rows))]
pub(crate) fn expand_trap(
    alloc: Global,
    body: &Box<FlatStmt>,
    handler: &Option<Box<FlatStmt>>,
    traps: &Traps,
    next: &mut u32,
) -> Result<Box<Kernel>, NoMemory>
    requires room { HasRoom traps.now (node_traps (Trap body.now handler.now)) }
    requires numbers { next.old + node_new (Trap body.now handler.now) < 2 ^ 32 }
    ensures term { (at : CodeSpan) → IfOk result (λ k. boxed_term k
        ≡ node_kernel (traps_of traps.now) next.old at (Trap body.now handler.now)) }
    ensures next { OnOk result (next.new ≡ next.old + node_new (Trap body.now handler.now)) }
{
    match handler {
        None => {
            let body = expand(alloc, body, &Traps::Source(traps), next)?;
            Ok(terms::trap(alloc, body)?)
        }
        Some(handler) => {
            let outer = Traps::New(traps);
            let body = expand(alloc, body, &Traps::Source(&outer), next)?;
            let rest = expand(alloc, handler, &outer, next)?;
            Ok(rows::handled_trap(alloc, body, rest)?)
        }
    }
}

/// `signal S in p end`.
#[cycle(expansion)]
#[inline(never)]
#[tactic(auto, using(crate::proofs::KernelNodes::kernel_rows))]
pub(crate) fn expand_signal(
    alloc: Global,
    signals: &Vec<SigId>,
    body: &Box<FlatStmt>,
    traps: &Traps,
    next: &mut u32,
) -> Result<Box<Kernel>, NoMemory>
    requires room { HasRoom traps.now (node_traps (Signal signals.now body.now)) }
    requires numbers { next.old + node_new (Signal signals.now body.now) < 2 ^ 32 }
    ensures term { (at : CodeSpan) → IfOk result (λ k. boxed_term k
        ≡ node_kernel (traps_of traps.now) next.old at (Signal signals.now body.now)) }
    ensures next { OnOk result (next.new ≡ next.old + node_new (Signal signals.now body.now)) }
{
    let body = expand(alloc, body, traps, next)?;
    Ok(rows::locals(alloc, signals.as_slice(), body)?)
}

/// Statements one after another.
#[cycle(expansion)]
#[inline(never)]
#[tactic(auto, using(crate::proofs::KernelNodes::kernel_rows))]
pub(crate) fn expand_seq(
    alloc: Global,
    parts: &Vec<FlatStmt>,
    traps: &Traps,
    next: &mut u32,
) -> Result<Box<Kernel>, NoMemory>
    requires room { HasRoom traps.now (node_traps (Seq parts.now)) }
    requires numbers { next.old + node_new (Seq parts.now) < 2 ^ 32 }
    ensures term { (at : CodeSpan) → IfOk result (λ k. boxed_term k
        ≡ node_kernel (traps_of traps.now) next.old at (Seq parts.now)) }
    ensures next { OnOk result (next.new ≡ next.old + node_new (Seq parts.now)) }
{
    let parts = expand_parts(alloc, parts.as_slice(), traps, next)?;
    Ok(terms::sequence_of(alloc, parts)?)
}

/// Statements in parallel.
#[cycle(expansion)]
#[inline(never)]
#[tactic(auto, using(crate::proofs::KernelNodes::kernel_rows))]
pub(crate) fn expand_par(
    alloc: Global,
    parts: &Vec<FlatStmt>,
    traps: &Traps,
    next: &mut u32,
) -> Result<Box<Kernel>, NoMemory>
    requires room { HasRoom traps.now (node_traps (Par parts.now)) }
    requires numbers { next.old + node_new (Par parts.now) < 2 ^ 32 }
    ensures term { (at : CodeSpan) → IfOk result (λ k. boxed_term k
        ≡ node_kernel (traps_of traps.now) next.old at (Par parts.now)) }
    ensures next { OnOk result (next.new ≡ next.old + node_new (Par parts.now)) }
{
    let parts = expand_parts(alloc, parts.as_slice(), traps, next)?;
    Ok(terms::parallel_of(alloc, parts)?)
}

// The number of the next new signal, which an abortion by a count of 2 or more takes.
#[tactic(auto, using(crate::proofs::KernelNodes::delay_rows))]
fn new_signal(delay: &FlatDelay, next: &mut u32) -> SigId
    requires { next.old + delay_new delay.now < 2 ^ 32 }
    ensures signal { result.0 ≡ next.old }
    ensures next { next.new ≡ next.old + delay_new delay.now }
{
    let signal = SigId(*next);
    match delay {
        FlatDelay::Plain(_) => signal,
        FlatDelay::Immediate(_) => signal,
        FlatDelay::Count(count, _, _) => {
            if *count <= 1 {
                return signal;
            }
            *next = signal.0 + 1;
            signal
        }
    }
}
