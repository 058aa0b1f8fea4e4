// The rows of derived statements, over kernel terms.

ghost use Rattle.std.specs.Prelude.{◌≡◌, IfOk, map};
ghost use Rattle.est_ast.specs.FlatViews.{flat_delay_of};
ghost use Rattle.est_kernel.specs.Plain.{expression_of};
ghost use Rattle.est_dismantle.specs.Boxes.{boxed_term};
ghost use Rattle.est_kernel.specs.Terms.{Nothing, Pause, Emit, Exit, Present, Suspend, Seq, Loop, Trap};
ghost use Rattle.est_dismantle.specs.Abortions.{aborting_later, tested, tested_at_once};
ghost use Rattle.est_dismantle.specs.Kernels.{halting as spec_halting, watching as spec_watching};
ghost use Rattle.est_dismantle.specs.Kernels.{awaiting as spec_awaiting};
ghost use Rattle.est_dismantle.specs.Kernels.{awaiting_immediately as spec_awaiting_immediately};
ghost use Rattle.est_dismantle.specs.Kernels.{awaiting_delay as spec_awaiting_delay, aborting as spec_aborting};
ghost use Rattle.est_dismantle.specs.Kernels.{aborting_counted as spec_aborting_counted, abortion as spec_abortion};
ghost use Rattle.est_dismantle.specs.Kernels.{aborting_handled as spec_aborting_handled, handled as spec_handled};
ghost use Rattle.est_dismantle.specs.Kernels.{looping_each as spec_looping_each, later_delay};
ghost use Rattle.est_dismantle.specs.Kernels.{aborting_weakly as spec_aborting_weakly, suspension as spec_suspension};
ghost use Rattle.est_dismantle.specs.Kernels.{locals as spec_locals, sequence, times};

use crate::events::test_of;
use crate::terms;
use base_types::{NoMemory, SigId, Span};
use est_ast::FlatDelay;
use est_kernel::{Kernel, Test};
use std::alloc::Global;

/// `loop pause end`.
pub(crate) fn halting(alloc: Global, at: Span) -> Result<Box<Kernel>, NoMemory>
    ensures { IfOk result (λ k. boxed_term k ≡ spec_halting at) }
{
    let pause = terms::node(alloc, Kernel::Pause)?;
    terms::endless_loop(alloc, at, pause)
}

/// `loop emit s; pause end`.
pub(crate) fn sustaining(alloc: Global, at: Span, signal: SigId) -> Result<Box<Kernel>, NoMemory>
    ensures { IfOk result (λ k. boxed_term k ≡ Loop at (Seq (Emit signal.0) Pause)) }
{
    let emission = terms::node(alloc, Kernel::Emit(signal))?;
    let pause = terms::node(alloc, Kernel::Pause)?;
    let part = terms::sequence(alloc, emission, pause)?;
    terms::endless_loop(alloc, at, part)
}

// `present e then exit T end`, with T the nearest trap.
fn leaving_at(alloc: Global, event: Test) -> Result<Box<Kernel>, NoMemory>
    ensures { IfOk result (λ k. boxed_term k ≡ Present (expression_of event) (Exit 2) Nothing) }
{
    let exit = terms::node(alloc, Kernel::Exit(2))?;
    let nothing = terms::node(alloc, Kernel::Nothing)?;
    terms::choice(alloc, event, exit, nothing)
}

// `loop pause; present e then exit T end end`, with T the nearest trap.
fn watching(alloc: Global, at: Span, event: Test) -> Result<Box<Kernel>, NoMemory>
    ensures { IfOk result (λ k. boxed_term k ≡ spec_watching at (expression_of event)) }
{
    let leaving = leaving_at(alloc, event)?;
    let pause = terms::node(alloc, Kernel::Pause)?;
    let part = terms::sequence(alloc, pause, leaving)?;
    terms::endless_loop(alloc, at, part)
}

/// `await e`.
pub(crate) fn awaiting(alloc: Global, at: Span, event: Test) -> Result<Box<Kernel>, NoMemory>
    ensures { IfOk result (λ k. boxed_term k ≡ spec_awaiting at (expression_of event)) }
{
    let part = watching(alloc, at, event)?;
    terms::trap(alloc, part)
}

// `await immediate e`.
fn awaiting_immediately(alloc: Global, at: Span, event: Test) -> Result<Box<Kernel>, NoMemory>
    ensures { IfOk result (λ k. boxed_term k ≡ spec_awaiting_immediately at (expression_of event)) }
{
    let leaving = leaving_at(alloc, event)?;
    let pause = terms::node(alloc, Kernel::Pause)?;
    let part = terms::sequence(alloc, leaving, pause)?;
    let waiting = terms::endless_loop(alloc, at, part)?;
    terms::trap(alloc, waiting)
}

/// `await d`.
#[tactic(auto, unfolding(crate::specs::FlatNodes::event_test))]
pub(crate) fn awaiting_delay(
    alloc: Global,
    at: Span,
    delay: &FlatDelay,
) -> Result<Box<Kernel>, NoMemory>
    ensures { IfOk result (λ k. boxed_term k ≡ spec_awaiting_delay at (flat_delay_of delay.now)) }
{
    match delay {
        FlatDelay::Plain(event) => {
            let event = test_of(alloc, event)?;
            Ok(awaiting(alloc, at, event)?)
        }
        FlatDelay::Immediate(event) => {
            let event = test_of(alloc, event)?;
            Ok(awaiting_immediately(alloc, at, event)?)
        }
        FlatDelay::Count(count, _, event) => {
            let event = test_of(alloc, event)?;
            let one = awaiting(alloc, at, event)?;
            Ok(terms::repeated(alloc, *count, one)?)
        }
    }
}

/// The body of an abortion, in parallel with what watches for the event.
pub(crate) fn aborting(
    alloc: Global,
    at: Span,
    event: Test,
    code: u8,
    body: Box<Kernel>,
) -> Result<Box<Kernel>, NoMemory>
    ensures { IfOk result (λ k. boxed_term k ≡ spec_aborting at (expression_of event) code (boxed_term body)) }
{
    let again = event.copy(alloc)?;
    let body = leaving(alloc, event, code, body)?;
    let watching = watching(alloc, at, again)?;
    terms::parallel(alloc, body, watching)
}

// `suspend p when e; exit`.
fn leaving(alloc: Global, event: Test, code: u8, body: Box<Kernel>) -> Result<Box<Kernel>, NoMemory>
    ensures { IfOk result (λ k. boxed_term k ≡ Seq (Suspend (expression_of event) (boxed_term body)) (Exit code)) }
{
    let held = terms::suspension(alloc, event, body)?;
    let exit = terms::node(alloc, Kernel::Exit(code))?;
    terms::sequence(alloc, held, exit)
}

// An abortion by a count of 2 or more.
#[derive(Drop)]
struct Counted {
    count: u128,
    event: Test,
    signal: SigId,
}

// The same for an abortion by a count of 2 or more, with a new signal.
fn aborting_counted(
    alloc: Global,
    at: Span,
    delay: Counted,
    code: u8,
    body: Box<Kernel>,
) -> Result<Box<Kernel>, NoMemory>
    ensures { IfOk result (λ k. boxed_term k
        ≡ spec_aborting_counted at delay.count (expression_of delay.event) delay.signal.0 code (boxed_term body)) }
{
    let Counted {
        count,
        event,
        signal,
    } = delay;
    let body = leaving(alloc, Test::Sig(signal), code, body)?;
    let waits = counting(alloc, at, count, event, signal)?;
    let both = terms::parallel(alloc, body, waits)?;
    terms::local(alloc, signal, both)
}

// `emit x; exit T`, with T the nearest trap.
fn emitting_exit(alloc: Global, signal: SigId) -> Result<Box<Kernel>, NoMemory>
    ensures { IfOk result (λ k. boxed_term k ≡ Seq (Emit signal.0) (Exit 2)) }
{
    let emission = terms::node(alloc, Kernel::Emit(signal))?;
    let exit = terms::node(alloc, Kernel::Exit(2))?;
    terms::sequence(alloc, emission, exit)
}

// `await n e; emit x; exit T`, with T the nearest trap.
fn counting(
    alloc: Global,
    at: Span,
    count: u128,
    event: Test,
    signal: SigId,
) -> Result<Box<Kernel>, NoMemory>
    ensures { IfOk result (λ k. boxed_term k
        ≡ Seq (sequence (times count (spec_awaiting at (expression_of event)))) (Seq (Emit signal.0) (Exit 2))) }
{
    let one = awaiting(alloc, at, event)?;
    let waits = terms::repeated(alloc, count, one)?;
    let end = emitting_exit(alloc, signal)?;
    terms::sequence(alloc, waits, end)
}

// The same for an abortion by a delay, without the test at its start.
fn aborting_by(
    alloc: Global,
    at: Span,
    delay: &FlatDelay,
    signal: SigId,
    code: u8,
    body: Box<Kernel>,
) -> Result<Box<Kernel>, NoMemory>
    ensures { IfOk result (λ k. boxed_term k
        ≡ aborting_later at (flat_delay_of delay.now) signal.0 code (boxed_term body)) }
{
    let event = delay_test(alloc, delay)?;
    match delay {
        FlatDelay::Plain(_) => aborting(alloc, at, event, code, body),
        FlatDelay::Immediate(_) => aborting(alloc, at, event, code, body),
        FlatDelay::Count(count, _, _) => {
            let count = *count;
            if count <= 1 {
                return aborting(alloc, at, event, code, body);
            }
            let delay = Counted {
                count,
                event,
                signal,
            };
            aborting_counted(alloc, at, delay, code, body)
        }
    }
}

// The test of a delay.
#[tactic(auto, unfolding(crate::specs::FlatNodes::event_test))]
fn delay_test(alloc: Global, delay: &FlatDelay) -> Result<Test, NoMemory>
    ensures { IfOk result (λ t. expression_of t ≡ tested (flat_delay_of delay.now)) }
{
    match delay {
        FlatDelay::Plain(event) => test_of(alloc, event),
        FlatDelay::Immediate(event) => test_of(alloc, event),
        FlatDelay::Count(_, _, event) => test_of(alloc, event),
    }
}

// The test at the start, of an immediate delay only.
#[tactic(auto, unfolding(crate::specs::FlatNodes::event_test))]
fn tested_first(
    alloc: Global,
    delay: &FlatDelay,
    yes: Box<Kernel>,
    no: Box<Kernel>,
) -> Result<Box<Kernel>, NoMemory>
    ensures { IfOk result (λ k. boxed_term k
        ≡ tested_at_once (flat_delay_of delay.now) (boxed_term yes) (boxed_term no)) }
{
    match delay {
        FlatDelay::Plain(_) => Ok(no),
        FlatDelay::Immediate(event) => {
            let event = test_of(alloc, event)?;
            terms::choice(alloc, event, yes, no)
        }
        FlatDelay::Count(_, _, _) => Ok(no),
    }
}

/// `abort p when d`, with the number of the next new signal.
#[tactic(auto, using(crate::proofs::Abortions::abortion_rows))]
pub(crate) fn abortion(
    alloc: Global,
    at: Span,
    delay: &FlatDelay,
    signal: SigId,
    body: Box<Kernel>,
) -> Result<Box<Kernel>, NoMemory>
    ensures { IfOk result (λ k. boxed_term k
        ≡ spec_abortion at (flat_delay_of delay.now) signal.0 (boxed_term body)) }
{
    let part = aborting_by(alloc, at, delay, signal, 2, body)?;
    let part = terms::trap(alloc, part)?;
    let nothing = terms::node(alloc, Kernel::Nothing)?;
    Ok(tested_first(alloc, delay, nothing, part)?)
}

/// What `abort p when d do q end` runs inside its two traps.
#[tactic(auto, using(crate::proofs::Abortions::abortion_rows))]
pub(crate) fn aborting_handled(
    alloc: Global,
    at: Span,
    delay: &FlatDelay,
    signal: SigId,
    body: Box<Kernel>,
) -> Result<Box<Kernel>, NoMemory>
    ensures { IfOk result (λ k. boxed_term k
        ≡ spec_aborting_handled at (flat_delay_of delay.now) signal.0 (boxed_term body)) }
{
    let part = aborting_by(alloc, at, delay, signal, 3, body)?;
    let exit = terms::node(alloc, Kernel::Exit(2))?;
    Ok(tested_first(alloc, delay, exit, part)?)
}

/// `trap N in trap T in p end; q end`.
pub(crate) fn handled(
    alloc: Global,
    body: Box<Kernel>,
    rest: Box<Kernel>,
) -> Result<Box<Kernel>, NoMemory>
    ensures { IfOk result (λ k. boxed_term k ≡ spec_handled (boxed_term body) (boxed_term rest)) }
{
    let body = terms::trap(alloc, body)?;
    let both = terms::sequence(alloc, body, rest)?;
    terms::trap(alloc, both)
}

/// `loop p each d`.
pub(crate) fn looping_each(
    alloc: Global,
    at: Span,
    delay: &FlatDelay,
    signal: SigId,
    body: Box<Kernel>,
) -> Result<Box<Kernel>, NoMemory>
    ensures { IfOk result (λ k. boxed_term k
        ≡ spec_looping_each at (flat_delay_of delay.now) signal.0 (boxed_term body)) }
{
    let halt = halting(alloc, at)?;
    let body = terms::sequence(alloc, body, halt)?;
    let part = abortion(alloc, at, delay, signal, body)?;
    Ok(terms::endless_loop(alloc, at, part)?)
}

/// The loop of `every d do p end`, which does not test at its start.
#[tactic(auto, using(crate::proofs::Abortions::abortion_rows))]
pub(crate) fn looping_later(
    alloc: Global,
    at: Span,
    delay: &FlatDelay,
    signal: SigId,
    body: Box<Kernel>,
) -> Result<Box<Kernel>, NoMemory>
    ensures { IfOk result (λ k. boxed_term k
        ≡ spec_looping_each at (later_delay (flat_delay_of delay.now)) signal.0 (boxed_term body)) }
{
    let halt = halting(alloc, at)?;
    let body = terms::sequence(alloc, body, halt)?;
    let part = aborting_by(alloc, at, delay, signal, 2, body)?;
    let part = terms::trap(alloc, part)?;
    Ok(terms::endless_loop(alloc, at, part)?)
}

/// `await d; q`.
pub(crate) fn after_delay(
    alloc: Global,
    at: Span,
    delay: &FlatDelay,
    rest: Box<Kernel>,
) -> Result<Box<Kernel>, NoMemory>
    ensures { IfOk result (λ k. boxed_term k
        ≡ Seq (spec_awaiting_delay at (flat_delay_of delay.now)) (boxed_term rest)) }
{
    let first = awaiting_delay(alloc, at, delay)?;
    terms::sequence(alloc, first, rest)
}

/// `every d do p end`.
pub(crate) fn looping_every(
    alloc: Global,
    at: Span,
    delay: &FlatDelay,
    signal: SigId,
    body: Box<Kernel>,
) -> Result<Box<Kernel>, NoMemory>
    ensures { IfOk result (λ k. boxed_term k
        ≡ Seq (spec_awaiting_delay at (flat_delay_of delay.now))
        (spec_looping_each at (later_delay (flat_delay_of delay.now)) signal.0 (boxed_term body))) }
{
    let each = looping_later(alloc, at, delay, signal, body)?;
    after_delay(alloc, at, delay, each)
}

/// `abort p when d do q end`.
pub(crate) fn handled_abortion(
    alloc: Global,
    at: Span,
    delay: &FlatDelay,
    signal: SigId,
    body: Box<Kernel>,
    rest: Box<Kernel>,
) -> Result<Box<Kernel>, NoMemory>
    ensures { IfOk result (λ k. boxed_term k
        ≡ spec_handled (spec_aborting_handled at (flat_delay_of delay.now) signal.0 (boxed_term body))
        (boxed_term rest)) }
{
    let body = aborting_handled(alloc, at, delay, signal, body)?;
    handled(alloc, body, rest)
}

/// `trap T in p handle T do q end`.
pub(crate) fn handled_trap(
    alloc: Global,
    body: Box<Kernel>,
    rest: Box<Kernel>,
) -> Result<Box<Kernel>, NoMemory>
    ensures { IfOk result (λ k. boxed_term k ≡ spec_handled (Seq (boxed_term body) (Exit 3)) (boxed_term rest)) }
{
    let exit = terms::node(alloc, Kernel::Exit(3))?;
    let body = terms::sequence(alloc, body, exit)?;
    handled(alloc, body, rest)
}

/// `weak abort p when d`.
pub(crate) fn aborting_weakly(
    alloc: Global,
    at: Span,
    delay: &FlatDelay,
    body: Box<Kernel>,
) -> Result<Box<Kernel>, NoMemory>
    ensures { IfOk result (λ k. boxed_term k
        ≡ spec_aborting_weakly at (flat_delay_of delay.now) (boxed_term body)) }
{
    let exit = terms::node(alloc, Kernel::Exit(2))?;
    let body = terms::sequence(alloc, body, exit)?;
    let waits = awaiting_delay(alloc, at, delay)?;
    let exit = terms::node(alloc, Kernel::Exit(2))?;
    let waits = terms::sequence(alloc, waits, exit)?;
    let both = terms::parallel(alloc, body, waits)?;
    Ok(terms::trap(alloc, both)?)
}

// `trap T in loop present e then pause else exit T end end end`.
fn waiting_out(alloc: Global, at: Span, event: &Test) -> Result<Box<Kernel>, NoMemory>
    ensures { IfOk result (λ k. boxed_term k
        ≡ Trap (Loop at (Present (expression_of event.now) Pause (Exit 2)))) }
{
    let event = event.copy(alloc)?;
    let pause = terms::node(alloc, Kernel::Pause)?;
    let exit = terms::node(alloc, Kernel::Exit(2))?;
    let part = terms::choice(alloc, event, pause, exit)?;
    let part = terms::endless_loop(alloc, at, part)?;
    terms::trap(alloc, part)
}

/// `suspend p when d`.
pub(crate) fn suspension(
    alloc: Global,
    at: Span,
    delay: &FlatDelay,
    body: Box<Kernel>,
) -> Result<Box<Kernel>, NoMemory>
    ensures { IfOk result (λ k. boxed_term k
        ≡ spec_suspension at (flat_delay_of delay.now) (boxed_term body)) }
{
    let event = delay_test(alloc, delay)?;
    match delay {
        FlatDelay::Plain(_) => terms::suspension(alloc, event, body),
        FlatDelay::Immediate(_) => suspension_at_once(alloc, at, event, body),
        FlatDelay::Count(_, _, _) => terms::suspension(alloc, event, body),
    }
}

// `suspend p when immediate e`.
fn suspension_at_once(
    alloc: Global,
    at: Span,
    event: Test,
    body: Box<Kernel>,
) -> Result<Box<Kernel>, NoMemory>
    ensures { IfOk result (λ k. boxed_term k ≡ Seq (Trap (Loop at (Present (expression_of event) Pause (Exit 2))))
        (Suspend (expression_of event) (boxed_term body))) }
{
    let waiting = waiting_out(alloc, at, &event)?;
    let part = terms::suspension(alloc, event, body)?;
    terms::sequence(alloc, waiting, part)
}

/// Local signals, the first outermost.
pub(crate) fn locals(
    alloc: Global,
    signals: &[SigId],
    body: Box<Kernel>,
) -> Result<Box<Kernel>, NoMemory>
    ensures { IfOk result (λ k. boxed_term k ≡ spec_locals (map (λ s. s.0) signals.now) (boxed_term body)) }
{
    let count = signals.len();
    let mut whole = body;
    for behind in 0..count {
        whole = terms::local(alloc, signals[count - 1 - behind], whole)?;
    }
    Ok(whole)
}
