// Cases, with kernel terms.

ghost use Rattle.std.specs.Prelude.{◌≡◌, IfOk, map};
ghost use Rattle.est_dismantle.specs.Boxes.{boxed_term};
ghost use Rattle.est_kernel.specs.Terms.{Present, Seq, Nothing};
ghost use Rattle.est_dismantle.specs.Choices.{chosen_of, choice_of};
ghost use Rattle.est_dismantle.specs.FlatNodes.{event_test, any_event_test};
ghost use Rattle.est_dismantle.specs.Kernels.{aborting, awaiting, handled};

use crate::events::{any_event, test_of};
use crate::{derived as rows, terms};
use base_types::{NoMemory, Span};
use est_ast::{FlatCase, FlatExpr};
use est_kernel::{Kernel, Test};
use std::alloc::Global;

/// A case: its test, and what it does.
#[derive(Drop)]
pub(crate) struct Choice {
    pub event: Test,
    pub body: Box<Kernel>,
}

/// The first choice whose event is there, or else the last term.
pub(crate) fn chosen(
    alloc: Global,
    choices: Vec<Choice>,
    last: Box<Kernel>,
) -> Result<Box<Kernel>, NoMemory>
    ensures { IfOk result (λ k. boxed_term k ≡ chosen_of (map choice_of choices.items) (boxed_term last)) }
{
    let mut rest = choices;
    let mut whole = last;
    while let Some(choice) = rest.pop() {
        whole = terms::choice(alloc, choice.event, choice.body, whole)?;
    }
    Ok(whole)
}

/// `present e then p else q end`.
pub(crate) fn choice_by(
    alloc: Global,
    event: &FlatExpr,
    yes: Box<Kernel>,
    no: Box<Kernel>,
) -> Result<Box<Kernel>, NoMemory>
    ensures { IfOk result (λ k. boxed_term k ≡ Present (event_test event.now) (boxed_term yes) (boxed_term no)) }
{
    let event = test_of(alloc, event)?;
    terms::choice(alloc, event, yes, no)
}

/// `await` of cases, and the choice among them.
pub(crate) fn awaiting_cases(
    alloc: Global,
    at: Span,
    cases: &[FlatCase],
    choices: Vec<Choice>,
) -> Result<Box<Kernel>, NoMemory>
    ensures { IfOk result (λ k. boxed_term k
        ≡ Seq (awaiting at (any_event_test cases.now)) (chosen_of (map choice_of choices.items) Nothing)) }
{
    let nothing = terms::node(alloc, Kernel::Nothing)?;
    let rest = chosen(alloc, choices, nothing)?;
    let first = awaiting_any(alloc, at, cases)?;
    terms::sequence(alloc, first, rest)
}

// `await` of any event of these cases.
fn awaiting_any(alloc: Global, at: Span, cases: &[FlatCase]) -> Result<Box<Kernel>, NoMemory>
    ensures { IfOk result (λ k. boxed_term k ≡ awaiting at (any_event_test cases.now)) }
{
    let any = any_event(alloc, cases)?;
    rows::awaiting(alloc, at, any)
}

/// `abort p when` one of these cases, and the choice among them.
pub(crate) fn aborting_cases(
    alloc: Global,
    at: Span,
    cases: &[FlatCase],
    body: Box<Kernel>,
    choices: Vec<Choice>,
) -> Result<Box<Kernel>, NoMemory>
    ensures { IfOk result (λ k. boxed_term k
        ≡ handled (aborting at (any_event_test cases.now) 3 (boxed_term body))
        (chosen_of (map choice_of choices.items) Nothing)) }
{
    let body = aborting_any(alloc, at, cases, body)?;
    let nothing = terms::node(alloc, Kernel::Nothing)?;
    let rest = chosen(alloc, choices, nothing)?;
    rows::handled(alloc, body, rest)
}

// The body of an abortion by any event of these cases.
fn aborting_any(
    alloc: Global,
    at: Span,
    cases: &[FlatCase],
    body: Box<Kernel>,
) -> Result<Box<Kernel>, NoMemory>
    ensures { IfOk result (λ k. boxed_term k ≡ aborting at (any_event_test cases.now) 3 (boxed_term body)) }
{
    let any = any_event(alloc, cases)?;
    rows::aborting(alloc, at, any, 3, body)
}
