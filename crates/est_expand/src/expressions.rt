// Tests and delays, with signals in the place of names.

ghost use Rattle.std.specs.Prelude.{◌≡◌, map};
ghost use Rattle.est_ast.specs.FlatTrees.{exprs as flat_exprs};
ghost use Rattle.est_ast.specs.FlatViews.{flat_expr_of, flat_delay_of};
ghost use Rattle.est_ast.specs.Trees.{exprs};
ghost use Rattle.est_ast.specs.Views.{expr_of, delay_of};
ghost use Rattle.est_expand.specs.Answers.{AnswersAsDefined};
ghost use Rattle.est_expand.specs.Tests.{signal_of, test, tests, awaited};

use crate::refusal::{ExpandFault, ScopeFault};
use crate::scope::{Meaning, Scope};
use base_types::SigId;
use est_ast::{Delay, FlatDelay, FlatExpr, Name, SigExpr};
use std::alloc::Global;

/// What a name of a signal means.
pub fn signal(scope: &Scope, name: &Name) -> Result<Meaning, ExpandFault>
    ensures { AnswersAsDefined (λ meaning. meaning) result (signal_of scope.now name.now) }
{
    match scope.find(name.text.bytes()) {
        Some(meaning) => Ok(meaning),
        None => Err(ExpandFault::Scope(ScopeFault::UnknownSignal(name.span))),
    }
}

/// A test.
#[cycle(tests)]
#[inline(never)]
pub fn flat_test(alloc: Global, scope: &Scope, e: &SigExpr) -> Result<FlatExpr, ExpandFault>
    ensures { AnswersAsDefined flat_expr_of result (test scope.now (expr_of e.now)) }
{
    match e {
        SigExpr::Tick(span) => Ok(FlatExpr::Tick(*span)),
        SigExpr::Sig(name) => Ok(FlatExpr::Sig(SigId(signal(scope, name)?.signal))),
        SigExpr::Not(e) => {
            let e = flat_test(alloc, scope, e)?;
            Ok(FlatExpr::Not(Box::new(alloc, e)?))
        }
        SigExpr::Round(e) => flat_test(alloc, scope, e),
        SigExpr::Square(e) => flat_test(alloc, scope, e),
        SigExpr::And(parts) => Ok(FlatExpr::And(flat_tests(alloc, scope, parts)?)),
        SigExpr::Or(parts) => Ok(FlatExpr::Or(flat_tests(alloc, scope, parts)?)),
    }
}

// Tests in a list.
#[cycle(tests)]
fn flat_tests(alloc: Global, scope: &Scope, parts: &[SigExpr]) -> Result<Vec<FlatExpr>, ExpandFault>
    ensures { AnswersAsDefined (λ found. flat_exprs (map flat_expr_of found.items)) result
        (tests scope.now (exprs (map expr_of parts.now))) }
{
    let mut found = Vec::new(alloc);
    for e in parts {
        found.push(flat_test(alloc, scope, e)?)?;
    }
    Ok(found)
}

/// A delay.
#[inline(never)]
pub fn flat_delay(alloc: Global, scope: &Scope, delay: &Delay) -> Result<FlatDelay, ExpandFault>
    ensures { AnswersAsDefined flat_delay_of result (awaited scope.now (delay_of delay.now)) }
{
    match delay {
        Delay::Plain(event) => Ok(FlatDelay::Plain(flat_test(alloc, scope, event)?)),
        Delay::Immediate(event) => Ok(FlatDelay::Immediate(flat_test(alloc, scope, event)?)),
        Delay::Count(count, span, event) => {
            let event = flat_test(alloc, scope, event)?;
            Ok(FlatDelay::Count(*count, *span, event))
        }
    }
}
