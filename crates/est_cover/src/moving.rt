// Tests, delays and lists of signals, with the numbers that the signals have in the covered program.

ghost use Rattle.std.specs.Prelude.{◌≡◌, IfOk, map};
ghost use Rattle.est_ast.specs.FlatViews.{flat_delay_of, flat_expr_of};
ghost use Rattle.est_cover.specs.Nodes.{delay_moved, signals_moved, test_moved};

use crate::marks::moved;
use crate::portions::Portion;
use base_types::{NoMemory, SigId};
use est_ast::{FlatDelay, FlatExpr};
use std::alloc::Global;

/// A test.
#[cycle(tests)]
#[tactic(auto, using(crate::proofs::TestRows::test_rows))]
pub(crate) fn moved_test(
    alloc: Global,
    portion: Portion,
    e: &FlatExpr,
) -> Result<FlatExpr, NoMemory>
    ensures { IfOk result (λ made. flat_expr_of made ≡ test_moved portion e.now) }
{
    match e {
        FlatExpr::Tick(span) => Ok(FlatExpr::Tick(*span)),
        FlatExpr::Sig(signal) => Ok(FlatExpr::Sig(moved(portion, *signal))),
        FlatExpr::Not(e) => {
            let e = moved_test(alloc, portion, e)?;
            Ok(FlatExpr::Not(Box::new(alloc, e)?))
        }
        FlatExpr::And(parts) => Ok(FlatExpr::And(moved_tests(alloc, portion, parts)?)),
        FlatExpr::Or(parts) => Ok(FlatExpr::Or(moved_tests(alloc, portion, parts)?)),
    }
}

// Tests in a list.
#[cycle(tests)]
fn moved_tests(
    alloc: Global,
    portion: Portion,
    parts: &[FlatExpr],
) -> Result<Vec<FlatExpr>, NoMemory>
    ensures { IfOk result (λ made. map flat_expr_of made.items ≡ map (test_moved portion) parts.now) }
{
    let mut made = Vec::new(alloc);
    for e in parts {
        made.push(moved_test(alloc, portion, e)?)?;
    }
    Ok(made)
}

/// A delay.
#[tactic(auto, using(crate::proofs::TestRows::delay_rows))]
pub(crate) fn moved_delay(
    alloc: Global,
    portion: Portion,
    delay: &FlatDelay,
) -> Result<FlatDelay, NoMemory>
    ensures { IfOk result (λ made. flat_delay_of made ≡ delay_moved portion delay.now) }
{
    match delay {
        FlatDelay::Plain(event) => Ok(FlatDelay::Plain(moved_test(alloc, portion, event)?)),
        FlatDelay::Immediate(event) => Ok(FlatDelay::Immediate(moved_test(alloc, portion, event)?)),
        FlatDelay::Count(count, span, event) => {
            let event = moved_test(alloc, portion, event)?;
            Ok(FlatDelay::Count(*count, *span, event))
        }
    }
}

/// Signals in a list.
pub(crate) fn moved_signals(
    alloc: Global,
    portion: Portion,
    signals: &[SigId],
) -> Result<Vec<SigId>, NoMemory>
    ensures { IfOk result (λ made. map (λ s. s.0) made.items ≡ signals_moved portion signals.now) }
{
    let mut made = Vec::new(alloc);
    for signal in signals {
        made.push(moved(portion, *signal))?;
    }
    Ok(made)
}
