// Tests of the kernel for those of a flat program.

ghost use Rattle.std.specs.Prelude.{◌≡◌, IfOk, map};
ghost use Rattle.est_kernel.specs.Plain.{expression_of};
ghost use Rattle.est_kernel.specs.Terms.{Expression, And, Or, Tick};
ghost use Rattle.est_dismantle.specs.Kernels.{nested};
ghost use Rattle.est_dismantle.specs.FlatNodes.{event_test, events_tests, any_event_test};

use base_types::NoMemory;
use est_ast::{FlatCase, FlatExpr};
use est_kernel::Test;
use std::alloc::Global;

/// The test that stands for this one.
#[cycle(tests_of_events)]
#[tactic(auto, using(crate::proofs::KernelNodes::event_rows))]
pub(crate) fn test_of(alloc: Global, event: &FlatExpr) -> Result<Test, NoMemory>
    ensures { IfOk result (λ t. expression_of t ≡ event_test event.now) }
{
    match event {
        FlatExpr::Tick(_) => Ok(Test::Tick),
        FlatExpr::Sig(signal) => Ok(Test::Sig(*signal)),
        FlatExpr::Not(part) => Ok(Test::Not(Box::new(alloc, test_of(alloc, part)?)?)),
        FlatExpr::And(parts) => {
            let parts = tests_of(alloc, parts.as_slice())?;
            Ok(conjunction(alloc, parts)?)
        }
        FlatExpr::Or(parts) => {
            let parts = tests_of(alloc, parts.as_slice())?;
            Ok(disjunction(alloc, parts)?)
        }
    }
}

#[cycle(tests_of_events)]
#[tactic(auto, using(crate::proofs::KernelNodes::event_rows))]
fn tests_of(alloc: Global, parts: &[FlatExpr]) -> Result<Vec<Test>, NoMemory>
    ensures { IfOk result (λ v. map expression_of v.items ≡ events_tests parts.now) }
{
    let mut tests = Vec::new(alloc);
    for part in parts {
        tests.push(test_of(alloc, part)?)?;
    }
    Ok(tests)
}

// Both tests.
fn both(alloc: Global, left: Test, right: Test) -> Result<Test, NoMemory>
    ensures { IfOk result (λ t. expression_of t ≡ And (expression_of left) (expression_of right)) }
{
    let left = Box::new(alloc, left)?;
    Ok(Test::And(left, Box::new(alloc, right)?))
}

// One test or the other.
fn either(alloc: Global, left: Test, right: Test) -> Result<Test, NoMemory>
    ensures { IfOk result (λ t. expression_of t ≡ Or (expression_of left) (expression_of right)) }
{
    let left = Box::new(alloc, left)?;
    Ok(Test::Or(left, Box::new(alloc, right)?))
}

// All of these tests.
fn conjunction(alloc: Global, parts: Vec<Test>) -> Result<Test, NoMemory>
    ensures { IfOk result (λ t. expression_of t ≡ nested And Tick (map expression_of parts.items)) }
{
    let mut rest = parts;
    let Some(mut whole) = rest.pop() else {
        return Ok(Test::Tick);
    };
    while let Some(part) = rest.pop() {
        whole = both(alloc, part, whole)?;
    }
    Ok(whole)
}

// Any of these tests.
fn disjunction(alloc: Global, parts: Vec<Test>) -> Result<Test, NoMemory>
    ensures { IfOk result (λ t. expression_of t ≡ nested Or Tick (map expression_of parts.items)) }
{
    let mut rest = parts;
    let Some(mut whole) = rest.pop() else {
        return Ok(Test::Tick);
    };
    while let Some(part) = rest.pop() {
        whole = either(alloc, part, whole)?;
    }
    Ok(whole)
}

/// Whether any event of these cases is there.
#[tactic(auto, using(crate::proofs::KernelNodes::any_rows))]
pub(crate) fn any_event(alloc: Global, cases: &[FlatCase]) -> Result<Test, NoMemory>
    ensures { IfOk result (λ t. expression_of t ≡ any_event_test cases.now) }
{
    let mut tests = Vec::new(alloc);
    for case in cases {
        tests.push(test_of(alloc, &case.event)?)?;
    }
    Ok(disjunction(alloc, tests)?)
}
