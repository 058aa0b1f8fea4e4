// The extent of an expansion, before the expansion is made.

ghost use Rattle.est_ast.specs.declared.flat.FlatForm.TheVariants.{Await, AwaitCase};
ghost use Rattle.est_dismantle.specs.Extents.{IsExtent};
ghost use Rattle.est_dismantle.specs.FlatNodes.{stmt_measures, node_measures, part_node_measures, parts_measures};
ghost use Rattle.est_dismantle.specs.FlatNodes.{chosen_measures, case_measures};
ghost use Rattle.est_dismantle.specs.Measures.{Measures};

use crate::extent::Extent;
use crate::measured_events::{any_event_extent, event_extent};
use crate::measured_rows as rows;
use est_ast::{FlatCase, FlatDelay, FlatForm, FlatStmt};

/// That of the statement's kernel term.
#[cycle(measuring)]
#[tactic(auto, using(crate::proofs::MeasuredNodes::node_extents))]
pub(crate) fn measure(statement: &FlatStmt) -> Extent
    ensures { IsExtent result (stmt_measures statement.now) }
{
    measure_form(&statement.form)
}

#[cycle(measuring)]
#[tactic(auto, using(crate::proofs::MeasuredNodes::node_extents))]
fn measure_form(form: &FlatForm) -> Extent
    ensures { IsExtent result (node_measures form.now) }
{
    match form {
        FlatForm::Nothing => Extent::leaf(),
        FlatForm::Pause => Extent::leaf(),
        FlatForm::Halt => Extent::leaf().over(),
        FlatForm::Emit(_) => Extent::leaf(),
        FlatForm::Sustain(_) => Extent::leaf().joined(Extent::leaf()).over(),
        FlatForm::Await(delay, rest) => measure_await(delay, rest),
        FlatForm::AwaitCase(cases) => measure_await_case(cases),
        FlatForm::Present(test, yes, no) => {
            event_extent(test).tested(measure_part(yes), measure_part(no))
        }
        FlatForm::PresentCase(cases, no) => measure_cases(cases.as_slice(), measure_part(no)),
        FlatForm::Loop(body) => measure(body).over(),
        FlatForm::LoopEach(body, delay) => rows::each(delay, measure(body)),
        FlatForm::Every(delay, body) => rows::every(delay, measure(body)),
        FlatForm::Repeat(count, _, body) => measure(body).copied(*count),
        FlatForm::Abort(body, delay, rest) => match rest {
            None => rows::abortion(delay, measure(body)),
            Some(rest) => rows::handled_abortion(delay, measure(body), measure(rest)),
        },
        FlatForm::AbortCase(body, cases) => {
            let any = any_event_extent(cases.as_slice());
            let chosen = measure_cases(cases.as_slice(), Extent::leaf());
            rows::handled(rows::aborted(any, measure(body)), chosen)
        }
        FlatForm::WeakAbort(body, delay) => rows::aborted_weakly(delay, measure(body)),
        FlatForm::Suspend(body, delay) => rows::suspension(delay, measure(body)),
        FlatForm::Trap(body, handler) => match handler {
            None => measure(body).trapped(),
            Some(handler) => {
                rows::handled(measure(body).joined(Extent::leaf()), measure(handler))
            }
        },
        FlatForm::Exit(_) => Extent::leaf(),
        FlatForm::Signal(signals, body) => measure(body).raised(signals.len()),
        FlatForm::Seq(parts) => measure_parts(parts.as_slice()),
        FlatForm::Par(parts) => measure_parts(parts.as_slice()),
    }
}

// That of `await d`, and what comes after it.
#[cycle(measuring)]
#[tactic(auto, using(crate::proofs::MeasuredNodes::node_extents))]
fn measure_await(delay: &FlatDelay, rest: &Option<Box<FlatStmt>>) -> Extent
    ensures { IsExtent result (node_measures (Await delay.now rest.now)) }
{
    match rest {
        None => rows::awaited_delay(delay),
        Some(rest) => rows::awaited_delay(delay).joined(measure(rest)),
    }
}

// That of `await` of cases.
#[cycle(measuring)]
#[tactic(auto, using(crate::proofs::MeasuredNodes::node_extents))]
fn measure_await_case(cases: &Vec<FlatCase>) -> Extent
    ensures { IsExtent result (node_measures (AwaitCase cases.now)) }
{
    let chosen = measure_cases(cases.as_slice(), Extent::leaf());
    rows::awaited(any_event_extent(cases.as_slice())).joined(chosen)
}

#[cycle(measuring)]
#[tactic(auto, using(crate::proofs::MeasuredNodes::node_extents))]
fn measure_part(part: &Option<Box<FlatStmt>>) -> Extent
    ensures { IsExtent result (part_node_measures part.now) }
{
    match part {
        None => Extent::leaf(),
        Some(statement) => measure(statement),
    }
}

// That of these parts, nested to the right.
#[cycle(measuring)]
fn measure_parts(parts: &[FlatStmt]) -> Extent
    ensures { IsExtent result (parts_measures parts.now) }
{
    let count = parts.len();
    if count == 0 {
        return Extent::leaf();
    }
    let mut whole = measure(&parts[count - 1]);
    for behind in 1..count {
        whole = measure(&parts[count - 1 - behind]).joined(whole);
    }
    whole
}

// That of the first case whose event is there, or else of this.
#[cycle(measuring)]
fn measure_cases(cases: &[FlatCase], last: Extent) -> Extent
    ensures { (r : Measures) → IsExtent last r → IsExtent result (chosen_measures cases.now r) }
{
    let count = cases.len();
    let mut whole = last;
    for behind in 0..count {
        let case = &cases[count - 1 - behind];
        whole = event_extent(&case.event).tested(measure_case(case), whole);
    }
    whole
}

#[cycle(measuring)]
fn measure_case(case: &FlatCase) -> Extent
    ensures { IsExtent result (case_measures case.now) }
{
    match &case.body {
        None => Extent::leaf(),
        Some(statement) => measure(statement),
    }
}
