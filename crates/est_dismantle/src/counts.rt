// The first bad count of a statement.

ghost use Rattle.std.specs.Prelude.{◌≡◌};
ghost use Rattle.est_dismantle.specs.FlatNodes.{bad_of_stmt, bad_of_form, bad_of_part, bad_of_delay, bad_of_count};
ghost use Rattle.est_dismantle.specs.FlatNodes.{bad_of_stmts, bad_of_cases, bad_of_case};

use base_types::{Limits, Span};
use est_ast::{FlatCase, FlatDelay, FlatForm, FlatStmt};

/// The place of the first count that is 0 or above 255, in the order in which they are written.
#[cycle(counts)]
#[tactic(auto, using(crate::proofs::BadCounts::bad_rows))]
pub(crate) fn first_bad(statement: &FlatStmt) -> Option<Span>
    ensures { result ≡ bad_of_stmt statement.now }
{
    first_bad_in_form(&statement.form)
}

#[cycle(counts)]
#[tactic(auto, using(crate::proofs::BadCounts::bad_rows))]
fn first_bad_in_form(form: &FlatForm) -> Option<Span>
    ensures { result ≡ bad_of_form form.now }
{
    match form {
        FlatForm::Nothing => None,
        FlatForm::Pause => None,
        FlatForm::Halt => None,
        FlatForm::Emit(_) => None,
        FlatForm::Sustain(_) => None,
        FlatForm::Exit(_) => None,
        FlatForm::Await(delay, rest) => bad_delay(delay).or(first_bad_in_part(rest)),
        FlatForm::AwaitCase(cases) => first_bad_in_cases(cases.as_slice()),
        FlatForm::Present(_, yes, no) => first_bad_in_part(yes).or(first_bad_in_part(no)),
        FlatForm::PresentCase(cases, no) => {
            first_bad_in_cases(cases.as_slice()).or(first_bad_in_part(no))
        }
        FlatForm::Loop(body) => first_bad(body),
        FlatForm::LoopEach(body, delay) => first_bad(body).or(bad_delay(delay)),
        FlatForm::Every(delay, body) => bad_delay(delay).or(first_bad(body)),
        FlatForm::Repeat(count, place, body) => bad_count(*count, *place).or(first_bad(body)),
        FlatForm::Abort(body, delay, rest) => {
            first_bad(body).or(bad_delay(delay).or(first_bad_in_part(rest)))
        }
        FlatForm::AbortCase(body, cases) => {
            first_bad(body).or(first_bad_in_cases(cases.as_slice()))
        }
        FlatForm::WeakAbort(body, delay) => first_bad(body).or(bad_delay(delay)),
        FlatForm::Suspend(body, delay) => first_bad(body).or(bad_delay(delay)),
        FlatForm::Trap(body, handler) => first_bad(body).or(first_bad_in_part(handler)),
        FlatForm::Signal(_, body) => first_bad(body),
        FlatForm::Seq(parts) => first_bad_in_parts(parts.as_slice()),
        FlatForm::Par(parts) => first_bad_in_parts(parts.as_slice()),
    }
}

#[cycle(counts)]
#[tactic(auto, using(crate::proofs::BadCounts::bad_rows))]
fn first_bad_in_part(part: &Option<Box<FlatStmt>>) -> Option<Span>
    ensures { result ≡ bad_of_part part.now }
{
    match part {
        None => None,
        Some(statement) => first_bad(statement),
    }
}

#[cycle(counts)]
#[tactic(auto, using(crate::proofs::BadCounts::bad_rows))]
fn first_bad_in_parts(parts: &[FlatStmt]) -> Option<Span>
    ensures { result ≡ bad_of_stmts parts.now }
{
    let mut found = None;
    for part in parts {
        found = found.or(first_bad(part));
    }
    found
}

#[cycle(counts)]
#[tactic(auto, using(crate::proofs::BadCounts::bad_rows))]
fn first_bad_in_cases(cases: &[FlatCase]) -> Option<Span>
    ensures { result ≡ bad_of_cases cases.now }
{
    let mut found = None;
    for case in cases {
        found = found.or(first_bad_in_case(case));
    }
    found
}

#[cycle(counts)]
#[tactic(auto, using(crate::proofs::BadCounts::bad_rows))]
fn first_bad_in_case(case: &FlatCase) -> Option<Span>
    ensures { result ≡ bad_of_case case.now }
{
    match &case.body {
        None => None,
        Some(statement) => first_bad(statement),
    }
}

// The place of a delay's count, where the count is bad.
#[tactic(auto, using(crate::proofs::BadCounts::bad_rows))]
fn bad_delay(delay: &FlatDelay) -> Option<Span>
    ensures { result ≡ bad_of_delay delay.now }
{
    match delay {
        FlatDelay::Plain(_) => None,
        FlatDelay::Immediate(_) => None,
        FlatDelay::Count(count, place, _) => bad_count(*count, *place),
    }
}

// The place of a count, where the count is bad.
#[tactic(auto, unfolding(crate::specs::FlatNodes::bad_of_count))]
fn bad_count(count: u128, place: Span) -> Option<Span>
    ensures { result ≡ bad_of_count count place }
{
    if count < Limits::LEAST_COUNT as u128 || count > Limits::GREATEST_COUNT as u128 {
        Some(place)
    } else {
        None
    }
}
