// What a statement waits for.

ghost use Rattle.std.specs.Prelude.{◌≡◌, map};
ghost use Rattle.est_ast.specs.declared.tokens.Token.{Token};
ghost use Rattle.est_ast.specs.Trees.{PresentCase, cases};
ghost use Rattle.est_ast.specs.Views.{form_of, boxed, part_of, case_of};
ghost use Rattle.est_parse.specs.Parts.{await_of, abort_of};
ghost use Rattle.est_parse.specs.Parts as spec;
ghost use Rattle.est_parse.specs.Tails.{tail_of};
ghost use Rattle.base_reader.specs.Found.{Finds};
ghost use Rattle.base_reader.specs.Readings.{Read, follow, give};

use base_reader::ReadError;
use est_ast::{Case, Delay, Form, Stmt, Token};

// Cases, or a delay and maybe a statement after `do`.
#[derive(Drop)]
pub enum Tail {
    Cases(Vec<Case>),
    Delay(Delay, Option<Box<Stmt>>),
}

// The statement that waits for it.
#[tactic(auto, using(est_ast::proofs::Exports::rows))]
pub fn await_on(tail: Tail) -> Form
    ensures { form_of result ≡ await_of (tail_of tail) }
{
    match tail {
        Tail::Cases(cases) => Form::AwaitCase(cases),
        Tail::Delay(delay, part) => Form::Await(delay, part),
    }
}

// The statement that it ends.
#[tactic(auto, using(est_ast::proofs::Exports::rows))]
pub fn abort_on(body: Box<Stmt>, tail: Tail) -> Form
    ensures { form_of result ≡ abort_of (boxed body, tail_of tail) }
{
    match tail {
        Tail::Cases(cases) => Form::AbortCase(body, cases),
        Tail::Delay(delay, part) => Form::Abort(body, delay, part),
    }
}

// The statement that waits for it, once it is read.
pub fn await_from<'a>(
    tail: Result<(Tail, &'a [Token]), ReadError>,
) -> Result<(Form, &'a [Token]), ReadError>
    ensures { (read : Read Token spec.Tail) → Finds tail_of tail.entry read
        → Finds form_of result (follow read (λ t. give (await_of t))) }
{
    let (tail, rest) = tail?;
    Ok((await_on(tail), rest))
}

// `present` with these cases.
#[tactic(auto, using(est_ast::proofs::Exports::rows))]
pub fn present_of_cases(found: Vec<Case>, other: Option<Box<Stmt>>) -> Form
    ensures { form_of result ≡ PresentCase (cases (map case_of found.items)) (part_of other) }
{
    Form::PresentCase(found, other)
}
