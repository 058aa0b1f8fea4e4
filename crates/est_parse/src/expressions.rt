// The reader of tests, events and delays.

ghost use Rattle.std.specs.Prelude.{◌≡◌, ◌<◌, map, vec_len};
ghost use Rattle.est_ast.specs.Views.{expr_of, delay_of};
ghost use Rattle.est_parse.specs.Reading.{expr, event, immediate, count, delay, test, joined};
ghost use Rattle.base_reader.specs.Found.{Finds};

use crate::openings::{Bracket, check_event};
use crate::signs::{after_word, copy_of, is_mark, is_number_next, is_word, past_word, read_number};
use base_expressions::{ExprLanguage, Joint, Opening};
use base_reader::ReadError;
use est_ast::{Delay, Kind, Mark, Name, Reserved, SigExpr, Token};
use std::alloc::Global;

// A test: parts with `or` between them.
pub fn read_expr(
    alloc: Global,
    tokens: &[Token],
    room: u32,
) -> Result<(SigExpr, &[Token]), ReadError>
    ensures { Finds expr_of result (expr room tokens.now) }
{
    base_expressions::read_expr::<Tests>(alloc, tokens, room)
}

// Tests as expressions by tiers.
struct Tests {}

impl ExprLanguage for Tests {
    ghost use Rattle.est_ast.specs.Trees.{Expr};
    ghost use Rattle.est_ast.specs.Views.{expr_of};
    ghost use Rattle.est_ast.specs.declared.tokens.Token.{Token};
    ghost use Rattle.est_parse.specs.Openings.{Leaf};
    ghost use Rattle.est_parse.specs.Reading.{tests};

    type Token = Token;

    type Bracket = Bracket;

    type Tree = SigExpr;

    ghost Plain = { Token };

    ghost PlainLeaf = { Leaf };

    ghost PlainTree = { Expr };

    ghost token_of = { λ token. token };

    ghost tree_of = { expr_of };

    ghost tiers = { tests };

    fn opening(token: &Token) -> Option<Opening<Bracket>> {
        match &token.kind {
            Kind::Reserved(Reserved::Not) => Some(Opening::Not),
            Kind::Mark(Mark::LeftParenthesis) => Some(Opening::Open(Bracket::Round)),
            Kind::Mark(Mark::LeftBracket) => Some(Opening::Open(Bracket::Square)),
            Kind::Reserved(Reserved::Tick) => Some(Opening::Leaf),
            Kind::Ident(_) => Some(Opening::Leaf),
            _ => None,
        }
    }

    fn is_close(bracket: Bracket, token: &Token) -> bool {
        match bracket {
            Bracket::Round => is_mark(Mark::RightParenthesis, &token.kind),
            Bracket::Square => is_mark(Mark::RightBracket, &token.kind),
        }
    }

    fn is_joint(joint: Joint, token: &Token) -> bool {
        match joint {
            Joint::And => is_word(Reserved::And, &token.kind),
            Joint::Or => is_word(Reserved::Or, &token.kind),
        }
    }

    fn leaf(alloc: Global, token: &Token) -> Result<SigExpr, ReadError> {
        match &token.kind {
            Kind::Ident(text) => {
                let text = copy_of(alloc, text)?;
                let span = token.span;
                Ok(SigExpr::Sig(Name { text, span }))
            }
            Kind::Reserved(Reserved::Tick) => Ok(SigExpr::Tick(token.span)),
            _ => unreachable!(),
        }
    }

    fn negation(alloc: Global, part: SigExpr) -> Result<SigExpr, ReadError> {
        Ok(SigExpr::Not(Box::new(alloc, part)?))
    }

    fn bracketed(alloc: Global, bracket: Bracket, body: SigExpr) -> Result<SigExpr, ReadError> {
        let body = Box::new(alloc, body)?;
        match bracket {
            Bracket::Round => Ok(SigExpr::Round(body)),
            Bracket::Square => Ok(SigExpr::Square(body)),
        }
    }

    #[tactic(auto, using(est_ast::proofs::Exports::rows))]
    fn joined(joint: Joint, parts: Vec<SigExpr>) -> SigExpr
        requires { 1 < vec_len parts }
        ensures { expr_of result ≡ joined joint (map expr_of parts.items) }
    {
        match joint {
            Joint::And => SigExpr::And(parts),
            Joint::Or => SigExpr::Or(parts),
        }
    }
}

// A signal, `tick`, or a test in `[ ]`.
fn read_event(alloc: Global, tokens: &[Token], room: u32) -> Result<(SigExpr, &[Token]), ReadError>
    ensures { Finds expr_of result (event room tokens.now) }
{
    check_event(tokens)?;
    base_expressions::read_part::<Tests>(alloc, tokens, room)
}

// `immediate` and an event.
fn read_immediate(
    alloc: Global,
    tokens: &[Token],
    room: u32,
) -> Result<(Delay, &[Token]), ReadError>
    ensures { Finds delay_of result (immediate (event room) tokens.now) }
{
    let rest = after_word(Reserved::Immediate, tokens)?;
    let (event, rest) = read_event(alloc, rest, room)?;
    Ok((Delay::Immediate(event), rest))
}

// An event, also with a count.
pub fn read_count(
    alloc: Global,
    tokens: &[Token],
    room: u32,
) -> Result<(Delay, &[Token]), ReadError>
    ensures { Finds delay_of result (count (event room) tokens.now) }
{
    if !is_number_next(tokens) {
        let (event, rest) = read_event(alloc, tokens, room)?;
        return Ok((Delay::Plain(event), rest));
    }
    let ((number, span), rest) = read_number(tokens)?;
    let (event, rest) = read_event(alloc, rest, room)?;
    Ok((Delay::Count(number, span, event), rest))
}

// An event, also with `immediate` or a count.
pub fn read_delay(
    alloc: Global,
    tokens: &[Token],
    room: u32,
) -> Result<(Delay, &[Token]), ReadError>
    ensures { Finds delay_of result (delay (event room) tokens.now) }
{
    match past_word(Reserved::Immediate, tokens) {
        Some(_) => read_immediate(alloc, tokens, room),
        None => read_count(alloc, tokens, room),
    }
}

// An event, also with `immediate`.
pub fn read_test(alloc: Global, tokens: &[Token], room: u32) -> Result<(Delay, &[Token]), ReadError>
    ensures { Finds delay_of result (test (event room) tokens.now) }
{
    match past_word(Reserved::Immediate, tokens) {
        Some(_) => read_immediate(alloc, tokens, room),
        None => {
            let (event, rest) = read_event(alloc, tokens, room)?;
            Ok((Delay::Plain(event), rest))
        }
    }
}
