// The reader of expressions: that by tiers, for a language's kinds of tokens.

ghost use Rattle.std.specs.Prelude.{◌≡◌, ◌<◌, map, is_some, vec_len};
ghost use Rattle.net_expressions.specs.Views.{expr_of};
ghost use Rattle.net_expressions.specs.Reading.{FindsBy, makes_expr, expr};
ghost use Rattle.net_expressions.specs.Plain.{kind_by, sign_of};
ghost use Rattle.net_expressions.specs.Signs.{signed};

use crate::kinds::{Sign, Token, TokenKind, sign_number};
use crate::steps::copy_of;
use crate::trees::Expr;
use base_expressions::{ExprLanguage, Joint, Opening};
use base_reader::ReadError;
use std::alloc::Global;

/// An expression: parts with or between them. Its errors are the first fault of the tokens, and out of memory.
pub fn read_expr<'t, K: TokenKind>(
    alloc: Global,
    tokens: &'t [Token<K>],
    room: u32,
) -> Result<(Expr, &'t [Token<K>]), ReadError>
    ensures { FindsBy K.plain expr_of result (expr K.sign makes_expr room (map (kind_by K.plain) tokens.now)) }
{
    base_expressions::read_expr::<Token<K>>(alloc, tokens, room)
}

impl<K: TokenKind> ExprLanguage for Token<K> {
    ghost use Rattle.net_expressions.specs.Plain.{kind_by};
    ghost use Rattle.net_expressions.specs.Reading.{Leaf, makes_expr, tiers_of};
    ghost use Rattle.net_expressions.specs.Trees.{Expr};
    ghost use Rattle.net_expressions.specs.Views.{expr_of};

    type Token = Token<K>;

    type Bracket = ();

    type Tree = Expr;

    ghost Plain = { K.Plain };

    ghost PlainLeaf = { Leaf };

    ghost PlainTree = { Expr };

    ghost token_of = { kind_by K.plain };

    ghost tree_of = { expr_of };

    ghost tiers = { tiers_of K.sign makes_expr };

    fn opening(token: &Token<K>) -> Option<Opening<()>> {
        match token.kind.sign() {
            Sign::Not => Some(Opening::Not),
            Sign::Open => Some(Opening::Open(())),
            Sign::Bit(_) => Some(Opening::Leaf),
            Sign::Name(_) => Some(Opening::Leaf),
            _ => None,
        }
    }

    fn is_close(_bracket: (), token: &Token<K>) -> bool {
        is_sign(Sign::Close, token)
    }

    fn is_joint(joint: Joint, token: &Token<K>) -> bool {
        match joint {
            Joint::And => is_sign(Sign::And, token),
            Joint::Or => is_sign(Sign::Or, token),
        }
    }

    fn leaf(alloc: Global, token: &Token<K>) -> Result<Expr, ReadError> {
        match token.kind.sign() {
            Sign::Bit(value) => Ok(Expr::Const(value)),
            Sign::Name(name) => Ok(Expr::Name(copy_of(alloc, name)?)),
            _ => unreachable!(),
        }
    }

    fn negation(alloc: Global, part: Expr) -> Result<Expr, ReadError> {
        Ok(Expr::Not(Box::new(alloc, part)?))
    }

    fn bracketed(_alloc: Global, _bracket: (), body: Expr) -> Result<Expr, ReadError> {
        Ok(body)
    }

    #[tactic(auto, using(crate::proofs::Rows::list_rows))]
    fn joined(joint: Joint, parts: Vec<Expr>) -> Expr
        requires { 1 < vec_len parts }
        ensures { expr_of result ≡ makes_expr.joined joint (map expr_of parts.items) }
    {
        match joint {
            Joint::And => Expr::And(parts),
            Joint::Or => Expr::Or(parts),
        }
    }
}

// Whether a token is this operator or bracket.
fn is_sign<K: TokenKind>(expected: Sign<'_>, token: &Token<K>) -> bool
    ensures { result ≡ is_some (signed K.sign (sign_of expected.entry) (kind_by K.plain token.now)) }
{
    sign_number(expected) == sign_number(token.kind.sign())
}
