// Tokens. A name is a part of the text.

ghost use Rattle.std.specs.Prelude.{◌≡◌};
ghost use Rattle.net_expressions.specs.Plain.{sign_of};
ghost use Rattle.vlog_text.specs.Grammar.{kind_number, sign};
ghost use Rattle.vlog_read.specs.Lexed.{kind_of};

use crate::sources::Sort;
use net_expressions::Sign;

// What a token is; `Bad` is one that no text has.
#[derive(Clone, Copy)]
pub enum Kind<'a> {
    ModuleWord,
    InitialWord,
    AssignWord,
    AlwaysWord,
    PosedgeWord,
    BeginWord,
    EndWord,
    EndmoduleWord,
    LeftParenthesis,
    RightParenthesis,
    Comma,
    Semicolon,
    Equals,
    At,
    Bar,
    Ampersand,
    Tilde,
    Becomes,
    Zero,
    One,
    Declares(Sort),
    Named(&'a [u8]),
    Bad,
}

// A token of a text.
pub type Token<'a> = net_expressions::Token<Kind<'a>>;

// What a kind is in an expression.
pub fn sign_of<'a>(kind: Kind<'a>) -> Sign<'a>
    ensures { sign_of result ≡ sign (kind_of kind.entry) }
{
    match kind {
        Kind::Named(name) => Sign::Name(name),
        Kind::Zero => Sign::Bit(false),
        Kind::One => Sign::Bit(true),
        Kind::Tilde => Sign::Not,
        Kind::LeftParenthesis => Sign::Open,
        Kind::RightParenthesis => Sign::Close,
        Kind::Ampersand => Sign::And,
        Kind::Bar => Sign::Or,
        _ => Sign::Other,
    }
}

// A number for each kind, the same for all names, and for all words that declare.
pub fn kind_number(kind: Kind<'_>) -> u8
    ensures { result ≡ kind_number (kind_of kind.entry) }
{
    match kind {
        Kind::ModuleWord => 0,
        Kind::InitialWord => 1,
        Kind::AssignWord => 2,
        Kind::AlwaysWord => 3,
        Kind::PosedgeWord => 4,
        Kind::BeginWord => 5,
        Kind::EndWord => 6,
        Kind::EndmoduleWord => 7,
        Kind::LeftParenthesis => 8,
        Kind::RightParenthesis => 9,
        Kind::Comma => 10,
        Kind::Semicolon => 11,
        Kind::Equals => 12,
        Kind::At => 13,
        Kind::Bar => 14,
        Kind::Ampersand => 15,
        Kind::Tilde => 16,
        Kind::Becomes => 17,
        Kind::Zero => 18,
        Kind::One => 19,
        Kind::Declares(_) => 20,
        Kind::Named(_) => 21,
        Kind::Bad => 22,
    }
}
