// The kinds of tokens of the C subset. A name is a part of the text.

ghost use Rattle.std.specs.Prelude.{◌≡◌};
ghost use Rattle.csub_text.specs.Grammar.{kind_number, sign};
ghost use Rattle.net_expressions.specs.Plain.{sign_of};
ghost use Rattle.csub_read.specs.Tokens.{kind_of};

use net_expressions::Sign;

/// What a token is. `If` and `Else` are words of guarded texts alone; `Bad` is a token that no text has.
#[derive(Clone, Copy)]
pub enum Kind<'a> {
    Static,
    Int,
    Return,
    Void,
    React,
    If,
    Else,
    LeftParenthesis,
    RightParenthesis,
    LeftBrace,
    RightBrace,
    Semicolon,
    Equals,
    Zero,
    One,
    Bar,
    Ampersand,
    Bang,
    Named(&'a [u8]),
    Bad,
}

/// A token of a text.
pub type Token<'a> = net_expressions::Token<Kind<'a>>;

// What a kind is in an expression.
pub fn sign_of<'a>(kind: Kind<'a>) -> Sign<'a>
    ensures { sign_of result ≡ sign (kind_of kind.entry) }
{
    match kind {
        Kind::Named(name) => Sign::Name(name),
        Kind::Zero => Sign::Bit(false),
        Kind::One => Sign::Bit(true),
        Kind::Bang => Sign::Not,
        Kind::LeftParenthesis => Sign::Open,
        Kind::RightParenthesis => Sign::Close,
        Kind::Ampersand => Sign::And,
        Kind::Bar => Sign::Or,
        _ => Sign::Other,
    }
}

// A number for each kind, the same for all names.
pub fn kind_number(kind: Kind<'_>) -> u8
    ensures { result ≡ kind_number (kind_of kind.entry) }
{
    match kind {
        Kind::Static => 0,
        Kind::Int => 1,
        Kind::Return => 2,
        Kind::Void => 3,
        Kind::React => 4,
        Kind::If => 5,
        Kind::Else => 6,
        Kind::LeftParenthesis => 7,
        Kind::RightParenthesis => 8,
        Kind::LeftBrace => 9,
        Kind::RightBrace => 10,
        Kind::Semicolon => 11,
        Kind::Equals => 12,
        Kind::Zero => 13,
        Kind::One => 14,
        Kind::Bar => 15,
        Kind::Ampersand => 16,
        Kind::Bang => 17,
        Kind::Named(_) => 18,
        Kind::Bad => 19,
    }
}
