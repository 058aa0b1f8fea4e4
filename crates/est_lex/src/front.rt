// What begins a text.

ghost use Rattle.std.specs.Prelude.{◌<◌, length, slice_index, IfOk, IfErr};
ghost use Rattle.est_ast.specs.Lexemes.{HasByte, IsLetter, IsDigit};
ghost use Rattle.est_ast.specs.Lexing.{IsFrontToken};
ghost use Rattle.est_lex.specs.Faults.{BeginsWithFault};

use crate::classes::{is_digit, is_letter, is_space};
use crate::comments::{block_comment, line_comment};
use crate::numerals::{digits_len, number};
use crate::refusal::LexError;
use crate::signs::{mark, mark_len};
use crate::words::{name_len, reserved};
use base_types::{NoMemory, Text};
use est_ast::Kind;
use std::alloc::Global;

/// A space, a comment or a token at the front of a text: how long it is, and what token it is.
#[derive(Drop)]
pub struct Piece {
    pub width: usize,
    pub token: Option<Kind>,
}

/// What begins a text that is not empty. `at` is the text's place in the source, where a fault
/// stands.
pub fn front(alloc: Global, text: &[u8], at: u32) -> Result<Piece, LexError>
    requires { 0 < length text.now }
    ensures ok { IfOk result (λ piece. IsFrontToken text.now piece.width piece.token) }
    ensures err { IfErr result (BeginsWithFault text.now at) }
{
    let first = text[0];
    if is_space(first) {
        Ok(Piece {
            width: 1,
            token: None,
        })
    } else if first == b'%' {
        comment(text, at)
    } else if is_letter(first) {
        Ok(word(alloc, text)?)
    } else if is_digit(first) {
        numeral(text, at)
    } else {
        match mark(text) {
            Some(mark) => Ok(Piece {
                width: mark_len(mark),
                token: Some(Kind::Mark(mark)),
            }),
            None => Err(LexError::BadByte(at)),
        }
    }
}

/// The comment that begins a text.
fn comment(text: &[u8], at: u32) -> Result<Piece, LexError>
    requires { HasByte text.now 0 37 }
    ensures ok { IfOk result (λ piece. IsFrontToken text.now piece.width piece.token) }
    ensures err { IfErr result (BeginsWithFault text.now at) }
{
    if text.get(1).copied() == Some(b'{') {
        match block_comment(text) {
            Some(width) => Ok(Piece { width, token: None }),
            None => Err(LexError::OpenComment(at)),
        }
    } else {
        Ok(Piece {
            width: line_comment(text),
            token: None,
        })
    }
}

/// The word that begins a text.
fn word(alloc: Global, text: &[u8]) -> Result<Piece, NoMemory>
    requires some { 0 < length text.now }
    requires letter { IsLetter (slice_index text.now 0) }
    ensures { IfOk result (λ piece. IsFrontToken text.now piece.width piece.token) }
{
    let width = name_len(text);
    let name = &text[..width];
    let kind = match reserved(name) {
        Some(word) => Kind::Reserved(word),
        None => Kind::Ident(Text::from_bytes(alloc, name)?),
    };
    Ok(Piece {
        width,
        token: Some(kind),
    })
}

/// The number that begins a text.
fn numeral(text: &[u8], at: u32) -> Result<Piece, LexError>
    requires some { 0 < length text.now }
    requires digit { IsDigit (slice_index text.now 0) }
    ensures ok { IfOk result (λ piece. IsFrontToken text.now piece.width piece.token) }
    ensures err { IfErr result (BeginsWithFault text.now at) }
{
    let width = digits_len(text);
    match number(&text[..width]) {
        Some(value) => Ok(Piece {
            width,
            token: Some(Kind::Number(value)),
        }),
        None => Err(LexError::BigNumber(at)),
    }
}
