// From a text to its tokens.

ghost use Rattle.std.specs.Prelude.{◌≤◌, length, IfOk, IfErr};
ghost use Rattle.est_ast.specs.Lexing.{LexesAs, Tokens};
ghost use Rattle.est_lex.specs.Faults.{LexesAsFault};

use crate::front::{Piece, front};
use crate::refusal::LexError;
use base_types::{Limits, Span};
use est_ast::Token;
use std::alloc::Global;

/// The tokens of a program text, each with its place, or the text's first fault. Reserved words
/// and marks are distinguished from identifiers and numbers; spaces and comments are left out.
///
/// It takes time and memory in proportion to the text.
///
/// Example: `emit S % comment` has two tokens: the word `emit`, bytes 0 to 4, and the identifier `S`, bytes 5 to
/// 6.
pub fn lex(alloc: Global, text: &[u8]) -> Result<Vec<Token>, LexError>
    requires { length text.now ≤ Limits.SOURCE_BYTES }
    ensures tokens { IfOk result (λ tokens. LexesAs text.now (Tokens tokens.items)) }
    ensures fault { IfErr result (LexesAsFault text.now) }
{
    let mut tokens = Vec::new(alloc);
    let mut at: usize = 0;
    while at < text.len() {
        let start = at as u32;
        let Piece { width, token } = front(alloc, &text[at..], start)?;
        at += width;
        if let Some(kind) = token {
            tokens.push(Token {
                kind,
                span: Span {
                    start,
                    end: at as u32,
                },
            })?;
        }
    }
    Ok(tokens)
}
