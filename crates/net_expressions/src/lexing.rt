// From a text to its tokens.

ghost use Rattle.std.specs.Prelude.{◌≡◌, ◌-◌, ◌≤◌, length, drop, map, IfOk};
ghost use Rattle.std.specs.List.{prefix_len};
ghost use Rattle.base_types.specs.Names.{is_name_byte};
ghost use Rattle.net_expressions.specs.Lexemes.{tokens_behind, is_space, begins_name, place_of};
ghost use Rattle.net_expressions.specs.Plain.{token_by};

use crate::kinds::{Front, Lexical, Token, TokenKind};
use base_reader::Fault;
use base_types::{Limits, NoMemory, is_letter, is_name_byte};
use std::alloc::Global;

/// The tokens of a text. What begins no token is the last one. Its only error is out of memory.
///
/// It takes time and memory in proportion to the text.
pub fn lex<'a, K: Lexical<'a>>(alloc: Global, text: &'a [u8]) -> Result<Vec<Token<K>>, NoMemory>
    requires { length text.now ≤ Limits.TEXT_BYTES }
    ensures { IfOk result (λ v. map (token_by K.plain) v.items ≡ tokens_behind K.bad K.front 0 0 text.now) }
{
    let mut tokens = Vec::new(alloc);
    let mut at: usize = 0;
    'fronts: while at < text.len() {
        let place = at as u32;
        match K::front(&text[at..]) {
            Front::Gap(more) => at += 1 + more,
            Front::Lexeme(more, kind) => {
                tokens.push(Token { kind, at: place })?;
                at += 1 + more;
            }
            Front::Wrong => {
                let kind = K::bad();
                tokens.push(Token { kind, at: place })?;
                return Ok(tokens);
            }
        }
    }
    Ok(tokens)
}

/// Whether a byte is a space, a tab, a line feed, a form feed or a carriage return.
pub fn is_space(byte: u8) -> bool
    ensures { result ≡ is_space byte }
{
    byte == b' ' || (byte == b'\t' || (byte == b'\n' || (byte == b'\x0c' || byte == b'\r')))
}

/// Whether a byte is a letter or `_`.
pub fn begins_name(byte: u8) -> bool
    ensures { result ≡ begins_name byte }
{
    is_letter(byte) || byte == b'_'
}

/// How many letters, digits and `_` begin a text.
pub fn name_len(text: &[u8]) -> usize
    ensures is { result ≡ prefix_len is_name_byte text.now }
    ensures within { result ≤ length text.now }
{
    let mut len = 0;
    'bytes: while len < text.len() && is_name_byte(text[len]) {
        len += 1;
    }
    len
}

/// The place in a text where a fault stands, by the text's tokens.
pub fn place_at<K: TokenKind>(text: &[u8], tokens: &[Token<K>], fault: Fault) -> u32
    requires short { length text.now ≤ Limits.TEXT_BYTES }
    requires within { fault.left ≤ length tokens.now }
    ensures { result
        ≡ place_of (length text.now) (drop (length tokens.now - fault.left) (map (token_by K.plain) tokens.now)) }
{
    let first = tokens.len() - fault.left;
    if first < tokens.len() {
        tokens[first].at
    } else {
        text.len() as u32
    }
}
