// What begins a text: spaces, comments and tokens.

ghost use Rattle.std.specs.Prelude.{◌≡◌, ◌+◌, ◌<◌, ◌≤◌, ◌==◌, ◌&&◌, length, drop, take, IfSome};
ghost use Rattle.std.specs.List.{prefix_len};
ghost use Rattle.std.specs.Option.{option_map};
ghost use Rattle.base_types.specs.Names.{is_name_byte};
ghost use Rattle.csub_text.specs.Tokens.{Lexeme, front, word_kind, mark_kind, closed_after, slash_front};
ghost use Rattle.csub_read.specs.Tokens.{kind_of};
ghost use Rattle.net_expressions.specs.Plain.{front_by, front_at, front_more};

use crate::tokens::Kind;
use net_expressions::{Front, begins_name, is_space, name_len};

// What begins a text that is not empty.
pub fn next_front<'a>(text: &'a [u8]) -> Front<Kind<'a>>
    requires { 0 < length text.now }
    ensures is { front_by kind_of result ≡ front_at front text.now }
    ensures within { front_more (front_by kind_of result) < length text.now }
{
    let first = text[0];
    if is_space(first) {
        Front::Gap(0)
    } else if first == b'/' {
        comment(&text[1..])
    } else if begins_name(first) {
        word(text)
    } else {
        match mark_kind(first) {
            Some(kind) => Front::Lexeme(0, kind),
            None => Front::Wrong,
        }
    }
}

// The word that begins a text that is not empty.
fn word<'a>(text: &'a [u8]) -> Front<Kind<'a>>
    requires { 0 < length text.now }
    ensures is { front_by kind_of result
        ≡ Lexeme (prefix_len is_name_byte (drop 1 text.now))
        (word_kind (take (1 + prefix_len is_name_byte (drop 1 text.now)) text.now)) }
    ensures within { front_more (front_by kind_of result) < length text.now }
{
    let more = name_len(&text[1..]);
    Front::Lexeme(more, word_kind(&text[..1 + more]))
}

// The comment whose `/` stands before this text.
fn comment<'a>(text: &[u8]) -> Front<Kind<'a>>
    ensures is { front_by kind_of result ≡ slash_front text.now }
    ensures within { front_more (front_by kind_of result) ≤ length text.now }
{
    if text.is_empty() || text[0] != b'*' {
        return Front::Wrong;
    }
    match closed_after(&text[1..]) {
        Some(len) => Front::Gap(len + 1),
        None => Front::Wrong,
    }
}

// How many bytes stand up to the end of the first `*/`, if there is one.
fn closed_after(text: &[u8]) -> Option<usize>
    ensures is { result ≡ closed_after text.now }
    ensures within { IfSome result (λ len. len ≤ length text.now) }
{
    let mut at = 0;
    'places: while at + 1 < text.len() {
        if closes(text[at], text[at + 1]) {
            return Some(at + 2);
        }
        at += 1;
    }
    None
}

fn closes(byte: u8, next: u8) -> bool
    ensures { result ≡ (byte == 42 && next == 47) }
{
    byte == b'*' && next == b'/'
}

// A reserved word, or else a name.
fn word_kind<'a>(word: &'a [u8]) -> Kind<'a>
    ensures { kind_of result ≡ word_kind word.now }
{
    if word == b"static".as_slice() {
        Kind::Static
    } else if word == b"int".as_slice() {
        Kind::Int
    } else if word == b"return".as_slice() {
        Kind::Return
    } else if word == b"void".as_slice() {
        Kind::Void
    } else if word == b"react".as_slice() {
        Kind::React
    } else {
        Kind::Named(word)
    }
}

fn mark_kind<'a>(byte: u8) -> Option<Kind<'a>>
    ensures { option_map kind_of result ≡ mark_kind byte }
{
    match byte {
        b'(' => Some(Kind::LeftParenthesis),
        b')' => Some(Kind::RightParenthesis),
        b'{' => Some(Kind::LeftBrace),
        b'}' => Some(Kind::RightBrace),
        b';' => Some(Kind::Semicolon),
        b'=' => Some(Kind::Equals),
        b'0' => Some(Kind::Zero),
        b'1' => Some(Kind::One),
        b'|' => Some(Kind::Bar),
        b'&' => Some(Kind::Ampersand),
        b'!' => Some(Kind::Bang),
        _ => None,
    }
}
