// What begins a text: spaces, comments and tokens.

ghost use Rattle.std.specs.Prelude.{◌≡◌, ◌+◌, ◌<◌, ◌≤◌, length, drop, take};
ghost use Rattle.std.specs.List.{prefix_len};
ghost use Rattle.base_types.specs.Names.{is_name_byte};
ghost use Rattle.net_expressions.specs.Lexemes.{Lexeme, mark_front};
ghost use Rattle.net_expressions.specs.Plain.{front_by, front_at, front_more};
ghost use Rattle.vlog_text.specs.Tokens.{front, word_kind, slash_front, less_front, one_front};
ghost use Rattle.vlog_text.specs.Tokens.{stays_in_line, mark_kind, digit_front};
ghost use Rattle.vlog_read.specs.Lexed.{kind_of};

use crate::marks::{mark_kind, word_kind};
use crate::tokens::Kind;
use net_expressions::{Front, begins_name, is_space, name_len};

// What begins a text that is not empty.
pub fn next_front<'a>(text: &'a [u8]) -> Front<Kind<'a>>
    requires { 0 < length text.now }
    ensures is { front_by kind_of result ≡ front_at front text.now }
    ensures within { front_more (front_by kind_of result) < length text.now }
{
    let first = text[0];
    if is_space(first) {
        Front::Gap(0)
    } else if first == b'/' {
        comment(&text[1..])
    } else if first == b'<' {
        becomes(&text[1..])
    } else if first == b'1' {
        constant(&text[1..])
    } else if begins_name(first) {
        word(text)
    } else {
        mark(first)
    }
}

// A mark of one byte.
fn mark<'a>(byte: u8) -> Front<Kind<'a>>
    ensures is { front_by kind_of result ≡ mark_front (mark_kind byte) }
    ensures within { front_more (front_by kind_of result) ≡ 0 }
{
    match mark_kind(byte) {
        Some(kind) => Front::Lexeme(0, kind),
        None => Front::Wrong,
    }
}

// The word that begins a text that is not empty.
fn word<'a>(text: &'a [u8]) -> Front<Kind<'a>>
    requires { 0 < length text.now }
    ensures is { front_by kind_of result
        ≡ Lexeme (prefix_len is_name_byte (drop 1 text.now))
        (word_kind (take (1 + prefix_len is_name_byte (drop 1 text.now)) text.now)) }
    ensures within { front_more (front_by kind_of result) < length text.now }
{
    let more = name_len(&text[1..]);
    Front::Lexeme(more, word_kind(&text[..1 + more]))
}

// The comment whose first `/` stands before this text.
fn comment<'a>(text: &[u8]) -> Front<Kind<'a>>
    ensures is { front_by kind_of result ≡ slash_front text.now }
    ensures within { front_more (front_by kind_of result) ≤ length text.now }
{
    if text.is_empty() || text[0] != b'/' {
        return Front::Wrong;
    }
    Front::Gap(1 + line_len(&text[1..]))
}

// `<=`, whose `<` stands before this text.
fn becomes<'a>(text: &[u8]) -> Front<Kind<'a>>
    ensures is { front_by kind_of result ≡ less_front text.now }
    ensures within { front_more (front_by kind_of result) ≤ length text.now }
{
    if text.is_empty() || text[0] != b'=' {
        return Front::Wrong;
    }
    Front::Lexeme(1, Kind::Becomes)
}

// `1'b0` or `1'b1`, whose first byte stands before this text.
fn constant<'a>(text: &[u8]) -> Front<Kind<'a>>
    ensures is { front_by kind_of result ≡ one_front text.now }
    ensures within { front_more (front_by kind_of result) ≤ length text.now }
{
    if text.len() < 3 || text[0] != b'\'' || text[1] != b'b' {
        return Front::Wrong;
    }
    digit(text[2])
}

// The last byte of `1'b0` or `1'b1`, of which three come after the first one.
fn digit<'a>(byte: u8) -> Front<Kind<'a>>
    ensures is { front_by kind_of result ≡ digit_front byte }
    ensures within { front_more (front_by kind_of result) ≤ 3 }
{
    match byte {
        b'0' => Front::Lexeme(3, Kind::Zero),
        b'1' => Front::Lexeme(3, Kind::One),
        _ => Front::Wrong,
    }
}

// How many bytes stand before the end of the line.
fn line_len(text: &[u8]) -> usize
    ensures is { result ≡ prefix_len stays_in_line text.now }
    ensures within { result ≤ length text.now }
{
    let mut len = 0;
    'bytes: while len < text.len() && text[len] != b'\n' {
        len += 1;
    }
    len
}
