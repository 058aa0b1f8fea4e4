// The words and the marks of a text.

ghost use Rattle.std.specs.Prelude.{◌≡◌, ◌<◌};
ghost use Rattle.std.specs.Option.{option_map};
ghost use Rattle.vlog_text.specs.Tokens.{sort_word, other_word, word_kind, mark_kind};
ghost use Rattle.vlog_read.specs.Lexed.{kind_of, plain_sort};

use crate::sources::Sort;
use crate::tokens::Kind;

// A reserved word, or else a name.
pub fn word_kind<'a>(word: &'a [u8]) -> Kind<'a>
    ensures { kind_of result ≡ word_kind word.now }
{
    match sort_word(word) {
        Some(sort) => Kind::Declares(sort),
        None => other_word(word),
    }
}

// The words that declare names.
fn sort_word(word: &[u8]) -> Option<Sort>
    ensures { option_map plain_sort result ≡ sort_word word.now }
{
    if word == b"input".as_slice() {
        Some(Sort::Input)
    } else if word == b"output".as_slice() {
        Some(Sort::Output)
    } else if word == b"wire".as_slice() {
        Some(Sort::Wire)
    } else if word == b"reg".as_slice() {
        Some(Sort::Reg)
    } else {
        None
    }
}

// The other reserved words, and all names.
fn other_word<'a>(word: &'a [u8]) -> Kind<'a>
    ensures { kind_of result ≡ other_word word.now }
{
    if word == b"module".as_slice() {
        Kind::ModuleWord
    } else if word == b"initial".as_slice() {
        Kind::InitialWord
    } else if word == b"assign".as_slice() {
        Kind::AssignWord
    } else if word == b"always".as_slice() {
        Kind::AlwaysWord
    } else if word == b"posedge".as_slice() {
        Kind::PosedgeWord
    } else if word == b"begin".as_slice() {
        Kind::BeginWord
    } else if word == b"end".as_slice() {
        Kind::EndWord
    } else if word == b"endmodule".as_slice() {
        Kind::EndmoduleWord
    } else {
        Kind::Named(word)
    }
}

// The marks of one byte.
pub fn mark_kind<'a>(byte: u8) -> Option<Kind<'a>>
    ensures { option_map kind_of result ≡ mark_kind byte }
{
    match byte {
        b'(' => Some(Kind::LeftParenthesis),
        b')' => Some(Kind::RightParenthesis),
        b',' => Some(Kind::Comma),
        b';' => Some(Kind::Semicolon),
        b'=' => Some(Kind::Equals),
        b'@' => Some(Kind::At),
        b'|' => Some(Kind::Bar),
        b'&' => Some(Kind::Ampersand),
        b'~' => Some(Kind::Tilde),
        _ => None,
    }
}
