// Marks.

ghost use Rattle.std.specs.Prelude.{◌≡◌, ◌≢◌, ◌<◌, length, take, MatchOption};
ghost use Rattle.est_ast.specs.Spelling.{sign};
ghost use Rattle.est_ast.specs.declared.tokens.Mark.{Mark as MarkSign};

use est_ast::Mark;

/// The mark that begins the text, if one does.
pub fn mark(text: &[u8]) -> Option<Mark>
    requires { 0 < length text.now }
    ensures { MatchOption result
        ((other : MarkSign) → take (length (sign other)) text.now ≢ sign other)
        (λ mark. take (length (sign mark)) text.now ≡ sign mark) }
{
    let second = text.get(1).copied();
    match text[0] {
        b';' => Some(Mark::Semicolon),
        b'|' if second == Some(b'|') => Some(Mark::DoubleBar),
        b'[' => Some(Mark::LeftBracket),
        b']' => Some(Mark::RightBracket),
        b'(' => Some(Mark::LeftParenthesis),
        b')' => Some(Mark::RightParenthesis),
        b',' => Some(Mark::Comma),
        b'/' => Some(Mark::Slash),
        b':' => Some(Mark::Colon),
        b'#' => Some(Mark::Hash),
        b'=' if second == Some(b'>') => Some(Mark::Arrow),
        b'.' => Some(Mark::Period),
        _ => None,
    }
}

/// How many bytes a mark has.
pub fn mark_len(mark: Mark) -> usize
    ensures { result ≡ length (sign mark) }
{
    match mark {
        Mark::DoubleBar | Mark::Arrow => 2,
        _ => 1,
    }
}
