// Comments.

ghost use Rattle.std.specs.Prelude.{◌≡◌, ◌≤◌, ℕ, ◌<◌, MatchOption};
ghost use Rattle.est_ast.specs.Lexemes.{HasByte, OpensComment, ClosesComment, BeginsWithLineComment};
ghost use Rattle.est_ast.specs.Lexemes.{BeginsWithBlockComment};

/// The length of the line comment that begins the text.
pub fn line_comment(text: &[u8]) -> usize
    requires percent { HasByte text.now 0 37 }
    requires no_block { ¬ OpensComment text.now }
    ensures { BeginsWithLineComment text.now result }
{
    for (at, byte) in text.iter().enumerate() {
        if *byte == b'\n' {
            return at;
        }
    }
    text.len()
}

/// The length of the block comment that begins the text; nothing, where it is never closed.
pub fn block_comment(text: &[u8]) -> Option<usize>
    requires { OpensComment text.now }
    ensures { MatchOption result
        ((place : ℕ) → 2 ≤ place → ¬ ClosesComment text.now place)
        (BeginsWithBlockComment text.now) }
{
    for close in 2..text.len() - 1 {
        if text[close] == b'}' && text[close + 1] == b'%' {
            return Some(close + 2);
        }
    }
    None
}
