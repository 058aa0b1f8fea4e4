// Why tokens are no program.

ghost use Rattle.std.specs.Prelude.{◌≡◌, ◌+◌, ◌<◌, ◌≤◌, ◌^◌, length};
ghost use Rattle.est_parse.specs.Faults.{IsFaultAt};

use base_reader::Fault;
use est_ast::Token;
use thiserror::Error;

/// Why `parse` gives no program. Places are numbers of tokens, from 0.
#[derive(Clone, Copy, Debug, PartialEq, Error)]
pub enum ParseError {
    /// No program passes this place.
    #[error("token {0} cannot stand here")]
    Syntax(u32),
    /// No program of the nesting that is read passes this place, but a deeper one does.
    #[error("token {0} is nested too deep")]
    TooNested(u32),
    /// Running out of memory.
    #[error("no memory")]
    NoMemory,
}

// The fault with its place counted from the front.
pub fn refusal_at(tokens: &[Token], fault: Fault) -> ParseError
    requires within { fault.left ≤ length tokens.now }
    requires few { length tokens.now < 2 ^ 32 }
    ensures { IsFaultAt tokens.now fault result }
{
    let place = (tokens.len() - fault.left) as u32;
    if fault.deep {
        ParseError::TooNested(place)
    } else {
        ParseError::Syntax(place)
    }
}
