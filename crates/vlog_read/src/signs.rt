// The steps of the reader on names and on words that declare them.

ghost use Rattle.std.specs.Prelude.{◌≡◌, Some, None, map, MatchOption};
ghost use Rattle.base_reader.specs.Readings.{picked, the};
ghost use Rattle.vlog_text.specs.Grammar.{name, sort};
ghost use Rattle.vlog_read.specs.Reading.{FindsKinds};
ghost use Rattle.vlog_read.specs.Lexed.{kind_in, plain_sort};

use crate::sources::Sort;
use crate::tokens::{Kind, Token};
use base_reader::{ReadError, first};
use net_expressions::{past_name, refused_here};

// The word that declares names of a sort, and the tokens after it.
pub fn past_sort<'a>(tokens: &'a [Token<'a>]) -> Option<(Sort, &'a [Token<'a>])>
    ensures { MatchOption result
        (picked sort (map kind_in tokens.now) ≡ None)
        (λ found. picked sort (map kind_in tokens.now) ≡ Some (plain_sort found.0, map kind_in found.1.now)) }
{
    let (token, rest) = first(tokens)?;
    match token.kind {
        Kind::Declares(sort) => Some((sort, rest)),
        _ => None,
    }
}

// The name that must stand next.
pub fn read_name<'a>(tokens: &'a [Token<'a>]) -> Result<(&'a [u8], &'a [Token<'a>]), ReadError>
    ensures { FindsKinds (λ n. n.now) result (the name (map kind_in tokens.now)) }
{
    match past_name(tokens) {
        Some(found) => Ok(found),
        None => Err(refused_here(tokens)),
    }
}
