// The steps of the reader on names that are declared.

ghost use Rattle.std.specs.Prelude.{◌≡◌, Some, None, map, MatchOption};
ghost use Rattle.csub_text.specs.Grammar.{own_name, global_name, begins_global};
ghost use Rattle.csub_read.specs.Reading.{FindsKinds};
ghost use Rattle.csub_read.specs.Tokens.{kind_in};
ghost use Rattle.base_reader.specs.Readings.{picked, the};

use crate::tokens::{Kind, Token};
use base_reader::{ReadError, first};
use base_types::Text;
use csub_text::{begins_input, begins_output};
use net_expressions::{copy_of, refused_here};
use std::alloc::Global;

// The name of a state or a local.
pub fn read_own_name<'a>(
    alloc: Global,
    tokens: &'a [Token<'a>],
) -> Result<(Text, &'a [Token<'a>]), ReadError>
    ensures { FindsKinds (λ name. name) result (the own_name (map kind_in tokens.now)) }
{
    let Some((name, rest)) = past_own_name(tokens) else {
        return Err(refused_here(tokens));
    };
    Ok((copy_of(alloc, name)?, rest))
}

// The name of a global.
pub fn read_global_name<'a>(
    alloc: Global,
    tokens: &'a [Token<'a>],
) -> Result<(Text, &'a [Token<'a>]), ReadError>
    ensures { FindsKinds (λ name. name) result (the global_name (map kind_in tokens.now)) }
{
    let Some((name, rest)) = past_global_name(tokens) else {
        return Err(refused_here(tokens));
    };
    Ok((copy_of(alloc, name)?, rest))
}

// The name of a state or a local that stands next, and the tokens after it.
fn past_own_name<'a>(tokens: &'a [Token<'a>]) -> Option<(&'a [u8], &'a [Token<'a>])>
    ensures { MatchOption result
        (picked own_name (map kind_in tokens.now) ≡ None)
        (λ found. picked own_name (map kind_in tokens.now) ≡ Some (found.0.now, map kind_in found.1.now)) }
{
    let (token, rest) = first(tokens)?;
    match token.kind {
        Kind::Named(name) if !begins_global(name) => Some((name, rest)),
        _ => None,
    }
}

// The name of a global that stands next, and the tokens after it.
fn past_global_name<'a>(tokens: &'a [Token<'a>]) -> Option<(&'a [u8], &'a [Token<'a>])>
    ensures { MatchOption result
        (picked global_name (map kind_in tokens.now) ≡ None)
        (λ found. picked global_name (map kind_in tokens.now) ≡ Some (found.0.now, map kind_in found.1.now)) }
{
    let (token, rest) = first(tokens)?;
    match token.kind {
        Kind::Named(name) if begins_global(name) && 2 < name.len() => Some((name, rest)),
        _ => None,
    }
}

// Whether a name begins as those of inputs or of outputs do.
fn begins_global(name: &[u8]) -> bool
    ensures { result ≡ begins_global name.now }
{
    begins_input(name) || begins_output(name)
}
