// The steps of a reader on single tokens.

ghost use Rattle.std.specs.Prelude.{◌≡◌, [], Some, None, false, map, MatchOption, MatchResult};
ghost use Rattle.net_expressions.specs.Signs.{numbered_as, named, constant};
ghost use Rattle.net_expressions.specs.Reading.{FindsBy};
ghost use Rattle.net_expressions.specs.Plain.{kind_by};
ghost use Rattle.base_reader.specs.Readings.{picked, the, fault_at};
ghost use Rattle.base_reader.specs.declared.faults.ReadError.TheVariants as errors;

use crate::kinds::{Sign, Token, TokenKind};
use base_reader::{ReadError, first, refused};
use base_types::Text;
use std::alloc::Global;

/// Nothing is read yet, and all the tokens are left. A loop over what is left begins with what a call gave in a pair:
/// the borrow checker of the proofs does not cover one that begins with the parameter itself.
pub fn nothing_read<'t, X, T>(alloc: Global, tokens: &'t [T]) -> (Vec<X>, &'t [T])
    ensures read { result.0.items ≡ [] }
    ensures left { result.1.now ≡ tokens.now }
{
    (Vec::new(alloc), tokens)
}

/// The tokens after this word or mark, where it stands next.
pub fn past<'t, K: TokenKind>(expected: K, tokens: &'t [Token<K>]) -> Option<&'t [Token<K>]>
    ensures { MatchOption result
        (picked (numbered_as K.number (K.number (K.plain expected))) (map (kind_by K.plain) tokens.now) ≡ None)
        (λ rest. picked (numbered_as K.number (K.number (K.plain expected)))
        (map (kind_by K.plain) tokens.now) ≡ Some (tt, map (kind_by K.plain) rest.now)) }
{
    match first(tokens) {
        Some((token, rest)) if expected.number() == token.kind.number() => Some(rest),
        _ => None,
    }
}

/// The tokens after this word or mark, which must stand next.
pub fn after<'t, K: TokenKind>(
    expected: K,
    tokens: &'t [Token<K>],
) -> Result<&'t [Token<K>], ReadError>
    ensures { MatchResult result
        (λ rest. picked (numbered_as K.number (K.number (K.plain expected)))
        (map (kind_by K.plain) tokens.now) ≡ Some (tt, map (kind_by K.plain) rest.now))
        (λ e. (picked (numbered_as K.number (K.number (K.plain expected)))
        (map (kind_by K.plain) tokens.now) ≡ None)
        × (e ≡ errors.Fault (fault_at false (map (kind_by K.plain) tokens.now)))) }
{
    match past(expected, tokens) {
        Some(rest) => Ok(rest),
        None => Err(refused_here(tokens)),
    }
}

/// The fault at the next token.
pub fn refused_here<K: TokenKind>(tokens: &[Token<K>]) -> ReadError
    ensures { result ≡ errors.Fault (fault_at false (map (kind_by K.plain) tokens.now)) }
{
    ReadError::Fault(refused(tokens))
}

/// The name that stands next, and the tokens after it.
pub fn past_name<'t, K: TokenKind>(tokens: &'t [Token<K>]) -> Option<(&'t [u8], &'t [Token<K>])>
    ensures { MatchOption result
        (picked (named K.sign) (map (kind_by K.plain) tokens.now) ≡ None)
        (λ found. picked (named K.sign) (map (kind_by K.plain) tokens.now)
        ≡ Some (found.0.now, map (kind_by K.plain) found.1.now)) }
{
    let (token, rest) = first(tokens)?;
    match token.kind.sign() {
        Sign::Name(name) => Some((name, rest)),
        _ => None,
    }
}

/// The constant that must stand next.
pub fn read_bit<'t, K: TokenKind>(
    tokens: &'t [Token<K>],
) -> Result<(bool, &'t [Token<K>]), ReadError>
    ensures { FindsBy K.plain (λ value. value) result (the (constant K.sign) (map (kind_by K.plain) tokens.now)) }
{
    match first(tokens) {
        Some((token, rest)) => match token.kind.sign() {
            Sign::Bit(value) => Ok((value, rest)),
            _ => Err(refused_here(tokens)),
        },
        None => Err(refused_here(tokens)),
    }
}

/// A name, in memory of its own.
pub fn copy_of(alloc: Global, name: &[u8]) -> Result<Text, ReadError>
    ensures { MatchResult result (λ copy. copy ≡ name.now) (λ e. e ≡ errors.NoMemory) }
{
    match Text::from_bytes(alloc, name) {
        Ok(copy) => Ok(copy),
        Err(_) => Err(ReadError::NoMemory),
    }
}
