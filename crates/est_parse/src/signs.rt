// The steps of the parser on single tokens.

ghost use Rattle.std.specs.Prelude.{◌≡◌, Some, None, false, is_some, MatchOption, MatchResult};
ghost use Rattle.est_ast.specs.Grammar.{word, mark, name, number, end_of, span_of};
ghost use Rattle.est_ast.specs.Grammar as spec;
ghost use Rattle.est_parse.specs.Reading.{ends};
ghost use Rattle.base_reader.specs.Found.{Finds};
ghost use Rattle.base_reader.specs.Readings.{picked, the, fault_at, taken_of};
ghost use Rattle.base_reader.specs.declared.faults.ReadError.TheVariants as errors;

use base_reader::{ReadError, first, refused};
use base_types::{Span, Text};
use est_ast::{Kind, Mark, Name, Reserved, Token};
use std::alloc::Global;

// The tokens after this reserved word, where it stands next.
pub fn past_word(expected: Reserved, tokens: &[Token]) -> Option<&[Token]>
    ensures { MatchOption result
        (picked (word expected) tokens.now ≡ None)
        (λ rest. picked (word expected) tokens.now ≡ Some (tt, rest.now)) }
{
    match first(tokens) {
        Some((token, rest)) if is_word(expected, &token.kind) => Some(rest),
        _ => None,
    }
}

// The tokens after this mark, where it stands next.
pub fn past_mark(expected: Mark, tokens: &[Token]) -> Option<&[Token]>
    ensures { MatchOption result
        (picked (mark expected) tokens.now ≡ None)
        (λ rest. picked (mark expected) tokens.now ≡ Some (tt, rest.now)) }
{
    match first(tokens) {
        Some((token, rest)) if is_mark(expected, &token.kind) => Some(rest),
        _ => None,
    }
}

// The tokens after this reserved word, which must stand next.
pub fn after_word(expected: Reserved, tokens: &[Token]) -> Result<&[Token], ReadError>
    ensures { MatchResult result
        (λ rest. picked (word expected) tokens.now ≡ Some (tt, rest.now))
        (λ e. (picked (word expected) tokens.now ≡ None) × (e ≡ errors.Fault (fault_at false tokens.now))) }
{
    match past_word(expected, tokens) {
        Some(rest) => Ok(rest),
        None => Err(ReadError::Fault(refused(tokens))),
    }
}

// The tokens after this mark, which must stand next.
pub fn after_mark(expected: Mark, tokens: &[Token]) -> Result<&[Token], ReadError>
    ensures { MatchResult result
        (λ rest. picked (mark expected) tokens.now ≡ Some (tt, rest.now))
        (λ e. (picked (mark expected) tokens.now ≡ None) × (e ≡ errors.Fault (fault_at false tokens.now))) }
{
    match past_mark(expected, tokens) {
        Some(rest) => Ok(rest),
        None => Err(ReadError::Fault(refused(tokens))),
    }
}

// The tokens after `end`, and after the word where it is there.
pub fn after_end(word: Reserved, tokens: &[Token]) -> Result<((), &[Token]), ReadError>
    ensures { Finds (λ _. tt) result (ends word tokens.now) }
{
    let rest = after_word(Reserved::End, tokens)?;
    match past_word(word, rest) {
        Some(behind) => Ok(((), behind)),
        None => Ok(((), rest)),
    }
}

// A text, in memory of its own.
pub fn copy_of(alloc: Global, text: &Text) -> Result<Text, ReadError>
    ensures { MatchResult result (λ copy. copy ≡ text.now) (λ e. e ≡ errors.NoMemory) }
{
    match Text::from_bytes(alloc, text.bytes()) {
        Ok(copy) => Ok(copy),
        Err(_) => Err(ReadError::NoMemory),
    }
}

// A name, in memory of its own.
pub fn read_name(alloc: Global, tokens: &[Token]) -> Result<(Name, &[Token]), ReadError>
    ensures { Finds (λ name. name) result (the name tokens.now) }
{
    let Some((token, rest)) = first(tokens) else {
        return Err(ReadError::Fault(refused(tokens)));
    };
    match &token.kind {
        Kind::Ident(text) => {
            let text = copy_of(alloc, text)?;
            let span = token.span;
            Ok((Name { text, span }, rest))
        }
        _ => Err(ReadError::Fault(refused(tokens))),
    }
}

// A number and its place.
pub fn read_number(tokens: &[Token]) -> Result<((u128, Span), &[Token]), ReadError>
    ensures { Finds (λ found. found) result (the number tokens.now) }
{
    let Some((token, rest)) = first(tokens) else {
        return Err(ReadError::Fault(refused(tokens)));
    };
    match token.kind {
        Kind::Number(value) => Ok(((value, token.span), rest)),
        _ => Err(ReadError::Fault(refused(tokens))),
    }
}

// Whether a number stands next.
pub fn is_number_next(tokens: &[Token]) -> bool
    ensures { result ≡ is_some (picked number tokens.now) }
{
    match first(tokens) {
        Some((token, _)) => matches!(token.kind, Kind::Number(_)),
        None => false,
    }
}

// The place of the tokens before the rest.
pub fn place_of(tokens: &[Token], rest: &[Token]) -> Span
    ensures { result ≡ span_of (taken_of tokens.now rest.now) }
{
    let count = tokens.len().saturating_sub(rest.len());
    let taken = &tokens[..count];
    match (taken.first(), taken.last()) {
        (Some(first), Some(last)) => Span {
            start: first.span.start,
            end: last.span.end,
        },
        _ => Span { start: 0, end: 0 },
    }
}

// Whether the token is this reserved word.
pub fn is_word(expected: Reserved, kind: &Kind) -> bool
    ensures { result ≡ is_some (spec.is_word expected kind.now) }
{
    match kind {
        Kind::Reserved(found) => *found == expected,
        _ => false,
    }
}

// Whether the token is this mark.
pub fn is_mark(expected: Mark, kind: &Kind) -> bool
    ensures { result ≡ is_some (spec.is_mark expected kind.now) }
{
    match kind {
        Kind::Mark(found) => *found == expected,
        _ => false,
    }
}
