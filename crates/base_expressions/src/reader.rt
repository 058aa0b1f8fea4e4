// The readers of expressions, one a tier.

ghost use Rattle.std.specs.Prelude.{◌≡◌, ◌<◌, ◌∷◌, None, Some, map, vec_len, MatchOption, MatchResult};
ghost use Rattle.std.specs.Prelude.{false};
ghost use Rattle.base_expressions.specs.Reading.{expr, tier, below, neg, inside, list_of};
ghost use Rattle.base_expressions.specs.Views.{FindsBy, opening_in};
ghost use Rattle.base_reader.specs.Readings.{picked, fault_at};
ghost use Rattle.base_reader.specs.declared.faults.ReadError.TheVariants as errors;

use crate::language::{ExprLanguage, Joint, Opening};
use base_reader::{ReadError, first, inside, refused};
use std::alloc::Global;

/// An expression: parts with or between them. Its errors are the first fault of the tokens, and out of memory.
pub fn read_expr<'t, L: ExprLanguage>(
    alloc: Global,
    tokens: &'t [L::Token],
    room: u32,
) -> Result<(L::Tree, &'t [L::Token]), ReadError>
    ensures { FindsBy L.token_of L.tree_of result (expr L.tiers room (map L.token_of tokens.now)) }
{
    read_joined::<L>(alloc, Joint::Or, tokens, room)
}

// Parts with an operator between them.
#[cycle(tiers)]
fn read_joined<'t, L: ExprLanguage>(
    alloc: Global,
    joint: Joint,
    tokens: &'t [L::Token],
    room: u32,
) -> Result<(L::Tree, &'t [L::Token]), ReadError>
    ensures { FindsBy L.token_of L.tree_of result
        (tier L.tiers joint room (inside L.tiers room) (map L.token_of tokens.now)) }
{
    let (first, mut rest) = read_below::<L>(alloc, joint, tokens, room)?;
    let mut parts = Vec::new(alloc);
    parts.push(first)?;
    while let Some(behind) = past_joint::<L>(joint, rest) {
        let (part, behind) = read_below::<L>(alloc, joint, behind, room)?;
        parts.push(part)?;
        rest = behind;
    }
    Ok((joined_or_one::<L>(joint, parts), rest))
}

// What stands between operators.
#[cycle(tiers)]
fn read_below<'t, L: ExprLanguage>(
    alloc: Global,
    joint: Joint,
    tokens: &'t [L::Token],
    room: u32,
) -> Result<(L::Tree, &'t [L::Token]), ReadError>
    ensures { FindsBy L.token_of L.tree_of result
        (below L.tiers joint room (inside L.tiers room) (map L.token_of tokens.now)) }
{
    match joint {
        Joint::And => read_part::<L>(alloc, tokens, room),
        Joint::Or => read_joined::<L>(alloc, Joint::And, tokens, room),
    }
}

/// A part without and and or, except for those in brackets. Its errors are the first fault of the tokens, and want of
/// memory.
#[cycle(tiers)]
pub fn read_part<'t, L: ExprLanguage>(
    alloc: Global,
    tokens: &'t [L::Token],
    room: u32,
) -> Result<(L::Tree, &'t [L::Token]), ReadError>
    ensures { FindsBy L.token_of L.tree_of result
        (neg L.tiers room (inside L.tiers room) (map L.token_of tokens.now)) }
{
    let Some((opening, token, rest)) = past_opening::<L>(tokens) else {
        return Err(ReadError::Fault(refused(tokens)));
    };
    match opening {
        Opening::Leaf => Ok((L::leaf(alloc, token)?, rest)),
        Opening::Not => {
            let room = inside(room, tokens)?;
            let (part, rest) = read_part::<L>(alloc, rest, room)?;
            Ok((L::negation(alloc, part)?, rest))
        }
        Opening::Open(bracket) => {
            let room = inside(room, tokens)?;
            let (body, rest) = read_joined::<L>(alloc, Joint::Or, rest, room)?;
            let rest = after_close::<L>(bracket, rest)?;
            Ok((L::bracketed(alloc, bracket, body)?, rest))
        }
    }
}

// What begins a part with the next token, that token, and the tokens after it.
fn past_opening<'t, L: ExprLanguage>(
    tokens: &'t [L::Token],
) -> Option<(Opening<L::Bracket>, &'t L::Token, &'t [L::Token])>
    ensures { MatchOption result
        (picked L.tiers.opening (map L.token_of tokens.now) ≡ None)
        (λ found. (opening_in (L.tiers.opening (L.token_of found.1.now)) ≡ Some found.0)
        × (tokens.now ≡ found.1.now ∷ found.2.now)) }
{
    let (token, rest) = first(tokens)?;
    match L::opening(token) {
        Some(opening) => Some((opening, token, rest)),
        None => None,
    }
}

// The tokens after the operator, where it stands next.
fn past_joint<'t, L: ExprLanguage>(joint: Joint, tokens: &'t [L::Token]) -> Option<&'t [L::Token]>
    ensures { MatchOption result
        (picked (L.tiers.mark joint) (map L.token_of tokens.now) ≡ None)
        (λ rest. picked (L.tiers.mark joint) (map L.token_of tokens.now) ≡ Some (tt, map L.token_of rest.now)) }
{
    match first(tokens) {
        Some((token, rest)) if L::is_joint(joint, token) => Some(rest),
        _ => None,
    }
}

// The tokens after what closes the bracket, which must stand next.
fn after_close<'t, L: ExprLanguage>(
    bracket: L::Bracket,
    tokens: &'t [L::Token],
) -> Result<&'t [L::Token], ReadError>
    ensures { MatchResult result
        (λ rest. picked (L.tiers.closing bracket) (map L.token_of tokens.now) ≡ Some (tt, map L.token_of rest.now))
        (λ e. (picked (L.tiers.closing bracket) (map L.token_of tokens.now) ≡ None)
        × (e ≡ errors.Fault (fault_at false (map L.token_of tokens.now)))) }
{
    match first(tokens) {
        Some((token, rest)) if L::is_close(bracket, token) => Ok(rest),
        _ => Err(ReadError::Fault(refused(tokens))),
    }
}

// The parts with the operator between them, of which there is one at least. One part alone makes no node.
fn joined_or_one<'t, L: ExprLanguage>(joint: Joint, mut parts: Vec<L::Tree>) -> L::Tree
    requires { 0 < vec_len parts }
    ensures { L.tree_of result ≡ list_of (L.tiers.joined joint) (map L.tree_of parts.items) }
{
    if parts.len() > 1 {
        return L::joined(joint, parts);
    }
    parts.pop().unwrap()
}
