// What stands between the token that begins an item and the item's statement.

ghost use Rattle.est_ast.specs.declared.tokens.Reserved.TheVariants as words;
ghost use Rattle.est_ast.specs.Grammar.{word, number};
ghost use Rattle.est_parse.specs.Reading.{event};
ghost use Rattle.est_parse.specs.Reading.{head as head_rule};
ghost use Rattle.est_parse.specs.Heads.{head_of};
ghost use Rattle.base_reader.specs.Found.{Finds};
ghost use Rattle.base_reader.specs.Readings.{the, trail};

use crate::expressions::read_delay;
use crate::names::read_names;
use crate::openings::Block;
use crate::signs::{after_word, read_name, read_number};
use base_reader::ReadError;
use base_types::Span;
use est_ast::{Delay, Mark, Name, Reserved, Token};
use std::alloc::Global;

// The head of an item.
#[derive(Drop)]
pub enum Head {
    Group,
    Loop,
    Every(Delay),
    Repeat(u128, Span),
    Abort,
    Weak,
    Suspend,
    Trap(Name),
    Signal(Vec<Name>),
}

// What stands before the statement.
pub fn read_head(
    alloc: Global,
    block: Block,
    tokens: &[Token],
    room: u32,
) -> Result<(Head, &[Token]), ReadError>
    ensures { Finds head_of result (head_rule block (event room) tokens.now) }
{
    match block {
        Block::Group => Ok((Head::Group, tokens)),
        Block::Loop => Ok((Head::Loop, tokens)),
        Block::Abort => Ok((Head::Abort, tokens)),
        Block::Suspend => Ok((Head::Suspend, tokens)),
        Block::Weak => {
            let rest = after_word(Reserved::Abort, tokens)?;
            Ok((Head::Weak, rest))
        }
        Block::Every => {
            let (delay, rest) = read_delay(alloc, tokens, room)?;
            let rest = after_word(Reserved::Do, rest)?;
            Ok((Head::Every(delay), rest))
        }
        Block::Repeat => {
            let ((count, span), rest) = read_times(tokens)?;
            Ok((Head::Repeat(count, span), rest))
        }
        Block::Positive => {
            let rest = after_word(Reserved::Repeat, tokens)?;
            let ((count, span), rest) = read_times(rest)?;
            Ok((Head::Repeat(count, span), rest))
        }
        Block::Trap => {
            let (name, rest) = read_name(alloc, tokens)?;
            let rest = after_word(Reserved::In, rest)?;
            Ok((Head::Trap(name), rest))
        }
        Block::Signal => {
            let (names, rest) = read_names(alloc, Mark::Comma, tokens)?;
            let rest = after_word(Reserved::In, rest)?;
            Ok((Head::Signal(names), rest))
        }
    }
}

// A number and `times`.
fn read_times(tokens: &[Token]) -> Result<((u128, Span), &[Token]), ReadError>
    ensures { Finds (λ found. found) result (trail (the number) (the (word words.Times)) tokens.now) }
{
    let (found, rest) = read_number(tokens)?;
    let rest = after_word(Reserved::Times, rest)?;
    Ok((found, rest))
}
