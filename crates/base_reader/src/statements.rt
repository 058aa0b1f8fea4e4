// A worked example: lists of `nothing` and `pause` with `;` between them and groups in brackets.
//
// list = item { ";" item } [ ";" ]        item = "nothing" | "pause" | "[" list "]"

ghost use Rattle.std.specs.Prelude.{◌≡◌, ◌<◌, Some, None, is_some, map, vec_len, MatchOption};
ghost use Rattle.base_reader.specs.Exact.{GivesExactly};
ghost use Rattle.base_reader.specs.Found.{Finds, Gives};
ghost use Rattle.base_reader.specs.Readings.{picked, whole};
ghost use Rattle.base_reader.specs.StatementGrammar.{plain_of, semicolon, IsStatement};
ghost use Rattle.base_reader.specs.StatementReading.{opening, item, list_of, statement};
ghost use Rattle.base_reader.specs.StatementReading.{inside as inner};

use crate::cursor::{ended, first, inside, refused};
use crate::faults::ReadError;
use std::alloc::Global;

#[derive(Clone, Copy)]
enum Token {
    Nothing,
    Pause,
    Semicolon,
    Open,
    Close,
}

// What begins an item.
#[derive(Clone, Copy)]
enum Opening {
    Nothing,
    Pause,
    Group,
}

#[derive(Drop)]
enum Statement {
    Nothing,
    Pause,
    Group(Box<Statement>),
    Sequence(Vec<Statement>),
}

// What begins an item with the next token, and the tokens after it.
fn past_opening(tokens: &[Token]) -> Option<(Opening, &[Token])>
    ensures { MatchOption result
        (picked opening tokens.now ≡ None)
        (λ found. picked opening tokens.now ≡ Some (found.0, found.1.now)) }
{
    match first(tokens)? {
        (Token::Nothing, rest) => Some((Opening::Nothing, rest)),
        (Token::Pause, rest) => Some((Opening::Pause, rest)),
        (Token::Open, rest) => Some((Opening::Group, rest)),
        _ => None,
    }
}

// The tokens after a semicolon, where one stands next.
fn past_semicolon(tokens: &[Token]) -> Option<&[Token]>
    ensures { MatchOption result
        (picked semicolon tokens.now ≡ None)
        (λ rest. picked semicolon tokens.now ≡ Some (tt, rest.now)) }
{
    match first(tokens)? {
        (Token::Semicolon, rest) => Some(rest),
        _ => None,
    }
}

// Whether an item begins here.
fn is_item_next(tokens: &[Token]) -> bool
    ensures { result ≡ is_some (picked opening tokens.now) }
{
    past_opening(tokens).is_some()
}

#[cycle(statement)]
fn read_item(alloc: Global, tokens: &[Token], room: u32) -> Result<(Statement, &[Token]), ReadError>
    ensures { Finds plain_of result (item room (inner room) tokens.now) }
{
    let Some((opening, rest)) = past_opening(tokens) else {
        return Err(ReadError::Fault(refused(tokens)));
    };
    match opening {
        Opening::Nothing => Ok((Statement::Nothing, rest)),
        Opening::Pause => Ok((Statement::Pause, rest)),
        Opening::Group => {
            let room = inside(room, tokens)?;
            let (body, rest) = read_statement(alloc, rest, room)?;
            let Some((Token::Close, rest)) = first(rest) else {
                return Err(ReadError::Fault(refused(rest)));
            };
            Ok((Statement::Group(Box::new(alloc, body)?), rest))
        }
    }
}

#[cycle(statement)]
fn read_statement(
    alloc: Global,
    tokens: &[Token],
    room: u32,
) -> Result<(Statement, &[Token]), ReadError>
    ensures { Finds plain_of result (statement room tokens.now) }
{
    let (item, mut rest) = read_item(alloc, tokens, room)?;
    let mut items = Vec::new(alloc);
    items.push(item)?;
    while let Some(behind) = past_semicolon(rest) {
        if !is_item_next(behind) {
            return Ok((sequence_of(items), behind));
        }
        let (item, behind) = read_item(alloc, behind, room)?;
        items.push(item)?;
        rest = behind;
    }
    Ok((sequence_of(items), rest))
}

// The list of these items, of which there is one at least. A list of one item is that item.
fn sequence_of(mut items: Vec<Statement>) -> Statement
    requires { 0 < vec_len items }
    ensures { plain_of result ≡ list_of (map plain_of items.items) }
{
    if items.len() > 1 {
        return Statement::Sequence(items);
    }
    items.pop().unwrap()
}

fn read_whole(alloc: Global, tokens: &[Token], room: u32) -> Result<Statement, ReadError>
    ensures { Gives plain_of result (whole (statement room) tokens.now) }
{
    let (found, rest) = read_statement(alloc, tokens, room)?;
    Ok(ended(found, rest)?)
}

// The statement that the tokens spell, nested at most as deep as there is room, or the least place that
// no such statement passes.
fn read(alloc: Global, tokens: &[Token], room: u32) -> Result<Statement, ReadError>
    ensures { GivesExactly plain_of IsStatement room tokens.now result }
{
    read_whole(alloc, tokens, room)
}
