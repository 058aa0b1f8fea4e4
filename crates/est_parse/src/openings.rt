// What the next token begins.

ghost use Rattle.std.specs.Prelude.{◌≡◌, Some, None, false, is_some, MatchOption, MatchResult};
ghost use Rattle.est_parse.specs.Openings.{opening, part_start, event_start, declaration};
ghost use Rattle.base_reader.specs.Readings.{picked, fault_at};
ghost use Rattle.base_reader.specs.declared.faults.ReadError.TheVariants as errors;

use base_reader::{ReadError, first, refused};
use est_ast::{Kind, Mark, Reserved, Token};

// What begins an item. All except the flat ones have room for a statement or a case, or stand before a
// word that has.
#[derive(Clone, Copy)]
pub enum Opening {
    Flat(Flat),
    Await,
    Present,
    Block(Block),
}

// What begins an item without a statement in it.
#[derive(Clone, Copy)]
pub enum Flat {
    Nothing,
    Pause,
    Halt,
    Emit,
    Sustain,
    Exit,
    Run,
}

// What begins an item with a statement in it that stands always.
#[derive(Clone, Copy)]
pub enum Block {
    Group,
    Loop,
    Every,
    Repeat,
    Positive,
    Abort,
    Weak,
    Suspend,
    Trap,
    Signal,
}

// A kind of brackets in a test.
#[derive(Clone, Copy)]
pub enum Bracket {
    Round,
    Square,
}

// What begins a declaration.
#[derive(Clone, Copy)]
pub enum Declaration {
    Input,
    InputOutput,
    Output,
    Relation,
}

// What begins an item with the next token, and the tokens after it.
pub fn past_opening(tokens: &[Token]) -> Option<(Opening, &[Token])>
    ensures { MatchOption result
        (picked opening tokens.now ≡ None)
        (λ found. picked opening tokens.now ≡ Some (found.0, found.1.now)) }
{
    let (token, rest) = first(tokens)?;
    let opening = match token.kind {
        Kind::Reserved(Reserved::Nothing) => Opening::Flat(Flat::Nothing),
        Kind::Reserved(Reserved::Pause) => Opening::Flat(Flat::Pause),
        Kind::Reserved(Reserved::Halt) => Opening::Flat(Flat::Halt),
        Kind::Reserved(Reserved::Emit) => Opening::Flat(Flat::Emit),
        Kind::Reserved(Reserved::Sustain) => Opening::Flat(Flat::Sustain),
        Kind::Reserved(Reserved::Exit) => Opening::Flat(Flat::Exit),
        Kind::Reserved(Reserved::Run) => Opening::Flat(Flat::Run),
        Kind::Mark(Mark::LeftBracket) => Opening::Block(Block::Group),
        Kind::Reserved(Reserved::Await) => Opening::Await,
        Kind::Reserved(Reserved::Present) => Opening::Present,
        Kind::Reserved(Reserved::Loop) => Opening::Block(Block::Loop),
        Kind::Reserved(Reserved::Every) => Opening::Block(Block::Every),
        Kind::Reserved(Reserved::Repeat) => Opening::Block(Block::Repeat),
        Kind::Reserved(Reserved::Positive) => Opening::Block(Block::Positive),
        Kind::Reserved(Reserved::Abort) => Opening::Block(Block::Abort),
        Kind::Reserved(Reserved::Weak) => Opening::Block(Block::Weak),
        Kind::Reserved(Reserved::Suspend) => Opening::Block(Block::Suspend),
        Kind::Reserved(Reserved::Trap) => Opening::Block(Block::Trap),
        Kind::Reserved(Reserved::Signal) => Opening::Block(Block::Signal),
        _ => return None,
    };
    Some((opening, rest))
}

// Whether an item begins here.
pub fn is_item_next(tokens: &[Token]) -> bool
    ensures { result ≡ is_some (picked opening tokens.now) }
{
    past_opening(tokens).is_some()
}

// Nothing where the next token begins an event, and else its fault.
pub fn check_event(tokens: &[Token]) -> Result<(), ReadError>
    ensures { MatchResult result
        (λ _. picked event_start tokens.now ≡ picked part_start tokens.now)
        (λ e. (picked event_start tokens.now ≡ None) × (e ≡ errors.Fault (fault_at false tokens.now))) }
{
    let Some((token, _)) = first(tokens) else {
        return Err(ReadError::Fault(refused(tokens)));
    };
    match token.kind {
        Kind::Mark(Mark::LeftBracket) => Ok(()),
        Kind::Reserved(Reserved::Tick) => Ok(()),
        Kind::Ident(_) => Ok(()),
        _ => Err(ReadError::Fault(refused(tokens))),
    }
}

// What begins a declaration with the next token, and the tokens after it.
pub fn past_declaration(tokens: &[Token]) -> Option<(Declaration, &[Token])>
    ensures { MatchOption result
        (picked declaration tokens.now ≡ None)
        (λ found. picked declaration tokens.now ≡ Some (found.0, found.1.now)) }
{
    let (token, rest) = first(tokens)?;
    let declaration = match token.kind {
        Kind::Reserved(Reserved::Input) => Declaration::Input,
        Kind::Reserved(Reserved::InputOutput) => Declaration::InputOutput,
        Kind::Reserved(Reserved::Output) => Declaration::Output,
        Kind::Reserved(Reserved::Relation) => Declaration::Relation,
        _ => return None,
    };
    Some((declaration, rest))
}
