// The reader of blocks and of whole texts.

ghost use Rattle.std.specs.Prelude.{◌≡◌, map};
ghost use Rattle.std.specs.Option.{is_some};
ghost use Rattle.csub_read.specs.Reading.{FindsKinds};
ghost use Rattle.csub_read.specs.Tokens.{kind_in, kind_of};
ghost use Rattle.csub_guard_read.specs.Reading.{assigns_in, listed, piece_in, program_in, builds_expr, block_made};
ghost use Rattle.csub_guard_read.specs.Reading.{begins_piece, half_rule, else_step, block_behind, piece_rule};
ghost use Rattle.csub_guard_read.specs.Reading.{piece_step};
ghost use Rattle.csub_guard_read.specs.Reading.{program_rule};
ghost use Rattle.base_reader.specs.Readings.{mapped, loop, picked};

use base_reader::{ReadError, first};
use csub_guard::{GuardedProgram, Piece};
use csub_read::{
    Kind, Token, read_answer, read_assign, read_assigns, read_globals, read_locals, read_states,
};
use csub_text::Assign;
use net_expressions::{after, copy_of, nothing_read, past, past_name, refused_here};
use std::alloc::Global;

// The program of a text, and the tokens after it.
pub fn read_text<'a>(
    alloc: Global,
    tokens: &'a [Token<'a>],
    room: u32,
) -> Result<(GuardedProgram, &'a [Token<'a>]), ReadError>
    ensures { FindsKinds program_in result (program_rule room (map kind_in tokens.now)) }
{
    let (states, rest) = read_states(alloc, tokens)?;
    let (globals, rest) = read_globals(alloc, rest)?;
    let rest = after(Kind::LeftParenthesis, rest)?;
    let rest = after(Kind::Void, rest)?;
    let rest = after(Kind::RightParenthesis, rest)?;
    let rest = after(Kind::LeftBrace, rest)?;
    let (locals, rest) = read_locals(alloc, rest)?;
    let (body, rest) = read_pieces(alloc, rest, room)?;
    let (answer, rest) = read_answer(alloc, rest, room)?;
    let program = GuardedProgram {
        states,
        globals,
        locals,
        body,
        answer,
    };
    Ok((program, rest))
}

// The assignments and blocks.
fn read_pieces<'a>(
    alloc: Global,
    tokens: &'a [Token<'a>],
    room: u32,
) -> Result<(Vec<Piece>, &'a [Token<'a>]), ReadError>
    ensures { FindsKinds (λ v. map piece_in v.items) result
        (loop (piece_step builds_expr room) (map kind_in tokens.now)) }
{
    let (mut body, mut rest) = nothing_read(alloc, tokens);
    'pieces: while begins_piece(rest) {
        let (piece, behind) = read_piece(alloc, rest, room)?;
        body.push(piece)?;
        rest = behind;
    }
    Ok((body, rest))
}

// Whether an assignment or a block stands next.
fn begins_piece(tokens: &[Token<'_>]) -> bool
    ensures { result ≡ is_some (picked begins_piece (map kind_in tokens.now)) }
{
    match first(tokens) {
        Some((token, _)) => is_piece_word(token.kind),
        None => false,
    }
}

fn is_piece_word(kind: Kind<'_>) -> bool
    ensures { result ≡ is_some (begins_piece (kind_of kind.entry)) }
{
    match kind {
        Kind::If => true,
        Kind::Named(_) => true,
        _ => false,
    }
}

// An assignment or a block.
fn read_piece<'a>(
    alloc: Global,
    tokens: &'a [Token<'a>],
    room: u32,
) -> Result<(Piece, &'a [Token<'a>]), ReadError>
    ensures { FindsKinds piece_in result (piece_rule builds_expr room (map kind_in tokens.now)) }
{
    if let Some(rest) = past(Kind::If, tokens) {
        return read_block(alloc, rest, room);
    }
    let Some((name, rest)) = past_name(tokens) else {
        return Err(refused_here(tokens));
    };
    let (assign, rest) = read_assign(alloc, name, rest, room)?;
    Ok((Piece::One(assign), rest))
}

// A block, after its `if`.
fn read_block<'a>(
    alloc: Global,
    tokens: &'a [Token<'a>],
    room: u32,
) -> Result<(Piece, &'a [Token<'a>]), ReadError>
    ensures { FindsKinds piece_in result
        (mapped (block_made builds_expr) (block_behind builds_expr room) (map kind_in tokens.now)) }
{
    let rest = after(Kind::LeftParenthesis, tokens)?;
    let Some((name, rest)) = past_name(rest) else {
        return Err(refused_here(rest));
    };
    let rest = after(Kind::RightParenthesis, rest)?;
    let test = copy_of(alloc, name)?;
    let (first, rest) = read_half(alloc, rest, room)?;
    let (second, rest) = read_else(alloc, rest, room)?;
    Ok((Piece::If(test, first, second), rest))
}

// Assignments between braces.
fn read_half<'a>(
    alloc: Global,
    tokens: &'a [Token<'a>],
    room: u32,
) -> Result<(Vec<Assign>, &'a [Token<'a>]), ReadError>
    ensures { FindsKinds (λ v. assigns_in v.items) result (half_rule builds_expr room (map kind_in tokens.now)) }
{
    let rest = after(Kind::LeftBrace, tokens)?;
    let (assigns, rest) = read_assigns(alloc, rest, room)?;
    let rest = after(Kind::RightBrace, rest)?;
    Ok((assigns, rest))
}

// The second half of a block, without assignments where it has none.
fn read_else<'a>(
    alloc: Global,
    tokens: &'a [Token<'a>],
    room: u32,
) -> Result<(Vec<Assign>, &'a [Token<'a>]), ReadError>
    ensures { FindsKinds (λ v. assigns_in v.items) result
        (mapped listed (else_step builds_expr room) (map kind_in tokens.now)) }
{
    match past(Kind::Else, tokens) {
        Some(rest) => read_half(alloc, rest, room),
        None => Ok((Vec::new(alloc), tokens)),
    }
}
