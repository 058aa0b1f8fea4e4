// The reader of declarations, assignments and whole texts.

ghost use Rattle.std.specs.Prelude.{map};
ghost use Rattle.csub_text.specs.Views.{expr_of, state_of};
ghost use Rattle.csub_read.specs.Reading.{FindsKinds, pair_of, parts_in, makes_expr, state_behind, state_step};
ghost use Rattle.csub_read.specs.Reading.{global_behind, global_step};
ghost use Rattle.csub_read.specs.Reading.{local_behind, local_step, assign_behind, assign_step, answer_rule};
ghost use Rattle.csub_read.specs.Reading.{text_rule};
ghost use Rattle.csub_read.specs.Tokens.{kind_in};
ghost use Rattle.base_reader.specs.Readings.{mapped, loop};

use crate::signs::{read_global_name, read_own_name};
use crate::tokens::{Kind, Token};
use base_reader::ReadError;
use base_types::Text;
use csub_text::{Assign, CProgram, Expr, State};
use net_expressions::{
    after, copy_of, nothing_read, past, past_name, read_bit, read_expr, refused_here,
};
use std::alloc::Global;

// The program of a text, and the tokens after it.
pub fn read_text<'a>(
    alloc: Global,
    tokens: &'a [Token<'a>],
    room: u32,
) -> Result<(CProgram, &'a [Token<'a>]), ReadError>
    ensures { FindsKinds parts_in result (text_rule makes_expr room (map kind_in tokens.now)) }
{
    let (states, rest) = read_states(alloc, tokens)?;
    let (globals, rest) = read_globals(alloc, rest)?;
    let rest = after(Kind::LeftParenthesis, rest)?;
    let rest = after(Kind::Void, rest)?;
    let rest = after(Kind::RightParenthesis, rest)?;
    let rest = after(Kind::LeftBrace, rest)?;
    let (locals, rest) = read_locals(alloc, rest)?;
    let (body, rest) = read_assigns(alloc, rest, room)?;
    let (answer, rest) = read_answer(alloc, rest, room)?;
    let program = CProgram {
        states,
        globals,
        locals,
        body,
        answer,
    };
    Ok((program, rest))
}

/// The declarations of states. The errors of this reader and of those below are the first fault of the tokens, and
/// out of memory.
pub fn read_states<'a>(
    alloc: Global,
    tokens: &'a [Token<'a>],
) -> Result<(Vec<State>, &'a [Token<'a>]), ReadError>
    ensures { FindsKinds (λ v. map state_of v.items) result (loop state_step (map kind_in tokens.now)) }
{
    let (mut states, mut rest) = nothing_read(alloc, tokens);
    'states: while let Some(behind) = past(Kind::Static, rest) {
        let (state, behind) = read_state(alloc, behind)?;
        states.push(state)?;
        rest = behind;
    }
    Ok((states, rest))
}

// A state, after its `static`.
fn read_state<'a>(
    alloc: Global,
    tokens: &'a [Token<'a>],
) -> Result<(State, &'a [Token<'a>]), ReadError>
    ensures { FindsKinds state_of result (state_behind (map kind_in tokens.now)) }
{
    let rest = after(Kind::Int, tokens)?;
    let (name, rest) = read_own_name(alloc, rest)?;
    let rest = after(Kind::Equals, rest)?;
    let (init, rest) = read_bit(rest)?;
    let rest = after(Kind::Semicolon, rest)?;
    Ok((State { name, init }, rest))
}

/// The declarations of globals, and the head of `react` up to its name.
pub fn read_globals<'a>(
    alloc: Global,
    tokens: &'a [Token<'a>],
) -> Result<(Vec<Text>, &'a [Token<'a>]), ReadError>
    ensures { FindsKinds (λ v. v.items) result (loop global_step (map kind_in tokens.now)) }
{
    let (mut globals, mut rest) = nothing_read(alloc, tokens);
    'globals: while let Some(behind) = past(Kind::Int, rest) {
        if let Some(behind) = past(Kind::React, behind) {
            return Ok((globals, behind));
        }
        let (name, behind) = read_global(alloc, behind)?;
        globals.push(name)?;
        rest = behind;
    }
    Err(refused_here(rest))
}

// A global, after its `int`.
fn read_global<'a>(
    alloc: Global,
    tokens: &'a [Token<'a>],
) -> Result<(Text, &'a [Token<'a>]), ReadError>
    ensures { FindsKinds (λ name. name) result (global_behind (map kind_in tokens.now)) }
{
    let (name, rest) = read_global_name(alloc, tokens)?;
    let rest = after(Kind::Semicolon, rest)?;
    Ok((name, rest))
}

/// The declarations of locals.
pub fn read_locals<'a>(
    alloc: Global,
    tokens: &'a [Token<'a>],
) -> Result<(Vec<Text>, &'a [Token<'a>]), ReadError>
    ensures { FindsKinds (λ v. v.items) result (loop local_step (map kind_in tokens.now)) }
{
    let (mut locals, mut rest) = nothing_read(alloc, tokens);
    'locals: while let Some(behind) = past(Kind::Int, rest) {
        let (name, behind) = read_local(alloc, behind)?;
        locals.push(name)?;
        rest = behind;
    }
    Ok((locals, rest))
}

// A local, after its `int`.
fn read_local<'a>(
    alloc: Global,
    tokens: &'a [Token<'a>],
) -> Result<(Text, &'a [Token<'a>]), ReadError>
    ensures { FindsKinds (λ name. name) result (local_behind (map kind_in tokens.now)) }
{
    let (name, rest) = read_own_name(alloc, tokens)?;
    let rest = after(Kind::Semicolon, rest)?;
    Ok((name, rest))
}

/// The assignments.
pub fn read_assigns<'a>(
    alloc: Global,
    tokens: &'a [Token<'a>],
    room: u32,
) -> Result<(Vec<Assign>, &'a [Token<'a>]), ReadError>
    ensures { FindsKinds (λ v. map pair_of v.items) result
        (loop (assign_step makes_expr room) (map kind_in tokens.now)) }
{
    let (mut body, mut rest) = nothing_read(alloc, tokens);
    'assigns: while let Some((name, behind)) = past_name(rest) {
        let (assign, behind) = read_assign(alloc, name, behind, room)?;
        body.push(assign)?;
        rest = behind;
    }
    Ok((body, rest))
}

/// An assignment, after its name.
pub fn read_assign<'a>(
    alloc: Global,
    name: &[u8],
    tokens: &'a [Token<'a>],
    room: u32,
) -> Result<(Assign, &'a [Token<'a>]), ReadError>
    ensures { FindsKinds pair_of result
        (mapped (λ value. (name.now, value)) (assign_behind makes_expr room) (map kind_in tokens.now)) }
{
    let rest = after(Kind::Equals, tokens)?;
    let (value, rest) = read_expr(alloc, rest, room)?;
    let rest = after(Kind::Semicolon, rest)?;
    let to = copy_of(alloc, name)?;
    Ok((Assign { to, value }, rest))
}

/// The expression that is returned, and the end of the text.
pub fn read_answer<'a>(
    alloc: Global,
    tokens: &'a [Token<'a>],
    room: u32,
) -> Result<(Expr, &'a [Token<'a>]), ReadError>
    ensures { FindsKinds expr_of result (answer_rule makes_expr room (map kind_in tokens.now)) }
{
    let rest = after(Kind::Return, tokens)?;
    let (answer, rest) = read_expr(alloc, rest, room)?;
    let rest = after(Kind::Semicolon, rest)?;
    let rest = after(Kind::RightBrace, rest)?;
    Ok((answer, rest))
}
