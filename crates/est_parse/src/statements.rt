// The reader of statements.

ghost use Rattle.std.specs.Prelude.{◌≡◌, ◌<◌, map, vec_len};
ghost use Rattle.std.specs.Option.{option_map};
ghost use Rattle.est_ast.specs.declared.tokens.Reserved.TheVariants as words;
ghost use Rattle.est_ast.specs.Grammar.{word};
ghost use Rattle.est_ast.specs.Trees.{Seq, Par, cases};
ghost use Rattle.est_ast.specs.Views.{delay_of, form_of, stmt_of, boxed, part_of, handle_of, case_of};
ghost use Rattle.est_parse.specs.Heads.{head_of};
ghost use Rattle.est_parse.specs.Parts.{stmt_list, present_of, WeakHead, SuspendHead};
ghost use Rattle.est_parse.specs.Reading.{part, case_behind, case_list, choice, do_part, ends, loop_tail, handler};
ghost use Rattle.est_parse.specs.Reading.{flat_behind, head, closing, blocked, event, form, item, line, rules};
ghost use Rattle.est_parse.specs.Reading.{statement};
ghost use Rattle.est_parse.specs.Reading.{tail as tail_rule, inside as inner};
ghost use Rattle.est_parse.specs.Tails.{tail_of};
ghost use Rattle.base_reader.specs.Found.{Finds};
ghost use Rattle.base_reader.specs.Readings.{both, mapped, on, trail};

use crate::expressions::{read_count, read_delay, read_expr, read_test};
use crate::heads::{Head, read_head};
use crate::names::read_renames;
use crate::openings::{Block, Flat, Opening, is_item_next, past_opening};
use crate::signs::{after_end, after_mark, after_word, past_mark, past_word, place_of, read_name};
use crate::tails::{Tail, abort_on, await_from, present_of_cases};
use base_reader::{ReadError, inside, refused};
use base_types::Span;
use est_ast::{Case, Delay, Form, Handle, Mark, Reserved, Stmt, Token};
use std::alloc::Global;

// A statement: lines with `||` between them.
#[cycle(statements)]
fn read_statement(alloc: Global, tokens: &[Token], room: u32) -> Result<(Stmt, &[Token]), ReadError>
    ensures { Finds stmt_of result (statement room tokens.now) }
{
    let (first, mut rest) = read_line(alloc, tokens, room)?;
    let mut parts = Vec::new(alloc);
    parts.push(first)?;
    while let Some(behind) = past_mark(Mark::DoubleBar, rest) {
        let (part, behind) = read_line(alloc, behind, room)?;
        parts.push(part)?;
        rest = behind;
    }
    let span = place_of(tokens, rest);
    Ok((in_parallel(parts, span), rest))
}

// A line: items with `;` between them, and maybe a last one.
#[cycle(statements)]
fn read_line(alloc: Global, tokens: &[Token], room: u32) -> Result<(Stmt, &[Token]), ReadError>
    ensures { Finds stmt_of result (line room (inner room) tokens.now) }
{
    let (first, mut rest) = read_item(alloc, tokens, room)?;
    let mut parts = Vec::new(alloc);
    parts.push(first)?;
    while let Some(behind) = past_mark(Mark::Semicolon, rest) {
        if !is_item_next(behind) {
            let span = place_of(tokens, behind);
            return Ok((in_sequence(parts, span), behind));
        }
        let (part, behind) = read_item(alloc, behind, room)?;
        parts.push(part)?;
        rest = behind;
    }
    let span = place_of(tokens, rest);
    Ok((in_sequence(parts, span), rest))
}

// The parts with `||` between them, of which there is one at least. One part alone makes no node.
fn in_parallel(mut parts: Vec<Stmt>, span: Span) -> Stmt
    requires { 0 < vec_len parts }
    ensures { stmt_of result ≡ stmt_list Par (map stmt_of parts.items) span }
{
    if parts.len() > 1 {
        let form = Form::Par(parts);
        return Stmt { span, form };
    }
    parts.pop().unwrap()
}

// The parts with `;` between them, of which there is one at least. One part alone makes no node.
fn in_sequence(mut parts: Vec<Stmt>, span: Span) -> Stmt
    requires { 0 < vec_len parts }
    ensures { stmt_of result ≡ stmt_list Seq (map stmt_of parts.items) span }
{
    if parts.len() > 1 {
        let form = Form::Seq(parts);
        return Stmt { span, form };
    }
    parts.pop().unwrap()
}

// An item with its place.
#[cycle(statements)]
fn read_item(alloc: Global, tokens: &[Token], room: u32) -> Result<(Stmt, &[Token]), ReadError>
    ensures { Finds stmt_of result (item room (inner room) tokens.now) }
{
    let (form, rest) = read_form(alloc, tokens, room)?;
    let span = place_of(tokens, rest);
    Ok((Stmt { span, form }, rest))
}

// What an item is, by the token that begins it.
#[cycle(statements)]
fn read_form(alloc: Global, tokens: &[Token], room: u32) -> Result<(Form, &[Token]), ReadError>
    ensures { Finds form_of result (form room (inner room) tokens.now) }
{
    let Some((opening, rest)) = past_opening(tokens) else {
        return Err(ReadError::Fault(refused(tokens)));
    };
    match opening {
        Opening::Flat(flat) => read_flat(alloc, flat, rest),
        Opening::Await => {
            let room = inside(room, tokens)?;
            await_from(read_tail(alloc, Reserved::Await, rest, room))
        }
        Opening::Present => {
            let room = inside(room, tokens)?;
            read_present(alloc, rest, room)
        }
        Opening::Block(block) => {
            let room = inside(room, tokens)?;
            read_block(alloc, block, rest, room)
        }
    }
}

// What comes after the token of an item without a statement in it.
fn read_flat(alloc: Global, flat: Flat, tokens: &[Token]) -> Result<(Form, &[Token]), ReadError>
    ensures { Finds form_of result (flat_behind flat tokens.now) }
{
    match flat {
        Flat::Nothing => Ok((Form::Nothing, tokens)),
        Flat::Pause => Ok((Form::Pause, tokens)),
        Flat::Halt => Ok((Form::Halt, tokens)),
        Flat::Emit => {
            let (name, rest) = read_name(alloc, tokens)?;
            Ok((Form::Emit(name), rest))
        }
        Flat::Sustain => {
            let (name, rest) = read_name(alloc, tokens)?;
            Ok((Form::Sustain(name), rest))
        }
        Flat::Exit => {
            let (name, rest) = read_name(alloc, tokens)?;
            Ok((Form::Exit(name), rest))
        }
        Flat::Run => {
            let (name, rest) = read_name(alloc, tokens)?;
            let (renames, rest) = read_renames(alloc, rest)?;
            Ok((Form::Run(name, renames), rest))
        }
    }
}

// What comes after the token of an item with a statement in it.
#[cycle(statements)]
fn read_block(
    alloc: Global,
    block: Block,
    tokens: &[Token],
    room: u32,
) -> Result<(Form, &[Token]), ReadError>
    ensures { Finds form_of result (blocked (rules room) (head block (event room)) tokens.now) }
{
    let (head, rest) = read_head(alloc, block, tokens, room)?;
    let (body, rest) = read_boxed(alloc, rest, room)?;
    read_closing(alloc, head, body, rest, room)
}

// A statement in a box.
#[cycle(statements)]
pub fn read_boxed(
    alloc: Global,
    tokens: &[Token],
    room: u32,
) -> Result<(Box<Stmt>, &[Token]), ReadError>
    ensures { Finds boxed result (statement room tokens.now) }
{
    let (body, rest) = read_statement(alloc, tokens, room)?;
    Ok((Box::new(alloc, body)?, rest))
}

// What comes after the statement of an item.
#[cycle(statements)]
fn read_closing(
    alloc: Global,
    head: Head,
    body: Box<Stmt>,
    tokens: &[Token],
    room: u32,
) -> Result<(Form, &[Token]), ReadError>
    ensures { Finds form_of result (closing (rules room) (head_of head) (boxed body) tokens.now) }
{
    match head {
        Head::Loop => {
            let (delay, rest) = read_loop_tail(alloc, tokens, room)?;
            match delay {
                None => Ok((Form::Loop(body), rest)),
                Some(delay) => Ok((Form::LoopEach(body, delay), rest)),
            }
        }
        Head::Abort => {
            let (tail, rest) = read_abort_tail(alloc, tokens, room)?;
            Ok((abort_on(body, tail), rest))
        }
        Head::Weak => read_weak_closing(alloc, body, tokens, room),
        Head::Suspend => read_suspend_closing(alloc, body, tokens, room),
        Head::Trap(name) => {
            let (handle, rest) = read_trap_end(alloc, tokens, room)?;
            Ok((Form::Trap(name, body, handle), rest))
        }
        Head::Group => {
            let rest = after_mark(Mark::RightBracket, tokens)?;
            Ok((Form::Group(body), rest))
        }
        Head::Every(delay) => {
            let (_, rest) = after_end(Reserved::Every, tokens)?;
            Ok((Form::Every(delay, body), rest))
        }
        Head::Repeat(count, span) => {
            let (_, rest) = after_end(Reserved::Repeat, tokens)?;
            Ok((Form::Repeat(count, span, body), rest))
        }
        Head::Signal(names) => {
            let (_, rest) = after_end(Reserved::Signal, tokens)?;
            Ok((Form::Signal(names, body), rest))
        }
    }
}

// `when`, and what is waited for in an abortion.
#[cycle(statements)]
fn read_abort_tail(
    alloc: Global,
    tokens: &[Token],
    room: u32,
) -> Result<(Tail, &[Token]), ReadError>
    ensures { Finds tail_of result (on (word words.When) (λ _. tail_rule words.Abort (rules room)) tokens.now) }
{
    let rest = after_word(Reserved::When, tokens)?;
    read_tail(alloc, Reserved::Abort, rest, room)
}

// Maybe a handler, and the end of a trap.
#[cycle(statements)]
fn read_trap_end(
    alloc: Global,
    tokens: &[Token],
    room: u32,
) -> Result<(Option<Handle>, &[Token]), ReadError>
    ensures { Finds handle_of result (trail (handler (rules room)) (ends words.Trap) tokens.now) }
{
    let (handle, rest) = read_handle(alloc, tokens, room)?;
    let (_, rest) = after_end(Reserved::Trap, rest)?;
    Ok((handle, rest))
}

// `when` and a delay, after the statement of a weak abortion.
fn read_weak_closing(
    alloc: Global,
    body: Box<Stmt>,
    tokens: &[Token],
    room: u32,
) -> Result<(Form, &[Token]), ReadError>
    ensures { Finds form_of result (closing (rules room) WeakHead (boxed body) tokens.now) }
{
    let rest = after_word(Reserved::When, tokens)?;
    let (delay, rest) = read_delay(alloc, rest, room)?;
    Ok((Form::WeakAbort(body, delay), rest))
}

// `when` and a test, after the statement of a suspension.
fn read_suspend_closing(
    alloc: Global,
    body: Box<Stmt>,
    tokens: &[Token],
    room: u32,
) -> Result<(Form, &[Token]), ReadError>
    ensures { Finds form_of result (closing (rules room) SuspendHead (boxed body) tokens.now) }
{
    let rest = after_word(Reserved::When, tokens)?;
    let (delay, rest) = read_test(alloc, rest, room)?;
    Ok((Form::Suspend(body, delay), rest))
}

// `each` and a delay, or `end` and maybe `loop`.
fn read_loop_tail(
    alloc: Global,
    tokens: &[Token],
    room: u32,
) -> Result<(Option<Delay>, &[Token]), ReadError>
    ensures { Finds (λ found. option_map delay_of found) result (loop_tail (rules room) tokens.now) }
{
    if let Some(behind) = past_word(Reserved::Each, tokens) {
        let (delay, rest) = read_count(alloc, behind, room)?;
        return Ok((Some(delay), rest));
    }
    let (_, rest) = after_end(Reserved::Loop, tokens)?;
    Ok((None, rest))
}

// What comes after `present`.
#[cycle(statements)]
fn read_present(alloc: Global, tokens: &[Token], room: u32) -> Result<(Form, &[Token]), ReadError>
    ensures { Finds form_of result (mapped present_of (choice (rules room)) tokens.now) }
{
    if let Some(_) = past_word(Reserved::Case, tokens) {
        let (cases, rest) = read_cases(alloc, tokens, room)?;
        let (other, rest) = read_other(alloc, rest, room)?;
        return Ok((present_of_cases(cases, other), rest));
    }
    let (test, rest) = read_expr(alloc, tokens, room)?;
    let ((then, other), rest) = read_branches(alloc, rest, room)?;
    Ok((Form::Present(test, then, other), rest))
}

// The two parts of a test, each of which may be left out, and the end.
#[cycle(statements)]
fn read_branches(
    alloc: Global,
    tokens: &[Token],
    room: u32,
) -> Result<((Option<Box<Stmt>>, Option<Box<Stmt>>), &[Token]), ReadError>
    ensures { Finds (λ found. (part_of found.0, part_of found.1)) result
        (both (part words.Then (statement room)) (trail (part words.Else (statement room)) (ends words.Present))
        tokens.now) }
{
    let (then, rest) = read_part(alloc, Reserved::Then, tokens, room)?;
    let (other, rest) = read_other(alloc, rest, room)?;
    Ok(((then, other), rest))
}

// The part after `else`, where that word stands next, and the end.
#[cycle(statements)]
fn read_other(
    alloc: Global,
    tokens: &[Token],
    room: u32,
) -> Result<(Option<Box<Stmt>>, &[Token]), ReadError>
    ensures { Finds part_of result (trail (part words.Else (statement room)) (ends words.Present) tokens.now) }
{
    let (other, rest) = read_part(alloc, Reserved::Else, tokens, room)?;
    let (_, rest) = after_end(Reserved::Present, rest)?;
    Ok((other, rest))
}

// `handle` and what comes after it, where that word stands next.
#[cycle(statements)]
fn read_handle(
    alloc: Global,
    tokens: &[Token],
    room: u32,
) -> Result<(Option<Handle>, &[Token]), ReadError>
    ensures { Finds handle_of result (handler (rules room) tokens.now) }
{
    let Some(rest) = past_word(Reserved::Handle, tokens) else {
        return Ok((None, tokens));
    };
    let (name, rest) = read_name(alloc, rest)?;
    let rest = after_word(Reserved::Do, rest)?;
    let (body, rest) = read_boxed(alloc, rest, room)?;
    Ok((Some(Handle { name, body }), rest))
}

// What is waited for in a statement that begins with the word: cases up to `end`, or a delay and
// maybe a part after `do`.
#[cycle(statements)]
fn read_tail(
    alloc: Global,
    word: Reserved,
    tokens: &[Token],
    room: u32,
) -> Result<(Tail, &[Token]), ReadError>
    ensures { Finds tail_of result (tail_rule word (rules room) tokens.now) }
{
    if let Some(_) = past_word(Reserved::Case, tokens) {
        let (cases, rest) = read_cases(alloc, tokens, room)?;
        let (_, rest) = after_end(word, rest)?;
        return Ok((Tail::Cases(cases), rest));
    }
    let (delay, rest) = read_delay(alloc, tokens, room)?;
    let (body, rest) = read_do_part(alloc, word, rest, room)?;
    Ok((Tail::Delay(delay, body), rest))
}

// A statement after `do` and the end of what the word begins, where `do` stands next.
#[cycle(statements)]
fn read_do_part(
    alloc: Global,
    word: Reserved,
    tokens: &[Token],
    room: u32,
) -> Result<(Option<Box<Stmt>>, &[Token]), ReadError>
    ensures { Finds part_of result (do_part word (statement room) tokens.now) }
{
    let Some(behind) = past_word(Reserved::Do, tokens) else {
        return Ok((None, tokens));
    };
    let (body, rest) = read_boxed(alloc, behind, room)?;
    let (_, rest) = after_end(word, rest)?;
    Ok((Some(body), rest))
}

// One case or more.
#[cycle(statements)]
fn read_cases(
    alloc: Global,
    tokens: &[Token],
    room: u32,
) -> Result<(Vec<Case>, &[Token]), ReadError>
    ensures { Finds (λ found. cases (map case_of found.items)) result (case_list (rules room) tokens.now) }
{
    let rest = after_word(Reserved::Case, tokens)?;
    let (first, mut rest) = read_case(alloc, rest, room)?;
    let mut found = Vec::new(alloc);
    found.push(first)?;
    while let Some(behind) = past_word(Reserved::Case, rest) {
        let (case, behind) = read_case(alloc, behind, room)?;
        found.push(case)?;
        rest = behind;
    }
    Ok((found, rest))
}

// What comes after `case`.
#[cycle(statements)]
fn read_case(alloc: Global, tokens: &[Token], room: u32) -> Result<(Case, &[Token]), ReadError>
    ensures { Finds case_of result (case_behind (rules room) tokens.now) }
{
    let (event, rest) = read_expr(alloc, tokens, room)?;
    let Some(rest) = past_word(Reserved::Do, rest) else {
        let body = None;
        return Ok((Case { event, body }, rest));
    };
    let (body, rest) = read_statement(alloc, rest, room)?;
    let body = Some(body);
    Ok((Case { event, body }, rest))
}

// A statement after the word, where that word stands next.
#[cycle(statements)]
fn read_part(
    alloc: Global,
    word: Reserved,
    tokens: &[Token],
    room: u32,
) -> Result<(Option<Box<Stmt>>, &[Token]), ReadError>
    ensures { Finds part_of result (part word (statement room) tokens.now) }
{
    let Some(rest) = past_word(word, tokens) else {
        return Ok((None, tokens));
    };
    let (body, rest) = read_boxed(alloc, rest, room)?;
    Ok((Some(body), rest))
}
