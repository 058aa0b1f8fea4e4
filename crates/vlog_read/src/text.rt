// The reader of ports, declarations, assignments and whole texts.

ghost use Rattle.std.specs.Prelude.{map};
ghost use Rattle.net_expressions.specs.Reading.{makes_expr};
ghost use Rattle.base_reader.specs.Readings.{mapped, loop};
ghost use Rattle.vlog_read.specs.Lexed.{kind_in, plain_sort};
ghost use Rattle.vlog_read.specs.Reading.{FindsKinds, ports_rule, head_rule, declaration_behind, declaration_step};
ghost use Rattle.vlog_read.specs.Reading.{initial_behind, initial_step, assign_behind, assign_step, clock_rule};
ghost use Rattle.vlog_read.specs.Reading.{next_behind, next_step, clocked_rule, text_rule};
ghost use Rattle.vlog_read.specs.Sources.{declaration_of, initial_of, next_of, head_of, clocked_of, plain_source};
ghost use Rattle.vlog_text.specs.Views.{assign_of};

use crate::signs::{past_sort, read_name};
use crate::sources::{Clocked, Declaration, Head, Initial, Next, Sort, Source};
use crate::tokens::{Kind, Token};
use base_reader::ReadError;
use net_expressions::{after, copy_of, nothing_read, past, past_name, read_bit, read_expr};
use std::alloc::Global;
use vlog_text::Assign;

// What a text says, and the tokens after it.
pub fn read_text<'a>(
    alloc: Global,
    tokens: &'a [Token<'a>],
    room: u32,
) -> Result<(Source<'a>, &'a [Token<'a>]), ReadError>
    ensures { FindsKinds plain_source result (text_rule makes_expr room (map kind_in tokens.now)) }
{
    let (head, rest) = read_head(alloc, tokens)?;
    let (declarations, rest) = read_declarations(alloc, rest)?;
    let (initials, rest) = read_initials(alloc, rest)?;
    let (assigns, rest) = read_assigns(alloc, rest, room)?;
    let (clocked, rest) = read_clocked(alloc, rest)?;
    let source = Source {
        head,
        declarations,
        initials,
        assigns,
        clocked,
    };
    Ok((source, rest))
}

// The name of the module, and its ports.
fn read_head<'a>(
    alloc: Global,
    tokens: &'a [Token<'a>],
) -> Result<(Head<'a>, &'a [Token<'a>]), ReadError>
    ensures { FindsKinds head_of result (head_rule (map kind_in tokens.now)) }
{
    let rest = after(Kind::ModuleWord, tokens)?;
    let (name, rest) = read_name(rest)?;
    let rest = after(Kind::LeftParenthesis, rest)?;
    let (ports, rest) = read_ports(alloc, rest)?;
    let rest = after(Kind::RightParenthesis, rest)?;
    let rest = after(Kind::Semicolon, rest)?;
    Ok((Head { name, ports }, rest))
}

// Names with commas between them.
fn read_ports<'a>(
    alloc: Global,
    tokens: &'a [Token<'a>],
) -> Result<(Vec<&'a [u8]>, &'a [Token<'a>]), ReadError>
    ensures { FindsKinds (λ v. map (λ w. w.now) v.items) result (ports_rule (map kind_in tokens.now)) }
{
    let (first, mut rest) = read_name(tokens)?;
    let mut ports = Vec::new(alloc);
    ports.push(first)?;
    'ports: while let Some(behind) = past(Kind::Comma, rest) {
        let (port, behind) = read_name(behind)?;
        ports.push(port)?;
        rest = behind;
    }
    Ok((ports, rest))
}

// The declarations.
fn read_declarations<'a>(
    alloc: Global,
    tokens: &'a [Token<'a>],
) -> Result<(Vec<Declaration<'a>>, &'a [Token<'a>]), ReadError>
    ensures { FindsKinds (λ v. map declaration_of v.items) result (loop declaration_step (map kind_in tokens.now)) }
{
    let (mut declarations, mut rest) = nothing_read(alloc, tokens);
    'declarations: while let Some((sort, behind)) = past_sort(rest) {
        let (declaration, behind) = read_declaration(sort, behind)?;
        declarations.push(declaration)?;
        rest = behind;
    }
    Ok((declarations, rest))
}

// A declaration, after its first word.
fn read_declaration<'a>(
    sort: Sort,
    tokens: &'a [Token<'a>],
) -> Result<(Declaration<'a>, &'a [Token<'a>]), ReadError>
    ensures { FindsKinds declaration_of result
        (mapped (λ name. record { sort = plain_sort sort; name = name }) declaration_behind
        (map kind_in tokens.now)) }
{
    let (name, rest) = read_name(tokens)?;
    let rest = after(Kind::Semicolon, rest)?;
    Ok((Declaration { sort, name }, rest))
}

// The first values of regs.
fn read_initials<'a>(
    alloc: Global,
    tokens: &'a [Token<'a>],
) -> Result<(Vec<Initial<'a>>, &'a [Token<'a>]), ReadError>
    ensures { FindsKinds (λ v. map initial_of v.items) result (loop initial_step (map kind_in tokens.now)) }
{
    let (mut initials, mut rest) = nothing_read(alloc, tokens);
    'initials: while let Some(behind) = past(Kind::InitialWord, rest) {
        let (initial, behind) = read_initial(behind)?;
        initials.push(initial)?;
        rest = behind;
    }
    Ok((initials, rest))
}

// The first value of a reg, after `initial`.
fn read_initial<'a>(tokens: &'a [Token<'a>]) -> Result<(Initial<'a>, &'a [Token<'a>]), ReadError>
    ensures { FindsKinds initial_of result (initial_behind (map kind_in tokens.now)) }
{
    let (name, rest) = read_name(tokens)?;
    let rest = after(Kind::Equals, rest)?;
    let (value, rest) = read_bit(rest)?;
    let rest = after(Kind::Semicolon, rest)?;
    Ok((Initial { name, value }, rest))
}

// The assignments.
fn read_assigns<'a>(
    alloc: Global,
    tokens: &'a [Token<'a>],
    room: u32,
) -> Result<(Vec<Assign>, &'a [Token<'a>]), ReadError>
    ensures { FindsKinds (λ v. map assign_of v.items) result
        (loop (assign_step makes_expr room) (map kind_in tokens.now)) }
{
    let (mut assigns, mut rest) = nothing_read(alloc, tokens);
    'assigns: while let Some(behind) = past(Kind::AssignWord, rest) {
        let (assign, behind) = read_assign(alloc, behind, room)?;
        assigns.push(assign)?;
        rest = behind;
    }
    Ok((assigns, rest))
}

// An assignment, after `assign`.
fn read_assign<'a>(
    alloc: Global,
    tokens: &'a [Token<'a>],
    room: u32,
) -> Result<(Assign, &'a [Token<'a>]), ReadError>
    ensures { FindsKinds assign_of result (assign_behind makes_expr room (map kind_in tokens.now)) }
{
    let (name, rest) = read_name(tokens)?;
    let rest = after(Kind::Equals, rest)?;
    let (value, rest) = read_expr(alloc, rest, room)?;
    let rest = after(Kind::Semicolon, rest)?;
    let to = copy_of(alloc, name)?;
    Ok((Assign { to, value }, rest))
}

// What stands from `always` to the end of the text.
fn read_clocked<'a>(
    alloc: Global,
    tokens: &'a [Token<'a>],
) -> Result<(Clocked<'a>, &'a [Token<'a>]), ReadError>
    ensures { FindsKinds clocked_of result (clocked_rule (map kind_in tokens.now)) }
{
    let (clock, rest) = read_clock(tokens)?;
    let (nexts, rest) = read_nexts(alloc, rest)?;
    let rest = after(Kind::EndWord, rest)?;
    let rest = after(Kind::EndmoduleWord, rest)?;
    Ok((Clocked { clock, nexts }, rest))
}

// The name of the clock, from `always` to `begin`.
fn read_clock<'a>(tokens: &'a [Token<'a>]) -> Result<(&'a [u8], &'a [Token<'a>]), ReadError>
    ensures { FindsKinds (λ n. n.now) result (clock_rule (map kind_in tokens.now)) }
{
    let rest = after(Kind::AlwaysWord, tokens)?;
    let rest = after(Kind::At, rest)?;
    let rest = after(Kind::LeftParenthesis, rest)?;
    let rest = after(Kind::PosedgeWord, rest)?;
    let (clock, rest) = read_name(rest)?;
    let rest = after(Kind::RightParenthesis, rest)?;
    let rest = after(Kind::BeginWord, rest)?;
    Ok((clock, rest))
}

// The registers.
fn read_nexts<'a>(
    alloc: Global,
    tokens: &'a [Token<'a>],
) -> Result<(Vec<Next<'a>>, &'a [Token<'a>]), ReadError>
    ensures { FindsKinds (λ v. map next_of v.items) result (loop next_step (map kind_in tokens.now)) }
{
    let (mut nexts, mut rest) = nothing_read(alloc, tokens);
    'nexts: while let Some((target, behind)) = past_name(rest) {
        let (next, behind) = read_next(target, behind)?;
        nexts.push(next)?;
        rest = behind;
    }
    Ok((nexts, rest))
}

// A register, after its name.
fn read_next<'a>(
    target: &'a [u8],
    tokens: &'a [Token<'a>],
) -> Result<(Next<'a>, &'a [Token<'a>]), ReadError>
    ensures { FindsKinds next_of result
        (mapped (λ source. record { target = target.now; source = source }) next_behind (map kind_in tokens.now)) }
{
    let rest = after(Kind::Becomes, tokens)?;
    let (source, rest) = read_name(rest)?;
    let rest = after(Kind::Semicolon, rest)?;
    Ok((Next { target, source }, rest))
}
