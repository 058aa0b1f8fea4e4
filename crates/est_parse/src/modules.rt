// The reader of declarations, modules and programs.

ghost use Rattle.std.specs.Prelude.{◌≡◌, ◌∷◌, map, MatchResult};
ghost use Rattle.est_ast.specs.declared.tokens.Mark.TheVariants as marks;
ghost use Rattle.est_ast.specs.Grammar.{name};
ghost use Rattle.est_ast.specs.Views.{relation_of, decl_of, stmt_of, module_of, program_of};
ghost use Rattle.est_parse.specs.Reading.{listed, declared, relation, decl, decl_step, ends_module, module_rule};
ghost use Rattle.est_parse.specs.Reading.{program, statement};
ghost use Rattle.est_ast.specs.Nesting.{IsProgram};
ghost use Rattle.base_reader.specs.Exact.{GivesExactly};
ghost use Rattle.base_reader.specs.Found.{Finds, Gives};
ghost use Rattle.base_reader.specs.Readings.{the, both, trail, loop, whole};
ghost use Rattle.base_reader.specs.declared.faults.ReadError.TheVariants as errors;

use crate::names::read_names;
use crate::openings::{Declaration, past_declaration};
use crate::signs::{after_mark, after_word, past_mark, past_word, read_name};
use crate::statements::read_boxed;
use base_reader::{ReadError, ended, refused};
use est_ast::{Decl, Mark, Module, Name, Program, Relation, Reserved, Stmt, Token};
use std::alloc::Global;

// The one program that the tokens spell, nested at most as deep as there is room, or the least place
// that no such program passes.
pub fn read_exactly(alloc: Global, tokens: &[Token], room: u32) -> Result<Program, ReadError>
    ensures { GivesExactly program_of IsProgram room tokens.now result }
{
    read_whole(alloc, tokens, room)
}

// The program that the tokens spell, with nothing after it.
fn read_whole(alloc: Global, tokens: &[Token], room: u32) -> Result<Program, ReadError>
    ensures { Gives program_of result (whole (program room) tokens.now) }
{
    let (found, rest) = read_program(alloc, tokens, room)?;
    Ok(ended(found, rest)?)
}

// One module or more.
fn read_program(
    alloc: Global,
    tokens: &[Token],
    room: u32,
) -> Result<(Program, &[Token]), ReadError>
    ensures { Finds program_of result (program room tokens.now) }
{
    let (first, mut rest) = read_module(alloc, tokens, room)?;
    let mut modules = Vec::new(alloc);
    modules.push(first)?;
    'modules: while let Some(_) = past_word(Reserved::Module, rest) {
        let (module, behind) = read_module(alloc, rest, room)?;
        modules.push(module)?;
        rest = behind;
    }
    Ok((Program { modules }, rest))
}

// A module.
fn read_module(alloc: Global, tokens: &[Token], room: u32) -> Result<(Module, &[Token]), ReadError>
    ensures { Finds module_of result (module_rule room tokens.now) }
{
    let rest = after_word(Reserved::Module, tokens)?;
    let (name, rest) = read_name(alloc, rest)?;
    let rest = after_mark(Mark::Colon, rest)?;
    let ((decls, body), rest) = read_contents(alloc, rest, room)?;
    Ok((Module { name, decls, body }, rest))
}

// The declarations of a module, its statement, and its end.
fn read_contents(
    alloc: Global,
    tokens: &[Token],
    room: u32,
) -> Result<((Vec<Decl>, Stmt), &[Token]), ReadError>
    ensures { Finds (λ found. (map decl_of found.0.items, stmt_of found.1)) result
        (both (loop (decl_step room)) (trail (statement room) ends_module) tokens.now) }
{
    let (decls, rest) = read_decls(alloc, tokens, room)?;
    let (body, rest) = read_body(alloc, rest, room)?;
    Ok(((decls, body), rest))
}

// The statement of a module, and its end.
fn read_body(alloc: Global, tokens: &[Token], room: u32) -> Result<(Stmt, &[Token]), ReadError>
    ensures { Finds stmt_of result (trail (statement room) ends_module tokens.now) }
{
    let (body, rest) = read_boxed(alloc, tokens, room)?;
    let (_, rest) = module_end(rest)?;
    Ok((Box::into_inner(body), rest))
}

// `end module` or `.`.
fn module_end(tokens: &[Token]) -> Result<((), &[Token]), ReadError>
    ensures { Finds (λ _. tt) result (ends_module tokens.now) }
{
    if let Some(rest) = past_mark(Mark::Period, tokens) {
        return Ok(((), rest));
    }
    let rest = after_word(Reserved::End, tokens)?;
    let rest = after_word(Reserved::Module, rest)?;
    Ok(((), rest))
}

// The declarations of a module.
fn read_decls(
    alloc: Global,
    tokens: &[Token],
    room: u32,
) -> Result<(Vec<Decl>, &[Token]), ReadError>
    ensures { Finds (λ found. map decl_of found.items) result (loop (decl_step room) tokens.now) }
{
    let mut found = Vec::new(alloc);
    let mut rest = tokens;
    'declarations: while let Some(_) = past_declaration(rest) {
        let (decl, behind) = read_decl(alloc, rest, room)?;
        found.push(decl)?;
        rest = behind;
    }
    Ok((found, rest))
}

// A declaration.
fn read_decl(alloc: Global, tokens: &[Token], room: u32) -> Result<(Decl, &[Token]), ReadError>
    ensures { Finds decl_of result (decl room tokens.now) }
{
    let Some((declaration, rest)) = past_declaration(tokens) else {
        return Err(ReadError::Fault(refused(tokens)));
    };
    match declaration {
        Declaration::Input => {
            let (names, rest) = read_declared(alloc, rest)?;
            Ok((Decl::Input(names), rest))
        }
        Declaration::InputOutput => {
            let (names, rest) = read_declared(alloc, rest)?;
            Ok((Decl::InputOutput(names), rest))
        }
        Declaration::Output => {
            let (names, rest) = read_declared(alloc, rest)?;
            Ok((Decl::Output(names), rest))
        }
        Declaration::Relation => {
            let (relations, rest) = read_relations(alloc, rest)?;
            let rest = after_mark(Mark::Semicolon, rest)?;
            Ok((Decl::Relation(relations), rest))
        }
    }
}

// Names with `,` between them, and the `;` that ends them.
fn read_declared(alloc: Global, tokens: &[Token]) -> Result<(Vec<Name>, &[Token]), ReadError>
    ensures { Finds (λ found. found.items) result (declared (the name) tokens.now) }
{
    let (names, rest) = read_names(alloc, Mark::Comma, tokens)?;
    let rest = after_mark(Mark::Semicolon, rest)?;
    Ok((names, rest))
}

// One relation or more, with `,` between them.
fn read_relations(alloc: Global, tokens: &[Token]) -> Result<(Vec<Relation>, &[Token]), ReadError>
    ensures { Finds (λ found. map relation_of found.items) result (listed marks.Comma relation tokens.now) }
{
    let (first, mut rest) = read_relation(alloc, tokens)?;
    let mut found = Vec::new(alloc);
    found.push(first)?;
    while let Some(behind) = past_mark(Mark::Comma, rest) {
        let (relation, behind) = read_relation(alloc, behind)?;
        found.push(relation)?;
        rest = behind;
    }
    Ok((found, rest))
}

// A relation: `A => B`, or names with `#` between them.
fn read_relation(alloc: Global, tokens: &[Token]) -> Result<(Relation, &[Token]), ReadError>
    ensures { Finds relation_of result (relation tokens.now) }
{
    let (first, rest) = read_name(alloc, tokens)?;
    if let Some(behind) = past_mark(Mark::Arrow, rest) {
        let (effect, rest) = read_name(alloc, behind)?;
        return Ok((Relation::Implies(first, effect), rest));
    }
    let rest = after_mark(Mark::Hash, rest)?;
    let (others, rest) = read_names(alloc, Mark::Hash, rest)?;
    let names = before(alloc, first, others)?;
    Ok((Relation::Excludes(names), rest))
}

// The names with this one before them.
fn before(alloc: Global, first: Name, others: Vec<Name>) -> Result<Vec<Name>, ReadError>
    ensures { MatchResult result (λ names. names.items ≡ first ∷ others.items) (λ e. e ≡ errors.NoMemory) }
{
    let mut names = Vec::new(alloc);
    names.push(first)?;
    for name in others {
        names.push(name)?;
    }
    Ok(names)
}
