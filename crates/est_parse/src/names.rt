// The reader of names and of renamings.

ghost use Rattle.std.specs.Prelude.{◌≡◌};
ghost use Rattle.est_ast.specs.declared.tokens.Mark.TheVariants as marks;
ghost use Rattle.est_parse.specs.Reading.{listed, rename, renames};
ghost use Rattle.base_reader.specs.Found.{Finds};
ghost use Rattle.base_reader.specs.Readings.{the};
ghost use Rattle.est_ast.specs.Grammar.{name};

use crate::signs::{after_mark, after_word, past_mark, read_name};
use base_reader::ReadError;
use est_ast::{Mark, Name, Rename, Reserved, Token};
use std::alloc::Global;

// One name or more, with the mark between them.
pub fn read_names(
    alloc: Global,
    separator: Mark,
    tokens: &[Token],
) -> Result<(Vec<Name>, &[Token]), ReadError>
    ensures { Finds (λ found. found.items) result (listed separator (the name) tokens.now) }
{
    let (first, mut rest) = read_name(alloc, tokens)?;
    let mut found = Vec::new(alloc);
    found.push(first)?;
    while let Some(behind) = past_mark(separator, rest) {
        let (name, behind) = read_name(alloc, behind)?;
        found.push(name)?;
        rest = behind;
    }
    Ok((found, rest))
}

// The renamings of `run` in their brackets, where those stand next.
pub fn read_renames(alloc: Global, tokens: &[Token]) -> Result<(Vec<Rename>, &[Token]), ReadError>
    ensures { Finds (λ found. found.items) result (renames tokens.now) }
{
    let Some(rest) = past_mark(Mark::LeftBracket, tokens) else {
        return Ok((Vec::new(alloc), tokens));
    };
    let rest = after_word(Reserved::Signal, rest)?;
    let (found, rest) = read_rename_list(alloc, rest)?;
    let rest = after_mark(Mark::RightBracket, rest)?;
    Ok((found, rest))
}

// One renaming or more, with `,` between them.
fn read_rename_list(alloc: Global, tokens: &[Token]) -> Result<(Vec<Rename>, &[Token]), ReadError>
    ensures { Finds (λ found. found.items) result (listed marks.Comma rename tokens.now) }
{
    let (first, mut rest) = read_rename(alloc, tokens)?;
    let mut found = Vec::new(alloc);
    found.push(first)?;
    while let Some(behind) = past_mark(Mark::Comma, rest) {
        let (rename, behind) = read_rename(alloc, behind)?;
        found.push(rename)?;
        rest = behind;
    }
    Ok((found, rest))
}

// The name here, `/`, and the name in the module.
fn read_rename(alloc: Global, tokens: &[Token]) -> Result<(Rename, &[Token]), ReadError>
    ensures { Finds (λ found. found) result (rename tokens.now) }
{
    let (actual, rest) = read_name(alloc, tokens)?;
    let rest = after_mark(Mark::Slash, rest)?;
    let (formal, rest) = read_name(alloc, rest)?;
    Ok((Rename { actual, formal }, rest))
}
