// The parser.

ghost use Rattle.std.specs.Prelude.{◌<◌, ◌^◌, length, IfOk, IfErr};
ghost use Rattle.est_ast.specs.Nesting.{IsProgram};
ghost use Rattle.est_ast.specs.Views.{program_of};
ghost use Rattle.est_parse.specs.Faults.{IsFirstFault};
ghost use Rattle.base_reader.specs.Exact.{IsOnly};

use crate::modules::read_exactly;
use crate::refusal::{ParseError, refusal_at};
use base_reader::ReadError;
use base_types::Limits;
use est_ast::{Program, Token};
use std::alloc::Global;

/// The program that the tokens spell, if it is nested at most 200 deep: the one such program for
/// which the grammar has exactly these tokens.
///
/// Else `Syntax(t)` or `TooNested(t)`, where t is the least place such that no program of that
/// nesting has tokens that begin with the first t + 1 of these, or the number of tokens where there
/// is no such place. It is `TooNested` exactly where t is below the number of tokens and some
/// program that is nested deeper has tokens that begin so.
///
/// It reads from the left with one token ahead, in time and memory linear in the tokens, and
/// recurses only as deep as the program is nested.
///
/// Example: the tokens of `module M: nothing end module` are a program of one module. Those of `module M: output
/// O; emit` are refused with `Syntax(7)`, because they end too soon.
pub fn parse(alloc: Global, tokens: &[Token]) -> Result<Program, ParseError>
    requires { length tokens.now < 2 ^ 32 }
    ensures program { IfOk result (λ p. IsOnly IsProgram Limits.NESTING tokens.now (program_of p)) }
    ensures fault { IfErr result (IsFirstFault Limits.NESTING tokens.now) }
{
    match read_exactly(alloc, tokens, Limits::NESTING as u32) {
        Ok(program) => Ok(program),
        Err(ReadError::Fault(fault)) => Err(refusal_at(tokens, fault)),
        Err(ReadError::NoMemory) => Err(ParseError::NoMemory),
    }
}
