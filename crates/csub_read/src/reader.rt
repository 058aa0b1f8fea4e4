// From a text to the program that it describes.

ghost use Rattle.std.specs.Prelude.{◌≡◌, ◌≤◌, length, map, None, IfOk};
ghost use Rattle.base_types.specs.Stops.{IfFault};
ghost use Rattle.csub_text.specs.Names.{name_fault};
ghost use Rattle.csub_text.specs.Views.{program_of};
ghost use Rattle.csub_read.specs.Faults.{ReadsAs, ReadsFault};
ghost use Rattle.csub_read.specs.Reading.{GivesKinds, parts_in, makes_expr, text_rule};
ghost use Rattle.csub_read.specs.Steps.{SyntaxFault, Spells};
ghost use Rattle.csub_read.specs.Tokens.{kind_in};
ghost use Rattle.base_reader.specs.Readings.{whole};

use crate::names::check_names;
use crate::refusal::CFault;
use crate::text::read_text;
use crate::tokens::Token;
use base_reader::{ReadError, ended};
use base_types::{Limits, Stop};
use csub_text::CProgram;
use net_expressions::{lex, place_at};
use std::alloc::Global;

// How deeply `!` and `(` may be nested.
const NESTING: u32 = 200;

/// The program that a text of the C subset describes, or the first of its faults in this order:
///
/// 1. the text is too long
/// 2. the first token that no text of the subset has there
/// 3. the first name that is declared a second time
/// 4. the first name that is used and not declared, or that is an input and assigned
/// 5. the first local that is read before it is assigned
///
/// A name to the left of `=` comes before those to the right of it.
///
/// Time and memory are linear in the length of the text. The recursion is only as deep as brackets and `!` are nested.
///
/// Example: `int I_A; int O_O; int react(void) { O_O = I_A; return 0; }` is a program whose output is its input.
pub fn read_c(alloc: Global, text: &[u8]) -> Result<CProgram, Stop<CFault>>
    ensures reads { IfOk result (λ p. ReadsAs text.now (program_of p)) }
    ensures keeps_names { IfOk result (λ p. name_fault (program_of p) ≡ None) }
    ensures refuses { IfFault result (ReadsFault text.now) }
{
    if Limits::TEXT_BYTES < text.len() as u64 {
        return Err(Stop::Fault(CFault::TooLong));
    }
    let program = read_tokens(alloc, text)?;
    check_names(alloc, &program)?;
    Ok(program)
}

// The program that the tokens of a text spell.
fn read_tokens(alloc: Global, text: &[u8]) -> Result<CProgram, Stop<CFault>>
    requires { length text.now ≤ Limits.TEXT_BYTES }
    ensures spells { IfOk result (λ p. Spells text.now (program_of p)) }
    ensures fault { IfFault result (SyntaxFault text.now) }
{
    let tokens = lex(alloc, text)?;
    match read_whole(alloc, tokens.as_slice(), NESTING) {
        Ok(program) => Ok(program),
        Err(ReadError::Fault(fault)) => {
            let at = place_at(text, tokens.as_slice(), fault);
            Err(Stop::Fault(CFault::Syntax(at)))
        }
        Err(ReadError::NoMemory) => Err(Stop::NoMemory),
    }
}

// The program that the tokens spell, with nothing after it.
fn read_whole(alloc: Global, tokens: &[Token<'_>], room: u32) -> Result<CProgram, ReadError>
    ensures { GivesKinds parts_in result (whole (text_rule makes_expr room) (map kind_in tokens.now)) }
{
    let (program, rest) = read_text(alloc, tokens, room)?;
    Ok(ended(program, rest)?)
}
