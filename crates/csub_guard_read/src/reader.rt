// From a text to the program that it describes.

ghost use Rattle.std.specs.Prelude.{◌≡◌, ◌≤◌, length, map, None, IfOk};
ghost use Rattle.base_types.specs.Stops.{IfFault};
ghost use Rattle.csub_guard.specs.Names.{name_fault};
ghost use Rattle.csub_guard.specs.Tokens.{tokens};
ghost use Rattle.csub_guard.specs.Views.{program_of};
ghost use Rattle.csub_read.specs.Reading.{GivesKinds};
ghost use Rattle.csub_read.specs.Tokens.{kind_of, kind_in};
ghost use Rattle.net_expressions.specs.Plain.{token_by};
ghost use Rattle.csub_guard_read.specs.Faults.{ReadsAs, ReadsFault};
ghost use Rattle.csub_guard_read.specs.Reading.{program_in, program_rule};
ghost use Rattle.csub_guard_read.specs.Steps.{SyntaxFault, Spells};
ghost use Rattle.base_reader.specs.Readings.{whole};

use crate::faults::check_names;
use crate::refusal::GuardedFault;
use crate::text::read_text;
use crate::words::text_tokens;
use base_reader::{ReadError, ended};
use base_types::{Limits, Stop};
use csub_guard::GuardedProgram;
use csub_read::Token;
use net_expressions::place_at;
use std::alloc::Global;

// How deeply `!` and `(` may be nested.
const NESTING: u32 = 200;

/// The program that a guarded text describes, or the first of its faults in this order:
///
/// 1. the text is too long
/// 2. the first token that no guarded text has there
/// 3. the first name that is declared a second time
/// 4. the first name that is used and may not be used so
/// 5. the first local that is assigned at a second place
/// 6. the first local that is read or tested before it is assigned where that counts
///
/// Time and memory are linear in the length of the text. The recursion is only as deep as brackets and `!` are nested.
pub fn read_guarded(alloc: Global, text: &[u8]) -> Result<GuardedProgram, Stop<GuardedFault>>
    ensures reads { IfOk result (λ p. ReadsAs text.now (program_of p)) }
    ensures keeps_names { IfOk result (λ p. name_fault (program_of p) ≡ None) }
    ensures refuses { IfFault result (ReadsFault text.now) }
{
    if Limits::TEXT_BYTES < text.len() as u64 {
        return Err(Stop::Fault(GuardedFault::TooLong));
    }
    let program = read_tokens(alloc, text)?;
    check_names(alloc, &program)?;
    Ok(program)
}

// The program that the tokens of a text spell.
fn read_tokens(alloc: Global, text: &[u8]) -> Result<GuardedProgram, Stop<GuardedFault>>
    requires { length text.now ≤ Limits.TEXT_BYTES }
    ensures spells { IfOk result (λ p. Spells text.now (program_of p)) }
    ensures fault { IfFault result (SyntaxFault text.now) }
{
    let all = text_tokens(alloc, text)?;
    read_all(alloc, text, &all)
}

// The program that these tokens of a text spell.
fn read_all<'a>(
    alloc: Global,
    text: &[u8],
    all: &'a [Token<'a>],
) -> Result<GuardedProgram, Stop<GuardedFault>>
    requires short { length text.now ≤ Limits.TEXT_BYTES }
    requires tokens { map (token_by kind_of) all.now ≡ tokens text.now }
    ensures spells { IfOk result (λ p. Spells text.now (program_of p)) }
    ensures fault { IfFault result (SyntaxFault text.now) }
{
    match read_whole(alloc, all, NESTING) {
        Ok(program) => Ok(program),
        Err(ReadError::Fault(fault)) => {
            let at = place_at(text, all, fault);
            Err(Stop::Fault(GuardedFault::Syntax(at)))
        }
        Err(ReadError::NoMemory) => Err(Stop::NoMemory),
    }
}

// The program that the tokens spell, with nothing after it.
fn read_whole<'a>(
    alloc: Global,
    tokens: &'a [Token<'a>],
    room: u32,
) -> Result<GuardedProgram, ReadError>
    ensures { GivesKinds program_in result (whole (program_rule room) (map kind_in tokens.now)) }
{
    let (program, rest) = read_text(alloc, tokens, room)?;
    Ok(ended(program, rest)?)
}
