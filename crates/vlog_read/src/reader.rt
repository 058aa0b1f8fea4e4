// From a text to the module that it describes.

ghost use Rattle.std.specs.Prelude.{◌≡◌, ◌≤◌, length, map, IfOk};
ghost use Rattle.base_types.specs.Stops.{IfFault};
ghost use Rattle.net_expressions.specs.Plain.{token_by};
ghost use Rattle.net_expressions.specs.Reading.{GivesKinds, makes_expr};
ghost use Rattle.base_reader.specs.Readings.{whole};
ghost use Rattle.vlog_read.specs.Faults.{ReadsAs, ReadsFault};
ghost use Rattle.vlog_read.specs.Lexed.{kind_of, kind_in};
ghost use Rattle.vlog_read.specs.Reading.{text_rule};
ghost use Rattle.vlog_read.specs.Sources.{plain_source};
ghost use Rattle.vlog_read.specs.Steps.{SyntaxFault, Spells};
ghost use Rattle.vlog_text.specs.Tokens.{tokens};
ghost use Rattle.vlog_text.specs.Views.{module_of};

use crate::faults::check_names;
use crate::modules::module_of;
use crate::refusal::VlogFault;
use crate::sources::Source;
use crate::text::read_text;
use crate::tokens::{Kind, Token};
use base_reader::{ReadError, ended};
use base_types::{Limits, NoMemory, Stop};
use net_expressions::{lex, place_at};
use std::alloc::Global;
use vlog_text::Module;

// How deeply `~` and `(` may be nested.
const NESTING: u32 = 200;

/// The module that a text of the subset describes, or the first of its faults in this order:
///
/// 1. the text is too long
/// 2. the first token that no text of the subset has there
/// 3. the first name that is declared a second time
/// 4. the first port that is wrong
/// 5. the first name that is used and not declared
/// 6. the first name that is driven a second time
/// 7. the first declared name without its drivers
///
/// A name to the left of `=` or `<=` comes before those to the right of it.
///
/// Time and memory are linear in the length of the text. The recursion is only as deep as brackets and `~` are nested.
pub fn read_verilog(alloc: Global, text: &[u8]) -> Result<Module, Stop<VlogFault>>
    ensures reads { IfOk result (λ m. ReadsAs text.now (module_of m)) }
    ensures refuses { IfFault result (ReadsFault text.now) }
{
    if Limits::TEXT_BYTES < text.len() as u64 {
        return Err(Stop::Fault(VlogFault::TooLong));
    }
    let tokens = text_tokens(alloc, text)?;
    let source = read_tokens(alloc, text, &tokens)?;
    check_names(alloc, &source)?;
    Ok(module_of(alloc, source)?)
}

// The tokens of a text.
fn text_tokens<'a>(alloc: Global, text: &'a [u8]) -> Result<Vec<Token<'a>>, NoMemory>
    requires { length text.now ≤ Limits.TEXT_BYTES }
    ensures { IfOk result (λ v. map (token_by kind_of) v.items ≡ tokens text.now) }
{
    lex::<Kind<'a>>(alloc, text)
}

// What the tokens of a text say.
fn read_tokens<'a>(
    alloc: Global,
    text: &[u8],
    all: &'a [Token<'a>],
) -> Result<Source<'a>, Stop<VlogFault>>
    requires short { length text.now ≤ Limits.TEXT_BYTES }
    requires tokens { map (token_by kind_of) all.now ≡ tokens text.now }
    ensures spells { IfOk result (λ s. Spells text.now (plain_source s)) }
    ensures fault { IfFault result (SyntaxFault text.now) }
{
    match read_whole(alloc, all, NESTING) {
        Ok(source) => Ok(source),
        Err(ReadError::Fault(fault)) => {
            let at = place_at(text, all, fault);
            Err(Stop::Fault(VlogFault::Syntax(at)))
        }
        Err(ReadError::NoMemory) => Err(Stop::NoMemory),
    }
}

// What the tokens say, with nothing after it.
fn read_whole<'a>(
    alloc: Global,
    tokens: &'a [Token<'a>],
    room: u32,
) -> Result<Source<'a>, ReadError>
    ensures { GivesKinds plain_source result (whole (text_rule makes_expr room) (map kind_in tokens.now)) }
{
    let (source, rest) = read_text(alloc, tokens, room)?;
    Ok(ended(source, rest)?)
}
