// From the bytes of a source to its tree.

ghost use Rattle.std.specs.Prelude.{◌≡◌, ◌≤◌, ℕ, List, Option, length, IfOk, IfErr};
ghost use Rattle.est_ast.specs.Views.{program_of};
ghost use Rattle.est_lex.specs.Faults.{LexesAsFault};
ghost use Rattle.est_front.specs.Sources.{SourceReadsAs};
ghost use Rattle.est_ast.specs.Lexing.{LexesAs, Tokens};
ghost use Rattle.est_parse.specs.Faults.{IsFirstFault};
ghost use Rattle.est_front.specs.Lacks.{HasNoTree};
ghost use Rattle.est_front.specs.Refusals.{IsSourceRefused, token_place};

use crate::refusal::{Fault, Quantity, SourceRefusal};
use base_types::Limits;
use est_ast::{Program, Token};
use est_lex::{LexError, lex};
use est_parse::{ParseError, parse};
use std::alloc::Global;

/// The tree of a source, or its first fault of tokens or grammar.
pub fn read_source(alloc: Global, text: &[u8]) -> Result<Program, SourceRefusal>
    requires { length text.now ≤ Limits.SOURCE_BYTES }
    ensures tree { IfOk result (λ tree. SourceReadsAs text.now (program_of tree)) }
    ensures refusal { IfErr result (λ r. (main : Option (List ℕ)) → IsSourceRefused text.now main r) }
    ensures lacks { IfErr result (HasNoTree text.now) }
{
    let tokens = match lex(alloc, text) {
        Ok(tokens) => tokens,
        Err(fault) => return Err(token_refusal(fault)),
    };
    match parse(alloc, &tokens) {
        Ok(tree) => Ok(tree),
        Err(fault) => Err(grammar_refusal(text, &tokens, fault)),
    }
}

// The refusal of a text that has no tokens.
fn token_refusal(fault: LexError) -> SourceRefusal
    ensures refusal { (text : List ℕ) (main : Option (List ℕ)) → LexesAsFault text fault
        → IsSourceRefused text main result }
    ensures lacks { (text : List ℕ) → LexesAsFault text fault → HasNoTree text result }
{
    match fault {
        LexError::BadByte(place) => SourceRefusal::Static(Fault::BadByte(place)),
        LexError::OpenComment(place) => SourceRefusal::Static(Fault::OpenComment(place)),
        LexError::BigNumber(place) => SourceRefusal::Static(Fault::BigNumber(place)),
        LexError::NoMemory => SourceRefusal::NoMemory,
    }
}

// The refusal of tokens that are no program of the nesting that is read.
fn grammar_refusal(text: &[u8], tokens: &[Token], fault: ParseError) -> SourceRefusal
    requires short { length text.now ≤ Limits.SOURCE_BYTES }
    requires tokens { LexesAs text.now (Tokens tokens.now) }
    requires first { IsFirstFault Limits.NESTING tokens.now fault }
    ensures refusal { (main : Option (List ℕ)) → IsSourceRefused text.now main result }
    ensures lacks { HasNoTree text.now result }
{
    match fault {
        ParseError::Syntax(token) => {
            let place = place_of(text, tokens, token);
            SourceRefusal::Static(Fault::Syntax(token, place))
        }
        ParseError::TooNested(_) => SourceRefusal::Limit(Quantity::Nesting),
        ParseError::NoMemory => SourceRefusal::NoMemory,
    }
}

// The byte at which a token begins; the length of the text where no such token is there.
fn place_of(text: &[u8], tokens: &[Token], token: u32) -> u32
    requires { length text.now ≤ Limits.SOURCE_BYTES }
    ensures { result ≡ token_place text.now tokens.now token }
{
    match tokens.get(token as usize) {
        Some(token) => token.span.start,
        None => text.len() as u32,
    }
}
