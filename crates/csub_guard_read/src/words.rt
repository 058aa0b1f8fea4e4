// The tokens of a guarded text, in which `if` and `else` are words.

ghost use Rattle.std.specs.Prelude.{◌≡◌, ◌≤◌, length, map, IfOk};
ghost use Rattle.csub_guard.specs.Tokens.{kind_of, tokens};
ghost use Rattle.csub_read.specs.Tokens as plain;
ghost use Rattle.net_expressions.specs.Plain.{token_by};

use base_types::{Limits, NoMemory};
use csub_read::{Kind, Token};
use net_expressions::lex;
use std::alloc::Global;

// The tokens of a text. Its only error is out of memory.
pub fn text_tokens<'a>(alloc: Global, text: &'a [u8]) -> Result<Vec<Token<'a>>, NoMemory>
    requires { length text.now ≤ Limits.TEXT_BYTES }
    ensures { IfOk result (λ v. map (token_by plain.kind_of) v.items ≡ tokens text.now) }
{
    let mut tokens = lex::<Kind<'a>>(alloc, text)?;
    let mut k = 0;
    'tokens: while k < tokens.len() {
        tokens[k].kind = word_kind(tokens[k].kind);
        k += 1;
    }
    Ok(tokens)
}

// What a token is in a guarded text.
fn word_kind<'a>(kind: Kind<'a>) -> Kind<'a>
    ensures { plain.kind_of result ≡ kind_of (plain.kind_of kind.entry) }
{
    match kind {
        Kind::Named(word) => {
            if word == b"if".as_slice() {
                Kind::If
            } else if word == b"else".as_slice() {
                Kind::Else
            } else {
                Kind::Named(word)
            }
        }
        _ => kind,
    }
}
