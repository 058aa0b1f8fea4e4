// The kinds of tokens of the C subset, as the readers of expressions and of tokens see them.

use crate::lexer::next_front;
use crate::tokens::{Kind, kind_number, sign_of};
use net_expressions::{Front, Lexical, Sign, TokenKind};

impl<'a> TokenKind for Kind<'a> {
    ghost use Rattle.csub_text.specs.Tokens.{Kind};
    ghost use Rattle.csub_text.specs.Grammar.{kind_number, sign};
    ghost use Rattle.csub_read.specs.Tokens.{kind_of, spelled};

    ghost Plain = { Kind };

    ghost plain = { kind_of };

    ghost number = { kind_number };

    ghost sign = { sign };

    ghost spelled = { spelled };

    fn number(self) -> u8 {
        kind_number(self)
    }

    fn sign(&self) -> Sign<'_> {
        sign_of(*self)
    }
}

impl<'a> Lexical<'a> for Kind<'a> {
    ghost use Rattle.csub_text.specs.Tokens.{Kind, Bad, front};
    ghost use Rattle.csub_read.specs.Tokens.{kind_of};

    ghost Plain = { Kind };

    ghost plain = { kind_of };

    ghost bad = { Bad };

    ghost front = { front };

    fn bad() -> Kind<'a> {
        Kind::Bad
    }

    fn front(text: &'a [u8]) -> Front<Kind<'a>> {
        next_front(text)
    }
}
