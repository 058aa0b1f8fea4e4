// Tokens, and what a language says of its kinds of tokens.

ghost use Rattle.std.specs.Prelude.{◌≡◌};
ghost use Rattle.net_expressions.specs.Signs.{sign_number};
ghost use Rattle.net_expressions.specs.Plain.{sign_of};

/// What a token is in an expression. A name is a part of the text.
#[derive(Clone, Copy)]
pub enum Sign<'a> {
    Name(&'a [u8]),
    Bit(bool),
    Not,
    Open,
    Close,
    And,
    Or,
    Other,
}

/// A token and the place of its first byte in the text.
#[derive(Clone, Copy)]
pub struct Token<K> {
    pub kind: K,
    pub at: u32,
}

/// What begins a text: a space or a comment, a token, or a byte that begins neither. Of the first two the number of
/// bytes after the first one is reported.
#[derive(Clone, Copy)]
pub enum Front<K> {
    Gap(usize),
    Lexeme(usize, K),
    Wrong,
}

/// The kinds of tokens of a language.
///
/// `Plain` is the type of the kinds as plain values. `number` tells words and marks apart, and `sign` says what a token
/// is in an expression. Each sign has a token.
pub trait TokenKind: Copy {
    ghost use Rattle.std.specs.Prelude.{◌≡◌, ℕ};
    ghost use Rattle.net_expressions.specs.Signs.{Sign};
    ghost use Rattle.net_expressions.specs.Plain.{sign_of};

    ghost Plain: { Type 0 };

    ghost plain: { Self → Plain };

    ghost number: { Plain → ℕ };

    ghost sign: { Plain → Sign };

    /// The number of the kind.
    fn number(self) -> u8
        ensures { result ≡ number (plain self) };

    /// What the kind is in an expression.
    fn sign(&self) -> Sign<'_>
        ensures { sign_of result ≡ sign (plain self.now) };

    ghost spelled: { (s : Sign) → (token : Plain) × (sign token ≡ s) };
}

/// The kinds of tokens that a text is cut into, whose names are parts of the text.
///
/// `Plain` is the type of the kinds as plain values. `front` says what begins a text, and `bad` is the kind of what
/// begins no token.
pub trait Lexical<'a>: Copy {
    ghost use Rattle.std.specs.Prelude.{◌≡◌, ◌<◌, ℕ, List, length};
    ghost use Rattle.net_expressions.specs.Lexemes.{Front};
    ghost use Rattle.net_expressions.specs.Plain.{front_by, front_at, front_more};

    ghost Plain: { Type 0 };

    ghost plain: { Self → Plain };

    ghost bad: { Plain };

    ghost front: { ℕ → List ℕ → Front Plain };

    /// The kind of what begins no token.
    fn bad() -> Self
        ensures { plain result ≡ bad };

    /// What begins a text that is not empty.
    fn front(text: &'a [u8]) -> Front<Self>
        requires { 0 < length text.now }
        ensures is { front_by plain result ≡ front_at front text.now }
        ensures within { front_more (front_by plain result) < length text.now };
}

// A number for each sign, the same for all names and for both constants.
pub fn sign_number(sign: Sign<'_>) -> u8
    ensures { result ≡ sign_number (sign_of sign.entry) }
{
    match sign {
        Sign::Name(_) => 0,
        Sign::Bit(_) => 1,
        Sign::Not => 2,
        Sign::Open => 3,
        Sign::Close => 4,
        Sign::And => 5,
        Sign::Or => 6,
        Sign::Other => 7,
    }
}
