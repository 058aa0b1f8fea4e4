// The tokens of a program text.

use base_types::{Span, Text};

/// A token and its place in the source: `span` has its bytes and no others.
#[derive(Drop)]
pub struct Token {
    pub kind: Kind,
    pub span: Span,
}

/// What a token is.
#[derive(Drop)]
pub enum Kind {
    /// A reserved word.
    Reserved(Reserved),
    /// A mark.
    Mark(Mark),
    /// An identifier that is no reserved word, by its bytes.
    Ident(Text),
    /// A number, by its value.
    Number(u128),
}

/// The reserved words. Each is written as its name in lower case.
#[derive(Clone, Copy, PartialEq)]
pub enum Reserved {
    Abort,
    And,
    Await,
    Case,
    Do,
    Each,
    Else,
    Emit,
    End,
    Every,
    Exit,
    Halt,
    Handle,
    Immediate,
    In,
    Input,
    InputOutput,
    Loop,
    Module,
    Not,
    Nothing,
    Or,
    Output,
    Pause,
    Positive,
    Present,
    Relation,
    Repeat,
    Run,
    Signal,
    Suspend,
    Sustain,
    Then,
    Tick,
    Times,
    Trap,
    Weak,
    When,
}

/// The marks. A single `|` and a single `=` are none.
#[derive(Clone, Copy, PartialEq)]
pub enum Mark {
    /// `;`
    Semicolon,
    /// `||`
    DoubleBar,
    /// `[`
    LeftBracket,
    /// `]`
    RightBracket,
    /// `(`
    LeftParenthesis,
    /// `)`
    RightParenthesis,
    /// `,`
    Comma,
    /// `/`
    Slash,
    /// `:`
    Colon,
    /// `#`
    Hash,
    /// `=>`
    Arrow,
    /// `.`
    Period,
}
