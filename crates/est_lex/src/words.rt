// Words.

ghost use Rattle.std.specs.Prelude.{◌≡◌, ◌≢◌, MatchOption};
ghost use Rattle.est_ast.specs.Runs.{IsRun};
ghost use Rattle.est_ast.specs.Lexemes.{IsNameByte};
ghost use Rattle.est_ast.specs.Spelling.{spelling};
ghost use Rattle.est_ast.specs.declared.tokens.Reserved.{Reserved as ReservedWord};

use crate::classes::is_name_byte;
use est_ast::Reserved;

// The reserved words.
static WORDS: [Reserved; 38] = [
    Reserved::Abort,
    Reserved::And,
    Reserved::Await,
    Reserved::Case,
    Reserved::Do,
    Reserved::Each,
    Reserved::Else,
    Reserved::Emit,
    Reserved::End,
    Reserved::Every,
    Reserved::Exit,
    Reserved::Halt,
    Reserved::Handle,
    Reserved::Immediate,
    Reserved::In,
    Reserved::Input,
    Reserved::InputOutput,
    Reserved::Loop,
    Reserved::Module,
    Reserved::Not,
    Reserved::Nothing,
    Reserved::Or,
    Reserved::Output,
    Reserved::Pause,
    Reserved::Positive,
    Reserved::Present,
    Reserved::Relation,
    Reserved::Repeat,
    Reserved::Run,
    Reserved::Signal,
    Reserved::Suspend,
    Reserved::Sustain,
    Reserved::Then,
    Reserved::Tick,
    Reserved::Times,
    Reserved::Trap,
    Reserved::Weak,
    Reserved::When,
];

/// How many letters, digits and `_` begin the text.
pub fn name_len(text: &[u8]) -> usize
    ensures { IsRun IsNameByte text.now result }
{
    for (at, byte) in text.iter().enumerate() {
        if !is_name_byte(*byte) {
            return at;
        }
    }
    text.len()
}

/// The reserved word that is written so, if there is one.
pub fn reserved(text: &[u8]) -> Option<Reserved>
    ensures { MatchOption result
        ((other : ReservedWord) → text.now ≢ spelling other)
        (λ word. text.now ≡ spelling word) }
{
    for word in &WORDS {
        if text == bytes_of(*word) {
            return Some(*word);
        }
    }
    None
}

// How the word is written.
fn bytes_of(word: Reserved) -> &'static [u8]
    ensures { result.now ≡ spelling word }
{
    match word {
        Reserved::Abort => b"abort",
        Reserved::And => b"and",
        Reserved::Await => b"await",
        Reserved::Case => b"case",
        Reserved::Do => b"do",
        Reserved::Each => b"each",
        Reserved::Else => b"else",
        Reserved::Emit => b"emit",
        Reserved::End => b"end",
        Reserved::Every => b"every",
        Reserved::Exit => b"exit",
        Reserved::Halt => b"halt",
        Reserved::Handle => b"handle",
        Reserved::Immediate => b"immediate",
        Reserved::In => b"in",
        Reserved::Input => b"input",
        Reserved::InputOutput => b"inputoutput",
        Reserved::Loop => b"loop",
        Reserved::Module => b"module",
        Reserved::Not => b"not",
        Reserved::Nothing => b"nothing",
        Reserved::Or => b"or",
        Reserved::Output => b"output",
        Reserved::Pause => b"pause",
        Reserved::Positive => b"positive",
        Reserved::Present => b"present",
        Reserved::Relation => b"relation",
        Reserved::Repeat => b"repeat",
        Reserved::Run => b"run",
        Reserved::Signal => b"signal",
        Reserved::Suspend => b"suspend",
        Reserved::Sustain => b"sustain",
        Reserved::Then => b"then",
        Reserved::Tick => b"tick",
        Reserved::Times => b"times",
        Reserved::Trap => b"trap",
        Reserved::Weak => b"weak",
        Reserved::When => b"when",
    }
}
