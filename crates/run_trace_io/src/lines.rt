// The line of an answer.

ghost use Rattle.std.specs.Prelude.{◌≡◌, ◌||◌, [], ◌++◌, false, length, IfOk, OnOk, if◌then◌else◌};
ghost use Rattle.run_trace_io.specs.Lines.{line, shown, spaced, word_text};

use base_types::{NoMemory, Text, put};
use std::alloc::Global;

/// What a line says of the program after the instant.
#[derive(Clone, Copy)]
pub enum Word {
    /// It is still active.
    Paused,
    /// It has ended.
    Ended,
    /// Nothing.
    Bare,
}

/// The line of an answer: the names of the outgoing signals that are present, in their order, with
/// one space between, or `-` where there is none; then the word, and a line feed. Its only error is
/// out of memory.
///
/// Example: for the names O and P, of which P is present, and a program that pauses, the line is `P | paused`.
pub fn reaction_line(
    alloc: Global,
    names: &[Text],
    present: &[bool],
    word: Word,
) -> Result<Vec<u8>, NoMemory>
    requires { length names.now ≡ length present.now }
    ensures { IfOk result (λ text. text.items ≡ line names.now present.now word) }
{
    let mut text = Vec::new(alloc);
    put_names(&mut text, names, present)?;
    put(&mut text, word_text(word))?;
    Ok(text)
}

fn put_names(text: &mut Vec<u8>, names: &[Text], present: &[bool]) -> Result<(), NoMemory>
    requires { length names.now ≡ length present.now }
    ensures { OnOk result (text.new.items ≡ text.old.items ++ shown false names.now present.now) }
{
    let mut any = false;
    for (k, name) in names.iter().enumerate() {
        any = put_name(text, any, name, present[k])?;
    }
    put(text, if any { b"" } else { b"-" })
}

// A name whose signal is present, after a space where a name stands before it. The answer is
// whether a name is there now.
fn put_name(text: &mut Vec<u8>, behind: bool, name: &Text, present: bool) -> Result<bool, NoMemory>
    ensures text { OnOk result (text.new.items ≡ text.old.items ++ (if present then spaced behind name.now else [])) }
    ensures any { IfOk result (λ any. any ≡ (behind || present)) }
{
    if !present {
        return Ok(behind);
    }
    put(text, if behind { b" " } else { b"" })?;
    put(text, name.bytes())?;
    Ok(true)
}

// The end of a line.
fn word_text(word: Word) -> &'static [u8]
    ensures { result.now ≡ word_text word }
{
    match word {
        Word::Paused => b" | paused\n",
        Word::Ended => b" | ended\n",
        Word::Bare => b"\n",
    }
}
