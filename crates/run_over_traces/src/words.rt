// Outputs of which a last one of a given name says whether the program pauses.

ghost use Rattle.std.specs.Prelude.{◌≡◌, ◌-◌, ◌≤◌, [], false, length, slice_index_or};
ghost use Rattle.run_over_traces.specs.Languages.{word_of};
ghost use Rattle.run_over_traces.specs.Pauses.{tells_pause, listed_count, answer_of};

use base_types::Text;
use run_trace_io::Word;

/// Whether the last of the outputs has this name.
pub fn tells_pause(paused: &[u8], outputs: &[Text]) -> bool
    ensures { result ≡ tells_pause paused.now outputs.now }
{
    paused == last_name(outputs)
}

/// How many of the outputs are listed: all except a last one of this name.
pub fn listed_count(paused: &[u8], outputs: &[Text]) -> usize
    ensures count { result ≡ listed_count paused.now outputs.now }
    ensures within { result ≤ length outputs.now }
{
    if tells_pause(paused, outputs) {
        outputs.len().saturating_sub(1)
    } else {
        outputs.len()
    }
}

/// The word that the values of outputs give: by that of the last one, where it has this name, and else there is none.
pub fn told_word(paused: &[u8], outputs: &[Text], values: &[bool]) -> Word
    requires { length values.now ≡ length outputs.now }
    ensures { result ≡ (answer_of paused.now outputs.now values.now).word }
{
    if !tells_pause(paused, outputs) {
        return Word::Bare;
    }
    word_of(last_value(values))
}

/// The word for whether a program pauses.
pub fn word_of(paused: bool) -> Word
    ensures { result ≡ word_of paused }
{
    if paused { Word::Paused } else { Word::Ended }
}

// The last of some names; where there is none, the one without a byte.
fn last_name(names: &[Text]) -> &[u8]
    ensures { result.now ≡ slice_index_or names.now (length names.now - 1) [] }
{
    match names.last() {
        Some(name) => name.bytes(),
        None => b"",
    }
}

// The last of some values; where there is none, false.
fn last_value(values: &[bool]) -> bool
    ensures { result ≡ slice_index_or values.now (length values.now - 1) false }
{
    match values.last() {
        Some(value) => *value,
        None => false,
    }
}
