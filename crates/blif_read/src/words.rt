// The words of a line.

ghost use Rattle.std.specs.Prelude.{◌≡◌, [], ◌∷◌, ◌<◌, ◌≤◌, length, map, drop, IfOk, MatchOption};
ghost use Rattle.std.specs.List.{prefix_len, position_or_len};
ghost use Rattle.base_types.specs.Names.{is_same_name};
ghost use Rattle.blif_text.specs.Lines.{is_blank, is_word_byte, is_clean, words};

use base_types::NoMemory;
use std::alloc::Global;

// The words of a line: what stands between its spaces and tabs.
pub fn words<'a>(alloc: Global, line: &'a [u8]) -> Result<Vec<&'a [u8]>, NoMemory>
    ensures { IfOk result (λ found. map (λ w. w.now) found.items ≡ words line.now) }
{
    let mut found = Vec::new(alloc);
    let mut rest = line;
    while let Some((word, behind)) = first_word(rest) {
        found.push(word)?;
        rest = behind;
    }
    Ok(found)
}

// The first word, and what comes after it.
fn first_word(line: &[u8]) -> Option<(&[u8], &[u8])>
    ensures words { MatchOption result (words line.now ≡ []) (λ w. words line.now ≡ w.0.now ∷ words w.1.now) }
    ensures shorter { MatchOption result (words line.now ≡ []) (λ w. length w.1.now < length line.now) }
{
    let text = unblanked(line);
    if text.is_empty() {
        return None;
    }
    let end = word_len(text);
    Some((&text[..end], &text[end..]))
}

// A line without the spaces and tabs in front.
fn unblanked(line: &[u8]) -> &[u8]
    ensures { result.now ≡ drop (prefix_len is_blank line.now) line.now }
{
    &line[blank_len(line)..]
}

// The number of spaces and tabs before the first other byte.
fn blank_len(line: &[u8]) -> usize
    ensures within { result ≤ length line.now }
    ensures len { result ≡ prefix_len is_blank line.now }
{
    for (at, byte) in line.iter().enumerate() {
        if !is_blank(*byte) {
            return at;
        }
    }
    line.len()
}

// The number of bytes before the first space or tab.
fn word_len(line: &[u8]) -> usize
    ensures within { result ≤ length line.now }
    ensures len { result ≡ position_or_len is_blank line.now }
{
    for (at, byte) in line.iter().enumerate() {
        if is_blank(*byte) {
            return at;
        }
    }
    line.len()
}

// Whether no byte of a line is one that no line may have.
pub fn is_clean(line: &[u8]) -> bool
    ensures { result ≡ is_clean line.now }
{
    line.iter()
        .all(|byte| is_blank(*byte) || is_word_byte(*byte))
}

fn is_blank(byte: u8) -> bool
    ensures { result ≡ is_blank byte }
{
    byte == b' ' || byte == b'\t'
}

fn is_word_byte(byte: u8) -> bool
    ensures { result ≡ is_word_byte byte }
{
    33 <= byte && byte <= 126 && byte != b'#' && byte != b'\\'
}

// Whether a word is this one.
pub fn is(word: &[u8], other: &[u8]) -> bool
    ensures { result ≡ is_same_name word.now other.now }
{
    word == other
}
