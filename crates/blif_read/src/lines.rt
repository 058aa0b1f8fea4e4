// The lines of a text, one after another, without comments and with joined lines as one.

ghost use Rattle.std.specs.Prelude.{◌≡◌, ◌+◌, ◌-◌, ◌<◌, ◌^◌, ◌&&◌, not, true, [], ◌∷◌, length, map, take, IfOk};
ghost use Rattle.std.specs.Prelude.{◌==◌, MatchOption, if◌then◌else◌};
ghost use Rattle.std.specs.List.{position_or_len};
ghost use Rattle.blif_text.specs.Lines.{text_lines, without_comment, ends_with, is_empty};
ghost use Rattle.blif_read.specs.Rests.{IsNextLine, IsJoined};

use base_types::NoMemory;
use std::alloc::Global;

// What is left of a text, from the line of this number on.
#[derive(Drop)]
pub struct Rest<'a> {
    pub bytes: &'a [u8],
    pub number: u32,
}

// The bytes of a line. Most lines are a piece of the text; only one that is joined to the next is copied.
#[derive(Drop)]
pub enum LineBytes<'a> {
    Piece(&'a [u8]),
    Joined(Vec<u8>),
}

// A line, with the number of the line of the text that it begins in.
#[derive(Drop)]
pub struct Line<'a> {
    pub number: u32,
    pub bytes: LineBytes<'a>,
}

impl LineBytes<'_> {
    ghost use Rattle.blif_read.specs.Rests.{line_bytes};

    pub fn as_slice(&self) -> &[u8]
        ensures { result.now ≡ line_bytes self.now }
    {
        match self {
            LineBytes::Piece(bytes) => *bytes,
            LineBytes::Joined(bytes) => bytes.as_slice(),
        }
    }
}

// The next line, or `None` at the end of the text. Each line takes a byte of the text at least, so that the
// numbers stay in range.
pub fn next_line<'a>(alloc: Global, rest: &mut Rest<'a>) -> Result<Option<Line<'a>>, NoMemory>
    requires { rest.old.number + length rest.old.bytes.now < 2 ^ 32 }
    ensures { IfOk result
        (λ line. MatchOption line (rest.new.bytes.now ≡ [] × rest.new ≡ rest.old) (IsNextLine rest.old rest.new)) }
{
    if rest.bytes.is_empty() {
        return Ok(None);
    }
    let number = rest.number;
    let first = take_line(rest);
    if is_continued(first, rest.bytes) {
        let joined = joined_line(alloc, first, rest)?;
        return Ok(Some(Line {
            number,
            bytes: LineBytes::Joined(joined),
        }));
    }
    Ok(Some(Line {
        number,
        bytes: LineBytes::Piece(first),
    }))
}

// The bytes of the line that begins with `first`, whose last byte joins it to the lines that follow.
fn joined_line<'a>(alloc: Global, first: &[u8], rest: &mut Rest<'a>) -> Result<Vec<u8>, NoMemory>
    requires in_range { rest.old.number + length rest.old.bytes.now < 2 ^ 32 }
    requires continued { (ends_with 92 first.now && not (is_empty rest.old.bytes.now)) ≡ true }
    ensures { IfOk result (λ bytes. IsJoined (take (length first.now - 1) first.now) rest.old rest.new bytes.items) }
{
    let mut bytes = Vec::from_slice(alloc, &first[..first.len() - 1])?;
    'lines: loop {
        let next = take_line(rest);
        if !is_continued(next, rest.bytes) {
            bytes.extend_from_slice(next)?;
            return Ok(bytes);
        }
        bytes.extend_from_slice(&next[..next.len() - 1])?;
    }
}

// Whether a `\` joins a line to the next one, where `behind` is the text after it.
fn is_continued(line: &[u8], behind: &[u8]) -> bool
    ensures { result ≡ (ends_with 92 line.now && not (is_empty behind.now)) }
{
    ends_with(line, b'\\') && !behind.is_empty()
}

// One line of the text, without its comment.
fn take_line<'a>(rest: &mut Rest<'a>) -> &'a [u8]
    requires more { 0 < length rest.old.bytes.now }
    requires in_range { rest.old.number + length rest.old.bytes.now < 2 ^ 32 }
    ensures lines { map without_comment (text_lines rest.old.bytes.now)
        ≡ result.now ∷ map without_comment (text_lines rest.new.bytes.now) }
    ensures number { rest.new.number ≡ rest.old.number + 1 }
    ensures counted { length (text_lines rest.old.bytes.now) ≡ length (text_lines rest.new.bytes.now) + 1 }
    ensures shorter { length rest.new.bytes.now < length rest.old.bytes.now }
{
    let (line, behind) = first_line(rest.bytes);
    rest.bytes = behind;
    rest.number += 1;
    uncommented(line)
}

// The first line of a text that is not empty, and the text after it.
fn first_line(text: &[u8]) -> (&[u8], &[u8])
    requires { 0 < length text.now }
    ensures lines { text_lines text.now ≡ result.0.now ∷ text_lines result.1.now }
    ensures shorter { length result.1.now < length text.now }
{
    let at = place_of(text, b'\n');
    if at == text.len() {
        (text, &text[at..])
    } else {
        (without_return(&text[..at]), &text[at + 1..])
    }
}

// A line without the carriage return right before its line feed.
fn without_return(line: &[u8]) -> &[u8]
    ensures { result.now ≡ (if ends_with 13 line.now then take (length line.now - 1) line.now else line.now) }
{
    if ends_with(line, b'\r') {
        &line[..line.len() - 1]
    } else {
        line
    }
}

// A line up to its comment.
fn uncommented(line: &[u8]) -> &[u8]
    ensures { result.now ≡ without_comment line.now }
{
    &line[..place_of(line, b'#')]
}

// The first place of a byte, or the number of bytes where there is none.
fn place_of(bytes: &[u8], byte: u8) -> usize
    ensures { result ≡ position_or_len (λ c. c == byte) bytes.now }
{
    for (at, other) in bytes.iter().enumerate() {
        if *other == byte {
            return at;
        }
    }
    bytes.len()
}

// Whether this is the last byte of a line.
fn ends_with(line: &[u8], byte: u8) -> bool
    ensures { result ≡ ends_with byte line.now }
{
    !line.is_empty() && line[line.len() - 1] == byte
}
