// A block of the standard input, taken apart.

ghost use Rattle.std.specs.Prelude.{◌<◌, length};

use base_types::NoMemory;
use std::alloc::Global;

/// A block: the lines before its words, the words, and the bytes of its files.
#[derive(Clone, Copy)]
pub(crate) struct Block<'a> {
    pub settings: &'a str,
    pub words: &'a str,
    pub source: &'a [u8],
    pub trace: Option<&'a str>,
}

/// What is made of the file `m` at each of its places, where a block asks for that.
#[derive(Clone, Copy)]
pub(crate) enum Change {
    /// It ends before the place.
    Ended,
    /// It has no byte there.
    LeftOut,
    /// It has another byte there.
    Other(u8),
}

/// The parts of a block; None where it has no words.
pub(crate) fn block_of(text: &str) -> Option<Block<'_>> {
    let (settings, asked) = text.split_once("$")?;
    let (first, trace) = match asked.split_once("\n--\n") {
        Some((first, trace)) => (first, Some(trace)),
        None => (asked, None),
    };
    let (words, source) = match first.split_once("\n") {
        Some(parts) => parts,
        None => (first, ""),
    };
    Some(Block {
        settings,
        words,
        source: source.as_bytes(),
        trace,
    })
}

/// The change that is asked for at each place; None where the file is taken as it is.
pub(crate) fn change_of(settings: &str) -> Option<Change> {
    if settings.contains("each beginning") {
        Some(Change::Ended)
    } else if settings.contains("each byte left out") {
        Some(Change::LeftOut)
    } else {
        match settings.split_once("each byte is ") {
            Some((_, other)) => other.as_bytes().first().map(|byte| Change::Other(*byte)),
            None => None,
        }
    }
}

/// A file with a change at a place.
pub(crate) fn changed(
    alloc: Global,
    bytes: &[u8],
    place: usize,
    change: Change,
) -> Result<Vec<u8>, NoMemory>
    requires { place < length bytes.now }
{
    let mut text = Vec::new(alloc);
    text.extend_from_slice(&bytes[..place])?;
    match change {
        Change::Ended => return Ok(text),
        Change::LeftOut => {}
        Change::Other(byte) => text.push(byte)?,
    }
    text.extend_from_slice(&bytes[place + 1..])?;
    Ok(text)
}

/// The numbers after a mark in the settings, up to the first word that is none.
pub(crate) fn numbers_behind(
    alloc: Global,
    settings: &str,
    mark: &str,
) -> Result<Vec<u64>, NoMemory> {
    let mut numbers = Vec::new(alloc);
    let behind = match settings.split_once(mark) {
        Some((_, behind)) => behind,
        None => "",
    };
    for word in behind.split_whitespace() {
        match word.parse::<u64>() {
            Ok(number) => numbers.push(number)?,
            Err(_) => break,
        }
    }
    Ok(numbers)
}
