// A command over files and sinks in memory.

use crate::blocks::{Block, numbers_behind};
use crate::forms::{form_of, text_of};
use base_types::{
    FileEntry, ListSink, MapFiles, NoMemory, SteadyFiles, SteadySink, Text, write_pieces,
};
use cec_commands::{cec, cec_steadily};
use cec_opt_commands::{cec_opt, cec_opt_steadily};
use std::alloc::Global;

// The room of the sinks for what a command writes, and for the line of its outcome.
const OUT_ROOM: u64 = 2_097_152;

const ERR_ROOM: u64 = 4_096;

// A program that rows call.
#[derive(Clone, Copy)]
enum Program {
    Cec,
    CecOpt,
    // A library call; no program of the repository.
    Library,
}

// What a block gives to its program.
#[derive(Drop)]
struct Given {
    program: Program,
    words: Vec<String>,
    entries: Vec<FileEntry>,
}

// What a command writes to.
#[derive(Drop)]
struct Sinks {
    out: ListSink,
    err: ListSink,
}

// The status of a library call that refuses the source.
const REFUSED: u8 = 1;

/// How a command ended: its status, and what the two sinks have.
#[derive(Drop)]
pub(crate) struct Ended {
    pub status: u8,
    pub out: ListSink,
    pub err: ListSink,
}

/// The command of a block, where the file `o` has these bytes.
pub(crate) fn command_ended(
    alloc: Global,
    block: Block<'_>,
    before: &[u8],
) -> Result<Ended, NoMemory> {
    let given = given_by(alloc, block, before);
    let failing = numbers_behind(alloc, block.settings, "files fail at");
    match (given, sinks_of(alloc, block.settings), failing) {
        (Ok(given), Ok(sinks), Ok(failing)) => Ok(end_of(alloc, block, given, sinks, failing)),
        _ => Err(NoMemory),
    }
}

fn end_of(alloc: Global, block: Block<'_>, given: Given, sinks: Sinks, failing: Vec<u64>) -> Ended {
    let Sinks { mut out, mut err } = sinks;
    let Given {
        program,
        words,
        entries,
    } = given;
    let mut files = MapFiles::new(entries, failing);
    let status = match program {
        Program::Cec => cec(alloc, &words, &mut files, &mut out, &mut err).number(),
        Program::CecOpt => cec_opt(alloc, &words, &mut files, &mut out, &mut err, false).number(),
        Program::Library => call_written(alloc, block, &mut out),
    };
    Ended { status, out, err }
}

// Writes what the call of the words gives, and gives the status.
fn call_written(alloc: Global, block: Block<'_>, out: &mut ListSink) -> u8 {
    let Some(form) = form_of(block.words.trim()) else {
        return REFUSED;
    };
    match text_of(alloc, form, block.source) {
        Some(text) => {
            let _ = write_pieces(out, &[&text]);
            0
        }
        None => REFUSED,
    }
}

fn given_by(alloc: Global, block: Block<'_>, before: &[u8]) -> Result<Given, NoMemory> {
    let (program, rest) = asked_of(block.words);
    match (words_of(alloc, rest), entries_of(alloc, block, before)) {
        (Ok(words), Ok(entries)) => Ok(Given {
            program,
            words,
            entries,
        }),
        _ => Err(NoMemory),
    }
}

// The program that a line of words calls, and the words after its name; those of `cec` have no name before them.
fn asked_of(line: &str) -> (Program, &str) {
    if let Some((_, rest)) = line.split_once("cec-opt") {
        return (Program::CecOpt, rest);
    }
    match line.split_once("call ") {
        Some((_, rest)) => (Program::Library, rest),
        None => (Program::Cec, line),
    }
}

/// Whether `cec_steadily`, or `cec_opt_steadily`, is done with a block's command and writes these bytes.
pub(crate) fn is_done_steadily(
    alloc: Global,
    block: Block<'_>,
    before: &[u8],
    written: &[u8],
) -> bool {
    let out = SteadySink::new(alloc, OUT_ROOM);
    match (given_by(alloc, block, before), out, sinks_of(alloc, "")) {
        (Ok(given), Ok(out), Ok(sinks)) => is_same_steadily(alloc, given, out, sinks.err, written),
        _ => false,
    }
}

fn is_same_steadily(
    alloc: Global,
    given: Given,
    mut out: SteadySink,
    mut err: ListSink,
    written: &[u8],
) -> bool {
    let Given {
        program,
        words,
        entries,
    } = given;
    let mut files = SteadyFiles::new(entries);
    let status = match program {
        Program::Cec => cec_steadily(alloc, &words, &mut files, &mut out, &mut err).number(),
        Program::CecOpt => cec_opt_steadily(alloc, &words, &mut files, &mut out, &mut err).number(),
        Program::Library => return true,
    };
    status == 0 && out.bytes() == written && err.bytes().is_empty()
}

// Sinks that have nothing.
fn sinks_of(alloc: Global, settings: &str) -> Result<Sinks, NoMemory> {
    let out = sink(alloc, OUT_ROOM, settings, "out fails at");
    match (out, sink(alloc, ERR_ROOM, settings, "err fails at")) {
        (Ok(out), Ok(err)) => Ok(Sinks { out, err }),
        _ => Err(NoMemory),
    }
}

/// A sink with room for this many bytes, which fails at the calls whose numbers come after the mark.
pub(crate) fn sink(
    alloc: Global,
    room: u64,
    settings: &str,
    mark: &str,
) -> Result<ListSink, NoMemory> {
    ListSink::new(alloc, room, numbers_behind(alloc, settings, mark)?)
}

fn words_of(alloc: Global, line: &str) -> Result<Vec<String>, NoMemory> {
    let mut words = Vec::new(alloc);
    for word in line.split_whitespace() {
        words.push(String::from_str(alloc, word)?)?;
    }
    Ok(words)
}

fn entries_of(alloc: Global, block: Block<'_>, before: &[u8]) -> Result<Vec<FileEntry>, NoMemory> {
    let mut entries = Vec::new(alloc);
    for (name, bytes) in [("m", block.source), ("o", before)] {
        entries.push(entry(alloc, name, bytes)?)?;
    }
    if let Some(trace) = block.trace {
        entries.push(entry(alloc, "t", trace.as_bytes())?)?;
    }
    Ok(entries)
}

fn entry(alloc: Global, name: &str, bytes: &[u8]) -> Result<FileEntry, NoMemory> {
    let name = Text::from_bytes(alloc, name.as_bytes());
    match (name, Text::from_bytes(alloc, bytes)) {
        (Ok(name), Ok(bytes)) => Ok(FileEntry { name, bytes }),
        _ => Err(NoMemory),
    }
}
