// What is written of each block.

use crate::blocks::{Block, Change, block_of, change_of, changed};
use crate::calls::{Ended, command_ended, is_done_steadily, sink};
use crate::forms::{form_of, is_made};
use crate::page::Page;
use base_types::ListSink;
use std::alloc::Global;

/// Adds the answers to the blocks of a text, one after another.
pub(crate) fn put_answers(alloc: Global, page: &mut Page, text: &str) {
    match sink(alloc, 0, "", "none") {
        Ok(mut written) => put_all(alloc, page, text, &mut written),
        Err(_) => page.fail(),
    }
}

fn put_all(alloc: Global, page: &mut Page, text: &str, written: &mut ListSink) {
    let mut number: usize = 0;
    for part in text.split("\n~\n") {
        if let Some(block) = block_of(part) {
            number = number.saturating_add(1);
            match change_of(block.settings) {
                Some(change) => put_each(alloc, page, number, block, change),
                None => put_one(alloc, page, number, block, written),
            }
        }
    }
}

// The number of a block and its words.
fn put_head(page: &mut Page, number: usize, words: &str) {
    page.put_number(b"", number);
    page.put(b" $");
    page.put(words.as_bytes());
    page.put(b"\n");
}

// A block at each place of its file: a line with the place, the status, and the line of the outcome.
fn put_each(alloc: Global, page: &mut Page, number: usize, block: Block<'_>, change: Change) {
    put_head(page, number, block.words);
    for place in 0..block.source.len() {
        match changed(alloc, block.source, place, change) {
            Ok(text) => put_at(alloc, page, place, block, &text),
            Err(_) => page.fail(),
        }
    }
}

// A block with this file in place of its own.
fn put_at(alloc: Global, page: &mut Page, place: usize, block: Block<'_>, source: &[u8]) {
    match command_ended(alloc, Block { source, ..block }, b"") {
        Ok(ended) => put_line(page, place, ended.status, ended.err.bytes()),
        Err(_) => page.fail(),
    }
}

fn put_line(page: &mut Page, place: usize, status: u8, line: &[u8]) {
    page.put_number(b"", place);
    page.put_number(b" ", status as usize);
    page.put(if line.is_empty() { "\n" } else { " " }.as_bytes());
    page.put(line);
}

// A block. What its command wrote is the file `o` of the next one.
fn put_one(
    alloc: Global,
    page: &mut Page,
    number: usize,
    block: Block<'_>,
    written: &mut ListSink,
) {
    match command_ended(alloc, block, written.bytes()) {
        Ok(ended) => {
            put_head(page, number, block.words);
            let remark = remark_on(alloc, block, written.bytes(), &ended);
            put_ended(page, block.settings, remark, &ended);
            *written = ended.out;
        }
        Err(_) => page.fail(),
    }
}

// The line with the status, and the bytes.
fn put_ended(page: &mut Page, settings: &str, remark: &str, ended: &Ended) {
    let (out, err) = (ended.out.bytes(), ended.err.bytes());
    page.put_number(b"status ", ended.status as usize);
    if settings.contains("out is hidden") {
        page.put(b", out hidden");
    } else {
        page.put_number(b", out ", out.len());
    }
    page.put(remark.as_bytes());
    page.put_number(b", err ", err.len());
    page.put(b"\n");
    if !settings.contains("out is ") {
        page.put(out);
    }
    page.put(err);
}

// A further remark on a command: none if it succeeded, unless the compiler's other calls give another result.
fn remark_on(alloc: Global, block: Block<'_>, before: &[u8], ended: &Ended) -> &'static str {
    let out = ended.out.bytes();
    if block.settings.contains("out fails at") {
        return remark_on_beginning(alloc, block, before, out);
    }
    if ended.status != 0 {
        return "";
    }
    if !is_done_steadily(alloc, block, before, out) {
        return ", not steadily";
    }
    match form_of(block.words.trim()) {
        Some(form) if !is_made(alloc, form, block.source, out) => ", not by one call",
        _ => "",
    }
}

// Where `out` is to fail, whether what it has is a beginning of what it has otherwise.
fn remark_on_beginning(alloc: Global, block: Block<'_>, before: &[u8], out: &[u8]) -> &'static str {
    let steady = Block {
        settings: "",
        ..block
    };
    match command_ended(alloc, steady, before) {
        Ok(ended) if ended.out.bytes().starts_with(out) => ", a beginning",
        Ok(_) => ", no beginning",
        Err(_) => ", out of memory",
    }
}
