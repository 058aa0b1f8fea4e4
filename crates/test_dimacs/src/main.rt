//! Answers questions about clauses in DIMACS form, as a test of the search and for its bench.
//!
//! Each line of the standard input is one of these; other lines are skipped:
//!
//! - `p cnf VARIABLES CLAUSES` begins a new problem; the number of clauses is not used.
//! - `1 -2 0` adds a clause.
//! - `q 1 -2 0` asks under assumptions: whether a valuation meets the clauses so far.
//! - `v 1 -2 0` asks the same, and prints the valuation, if any.
//!
//! A question's answer is a line: `satisfiable`, `unsatisfiable` with the assumptions that suffice, `contradicting`,
//! `unknown`, or `wrong` for a valuation that does not meet the clauses. A problem without a question is asked once,
//! under no assumptions. The last line counts the derivations that the kernel refused.
#![tactic(auto)]

mod literals;
mod problems;
mod questions;

use base_types::{WriterSink, write_text};
use std::alloc::Global;
use std::io::{self, Read};
use std::process::ExitCode;
use std::str;

const NO_TEXT: u8 = 1;

const NO_MEMORY: u8 = 2;

const NOT_WRITTEN: u8 = 3;

fn main(rt: HostRuntime) -> ExitCode {
    let Ok(bytes) = all_bytes(rt.alloc(), rt.stdin()) else {
        return ExitCode::from(NO_TEXT);
    };
    let text = str::from_utf8(&bytes).unwrap_or("");
    let Ok(answers) = problems::answers(rt.alloc(), text) else {
        return ExitCode::from(NO_MEMORY);
    };
    let mut out = WriterSink::new(rt.stdout());
    match write_text(&mut out, answers.as_bytes()) {
        Ok(()) => ExitCode::from(0),
        Err(_) => ExitCode::from(NOT_WRITTEN),
    }
}

fn all_bytes<R: Read + Drop>(alloc: Global, mut reader: R) -> io::Result<Vec<u8>> {
    let mut bytes = Vec::new(alloc);
    reader.read_to_end(&mut bytes)?;
    Ok(bytes)
}
