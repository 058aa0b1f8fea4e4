//! The program: the words of the command line, the files of the disk and the standard streams, handed
//! to `cec_opt_commands::cec_opt`, which does all.
#![tactic(auto)]

use base_types::{DiskFiles, WriterSink, write_pieces};
use cec_opt_commands::cec_opt;
use std::env;
use std::io::IsTerminal;
use std::process::ExitCode;
use std::rt::Env;

// The status and the line where the words of the command line cannot be read.
const NO_WORDS: u8 = 13;

const NO_WORDS_LINE: &[u8] =
    b"cec-opt: cannot read the words: one is not UTF-8, or memory ran out\n";

fn main(rt: HostRuntime) -> ExitCode {
    let mut err = WriterSink::new(rt.stderr());
    let Some(words) = words(&rt) else {
        let _ = write_pieces(&mut err, &[NO_WORDS_LINE]);
        return ExitCode::from(NO_WORDS);
    };
    let mut files = DiskFiles::new(&rt);
    let mut out = WriterSink::new(rt.stdout());
    let progress = rt.stderr().is_terminal();
    let outcome = cec_opt(rt.alloc(), &words, &mut files, &mut out, &mut err, progress);
    ExitCode::from(outcome.number())
}

// The words after the program's name, or `None` where std does not give them.
fn words<R: Env + AllocGlobal>(rt: &R) -> Option<Vec<String>> {
    env::args(rt).ok()?.skip(1).collect(rt.alloc()).ok()
}
