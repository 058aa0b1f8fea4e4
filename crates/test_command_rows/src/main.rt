//! Rows of whole commands: each block of the standard input is a command line with the files that it reads and the
//! calls that fail, and what the command writes, and how it ends, goes to the standard output.
//!
//! A block ends with a line `~`:
//!
//! ```text
//! # a comment
//! out fails at 2
//! $ run --via blif m t
//! the lines of the file m, a source or a text
//! --
//! the lines of the file t, a trace
//! ~
//! ```
//!
//! The lines before the words are comments and settings. `files fail at`, `out fails at` and `err fails at` have the
//! numbers of calls after them, from 1; with `out is counted` only the number of its bytes is shown, and with `out is
//! hidden` not even that. The lines of a file have a line feed between two and none after the last one, so a text that
//! ends in a line feed has an empty last line here. Without a line `--` there is no file `t`. The file `o` has what the
//! block before wrote to `out`.
//!
//! With `each beginning`, `each byte left out` or `each byte is C` the command runs once for each place of the file
//! `m`: on what stands before the place, on the file without the byte there, and on the file with the byte C there. The
//! answer is the number and words, and for each place a line with the place, the status, and the line in `err`.
//!
//! The answer to a block is else its number and words, a line with the status and the numbers of bytes, and the
//! bytes of `out` and `err`. Words after `cec-opt` are those of the optimizer. `call NAME m` calls a function that no
//! command shows: `small_blif_of`, `small_c_of` or `small_verilog_of`; or `front`, with the numbers of signals and
//! nodes of the kernel program and its height. All others are words of the compiler.
//!
//! Where `out` is to fail, the command runs once more without that, and the answer says whether `out` is
//! a beginning of what it has then. Where it is done, it runs once more by `cec_steadily`, and a text of `blif m`,
//! `blif --encode m`, `c m`, `c --guard m` or `verilog m` is made once more by `blif_of`, `encoded_blif_of`,
//! `c_of`, `guarded_c_of` or `verilog_of`: the answer says where those write anything else.
#![tactic(auto)]

mod answers;
mod blocks;
mod calls;
mod forms;
mod page;
mod passes;

use answers::put_answers;
use base_types::{WriterSink, write_text};
use page::Page;
use std::io;
use std::process::ExitCode;

// The statuses where the blocks are not to be had, where memory is wanting, and where the answers are not taken.
const NO_BLOCKS: u8 = 1;

const NO_MEMORY: u8 = 2;

const NOT_WRITTEN: u8 = 3;

fn main(rt: HostRuntime) -> ExitCode {
    let Ok(text) = io::read_to_string(rt.alloc(), rt.stdin()) else {
        return ExitCode::from(NO_BLOCKS);
    };
    let mut page = Page::new(rt.alloc());
    put_answers(rt.alloc(), &mut page, text.as_str());
    if !page.is_whole {
        return ExitCode::from(NO_MEMORY);
    }
    let mut out = WriterSink::new(rt.stdout());
    match write_text(&mut out, &page.bytes) {
        Ok(()) => ExitCode::from(0),
        Err(_) => ExitCode::from(NOT_WRITTEN),
    }
}
