// The line about a source that does not compile.

ghost use Rattle.std.specs.Prelude.{◌≤◌, ◌++◌, codes, length};
ghost use Rattle.base_types.specs.Writing.{Wrote};
ghost use Rattle.cec_refusals.specs.RefusalLines.{refusal_line};
ghost use Rattle.cec_refusals.specs.Views.{refused_is};

use base_types::{Limits, Sink, SinkFault, write_pieces};
use cec_compile::Refusal;
use est_front::{Subject, put_fault};

/// What the line about a refused source speaks of.
#[derive(Clone, Copy)]
pub struct RefusedSource<'a> {
    /// What the line begins with: the name of the program, and `: `.
    pub program: &'a [u8],
    /// The name of the file.
    pub name: &'a str,
    /// The name that was asked for the main module, empty where none was.
    pub main: &'a [u8],
    /// The bytes of the source.
    pub source: &'a [u8],
}

/// The line about a source that does not compile. That of a static fault is the compiler's, and begins with `cec: `.
/// Writing it takes no memory; a prefix of the line was appended where the sink failed.
pub fn put_refusal<E: Sink>(
    err: &mut E,
    refused: RefusedSource<'_>,
    refusal: &Refusal,
) -> Result<(), SinkFault>
    requires { length refused.source.now ≤ Limits.SOURCE_BYTES }
    ensures { Wrote (E.told err.old) (E.told err.new) (E.faults err.old) (E.faults err.new)
        (refusal_line (refused_is refused.entry) refusal.now) result }
{
    match refusal {
        Refusal::Static(fault) => {
            let subject = Subject {
                main: refused.main,
                source: refused.source,
            };
            put_fault(err, subject, fault)
        }
        Refusal::Cyclic(cycle) => put_line(
            err,
            refused.program,
            b"cyclic: ",
            cycle.text.as_slice(),
        ),
        Refusal::Limit(_) => put_line(
            err,
            refused.program,
            b"a limit is passed, see cec check ",
            refused.name.as_bytes(),
        ),
        Refusal::NoMemory => put_line(err, refused.program, b"out of memory", b""),
    }
}

// A line of two parts, after the name of the program.
fn put_line<E: Sink>(err: &mut E, program: &[u8], said: &[u8], of: &[u8]) -> Result<(), SinkFault>
    ensures { Wrote (E.told err.old) (E.told err.new) (E.faults err.old) (E.faults err.new)
        (program.now ++ ((said.now ++ of.now) ++ codes "\n")) result }
{
    write_pieces(err, &[program, said, of, b"\n"])
}
