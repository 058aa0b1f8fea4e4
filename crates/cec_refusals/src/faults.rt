// The line of a fault of a BLIF text.

ghost use Rattle.std.specs.Prelude.{◌++◌, codes};
ghost use Rattle.base_types.specs.Writing.{Wrote};
ghost use Rattle.blif_read.specs.declared.fault.BlifFault.TheVariants.{Line as is_line};
ghost use Rattle.cec_refusals.specs.BlifFaults.{blif_fault_text};

use base_types::{Sink, SinkFault, write_pieces};
use blif_read::BlifFault;
use cec_text_io::put_loop;
use itoa::Buffer;

/// The line of a fault of a BLIF text, after its beginning. Writing it takes no memory; a prefix of the line was
/// appended where the sink failed.
pub fn put_blif_fault<E: Sink>(
    err: &mut E,
    begin: &[u8],
    fault: &BlifFault,
) -> Result<(), SinkFault>
    ensures { Wrote (E.told err.old) (E.told err.new) (E.faults err.old) (E.faults err.new)
        (begin.now ++ (blif_fault_text fault.now ++ codes "\n")) result }
{
    match fault {
        BlifFault::TooLong => write_pieces(err, &[begin, b"limit: text", b"\n"]),
        BlifFault::Line(number) => put_line_fault(err, begin, *number),
        BlifFault::TwoDrivers(name) => {
            write_pieces(err, &[begin, b"two drivers: ", name.bytes(), b"\n"])
        }
        BlifFault::NoDriver(name) => {
            write_pieces(err, &[begin, b"no driver: ", name.bytes(), b"\n"])
        }
        BlifFault::NoPause => write_pieces(err, &[begin, b"last output is not _paused", b"\n"]),
        BlifFault::Model(name) => {
            write_pieces(err, &[begin, b"bad model: ", name.bytes(), b"\n"])
        }
        BlifFault::Input(name) => {
            write_pieces(err, &[begin, b"bad input: ", name.bytes(), b"\n"])
        }
        BlifFault::Output(name) => {
            write_pieces(err, &[begin, b"bad output: ", name.bytes(), b"\n"])
        }
        BlifFault::Again(name) => {
            write_pieces(err, &[begin, b"output twice: ", name.bytes(), b"\n"])
        }
        BlifFault::Loop(names) => put_loop(err, begin, names),
        BlifFault::TooManyNets => write_pieces(err, &[begin, b"limit: nets", b"\n"]),
        BlifFault::NoInput(name) => {
            write_pieces(err, &[begin, b"no input: ", name.bytes(), b"\n"])
        }
    }
}

// The line about a line that is not in the profile.
fn put_line_fault<E: Sink>(err: &mut E, begin: &[u8], number: u32) -> Result<(), SinkFault>
    ensures { Wrote (E.told err.old) (E.told err.new) (E.faults err.old) (E.faults err.new)
        (begin.now ++ (blif_fault_text (is_line number) ++ codes "\n")) result }
{
    let mut shown = Buffer::new();
    let shown = shown.format(number).as_bytes();
    write_pieces(
        err,
        &[begin, b"line ", shown, b": not in the profile", b"\n"],
    )
}
