// The lines about faults of traces and texts.

ghost use Rattle.std.specs.Prelude.{◌++◌, codes, decimal, map};
ghost use Rattle.base_types.specs.Writing.{Wrote};
ghost use Rattle.cec_commands.specs.Lines.{program_fault_text, text_fault_text};
ghost use Rattle.cec_commands.specs.Lines.{guarded_fault_text, module_fault_text, trace_text, unknown_text};
ghost use Rattle.grc_graph.specs.PlainWireNames.{wire_name_of};

use crate::text_faults::TextFault;
use crate::unknown_wires::UnknownWires;
use base_types::{Sink, SinkFault, write_pieces};
use cec_refusals::put_blif_fault;
use cec_text_io::put_loop;
use csub_guard_read::GuardedFault;
use csub_read::CFault;
use itoa::Buffer;
use run_trace_io::TraceFault;
use vlog_read::VlogFault;

/// The line of a fault of a trace.
pub(crate) fn put_trace_fault<E: Sink>(err: &mut E, fault: &TraceFault) -> Result<(), SinkFault>
    ensures { Wrote (E.told err.old) (E.told err.new) (E.faults err.old) (E.faults err.new)
        (codes "cec: " ++ (trace_text fault.now ++ codes "\n")) result }
{
    match fault {
        TraceFault::BadByte(place) => put_numbered(err, b"byte ", *place, b": bad byte", b""),
        TraceFault::UnknownInput(instant, name) => put_numbered(
            err,
            b"instant ",
            *instant,
            b": unknown input ",
            name.bytes(),
        ),
        TraceFault::Repeated(instant, name) => put_numbered(
            err,
            b"instant ",
            *instant,
            b": repeated ",
            name.bytes(),
        ),
        TraceFault::BadReset(instant) => put_numbered(
            err,
            b"instant ",
            *instant,
            b": bad reset",
            b"",
        ),
        TraceFault::OpenInstant(instant) => put_numbered(
            err,
            b"instant ",
            *instant,
            b": open",
            b"",
        ),
        TraceFault::Breaks(instant, relation) => {
            let mut number = Buffer::new();
            let number = number.format(*relation).as_bytes();
            put_numbered(err, b"instant ", *instant, b": breaks relation ", number)
        }
    }
}

// A line with a number after its first word.
fn put_numbered<E: Sink>(
    err: &mut E,
    word: &'static [u8],
    number: u32,
    text: &'static [u8],
    rest: &[u8],
) -> Result<(), SinkFault>
    ensures { Wrote (E.told err.old) (E.told err.new) (E.faults err.old) (E.faults err.new)
        (codes "cec: " ++ ((word.now ++ (decimal number ++ (text.now ++ rest.now))) ++ codes "\n")) result }
{
    let mut shown = Buffer::new();
    let shown = shown.format(number).as_bytes();
    write_pieces(err, &[b"cec: ", word, shown, text, rest, b"\n"])
}

/// The line of an instant in which wires stay unknown.
pub(crate) fn put_unknown<E: Sink>(err: &mut E, wires: &UnknownWires) -> Result<(), SinkFault>
    ensures { Wrote (E.told err.old) (E.told err.new) (E.faults err.old) (E.faults err.new)
        (codes "cec: " ++ (unknown_text wires.now.instant (map wire_name_of wires.now.wires.items) ++ codes "\n"))
        result }
{
    put_numbered(
        err,
        b"instant ",
        wires.instant,
        b": not constructive: ",
        wires.text.as_slice(),
    )
}

/// The line of a fault of a text.
pub(crate) fn put_text_fault<E: Sink>(err: &mut E, fault: &TextFault) -> Result<(), SinkFault>
    ensures { Wrote (E.told err.old) (E.told err.new) (E.faults err.old) (E.faults err.new)
        (codes "cec: " ++ (text_fault_text fault.now ++ codes "\n")) result }
{
    match fault {
        TextFault::Blif(fault) => put_blif_fault(err, b"cec: ", fault),
        TextFault::C(fault) => put_program_fault(err, fault),
        TextFault::Guard(fault) => put_guarded_fault(err, fault),
        TextFault::Verilog(fault) => put_module_fault(err, fault),
    }
}

// The line of a fault of a text of the C subset.
fn put_program_fault<E: Sink>(err: &mut E, fault: &CFault) -> Result<(), SinkFault>
    ensures { Wrote (E.told err.old) (E.told err.new) (E.faults err.old) (E.faults err.new)
        (codes "cec: " ++ (program_fault_text fault.now ++ codes "\n")) result }
{
    match fault {
        CFault::TooLong => write_pieces(err, &[b"cec: ", b"limit: text", b"\n"]),
        CFault::Syntax(place) => put_numbered(err, b"byte ", *place, b": syntax", b""),
        CFault::Twice(name) => {
            write_pieces(err, &[b"cec: ", b"declared twice: ", name.bytes(), b"\n"])
        }
        CFault::Undeclared(name) => {
            write_pieces(err, &[b"cec: ", b"undeclared: ", name.bytes(), b"\n"])
        }
        CFault::Unset(name) => { write_pieces(err, &[b"cec: ", b"unset: ", name.bytes(), b"\n"]) }
    }
}

// The line of a fault of a guarded text.
fn put_guarded_fault<E: Sink>(err: &mut E, fault: &GuardedFault) -> Result<(), SinkFault>
    ensures { Wrote (E.told err.old) (E.told err.new) (E.faults err.old) (E.faults err.new)
        (codes "cec: " ++ (guarded_fault_text fault.now ++ codes "\n")) result }
{
    match fault {
        GuardedFault::TooLong => write_pieces(err, &[b"cec: ", b"limit: text", b"\n"]),
        GuardedFault::Syntax(place) => put_numbered(err, b"byte ", *place, b": syntax", b""),
        GuardedFault::Twice(name) => {
            write_pieces(err, &[b"cec: ", b"declared twice: ", name.bytes(), b"\n"])
        }
        GuardedFault::Undeclared(name) => {
            write_pieces(err, &[b"cec: ", b"undeclared: ", name.bytes(), b"\n"])
        }
        GuardedFault::Again(name) => {
            write_pieces(err, &[b"cec: ", b"assigned twice: ", name.bytes(), b"\n"])
        }
        GuardedFault::Unset(name) => {
            write_pieces(err, &[b"cec: ", b"unset: ", name.bytes(), b"\n"])
        }
    }
}

// The line of a fault of a Verilog text.
fn put_module_fault<E: Sink>(err: &mut E, fault: &VlogFault) -> Result<(), SinkFault>
    ensures { Wrote (E.told err.old) (E.told err.new) (E.faults err.old) (E.faults err.new)
        (codes "cec: " ++ (module_fault_text fault.now ++ codes "\n")) result }
{
    match fault {
        VlogFault::TooLong => write_pieces(err, &[b"cec: ", b"limit: text", b"\n"]),
        VlogFault::Syntax(place) => put_numbered(err, b"byte ", *place, b": syntax", b""),
        VlogFault::Twice(name) => {
            write_pieces(err, &[b"cec: ", b"declared twice: ", name.bytes(), b"\n"])
        }
        VlogFault::Port(name) => {
            write_pieces(err, &[b"cec: ", b"bad port: ", name.bytes(), b"\n"])
        }
        VlogFault::Undeclared(name) => {
            write_pieces(err, &[b"cec: ", b"undeclared: ", name.bytes(), b"\n"])
        }
        VlogFault::TwoDrivers(name) => {
            write_pieces(err, &[b"cec: ", b"two drivers: ", name.bytes(), b"\n"])
        }
        VlogFault::NoDriver(name) => {
            write_pieces(err, &[b"cec: ", b"no driver: ", name.bytes(), b"\n"])
        }
        VlogFault::Loop(names) => put_loop(err, b"cec: ", names),
    }
}
