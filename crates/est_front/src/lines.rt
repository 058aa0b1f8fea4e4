// The line about a static fault.

ghost use Rattle.std.specs.Prelude.{◌≡◌, ◌≤◌, ◌++◌, length, codes, flat_map};
ghost use Rattle.base_types.specs.Writing.{Wrote};
ghost use Rattle.est_front.specs.Lines.{placed, fault_text, name_text, scope_text};

use crate::position::position_of;
use crate::refusal::Fault;
use base_types::{Limits, Sink, SinkFault, Text, write_pieces};
use est_expand::ScopeFault;
use est_names::NameFault;
use itoa::Buffer;

/// What a line may speak of: the name that was asked for the main module, and the source.
#[derive(Clone, Copy)]
pub struct Subject<'a> {
    pub main: &'a [u8],
    pub source: &'a [u8],
}

/// The line of a static fault: its place, by line and column, and what is wrong there. Writing it takes no memory; a
/// prefix of the line was appended where the sink failed.
pub fn put_fault<E: Sink>(err: &mut E, subject: Subject<'_>, fault: &Fault) -> Result<(), SinkFault>
    requires { length subject.source.now ≤ Limits.SOURCE_BYTES }
    ensures { Wrote (E.told err.old) (E.told err.new) (E.faults err.old) (E.faults err.new)
        (codes "cec: " ++ (fault_text subject.entry.source.now subject.entry.main.now fault.now ++ codes "\n")) result }
{
    match fault {
        Fault::BadByte(place) => put_placed(err, subject.source, *place, b"bad byte", b""),
        Fault::OpenComment(place) => put_placed(err, subject.source, *place, b"open comment", b""),
        Fault::BigNumber(place) => put_placed(
            err,
            subject.source,
            *place,
            b"number too large",
            b"",
        ),
        Fault::Syntax(_, place) => put_placed(err, subject.source, *place, b"syntax", b""),
        Fault::Name(fault) => put_name_fault(err, subject, *fault),
        Fault::Scope(fault) => put_scope_fault(err, subject.source, fault),
        Fault::BadCount(at) => put_placed(err, subject.source, at.start, b"bad count", b""),
        Fault::InstantLoop(at) => put_placed(
            err,
            subject.source,
            at.start,
            b"instantaneous loop",
            b"",
        ),
    }
}

// The line of a fault of the names.
fn put_name_fault<E: Sink>(
    err: &mut E,
    subject: Subject<'_>,
    fault: NameFault,
) -> Result<(), SinkFault>
    requires { length subject.source.now ≤ Limits.SOURCE_BYTES }
    ensures { Wrote (E.told err.old) (E.told err.new) (E.faults err.old) (E.faults err.new)
        (codes "cec: " ++ (name_text subject.entry.source.now subject.entry.main.now fault ++ codes "\n")) result }
{
    match fault {
        NameFault::DuplicateModule(at) => put_placed(
            err,
            subject.source,
            at.start,
            b"module declared twice",
            b"",
        ),
        NameFault::NoMain => write_pieces(err, &[b"cec: ", b"no module ", subject.main, b"\n"]),
        NameFault::DuplicateSignal(at) => put_placed(
            err,
            subject.source,
            at.start,
            b"signal declared twice",
            b"",
        ),
        NameFault::RelationName(at) => put_placed(
            err,
            subject.source,
            at.start,
            b"not an input",
            b"",
        ),
    }
}

// The line of a name, a `run` or an `exit` without a meaning.
fn put_scope_fault<E: Sink>(err: &mut E, source: &[u8], fault: &ScopeFault) -> Result<(), SinkFault>
    requires { length source.now ≤ Limits.SOURCE_BYTES }
    ensures { Wrote (E.told err.old) (E.told err.new) (E.faults err.old) (E.faults err.new)
        (codes "cec: " ++ (scope_text source.now fault.now ++ codes "\n")) result }
{
    match fault {
        ScopeFault::UnknownModule(at) => put_placed(err, source, at.start, b"unknown module", b""),
        ScopeFault::Recursive(at, names) => put_recursive(err, source, at.start, names),
        ScopeFault::BadRename(at) => put_placed(err, source, at.start, b"bad renaming", b""),
        ScopeFault::UnknownSignal(at) => put_placed(err, source, at.start, b"unknown signal", b""),
        ScopeFault::Unbound(at, formal) => put_placed(
            err,
            source,
            at.start,
            b"unbound ",
            formal.bytes(),
        ),
        ScopeFault::UnknownTrap(at) => put_placed(err, source, at.start, b"unknown trap", b""),
        ScopeFault::EmitInput(at) => put_placed(err, source, at.start, b"input emitted", b""),
    }
}

// A line about a place of the source: a word and what follows it.
fn put_placed<E: Sink>(
    err: &mut E,
    source: &[u8],
    place: u32,
    word: &[u8],
    rest: &[u8],
) -> Result<(), SinkFault>
    requires { length source.now ≤ Limits.SOURCE_BYTES }
    ensures { Wrote (E.told err.old) (E.told err.new) (E.faults err.old) (E.faults err.new)
        (codes "cec: " ++ (placed source.now place (word.now ++ rest.now) ++ codes "\n")) result }
{
    let position = position_of(source, place);
    let mut line = Buffer::new();
    let mut column = Buffer::new();
    let line = line.format(position.line).as_bytes();
    let column = column.format(position.column).as_bytes();
    write_pieces(
        err,
        &[b"cec: ", line, b":", column, b": ", word, rest, b"\n"],
    )
}

// The line of a `run` that leads back to a module that it is in.
fn put_recursive<E: Sink>(
    err: &mut E,
    source: &[u8],
    place: u32,
    names: &[Text],
) -> Result<(), SinkFault>
    requires { length source.now ≤ Limits.SOURCE_BYTES }
    ensures { Wrote (E.told err.old) (E.told err.new) (E.faults err.old) (E.faults err.new)
        (codes "cec: " ++ (placed source.now place (codes "recursive run"
        ++ flat_map (λ name. codes " " ++ name) names.now)
        ++ codes "\n")) result }
{
    if let Err(fault) = put_front(err, source, place, b"recursive run") {
        return Err(fault);
    }
    if let Err(fault) = put_names(err, names) {
        return Err(fault);
    }
    write_pieces(err, &[b"\n"])
}

// The front of a line about a place of the source, up to a word.
fn put_front<E: Sink>(err: &mut E, source: &[u8], place: u32, word: &[u8]) -> Result<(), SinkFault>
    requires { length source.now ≤ Limits.SOURCE_BYTES }
    ensures { Wrote (E.told err.old) (E.told err.new) (E.faults err.old) (E.faults err.new)
        (codes "cec: " ++ placed source.now place word.now) result }
{
    let position = position_of(source, place);
    let mut line = Buffer::new();
    let mut column = Buffer::new();
    let line = line.format(position.line).as_bytes();
    let column = column.format(position.column).as_bytes();
    write_pieces(err, &[b"cec: ", line, b":", column, b": ", word])
}

// Names, with a space before each.
fn put_names<E: Sink>(err: &mut E, names: &[Text]) -> Result<(), SinkFault>
    ensures { Wrote (E.told err.old) (E.told err.new) (E.faults err.old) (E.faults err.new)
        (flat_map (λ name. codes " " ++ name) names.now) result }
{
    for name in names {
        if let Err(fault) = put_name(err, name) {
            return Err(fault);
        }
    }
    Ok(())
}

// A space and a name.
fn put_name<E: Sink>(err: &mut E, name: &Text) -> Result<(), SinkFault>
    ensures { Wrote (E.told err.old) (E.told err.new) (E.faults err.old) (E.faults err.new)
        (codes " " ++ name.now) result }
{
    write_pieces(err, &[b" ", name.bytes()])
}
