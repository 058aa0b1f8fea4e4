// The line about an outcome.

ghost use Rattle.std.specs.Prelude.{◌≡◌, ◌≤◌, ◌++◌, ℕ, List, Option, codes, length};
ghost use Rattle.base_types.specs.Writing.{Wrote};
ghost use Rattle.cec_text_io.specs.ErrorLines.{GainsLine};
ghost use Rattle.cec_refusals.specs.Views.{refused_is};
ghost use Rattle.cec_opt_commands.specs.Lines.{component_fault_text, line_of, named};
ghost use Rattle.cec_opt_commands.specs.Lines.{reset_fault_text, own_line, refused_of, stuck_text, told_first};
ghost use Rattle.cec_words.specs.CommonWords.{misuse_is};
ghost use Rattle.cec_opt_commands.specs.Views.{subject_is};

use crate::outcome::OptOutcome;
use base_types::{Limits, Sink, SinkFault, write_pieces};
use cec_cycles::Stuck;
use cec_refusals::{RefusedSource, put_blif_fault, put_refusal};
use cec_words::Misuse;
use csub_embed::EmbedFault;
use itoa::Buffer;
use vlog_reset::ResetFault;

/// What a line speaks of: the name of the file, and of a source also the main module and the bytes.
#[derive(Clone, Copy)]
pub(crate) struct Subject<'a> {
    pub(crate) name: &'a str,
    pub(crate) main: &'a [u8],
    pub(crate) source: &'a [u8],
}

/// The subject of a line that speaks of no source.
pub(crate) fn named(name: &str) -> Subject<'_>
    ensures subject { subject_is result ≡ named name.now }
    ensures short { length result.source.now ≡ 0 }
{
    Subject {
        name,
        main: b"",
        source: b"",
    }
}

/// Writes the line of an outcome; a sink that fails changes nothing.
pub(crate) fn report<E: Sink>(err: &mut E, subject: Subject<'_>, outcome: &OptOutcome)
    requires { length subject.source.now ≤ Limits.SOURCE_BYTES }
    ensures { GainsLine (E.told err.old) (E.told err.new) (E.faults err.old) (E.faults err.new)
        (line_of (subject_is subject.entry) outcome.now) }
{
    let _ = put_line(err, subject, outcome);
}

/// The same after another line, whose writing ended so. Where the sink failed on that, nothing is written.
pub(crate) fn report_after<E: Sink>(
    err: &mut E,
    told: Result<(), SinkFault>,
    subject: Subject<'_>,
    outcome: &OptOutcome,
)
    requires { length subject.source.now ≤ Limits.SOURCE_BYTES }
    ensures { (before : Option (List ℕ)) (faults : ℕ) (line : List ℕ)
        → Wrote before (E.told err.old) faults (E.faults err.old) line told
        → GainsLine before (E.told err.new) faults (E.faults err.new)
        (line ++ line_of (subject_is subject.entry) outcome.now) }
{
    match told {
        Ok(()) => report(err, subject, outcome),
        Err(_) => (),
    }
}

/// Writes the line for a person who waits, if one does; a prefix of it was appended where the sink failed.
pub(crate) fn put_waiting<E: Sink>(err: &mut E, waits: bool) -> Result<(), SinkFault>
    ensures { Wrote (E.told err.old) (E.told err.new) (E.faults err.old) (E.faults err.new)
        (told_first waits) result }
{
    if waits {
        put_said(err, b"optimizing, which can take a minute", b"")
    } else {
        Ok(())
    }
}

/// Writes the line about words that have no meaning; a sink that fails changes nothing.
pub(crate) fn report_misuse<E: Sink>(err: &mut E, misuse: Misuse<'_>)
    ensures { GainsLine (E.told err.old) (E.told err.new) (E.faults err.old) (E.faults err.new)
        (line_of (named (misuse_is misuse.entry)) OptOutcome.Usage) }
{
    let _ = put_misuse(err, misuse);
}

// The line about words that have no meaning.
fn put_misuse<E: Sink>(err: &mut E, misuse: Misuse<'_>) -> Result<(), SinkFault>
    ensures { Wrote (E.told err.old) (E.told err.new) (E.faults err.old) (E.faults err.new)
        (line_of (named (misuse_is misuse.entry)) OptOutcome.Usage) result }
{
    write_pieces(
        err,
        &[
            b"cec-opt: ",
            misuse.fault,
            misuse.word,
            b", see cec-opt --help",
            b"\n",
        ],
    )
}

// A line of two parts.
fn put_said<E: Sink>(err: &mut E, said: &[u8], of: &[u8]) -> Result<(), SinkFault>
    ensures { Wrote (E.told err.old) (E.told err.new) (E.faults err.old) (E.faults err.new)
        (own_line (said.now ++ of.now)) result }
{
    write_pieces(err, &[b"cec-opt: ", said, of, b"\n"])
}

// The line of an outcome, none for `Done`. Writing it takes no memory; a prefix of the line was appended where the
// sink failed.
fn put_line<E: Sink>(
    err: &mut E,
    subject: Subject<'_>,
    outcome: &OptOutcome,
) -> Result<(), SinkFault>
    requires { length subject.source.now ≤ Limits.SOURCE_BYTES }
    ensures { Wrote (E.told err.old) (E.told err.new) (E.faults err.old) (E.faults err.new)
        (line_of (subject_is subject.entry) outcome.now) result }
{
    match outcome {
        OptOutcome::Done => Ok(()),
        OptOutcome::Usage => put_said(err, subject.name.as_bytes(), b", see cec-opt --help"),
        OptOutcome::FileFault => put_said(err, b"cannot read ", subject.name.as_bytes()),
        OptOutcome::BadText(fault) => put_blif_fault(err, b"cec-opt: ", fault),
        OptOutcome::BadComponent(fault) => put_component_fault(err, fault),
        OptOutcome::BadModule(fault) => put_module_fault(err, fault),
        OptOutcome::TooLong => put_said(err, b"limit: text", b""),
        OptOutcome::Refused(refusal) => put_refusal(err, refused_of(subject), refusal),
        OptOutcome::NotConstructive(stuck) => put_stuck(err, stuck),
        OptOutcome::Undecided(cycle) => put_said(err, b"undecided: ", &cycle.text),
        OptOutcome::TooManyNets(cycle) => put_said(err, b"limit: nets: ", &cycle.text),
        OptOutcome::WriteFault => put_said(err, b"cannot write", b""),
        OptOutcome::NoMemory => put_said(err, b"out of memory", b""),
    }
}

// The line of a fault of a component.
fn put_component_fault<E: Sink>(err: &mut E, fault: &EmbedFault) -> Result<(), SinkFault>
    ensures { Wrote (E.told err.old) (E.told err.new) (E.faults err.old) (E.faults err.new)
        (own_line (component_fault_text fault.now)) result }
{
    match fault {
        EmbedFault::NoName => put_said(
            err,
            b"the name after --embed is not a letter followed by letters, digits and _",
            b"",
        ),
        EmbedFault::TypeTaken => put_said(
            err,
            b"the name after --embed, with _t, is a type of the library",
            b"",
        ),
        EmbedFault::Reserved(word) => {
            put_said(err, b"a signal is a word of C or C++: ", word.bytes())
        }
    }
}

// The line of a fault of the names of a module.
fn put_module_fault<E: Sink>(err: &mut E, fault: &ResetFault) -> Result<(), SinkFault>
    ensures { Wrote (E.told err.old) (E.told err.new) (E.faults err.old) (E.faults err.new)
        (own_line (reset_fault_text fault.now)) result }
{
    match fault {
        ResetFault::NoModule => put_said(
            err,
            b"the name of the module is not a letter followed by letters, digits and _",
            b"",
        ),
        ResetFault::NoReset => put_said(
            err,
            b"the name after --reset is not a letter followed by letters, digits and _",
            b"",
        ),
        ResetFault::Reserved(word) => {
            put_said(err, b"a name is a word of Verilog: ", word.bytes())
        }
        ResetFault::Twice(name) => put_said(err, b"two names are the same: ", name.bytes()),
    }
}

// The line of a program that is not constructive.
fn put_stuck<E: Sink>(err: &mut E, stuck: &Stuck) -> Result<(), SinkFault>
    ensures { Wrote (E.told err.old) (E.told err.new) (E.faults err.old) (E.faults err.new)
        (own_line (stuck_text stuck.now)) result }
{
    let mut shown = Buffer::new();
    let shown = shown.format(stuck.instant).as_bytes();
    write_pieces(
        err,
        &[
            b"cec-opt: ",
            b"instant ",
            shown,
            b": not constructive: ",
            &stuck.text,
            b"\n",
        ],
    )
}

// What the line about a refused source speaks of.
fn refused_of(subject: Subject<'_>) -> RefusedSource<'_>
    ensures refused { refused_is result ≡ refused_of (subject_is subject.entry) }
    ensures source { result.source.now ≡ subject.entry.source.now }
{
    RefusedSource {
        program: b"cec-opt: ",
        name: subject.name,
        main: subject.main,
        source: subject.source,
    }
}
