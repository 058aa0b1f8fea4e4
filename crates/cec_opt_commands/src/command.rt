// The top call: what the words ask for, done.

ghost use Rattle.std.specs.Prelude.{◌≡◌, ◌≤◌, ◌↔◌, [], length, map, option_map, IsErr, Ok, None};
ghost use Rattle.std.specs.String.{string_bytes};
ghost use Rattle.base_types.specs.SinkChanges.{change};
ghost use Rattle.cec_text_io.specs.ErrorLines.{GainsLine};
ghost use Rattle.cec_opt_commands.specs.Answers.{IsAnswer};
ghost use Rattle.cec_opt_commands.specs.HelpTexts.{own_text};
ghost use Rattle.cec_opt_commands.specs.Lines.{GainsAfter, GainsErr, GainsSourceErr, line_of, named, source_subject};
ghost use Rattle.cec_opt_commands.specs.Outcomes.{IsOptOutcomeOf, CountsFiles, GainsOut, LeavesAnswer};
ghost use Rattle.cec_opt_commands.specs.Outcomes.{LeavesSourceAnswer, SaysOf, SourceSays};
ghost use Rattle.cec_opt_commands.specs.Relations.{given_by};
ghost use Rattle.cec_opt_commands.specs.Views.{plain_request, plain_task, subject_is};
ghost use Rattle.cec_opt_commands.specs.Words.{request_by, Do, Make, Tell};

use crate::lines::{Subject, named, put_waiting, report, report_after, report_misuse};
use crate::outcome::{OptOutcome, source_unread_outcome};
use crate::sources::do_source_task;
use crate::texts::do_task;
use crate::words::{Request, Task, request_by};
use base_types::{Files, Limits, Sink};
use cec_text_io::write_whole;
use cec_words::About;
use std::alloc::Global;

const HELP: &[u8] =
    b"cec-opt blif TEXT      writes the optimized circuit of TEXT, a BLIF file, as BLIF
cec-opt c TEXT         the same as C
cec-opt c --embed NAME TEXT
                       the same as embedded C: a header for any number of instances of NAME
    --packed           after NAME: one bit for each latch of an instance
    --declarations     after NAME: of two files the header NAME.h, with the types and the prototypes
    --definitions      after NAME: of two files the other one, NAME.c, which includes NAME.h
    --header           after NAME: one header with all of it, as without a word for a file
cec-opt verilog TEXT   the same as structural Verilog
cec-opt verilog --reset NAME TEXT
                       the same as Verilog for synthesis, with the reset NAME at edges of the clock
    --async            after NAME: the reset takes effect at once
    --active-low       after NAME: the reset is active where its port is low
    --initial          after NAME: the registers have their first values at power-up too
    --module M         after NAME: the name of the module, in place of the circuit's
    --prefix           after NAME: inputs are i_X and outputs o_X, where X is the signal
    --encode           after NAME and with --source: the circuit with its state in a code, not the lighter one
cec-opt check TEXT     writes the sizes of the circuit and of the optimized one
    --never A,B[,..]   right after the command: at most one of these inputs of TEXT is ever present
    --implies A,B      right after the command: the input B of TEXT is present whenever A is
                       any number of both; events that break one of them do not count
    --source FILE      in place of TEXT: compiles the source FILE, with its state plain and in a code,
                       and takes the lighter circuit; a latch weighs as much as four gates
                       its dependencies may have a cycle, if it is constructive for every event
    --main M           after --source: of the module M, not of the first one
cec-opt --help         writes these lines
cec-opt --version      writes the program's name and version
";

const VERSION: &[u8] = b"cec-opt 0.1.0\n";

// To optimize a text or a source of more bytes can take seconds.
const LARGE_TEXT: usize = 400_000;

const LARGE_SOURCE: usize = 10_000;

/// Does what the words after the program's name ask for, and says how it ended.
///
/// `blif TEXT` reads the BLIF text under that name, makes the netlist of its circuit, optimizes it, and writes its BLIF
/// text to `out`. `c TEXT` writes its C text, and `verilog TEXT` its module of structural Verilog. All three write
/// piece by piece, and keep the interface of the text. `check TEXT` writes two lines of counts, of the circuit that was
/// read and of the optimized one. `--help` writes the list of the commands, and `--version` the program's name and
/// version. Every other list of words is `Usage`. For every outcome except `Done` one line goes to `err`, which for
/// `Usage` names the word at fault. A write to `err` that fails changes no outcome.
///
/// `c --embed NAME TEXT` writes embedded C, as a component of this name. For `Done` take any calls on any number of
/// instances, in any order. An instance that is reset first shows at each call what the text shows that was read
/// (`EmbedKeeps`), or what the source's program means (`EmbeddedTextKeeps`). Calls on one instance change no other one.
/// `BadComponent` has the first fault of the name and of the signals. After `NAME` may come `--packed`, for one bit for
/// each latch, and before or after it a word for the file: `--header`, `--declarations` or `--definitions`. One of two
/// files means that together with the other one of the same netlist.
///
/// `verilog --reset NAME TEXT` writes Verilog for synthesis, with a reset of this name. For `Done` take any edges of
/// the clock and of the reset that begin with a reset. At each edge without one the module shows what the text shows
/// that was read (`ResetKeeps`), or what the source's program means (`ResetTextKeeps`). `BadModule` has the first
/// fault of the names. The words `--async`, `--active-low`, `--initial`, `--prefix` and `--module M` come after `NAME`
/// in any order, also after the file. So does `--encode` with `--source`: then the netlist is not the lighter one, but
/// the one whose latches hold the state in a code, unless the dependencies of the source have a cycle.
///
/// Right after the command may come `--never A,B[,C..]`, at most one of these inputs is present, and `--implies A,B`,
/// the second input is present whenever the first one is, each any number of times. Then only events that meet these
/// relations count, and the netlist may be smaller. A name that is no input is the fault `NoInput` of the text.
///
/// With `--source FILE` in place of `TEXT` the file has a source, which is compiled first, by its module of the name
/// after `--main`, or by its first one. Its plain and its encoded netlist are optimized, and the lighter one is written
/// (`IsLightNetOf`). For `Done` the text keeps what the source's program means, as the texts of `cec` do
/// (`IsSourceAnswer`). `Refused` has the cause for which `cec` refuses the source.
///
/// For `Done` of `blif`, `c` and `verilog` the text that `out` gained has the interface of the text that was read. Take
/// any list of items, resets included, whose events have one value for each input. Both texts have a run over it, and
/// all runs of both show the same values of the outputs, `_paused` among them (`IsAnswer`). The new text has no more
/// gates and no more latches than the circuit's netlist, and nothing is left to simplify.
///
/// `BadText`, `BadComponent`, `BadModule` and `TooLong` come only where the text has their cause. By the law
/// `accepted_texts_are_done`, only such a cause, a failing file or sink, or running out of memory keeps a command from
/// being done. Running out of memory can truncate the output at a piece boundary.
pub fn cec_opt<F: Files, O: Sink, E: Sink>(
    alloc: Global,
    words: &[String],
    files: &mut F,
    out: &mut O,
    err: &mut E,
    progress: bool,
) -> OptOutcome
    ensures usage { (result ≡ OptOutcome.Usage) ↔ IsErr (request_by (map string_bytes words.now)) }
    ensures agrees { IsOptOutcomeOf (request_by (map string_bytes words.now)) (F.content files.old) result }
    ensures files_counted { CountsFiles (request_by (map string_bytes words.now)) result
        (F.faults files.old) (F.faults files.new) (F.last_failed files.old) (F.last_failed files.new) }
    ensures files_stay { F.content files.new ≡ F.content files.old }
    ensures out { GainsOut (request_by (map string_bytes words.now)) (F.content files.old) result
        (change O.told O.faults out.old out.new) }
    ensures err { GainsErr progress (request_by (map string_bytes words.now)) (F.content files.old) result
        (E.told err.old) (E.told err.new) (E.faults err.old) (E.faults err.new) }
{
    match request_by(words) {
        Ok(Request::Do(task, given, name)) => {
            do_file(alloc, task, given, name, files, progress, out, err)
        }
        Ok(Request::Make(task, name, main)) => {
            do_source(alloc, task, name, main, files, progress, out, err)
        }
        Ok(Request::Tell(about)) => tell(about, out, err),
        Err(misuse) => {
            report_misuse(err, misuse);
            OptOutcome::Usage
        }
    }
}

// Writes what the program writes about itself.
fn tell<O: Sink, E: Sink>(about: About, out: &mut O, err: &mut E) -> OptOutcome
    ensures agrees { IsOptOutcomeOf (Ok (Tell about)) None result }
    ensures out { GainsOut (Ok (Tell about)) None result (change O.told O.faults out.old out.new) }
    ensures err { GainsLine (E.told err.old) (E.told err.new) (E.faults err.old) (E.faults err.new)
        (line_of (named []) result) }
{
    let outcome = OptOutcome::from(write_whole(own_text(about), out));
    report(err, named(""), &outcome);
    outcome
}

fn own_text(about: About) -> &'static [u8]
    ensures { result.now ≡ own_text about }
{
    match about {
        About::Commands => HELP,
        About::Version => VERSION,
    }
}

// Does a task on the text in a file.
fn do_file<F: Files, O: Sink, E: Sink>(
    alloc: Global,
    task: Task<'_>,
    given: &[String],
    name: &str,
    files: &mut F,
    progress: bool,
    out: &mut O,
    err: &mut E,
) -> OptOutcome
    ensures agrees { IsOptOutcomeOf
        (Ok (Do (plain_task task.entry) (given_by (map string_bytes given.now)) name.now))
        (F.content files.old) result }
    ensures files_counted { CountsFiles
        (Ok (Do (plain_task task.entry) (given_by (map string_bytes given.now)) name.now)) result
        (F.faults files.old) (F.faults files.new) (F.last_failed files.old) (F.last_failed files.new) }
    ensures files_stay { F.content files.new ≡ F.content files.old }
    ensures out { GainsOut (Ok (Do (plain_task task.entry) (given_by (map string_bytes given.now)) name.now))
        (F.content files.old) result (change O.told O.faults out.old out.new) }
    ensures err { GainsAfter progress (change E.told E.faults err.old err.new) (line_of (named name.now) result) }
{
    match files.read(alloc, name, Limits::TEXT_BYTES) {
        Ok(text) => told_text(alloc, task, given, name, &text, progress, out, err),
        Err(fault) => {
            let outcome = OptOutcome::from(fault);
            report(err, named(name), &outcome);
            outcome
        }
    }
}

// Does a task on a text that was read, and writes the line of the outcome.
fn told_text<O: Sink, E: Sink>(
    alloc: Global,
    task: Task<'_>,
    given: &[String],
    name: &str,
    text: &[u8],
    progress: bool,
    out: &mut O,
    err: &mut E,
) -> OptOutcome
    requires { length text.now ≤ Limits.TEXT_BYTES }
    ensures says { SaysOf (plain_task task.entry) (given_by (map string_bytes given.now)) result text.now }
    ensures out { LeavesAnswer (plain_task task.entry)
        (IsAnswer (plain_task task.entry) text.now (given_by (map string_bytes given.now)))
        (change O.told O.faults out.old out.new) result }
    ensures err { GainsAfter progress (change E.told E.faults err.old err.new) (line_of (named name.now) result) }
{
    let told = put_waiting(err, progress && text.len() > LARGE_TEXT);
    let outcome = do_task(alloc, task, given, text, out);
    report_after(err, told, named(name), &outcome);
    outcome
}

// Does a task on the source in a file.
fn do_source<F: Files, O: Sink, E: Sink>(
    alloc: Global,
    task: Task<'_>,
    name: &str,
    main: Option<&[u8]>,
    files: &mut F,
    progress: bool,
    out: &mut O,
    err: &mut E,
) -> OptOutcome
    ensures agrees { IsOptOutcomeOf (Ok (Make (plain_task task.entry) name.now (option_map (λ m. m.now) main.entry)))
        (F.content files.old) result }
    ensures files_counted { CountsFiles
        (Ok (Make (plain_task task.entry) name.now (option_map (λ m. m.now) main.entry)))
        result (F.faults files.old) (F.faults files.new) (F.last_failed files.old) (F.last_failed files.new) }
    ensures files_stay { F.content files.new ≡ F.content files.old }
    ensures out { GainsOut (Ok (Make (plain_task task.entry) name.now (option_map (λ m. m.now) main.entry)))
        (F.content files.old) result (change O.told O.faults out.old out.new) }
    ensures err { GainsSourceErr progress name.now (option_map (λ m. m.now) main.entry) (F.content files.old) result
        (change E.told E.faults err.old err.new) }
{
    match files.read(alloc, name, Limits::SOURCE_BYTES) {
        Ok(source) => told_source(alloc, task, name, main, &source, progress, out, err),
        Err(fault) => {
            let outcome = source_unread_outcome(fault);
            report(err, source_subject(name, main, b""), &outcome);
            outcome
        }
    }
}

// Does a task on a source that was read, and writes the line of the outcome.
fn told_source<O: Sink, E: Sink>(
    alloc: Global,
    task: Task<'_>,
    name: &str,
    main: Option<&[u8]>,
    source: &[u8],
    progress: bool,
    out: &mut O,
    err: &mut E,
) -> OptOutcome
    requires { length source.now ≤ Limits.SOURCE_BYTES }
    ensures says { SourceSays (plain_task task.entry) (option_map (λ m. m.now) main.entry) result source.now }
    ensures out { LeavesSourceAnswer (plain_task task.entry) source.now (option_map (λ m. m.now) main.entry)
        (change O.told O.faults out.old out.new) result }
    ensures err { GainsAfter progress (change E.told E.faults err.old err.new)
        (line_of (source_subject name.now (option_map (λ m. m.now) main.entry) source.now) result) }
{
    let told = put_waiting(err, progress && source.len() > LARGE_SOURCE);
    let outcome = do_source_task(alloc, task, source, main, out);
    report_after(err, told, source_subject(name, main, source), &outcome);
    outcome
}

// What a line about a source speaks of.
fn source_subject<'a>(name: &'a str, main: Option<&'a [u8]>, source: &'a [u8]) -> Subject<'a>
    ensures subject { subject_is result
        ≡ source_subject name.now (option_map (λ m. m.now) main.entry) source.now }
    ensures source { result.source.now ≡ source.now }
{
    Subject {
        name,
        main: main.unwrap_or(b""),
        source,
    }
}
