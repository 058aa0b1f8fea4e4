// The top call: what the words ask for, done.

ghost use Rattle.std.specs.Prelude.{◌≡◌, ◌↔◌, map, Some, None};
ghost use Rattle.std.specs.String.{string_bytes};
ghost use Rattle.base_types.specs.SinkChanges.{change};
ghost use Rattle.cec_commands.specs.Jobs.{request_by};
ghost use Rattle.cec_commands.specs.JobViews.{CanBeGenerated, plain_request};
ghost use Rattle.cec_commands.specs.Lines.{GainsErr};
ghost use Rattle.cec_commands.specs.Outcomes.{IsOutcomeOf, CountsFiles, GainsOut};

use crate::commands::exec::exec_text;
use crate::commands::load::write_load;
use crate::commands::make::make_text;
use crate::commands::plain::{write_generated, write_help};
use crate::commands::run::run_file;
use crate::commands::tri::react_file;
use crate::jobs::{Request, request_by};
use crate::lines::{report, subject_of_none};
use crate::outcome::Outcome;
use base_types::{Files, Sink};
use std::alloc::Global;

/// Does what the words after the program's name ask for, and says how it ended.
///
/// `blif FILE` reads the source under that name and writes its BLIF text to `out`, piece by piece. In the same way
/// `c FILE` writes its C text, `verilog FILE` its Verilog text, and `c --guard FILE` its guarded C text. `grc FILE`
/// writes the listing of its graph, and `check FILE` a line of counts.
///
/// `run --via blif FILE TRACE`, or `--via c`, `--via guard` or `--via verilog`, compiles the source, writes its text of
/// that form into memory, reads it again and runs it over the trace. It writes one line for each instant, right after
/// its reaction. `exec --via blif TEXT TRACE`, or `--via c`, `--via guard` or `--via verilog`, runs a text by its own
/// meaning. With `--via guard`, both end a complete run with the number of assignments that all calls ran.
///
/// `gen --start N --branches N` writes a generated source. With `--run N` it writes instead the numbers of a run of
/// that source over generated events, via its BLIF text and via its C text. `--help` writes the list of the commands.
///
/// `--main M` names the main module. `--pick first`, `--pick last` or `--pick N` says how the evaluation order of a
/// text is chosen. With `--encode` the latches of the BLIF text, which `blif` writes and `run --via blif` runs, hold
/// the state in a code.
///
/// Every other list of words is `Usage`. For every outcome but `Done` one line goes to `err`; a write to `err` that
/// fails changes no outcome.
///
/// For `Done` of `blif` the compiler-correctness theorem holds of the text that `out` gained (`TextKeeps`). The text
/// has a reading by the BLIF profile, with the program's inputs, and with its outputs followed by `_paused`. Over every
/// list of events that meet the relations, each reaction of the source is constructive, and the text has a run. Any two
/// runs agree, and the outputs and `_paused` are those of the reactions. All this holds with `--encode` too.
///
/// For `c` the theorem holds with the machine of the C subset (`CTextKeeps`), and for `verilog` with that of the text's
/// module (`VerilogTextKeeps`). For `c --guard` it holds with the machine of guarded programs (`GuardedTextKeeps`), and
/// `IsGuardedOf` states what the calls run. For `run` the lines are those of the source's own reactions to the items of
/// the trace (`RunsSource`), whichever text runs. For `exec` they are those of the text's own run (`RunsBy`).
///
/// `Static`, `Cyclic`, `Trace`, `BadText` and `Limit` come only where the source, the trace or the text has their
/// cause; for `Cyclic` that is a cycle of the dependency relation, which is shown. That nothing but such a cause, a
/// failing file or sink, or out of memory keeps a command from being done is the law `accepted_requests_are_done`.
/// Running out of memory can truncate the output at a piece or line boundary.
///
/// Example: the words `blif` and `abro.strl` write the BLIF text of that file to `out`, and the outcome is `Done`,
/// status 0.
pub fn cec<F: Files, O: Sink, E: Sink>(
    alloc: Global,
    words: &[String],
    files: &mut F,
    out: &mut O,
    err: &mut E,
) -> Outcome
    ensures usage { (result ≡ Outcome.Usage) ↔ (request_by (map string_bytes words.now) ≡ None) }
    ensures agrees { IsOutcomeOf (request_by (map string_bytes words.now)) (F.content files.old) result }
    ensures files_counted { CountsFiles (request_by (map string_bytes words.now)) result
        (F.faults files.old) (F.faults files.new) (F.last_failed files.old) (F.last_failed files.new) }
    ensures files_stay { F.content files.new ≡ F.content files.old }
    ensures out { GainsOut (request_by (map string_bytes words.now)) (F.content files.old) result
        (change O.told O.faults out.old out.new) }
    ensures err { GainsErr (request_by (map string_bytes words.now)) (F.content files.old) result
        (E.told err.old) (E.told err.new) (E.faults err.old) (E.faults err.new) }
{
    match request_by(words) {
        Some(request) => do_request(alloc, request, files, out, err),
        None => {
            report(err, subject_of_none(), &Outcome::Usage);
            Outcome::Usage
        }
    }
}

// Does what is asked for, and says how it ended.
fn do_request<F: Files, O: Sink, E: Sink>(
    alloc: Global,
    request: Request<'_>,
    files: &mut F,
    out: &mut O,
    err: &mut E,
) -> Outcome
    requires generated { CanBeGenerated (plain_request request) }
    ensures agrees { IsOutcomeOf (Some (plain_request request.entry)) (F.content files.old) result }
    ensures files_counted { CountsFiles (Some (plain_request request.entry)) result
        (F.faults files.old) (F.faults files.new) (F.last_failed files.old) (F.last_failed files.new) }
    ensures files_stay { F.content files.new ≡ F.content files.old }
    ensures out { GainsOut (Some (plain_request request.entry)) (F.content files.old) result
        (change O.told O.faults out.old out.new) }
    ensures err { GainsErr (Some (plain_request request.entry)) (F.content files.old) result
        (E.told err.old) (E.told err.new) (E.faults err.old) (E.faults err.new) }
{
    match request {
        Request::Help => {
            let outcome = write_help(out);
            report(err, subject_of_none(), &outcome);
            outcome
        }
        Request::Make(task, job) => make_text(alloc, task, job, files, out, err),
        Request::Run(via, job, trace) => run_file(alloc, via, job, trace, files, out, err),
        Request::RunTri(job, trace) => react_file(alloc, job, trace, files, out, err),
        Request::Exec(via, text, trace) => exec_text(alloc, via, text, trace, files, out, err),
        Request::Generate(start, branches) => {
            let outcome = write_generated(alloc, start, branches, out);
            report(err, subject_of_none(), &outcome);
            outcome
        }
        Request::Load(start, branches, instants) => {
            write_load(alloc, start, branches, instants, out, err)
        }
    }
}
