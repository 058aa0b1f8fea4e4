// The top call where nothing outside can fail.

ghost use Rattle.std.specs.Prelude.{◌≡◌, ◌⊎◌, Ok, Some, false, map};
ghost use Rattle.std.specs.String.{string_bytes};
ghost use Rattle.base_types.specs.FileEntry.{held};
ghost use Rattle.base_types.specs.SinkState.{told_of};
ghost use Rattle.cec_opt_commands.specs.Laws.{IsAccepted};
ghost use Rattle.cec_opt_commands.specs.Lines.{GainsErr};
ghost use Rattle.cec_opt_commands.specs.Outcomes.{IsOptOutcomeOf, GainsOut};
ghost use Rattle.cec_opt_commands.specs.Words.{Request, request_by};

use crate::command::cec_opt;
use crate::outcome::OptOutcome;
use base_types::{Sink, SteadyFiles, SteadySink};
use std::alloc::Global;

/// `cec_opt` over files and a sink in memory that never fail. Where the words have a meaning, and the text that the
/// file holds has no fault and keeps its limit, or the source compiles, it is done, unless memory runs out.
pub fn cec_opt_steadily<E: Sink>(
    alloc: Global,
    words: &[String],
    files: &mut SteadyFiles,
    out: &mut SteadySink,
    err: &mut E,
) -> OptOutcome
    ensures ends { (request : Request) → request_by (map string_bytes words.now) ≡ Ok request →
        IsAccepted request (held files.old) → (result ≡ OptOutcome.Done) ⊎ (result ≡ OptOutcome.NoMemory) }
    ensures agrees { IsOptOutcomeOf (request_by (map string_bytes words.now)) (Some (held files.old)) result }
    ensures files_stay { held files.new ≡ held files.old }
    ensures out { GainsOut (request_by (map string_bytes words.now)) (Some (held files.old)) result
        (record { before = told_of out.old; after = told_of out.new; faults_before = 0; faults_now = 0 }) }
    ensures err { GainsErr false (request_by (map string_bytes words.now)) (Some (held files.old)) result
        (E.told err.old) (E.told err.new) (E.faults err.old) (E.faults err.new) }
{
    cec_opt(alloc, words, files, out, err, false)
}
