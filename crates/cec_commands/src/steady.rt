// The top call where nothing outside can fail.

ghost use Rattle.std.specs.Prelude.{◌≡◌, ◌⊎◌, Some, map};
ghost use Rattle.std.specs.String.{string_bytes};
ghost use Rattle.base_types.specs.FileEntry.{held};
ghost use Rattle.base_types.specs.SinkState.{told_of};
ghost use Rattle.cec_commands.specs.Accepted.{IsAccepted};
ghost use Rattle.cec_commands.specs.Jobs.{Request, request_by};
ghost use Rattle.cec_commands.specs.Lines.{GainsErr};
ghost use Rattle.cec_commands.specs.Outcomes.{IsOutcomeOf, GainsOut};

use crate::command::cec;
use crate::outcome::Outcome;
use base_types::{Sink, SteadyFiles, SteadySink};
use std::alloc::Global;

/// `cec` over files and a sink in memory that never fail. Where the words have a meaning, and nothing that the files
/// hold is refused, it is done, and `out` gains what the theorem speaks of, unless memory runs out.
pub fn cec_steadily<E: Sink>(
    alloc: Global,
    words: &[String],
    files: &mut SteadyFiles,
    out: &mut SteadySink,
    err: &mut E,
) -> Outcome
    ensures ends { (request : Request) → request_by (map string_bytes words.now) ≡ Some request →
        IsAccepted request (held files.old) → (result ≡ Outcome.Done) ⊎ (result ≡ Outcome.NoMemory) }
    ensures agrees { IsOutcomeOf (request_by (map string_bytes words.now)) (Some (held files.old)) result }
    ensures files_stay { held files.new ≡ held files.old }
    ensures out { GainsOut (request_by (map string_bytes words.now)) (Some (held files.old)) result
        (record { before = told_of out.old; after = told_of out.new; faults_before = 0; faults_now = 0 }) }
    ensures err { GainsErr (request_by (map string_bytes words.now)) (Some (held files.old)) result
        (E.told err.old) (E.told err.new) (E.faults err.old) (E.faults err.new) }
{
    cec(alloc, words, files, out, err)
}
