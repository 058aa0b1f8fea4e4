// A text in memory that is written as the end of a command.

ghost use Rattle.std.specs.Prelude.{◌≡◌};
ghost use Rattle.base_types.specs.SinkChanges.{change};
ghost use Rattle.cec_commands.specs.Outcomes.{IsWriting, OutcomeLeavesText};

use crate::outcome::Outcome;
use base_types::Sink;

/// Writes a text that is in memory, and says how that ended.
pub(crate) fn write_whole<O: Sink>(text: &[u8], out: &mut O) -> Outcome
    ensures agrees { IsWriting result }
    ensures out { OutcomeLeavesText (λ written. written ≡ text.now)
        (change O.told O.faults out.old out.new)
        result }
{
    Outcome::from(cec_text_io::write_whole(text, out))
}
