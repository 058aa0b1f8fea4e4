// The commands that read no file.

ghost use Rattle.std.specs.Prelude.{◌≡◌, ◌≤◌};
ghost use Rattle.base_types.specs.SinkChanges.{change};
ghost use Rattle.est_gen.specs.Sources.{source_text};
ghost use Rattle.cec_commands.specs.HelpTexts.{help_text};
ghost use Rattle.cec_commands.specs.JobViews.{AreBranches};
ghost use Rattle.cec_commands.specs.Outcomes.{IsWriting, OutcomeLeavesText};

use crate::outcome::Outcome;
use crate::writing::write_whole;
use base_types::Sink;
use est_gen::{GenFault, generate_source};
use std::alloc::Global;

const HELP: &[u8] = b"cec blif [--main M] [--pick P] [--encode] FILE
cec c [--main M] [--pick P] [--guard] FILE
cec verilog [--main M] [--pick P] FILE
cec grc [--main M] FILE
cec check [--main M] FILE
cec run --via blif|c|guard|verilog|tri [--main M] [--pick P] [--encode] FILE TRACE
cec exec --via blif|c|guard|verilog TEXT TRACE
cec gen --start N --branches N [--run N]
";

/// Writes the list of the commands.
pub(crate) fn write_help<O: Sink>(out: &mut O) -> Outcome
    ensures agrees { IsWriting result }
    ensures out { OutcomeLeavesText (λ text. text ≡ help_text)
        (change O.told O.faults out.old out.new)
        result }
{
    write_whole(HELP, out)
}

/// Writes a generated source. The words give a number of branches for which there is one.
pub(crate) fn write_generated<O: Sink>(
    alloc: Global,
    start: u64,
    branches: u32,
    out: &mut O,
) -> Outcome
    requires { AreBranches branches }
    ensures agrees { IsWriting result }
    ensures out { OutcomeLeavesText (λ text. text ≡ source_text start branches)
        (change O.told O.faults out.old out.new)
        result }
{
    let generated = match generate_source(alloc, start, branches) {
        Ok(generated) => generated,
        Err(GenFault::NoMemory) => return Outcome::NoMemory,
        Err(GenFault::BadBranches) => unreachable!(),
    };
    write_whole(&generated.source, out)
}
