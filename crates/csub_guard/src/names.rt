// The names that a guarded program declares.

ghost use Rattle.std.specs.Prelude.{◌≡◌, map, IfOk};
ghost use Rattle.csub_guard.specs.Names.{declared};
ghost use Rattle.csub_guard.specs.Views.{program_of};

use crate::trees::GuardedProgram;
use base_types::NoMemory;
use csub_text::variable_names;
use std::alloc::Global;

/// The names that a guarded program declares, in the order of the text. Its only error is out of memory.
pub fn declared_names<'a>(
    alloc: Global,
    program: &'a GuardedProgram,
) -> Result<Vec<&'a [u8]>, NoMemory>
    ensures { IfOk result (λ v. map (λ w. w.now) v.items ≡ declared (program_of program.now)) }
{
    variable_names(alloc, &program.states, &program.globals, &program.locals)
}
