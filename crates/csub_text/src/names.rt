// The names that a program declares, and how those of inputs and outputs begin.

ghost use Rattle.std.specs.Prelude.{◌≡◌, ◌++◌, map, take, IfOk};
ghost use Rattle.csub_text.specs.Grammar.{begins_input, begins_output};
ghost use Rattle.csub_text.specs.Names.{declared};
ghost use Rattle.csub_text.specs.Views.{program_of, state_of};

use crate::trees::{CProgram, State};
use base_types::{NoMemory, Text};
use std::alloc::Global;

/// The names that a program declares, in the order of the text. Its only error is out of memory.
pub fn declared_names<'a>(alloc: Global, program: &'a CProgram) -> Result<Vec<&'a [u8]>, NoMemory>
    ensures { IfOk result (λ v. map (λ w. w.now) v.items ≡ declared (program_of program.now)) }
{
    variable_names(alloc, &program.states, &program.globals, &program.locals)
}

/// The names of these variables, in this order. Its only error is out of memory.
pub fn variable_names<'a>(
    alloc: Global,
    states: &'a [State],
    globals: &'a [Text],
    locals: &'a [Text],
) -> Result<Vec<&'a [u8]>, NoMemory>
    ensures { IfOk result (λ v. map (λ w. w.now) v.items
        ≡ map (λ s. s.name) (map state_of states.now) ++ globals.now ++ locals.now) }
{
    let mut names = Vec::new(alloc);
    for state in states {
        names.push(state.name.bytes())?;
    }
    for name in globals {
        names.push(name.bytes())?;
    }
    for name in locals {
        names.push(name.bytes())?;
    }
    Ok(names)
}

/// Whether a name begins with `I_`, as those of inputs do.
pub fn begins_input(name: &[u8]) -> bool
    ensures { result ≡ begins_input name.now }
{
    front_two(name) == b"I_".as_slice()
}

/// Whether a name begins with `O_`, as those of outputs do.
pub fn begins_output(name: &[u8]) -> bool
    ensures { result ≡ begins_output name.now }
{
    front_two(name) == b"O_".as_slice()
}

/// The first two bytes of a name, or all of them where there are fewer.
pub fn front_two(name: &[u8]) -> &[u8]
    ensures { result.now ≡ take 2 name.now }
{
    if name.len() < 2 { name } else { &name[..2] }
}
