// The first fault of the names of a text.

ghost use Rattle.std.specs.Prelude.{◌≡◌, IfOk, OnOk, Some, None};
ghost use Rattle.csub_guard.specs.Names.{name_fault};
ghost use Rattle.csub_guard.specs.Views.{program_of};
ghost use Rattle.base_types.specs.Stops.{IfFault};
ghost use Rattle.csub_guard_read.specs.NameFaults.{fault_told, SaysFault};

use crate::places::misplaced_locals;
use crate::refusal::GuardedFault;
use crate::undeclared::{declared_twice, undeclared};
use base_types::{NoMemory, Stop, Text};
use csub_guard::GuardedProgram;
use std::alloc::Global;

// A fault of names. The name is a part of the program.
#[derive(Clone, Copy)]
pub enum NameFault<'a> {
    Twice(&'a [u8]),
    Undeclared(&'a [u8]),
    Again(&'a [u8]),
    Unset(&'a [u8]),
}

// That a program keeps the rules on names.
pub fn check_names(alloc: Global, program: &GuardedProgram) -> Result<(), Stop<GuardedFault>>
    ensures fit { OnOk result (name_fault (program_of program.now) ≡ None) }
    ensures fault { IfFault result (SaysFault (name_fault (program_of program.now))) }
{
    match first_fault(alloc, program)? {
        Some(fault) => Err(Stop::Fault(told(alloc, fault)?)),
        None => Ok(()),
    }
}

// The first fault, in the order of the rules.
fn first_fault<'a>(
    alloc: Global,
    program: &'a GuardedProgram,
) -> Result<Option<NameFault<'a>>, NoMemory>
    ensures { IfOk result (λ f. fault_told f ≡ name_fault (program_of program.now)) }
{
    if let Some(name) = declared_twice(alloc, program)? {
        return Ok(Some(NameFault::Twice(name)));
    }
    if let Some(name) = undeclared(alloc, program)? {
        return Ok(Some(NameFault::Undeclared(name)));
    }
    let misplaced = misplaced_locals(alloc, program)?;
    if let Some(name) = misplaced.again {
        return Ok(Some(NameFault::Again(name)));
    }
    if let Some(name) = misplaced.unset {
        return Ok(Some(NameFault::Unset(name)));
    }
    Ok(None)
}

// The fault with its name in memory of its own.
fn told(alloc: Global, fault: NameFault<'_>) -> Result<GuardedFault, NoMemory>
    ensures { IfOk result (SaysFault (fault_told (Some fault.entry))) }
{
    match fault {
        NameFault::Twice(name) => Ok(GuardedFault::Twice(Text::from_bytes(alloc, name)?)),
        NameFault::Undeclared(name) => Ok(GuardedFault::Undeclared(Text::from_bytes(alloc, name)?)),
        NameFault::Again(name) => Ok(GuardedFault::Again(Text::from_bytes(alloc, name)?)),
        NameFault::Unset(name) => Ok(GuardedFault::Unset(Text::from_bytes(alloc, name)?)),
    }
}
