// The first fault of the names of a text.

ghost use Rattle.std.specs.Prelude.{◌≡◌, IfOk, OnOk, Some, None};
ghost use Rattle.base_types.specs.Stops.{IfFault};
ghost use Rattle.vlog_text.specs.Names.{name_fault};
ghost use Rattle.vlog_read.specs.NameTests.{fault_told, SaysFault};
ghost use Rattle.vlog_read.specs.Sources.{plain_source};

use crate::drivers::{driven_twice, undriven};
use crate::ports::wrong_port;
use crate::refusal::VlogFault;
use crate::sources::Source;
use crate::uses::{declared_twice, undeclared};
use base_types::{NoMemory, Stop, Text};
use std::alloc::Global;

// A fault of names. The name is a part of the text.
#[derive(Clone, Copy)]
pub enum NameFault<'a> {
    Twice(&'a [u8]),
    Port(&'a [u8]),
    Undeclared(&'a [u8]),
    TwoDrivers(&'a [u8]),
    NoDriver(&'a [u8]),
}

// That a source keeps the rules on names.
pub fn check_names(alloc: Global, source: &Source<'_>) -> Result<(), Stop<VlogFault>>
    ensures fit { OnOk result (name_fault (plain_source source.now) ≡ None) }
    ensures fault { IfFault result (SaysFault (name_fault (plain_source source.now))) }
{
    match first_fault(alloc, source)? {
        Some(fault) => Err(Stop::Fault(told(alloc, fault)?)),
        None => Ok(()),
    }
}

// The first fault, in the order of the rules.
fn first_fault<'a>(alloc: Global, source: &'a Source<'a>) -> Result<Option<NameFault<'a>>, NoMemory>
    ensures { IfOk result (λ f. fault_told f ≡ name_fault (plain_source source.now)) }
{
    if let Some(name) = declared_twice(alloc, source)? {
        return Ok(Some(NameFault::Twice(name)));
    }
    if let Some(name) = wrong_port(alloc, source)? {
        return Ok(Some(NameFault::Port(name)));
    }
    if let Some(name) = undeclared(alloc, source)? {
        return Ok(Some(NameFault::Undeclared(name)));
    }
    if let Some(name) = driven_twice(alloc, source)? {
        return Ok(Some(NameFault::TwoDrivers(name)));
    }
    if let Some(name) = undriven(alloc, source)? {
        return Ok(Some(NameFault::NoDriver(name)));
    }
    Ok(None)
}

// The fault with its name in memory of its own.
fn told(alloc: Global, fault: NameFault<'_>) -> Result<VlogFault, NoMemory>
    ensures { IfOk result (SaysFault (fault_told (Some fault.entry))) }
{
    match fault {
        NameFault::Twice(name) => Ok(VlogFault::Twice(Text::from_bytes(alloc, name)?)),
        NameFault::Port(name) => Ok(VlogFault::Port(Text::from_bytes(alloc, name)?)),
        NameFault::Undeclared(name) => Ok(VlogFault::Undeclared(Text::from_bytes(alloc, name)?)),
        NameFault::TwoDrivers(name) => Ok(VlogFault::TwoDrivers(Text::from_bytes(alloc, name)?)),
        NameFault::NoDriver(name) => Ok(VlogFault::NoDriver(Text::from_bytes(alloc, name)?)),
    }
}
