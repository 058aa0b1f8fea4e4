// From a flat program to its kernel program.

ghost use Rattle.std.specs.Prelude.{◌≡◌, IfOk, MatchOption};
ghost use Rattle.base_types.specs.Stops.{IfFault};
ghost use Rattle.est_ast.specs.FlatPrograms.{IsFlat, IsNamed};
ghost use Rattle.est_ast.specs.FlatViews.{flat_of};
ghost use Rattle.est_kernel.specs.Plain.{program_of};
ghost use Rattle.est_kernel.specs.WellFormed.{IsWellFormed, HasNames};
ghost use Rattle.est_ast.specs.NewSignals.{new_in};
ghost use Rattle.est_dismantle.specs.Boxes.{boxed_term};
ghost use Rattle.est_dismantle.specs.Expansions.{Expanded, expansion, kernel_body, program_in};
ghost use Rattle.est_dismantle.specs.Faults.{FaultHasCause};

use crate::counts::first_bad;
use crate::expansion::expand;
use crate::measure::measure;
use crate::refusal::DismantleFault;
use crate::signals::signals_with;
use crate::traps::Traps;
use base_types::{Limits, NoMemory, Stop};
use est_ast::Flat;
use est_kernel::{Kernel, KernelProgram};
use std::alloc::Global;

/// The kernel program of a flat program. It takes time and memory in proportion to that program, and a program
/// that is too large is refused before any of it is made.
///
/// A count that is 0 or above 255 is refused first, then a kernel body above the limits on size, on height and on
/// traps one in another, in this order.
///
/// Example: `halt` becomes `loop pause end`, and `await A` becomes `trap T in loop pause; present A then exit T
/// end end end`.
pub fn dismantle(alloc: Global, flat: Box<Flat>) -> Result<KernelProgram, Stop<DismantleFault>>
    ensures expands { IfOk result (λ p. expansion (flat_of flat.value) ≡ Expanded (program_of p)) }
    ensures refuses { IfFault result (λ fault. FaultHasCause (expansion (flat_of flat.value)) fault) }
    ensures well_formed { IsFlat (flat_of flat.value) → IfOk result (λ p. IsWellFormed (program_of p)) }
    ensures names { IsFlat (flat_of flat.value) → IsNamed (flat_of flat.value)
        → IfOk result (λ p. HasNames (program_of p)) }
{
    match fault_in(&flat) {
        Some(fault) => Err(Stop::Fault(fault)),
        None => Ok(program(alloc, flat)?),
    }
}

// The fault of a flat program, where it has one.
fn fault_in(flat: &Flat) -> Option<DismantleFault>
    ensures { MatchOption result
        (expansion (flat_of flat.now) ≡ Expanded (program_in (flat_of flat.now) (kernel_body (flat_of flat.now))))
        (λ fault. FaultHasCause (expansion (flat_of flat.now)) fault) }
{
    match first_bad(&flat.body) {
        Some(place) => Some(DismantleFault::BadCount(place)),
        None => {
            let extent = measure(&flat.body);
            if extent.size > Limits::KERNEL_NODES {
                return Some(DismantleFault::TooLarge);
            }
            if extent.height > Limits::KERNEL_HEIGHT {
                return Some(DismantleFault::TooHigh);
            }
            if extent.traps > Limits::TRAPS {
                return Some(DismantleFault::TooManyTraps);
            }
            None
        }
    }
}

// The body of a program, and how many new signals are in it.
#[derive(Drop)]
struct NewBody {
    term: Box<Kernel>,
    signals: u32,
}

// That of a flat program that keeps the limits.
fn new_body(alloc: Global, flat: &Flat) -> Result<NewBody, NoMemory>
    requires { expansion (flat_of flat.now)
        ≡ Expanded (program_in (flat_of flat.now) (kernel_body (flat_of flat.now))) }
    ensures term { IfOk result (λ b. boxed_term b.term ≡ kernel_body (flat_of flat.now)) }
    ensures signals { IfOk result (λ b. b.signals ≡ new_in (flat_of flat.now).body) }
{
    let count = flat.signals.len();
    let first = count as u32;
    let mut next = first;
    let term = expand(alloc, &flat.body, &Traps::Whole, &mut next)?;
    Ok(NewBody {
        term,
        signals: next - first,
    })
}

// The program, where it keeps the limits. The flat body is let go by a call, since its forms are many.
fn program(alloc: Global, flat: Box<Flat>) -> Result<KernelProgram, NoMemory>
    requires { expansion (flat_of flat.value)
        ≡ Expanded (program_in (flat_of flat.value) (kernel_body (flat_of flat.value))) }
    ensures { IfOk result (λ p. program_of p ≡ program_in (flat_of flat.value) (kernel_body (flat_of flat.value))) }
{
    let expanded = new_body(alloc, &flat)?;
    let Flat {
        name,
        signals,
        inputs,
        both,
        outputs,
        relations,
        body,
    } = Box::into_inner(flat);
    drop(body);
    let signals = signals_with(alloc, signals, expanded.signals)?;
    Ok(KernelProgram {
        name,
        signals,
        inputs,
        both,
        outputs,
        relations,
        body: Box::into_inner(expanded.term),
    })
}
