// Kernel statements of parts.

ghost use Rattle.std.specs.Prelude.{◌≡◌, IfOk, map};
ghost use Rattle.est_kernel.specs.Plain.{expression_of, term_of};
ghost use Rattle.est_dismantle.specs.Boxes.{boxed_term};
ghost use Rattle.est_kernel.specs.Terms.{Present, Suspend, Seq, Loop, Par, Trap, Local};
ghost use Rattle.est_dismantle.specs.Kernels.{sequence as spec_sequence, parallel as spec_parallel, times};

use base_types::{NoMemory, SigId, Span};
use est_kernel::{Kernel, Test};
use std::alloc::Global;

/// A statement in a box: what is built is kept so, since a box is dropped by one call.
pub(crate) fn node(alloc: Global, kernel: Kernel) -> Result<Box<Kernel>, NoMemory>
    ensures { IfOk result (λ k. boxed_term k ≡ term_of kernel) }
{
    Ok(Box::new(alloc, kernel)?)
}

/// `present e then p else q end`.
pub(crate) fn choice(
    alloc: Global,
    event: Test,
    yes: Box<Kernel>,
    no: Box<Kernel>,
) -> Result<Box<Kernel>, NoMemory>
    ensures { IfOk result (λ k. boxed_term k ≡ Present (expression_of event) (boxed_term yes) (boxed_term no)) }
{
    node(alloc, Kernel::Present(event, yes, no))
}

/// `suspend p when e`.
pub(crate) fn suspension(
    alloc: Global,
    event: Test,
    part: Box<Kernel>,
) -> Result<Box<Kernel>, NoMemory>
    ensures { IfOk result (λ k. boxed_term k ≡ Suspend (expression_of event) (boxed_term part)) }
{
    node(alloc, Kernel::Suspend(event, part))
}

/// `p; q`.
pub(crate) fn sequence(
    alloc: Global,
    first: Box<Kernel>,
    second: Box<Kernel>,
) -> Result<Box<Kernel>, NoMemory>
    ensures { IfOk result (λ k. boxed_term k ≡ Seq (boxed_term first) (boxed_term second)) }
{
    node(alloc, Kernel::Seq(first, second))
}

/// `p || q`.
pub(crate) fn parallel(
    alloc: Global,
    left: Box<Kernel>,
    right: Box<Kernel>,
) -> Result<Box<Kernel>, NoMemory>
    ensures { IfOk result (λ k. boxed_term k ≡ Par (boxed_term left) (boxed_term right)) }
{
    node(alloc, Kernel::Par(left, right))
}

/// `loop p end`, of the source statement at this place.
pub(crate) fn endless_loop(
    alloc: Global,
    at: Span,
    part: Box<Kernel>,
) -> Result<Box<Kernel>, NoMemory>
    ensures { IfOk result (λ k. boxed_term k ≡ Loop at (boxed_term part)) }
{
    node(alloc, Kernel::Loop(at, part))
}

/// `trap T in p end`.
pub(crate) fn trap(alloc: Global, part: Box<Kernel>) -> Result<Box<Kernel>, NoMemory>
    ensures { IfOk result (λ k. boxed_term k ≡ Trap (boxed_term part)) }
{
    node(alloc, Kernel::Trap(part))
}

/// `signal s in p end`.
pub(crate) fn local(
    alloc: Global,
    signal: SigId,
    part: Box<Kernel>,
) -> Result<Box<Kernel>, NoMemory>
    ensures { IfOk result (λ k. boxed_term k ≡ Local signal.0 (boxed_term part)) }
{
    node(alloc, Kernel::Local(signal, part))
}

/// The parts one after another.
pub(crate) fn sequence_of(alloc: Global, parts: Vec<Box<Kernel>>) -> Result<Box<Kernel>, NoMemory>
    ensures { IfOk result (λ k. boxed_term k ≡ spec_sequence (map boxed_term parts.items)) }
{
    let mut rest = parts;
    let Some(mut whole) = rest.pop() else {
        return node(alloc, Kernel::Nothing);
    };
    while let Some(part) = rest.pop() {
        whole = sequence(alloc, part, whole)?;
    }
    Ok(whole)
}

/// The parts side by side.
pub(crate) fn parallel_of(alloc: Global, parts: Vec<Box<Kernel>>) -> Result<Box<Kernel>, NoMemory>
    ensures { IfOk result (λ k. boxed_term k ≡ spec_parallel (map boxed_term parts.items)) }
{
    let mut rest = parts;
    let Some(mut whole) = rest.pop() else {
        return node(alloc, Kernel::Nothing);
    };
    while let Some(part) = rest.pop() {
        whole = parallel(alloc, part, whole)?;
    }
    Ok(whole)
}

/// The part, this many times in one sequence.
pub(crate) fn repeated(
    alloc: Global,
    count: u128,
    part: Box<Kernel>,
) -> Result<Box<Kernel>, NoMemory>
    ensures { IfOk result (λ k. boxed_term k ≡ spec_sequence (times count (boxed_term part))) }
{
    if count == 0 {
        return node(alloc, Kernel::Nothing);
    }
    let mut copies = copies_of(alloc, count - 1, &*part)?;
    copies.push(part)?;
    Ok(sequence_of(alloc, copies)?)
}

// The part, this many times.
fn copies_of(alloc: Global, count: u128, part: &Kernel) -> Result<Vec<Box<Kernel>>, NoMemory>
    ensures { IfOk result (λ v. map boxed_term v.items ≡ times count (term_of part.now)) }
{
    let mut copies = Vec::new(alloc);
    for _ in 0..count {
        copies.push(part.boxed_copy(alloc)?)?;
    }
    Ok(copies)
}
