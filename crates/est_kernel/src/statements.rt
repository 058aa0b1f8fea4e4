// Kernel statements.

ghost use Rattle.std.specs.Prelude.{◌≡◌, IfOk};
ghost use Rattle.est_kernel.specs.Plain.{term_of};

use crate::signal_tests::Test;
use base_types::{NoMemory, SigId, Span};
use std::alloc::Global;

/// A kernel statement of Pure Esterel (Berry, "The Constructive Semantics of Pure Esterel").
/// Completion code 0 is termination, 1 a pause, and k of at least 2 leaves the trap that is k - 2
/// traps further out.
#[derive(Drop)]
pub enum Kernel {
    /// Terminates at once.
    Nothing,
    /// Pauses for one instant, then terminates.
    Pause,
    /// Makes the signal present in this instant and terminates.
    Emit(SigId),
    /// Completes with this code, which is at least 2.
    Exit(u8),
    /// Runs the first part where the test is true, the second where it is false.
    Present(Test, Box<Kernel>, Box<Kernel>),
    /// Does not test in its first instant. In later instants, where the test is true, it pauses
    /// with nothing run.
    Suspend(Test, Box<Kernel>),
    /// Runs the first part, and the second from the instant in which the first terminates.
    Seq(Box<Kernel>, Box<Kernel>),
    /// Runs the body and restarts it in the instant in which it terminates. The span is that of
    /// the source statement that the loop comes from.
    Loop(Span, Box<Kernel>),
    /// Runs both parts. Its code is the greater of the two; a branch that has terminated counts as
    /// 0 in later instants.
    Par(Box<Kernel>, Box<Kernel>),
    /// Turns codes 0 and 2 of its body into 0, keeps 1, and turns k above 2 into k - 1.
    Trap(Box<Kernel>),
    /// Runs the body with a new signal. Each start of the form has its own.
    Local(SigId, Box<Kernel>),
}

impl Kernel {
    /// An equal statement, in memory of its own.
    #[cycle(copy)]
    pub fn copy(&self, alloc: Global) -> Result<Kernel, NoMemory>
        ensures { IfOk result (λ k. term_of k ≡ term_of self.now) }
    {
        match self {
            Kernel::Nothing => Ok(Kernel::Nothing),
            Kernel::Pause => Ok(Kernel::Pause),
            Kernel::Emit(signal) => Ok(Kernel::Emit(*signal)),
            Kernel::Exit(code) => Ok(Kernel::Exit(*code)),
            Kernel::Present(test, yes, no) => {
                let test = test.copy(alloc)?;
                let yes = yes.boxed_copy(alloc)?;
                Ok(Kernel::Present(test, yes, no.boxed_copy(alloc)?))
            }
            Kernel::Suspend(test, part) => {
                let test = test.copy(alloc)?;
                Ok(Kernel::Suspend(test, part.boxed_copy(alloc)?))
            }
            Kernel::Seq(first, second) => {
                let first = first.boxed_copy(alloc)?;
                Ok(Kernel::Seq(first, second.boxed_copy(alloc)?))
            }
            Kernel::Loop(at, part) => Ok(Kernel::Loop(*at, part.boxed_copy(alloc)?)),
            Kernel::Par(left, right) => {
                let left = left.boxed_copy(alloc)?;
                Ok(Kernel::Par(left, right.boxed_copy(alloc)?))
            }
            Kernel::Trap(part) => Ok(Kernel::Trap(part.boxed_copy(alloc)?)),
            Kernel::Local(signal, part) => Ok(Kernel::Local(*signal, part.boxed_copy(alloc)?)),
        }
    }

    /// An equal statement in a box.
    #[cycle(copy)]
    pub fn boxed_copy(&self, alloc: Global) -> Result<Box<Kernel>, NoMemory>
        ensures { IfOk result (λ k. term_of k.value ≡ term_of self.now) }
    {
        Ok(Box::new(alloc, self.copy(alloc)?)?)
    }
}
