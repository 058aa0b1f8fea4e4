// Tests of signals.

ghost use Rattle.std.specs.Prelude.{◌≡◌, IfOk};
ghost use Rattle.est_kernel.specs.Plain.{expression_of};

use base_types::{NoMemory, SigId};
use std::alloc::Global;

/// A test of signals, read by Kleene's three-valued tables where statuses are unknown.
#[derive(Drop)]
pub enum Test {
    /// Always true.
    Tick,
    /// True where the signal is present.
    Sig(SigId),
    Not(Box<Test>),
    And(Box<Test>, Box<Test>),
    Or(Box<Test>, Box<Test>),
}

impl Test {
    /// An equal test, in memory of its own.
    pub fn copy(&self, alloc: Global) -> Result<Test, NoMemory>
        ensures { IfOk result (λ t. expression_of t ≡ expression_of self.now) }
    {
        match self {
            Test::Tick => Ok(Test::Tick),
            Test::Sig(signal) => Ok(Test::Sig(*signal)),
            Test::Not(part) => Ok(Test::Not(Box::new(alloc, part.copy(alloc)?)?)),
            Test::And(left, right) => {
                let left = Box::new(alloc, left.copy(alloc)?)?;
                Ok(Test::And(left, Box::new(alloc, right.copy(alloc)?)?))
            }
            Test::Or(left, right) => {
                let left = Box::new(alloc, left.copy(alloc)?)?;
                Ok(Test::Or(left, Box::new(alloc, right.copy(alloc)?)?))
            }
        }
    }
}
