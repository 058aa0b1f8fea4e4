// How the sources of a graph's system are numbered.

ghost use Rattle.std.specs.Prelude.{◌≡◌, ◌+◌, ◌<◌, ◌^◌};
ghost use Rattle.grc_ternary_run.specs.Numbers.{input_number, selected_number};

use base_types::{PathId, SigId};

/// The source that is false, the one that is true, and the one that says that this is the first instant.
pub(crate) const FALSE: usize = 0;

pub(crate) const TRUE: usize = 1;

pub(crate) const BOOT: usize = 2;

// The number of the first source for a given signal.
pub(crate) const INPUTS: usize = 3;

/// How many given signals and statements there are. For each given signal a source says whether the event
/// gives it, and after these for each statement one says whether it holds a selected pause.
#[derive(Clone, Copy)]
pub(crate) struct Counts {
    pub given: usize,
    pub statements: usize,
}

impl Counts {
    /// The number of sources.
    pub fn sources(self) -> usize
        requires { 3 + self.given + self.statements < 2 ^ 64 }
        ensures { result ≡ 3 + self.given + self.statements }
    {
        INPUTS + self.given + self.statements
    }

    /// The source for a signal; what is not given is false.
    pub fn input(self, signal: SigId) -> usize
        requires { 3 + self.given + self.statements < 2 ^ 64 }
        ensures { result ≡ input_number self signal.0 }
    {
        if (signal.0 as usize) < self.given {
            INPUTS + signal.0 as usize
        } else {
            FALSE
        }
    }

    /// The source for a statement. No statement has a number after the last one's.
    pub fn selected(self, path: PathId) -> usize
        requires some { 0 < self.statements }
        requires few { 3 + self.given + self.statements < 2 ^ 64 }
        ensures { result ≡ selected_number self path.0 }
    {
        INPUTS + self.given + (path.0 as usize).min(self.statements - 1)
    }
}
