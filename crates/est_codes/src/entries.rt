// The codes of one statement, and the list of them.

ghost use Rattle.std.specs.Prelude.{◌≡◌, ◌<◌, ◌++◌, ◌∷◌, [], length, slice_set, IfOk, map};
ghost use Rattle.base_types.specs.CodeSet.{members};

use base_types::{CodeSet, NoMemory};
use std::alloc::Global;

/// The codes of one statement, started and resumed.
#[derive(Clone, Copy)]
pub(crate) struct Entry {
    pub started: CodeSet,
    pub resumed: CodeSet,
}

impl Entry {
    ghost use Rattle.base_types.specs.Codes.{no_code, only};
    ghost use Rattle.base_types.specs.CodeSet.{members};

    /// No code.
    pub(crate) fn empty() -> Entry {
        Entry {
            started: CodeSet::empty(),
            resumed: CodeSet::empty(),
        }
    }

    /// The one code when it is started, and none when it is resumed.
    pub(crate) fn starting_with(code: u8) -> Entry
        requires { code < 64 }
        ensures started { members result.started ≡ only code }
        ensures resumed { members result.resumed ≡ no_code }
    {
        Entry {
            started: CodeSet::one(code),
            resumed: CodeSet::empty(),
        }
    }

    /// The codes of a pause.
    pub(crate) fn pause() -> Entry
        ensures started { members result.started ≡ only 1 }
        ensures resumed { members result.resumed ≡ only 0 }
    {
        Entry {
            started: CodeSet::one(1),
            resumed: CodeSet::one(0),
        }
    }
}

/// The sets of started statements.
pub(crate) fn started_sets(alloc: Global, entries: &[Entry]) -> Result<Vec<CodeSet>, NoMemory>
    ensures { IfOk result (λ sets. sets.items ≡ map (λ entry. entry.started) entries.now) }
{
    Ok(entries.iter().map(|entry| entry.started).collect(alloc)?)
}

/// The sets of resumed statements.
pub(crate) fn resumed_sets(alloc: Global, entries: &[Entry]) -> Result<Vec<CodeSet>, NoMemory>
    ensures { IfOk result (λ sets. sets.items ≡ map (λ entry. entry.resumed) entries.now) }
{
    Ok(entries.iter().map(|entry| entry.resumed).collect(alloc)?)
}
