// Files in memory that fail at chosen calls.

ghost use Rattle.std.specs.Prelude.{◌≡◌, ◌⊎◌, IsNone, MatchOption, Contains};
ghost use Rattle.base_types.specs.FileEntry.{bytes_under};

use crate::files::entry::{FileEntry, copy_within, find_bytes};
use crate::files::reading::{FileFault, Files};
use crate::texts::Text;
use std::alloc::Global;
use std::marker::Model;

/// Files in memory. A call whose number, from 1, is in the list of failing calls, or whose name is
/// not there, fails; no other call does. Of two entries of one name the first counts.
#[derive(Drop)]
pub struct MapFiles {
    entries: Vec<FileEntry>,
    failing: Vec<u64>,
    calls: u64,
    faults: u64,
    failed: Option<Text>,
}

impl Model for MapFiles {
    ghost use Rattle.std.specs.Prelude.{[], unwrap_or};
    ghost use Rattle.base_types.specs.FileEntry.{MapState};

    ghost Value = { MapState };

    ghost view = { λ m. record {
      entries = m.entries.items;
      failing = m.failing.items;
      calls = m.calls;
      faults = m.faults;
      last_failed = unwrap_or m.failed [];
    } };
}

impl MapFiles {
    ghost use Rattle.std.specs.Prelude.{◌≡◌, []};

    /// These files, before the first call. It takes no memory.
    pub fn new(entries: Vec<FileEntry>, failing: Vec<u64>) -> MapFiles
        ensures { result ≡ record {
          entries = entries.items;
          failing = failing.items;
          calls = 0;
          faults = 0;
          last_failed = [];
        } }
    {
        MapFiles {
            entries,
            failing,
            calls: 0,
            faults: 0,
            failed: None,
        }
    }
}

impl Files for MapFiles {
    ghost use Rattle.std.specs.Prelude.{◌≡◌, Some};
    ghost use Rattle.base_types.specs.FileEntry.{held, AnswersNext, after_call};
    ghost use Rattle.base_types.specs.Reading.{Reads, Counts};

    ghost content = { λ m. Some (held m.entries) };

    ghost faults = { λ m. m.faults };

    ghost last_failed = { λ m. m.last_failed };

    fn read(&mut self, alloc: Global, name: &str, limit: u64) -> Result<Vec<u8>, FileFault>
        ensures bytes { Reads (Some (held self.old.entries)) name.now limit result }
        ensures counts { Counts self.old.faults self.new.faults
            self.old.last_failed self.new.last_failed name.now result }
        ensures content_stays { Some (held self.new.entries) ≡ Some (held self.old.entries) }
        ensures answer { AnswersNext self.old name.now limit result }
        ensures state { self.new ≡ after_call self.old name.now result }
    {
        self.calls = self.calls.saturating_add(1);
        match bytes_at_call(&self.entries, &self.failing, self.calls, name.as_bytes()) {
            Some(bytes) => copy_within(alloc, bytes.bytes(), limit),
            None => {
                let failed = Text::from_bytes(alloc, name.as_bytes());
                let failed = failed.map_err(|_| FileFault::NoMemory)?;
                self.faults = self.faults.saturating_add(1);
                self.failed = Some(failed);
                Err(FileFault::Failed)
            }
        }
    }
}

// The bytes under a name, at a call that does not fail.
fn bytes_at_call<'a>(
    entries: &'a [FileEntry],
    failing: &[u64],
    call: u64,
    name: &[u8],
) -> Option<&'a Text>
    ensures { MatchOption result
        (Contains failing.now call ⊎ IsNone (bytes_under entries.now name.now))
        (λ bytes. ¬ Contains failing.now call × (bytes_under entries.now name.now ≡ Some bytes.now)) }
{
    if failing.contains(&call) {
        None
    } else {
        find_bytes(entries, name)
    }
}
