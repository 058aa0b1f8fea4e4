// Files in memory that never fail.

use crate::files::entry::{FileEntry, copy_within, find_bytes};
use crate::files::reading::{FileFault, Files};
use std::alloc::Global;
use std::marker::Model;

/// Files in memory that never fail: the count of faults stays 0. A name that is not there holds no
/// bytes. Of two entries of one name the first counts. A contract sees the entries.
#[derive(Drop)]
pub struct SteadyFiles {
    entries: Vec<FileEntry>,
}

impl Model for SteadyFiles {
    ghost use Rattle.std.specs.Prelude.{List};
    ghost use Rattle.base_types.specs.declared.files.entry.FileEntry.{FileEntry};

    ghost Value = { List FileEntry };

    ghost view = { λ s. s.entries.items };
}

impl SteadyFiles {
    ghost use Rattle.std.specs.Prelude.{◌≡◌};

    /// These files. It takes no memory.
    pub fn new(entries: Vec<FileEntry>) -> SteadyFiles
        ensures { result ≡ entries.items }
    {
        SteadyFiles { entries }
    }
}

impl Files for SteadyFiles {
    ghost use Rattle.std.specs.Prelude.{◌≡◌, [], Some};
    ghost use Rattle.base_types.specs.FileEntry.{held, GivesWithin};
    ghost use Rattle.base_types.specs.Reading.{Reads, Counts};

    ghost content = { λ entries. Some (held entries) };

    ghost faults = { λ _. 0 };

    ghost last_failed = { λ _. [] };

    fn read(&mut self, alloc: Global, name: &str, limit: u64) -> Result<Vec<u8>, FileFault>
        ensures bytes { Reads (Some (held self.old)) name.now limit result }
        ensures counts { Counts 0 0 [] [] name.now result }
        ensures content_stays { Some (held self.new) ≡ Some (held self.old) }
        ensures answer { GivesWithin (held self.old name.now) limit result }
        ensures state { self.new ≡ self.old }
    {
        match find_bytes(&self.entries, name.as_bytes()) {
            Some(bytes) => copy_within(alloc, bytes.bytes(), limit),
            None => Ok(Vec::new(alloc)),
        }
    }
}
