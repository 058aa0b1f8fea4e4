// A file held in memory.

ghost use Rattle.std.specs.Prelude.{◌≡◌};
ghost use Rattle.std.specs.Option.{option_copied};
ghost use Rattle.base_types.specs.FileEntry.{bytes_under, GivesWithin};

use crate::files::reading::FileFault;
use crate::texts::Text;
use std::alloc::Global;

/// A file held in memory: a name, and the bytes that stand under it.
#[derive(Drop)]
pub struct FileEntry {
    pub name: Text,
    pub bytes: Text,
}

pub(crate) fn find_bytes<'a>(entries: &'a [FileEntry], name: &[u8]) -> Option<&'a Text>
    ensures { option_copied result ≡ bytes_under entries.now name.now }
{
    for entry in entries {
        if entry.name.bytes() == name {
            return Some(&entry.bytes);
        }
    }
    None
}

pub(crate) fn copy_within(alloc: Global, bytes: &[u8], limit: u64) -> Result<Vec<u8>, FileFault>
    ensures { GivesWithin bytes.now limit result }
{
    if bytes.len() as u64 > limit {
        return Err(FileFault::TooLong);
    }
    Ok(Vec::from_slice(alloc, bytes)?)
}
