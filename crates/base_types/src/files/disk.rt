// Files of the disk.

ghost use Rattle.std.specs.Prelude.{◌≤◌, length, IfOk, IfSome};
ghost use Rattle.base_types.specs.Reading.{ReadsWhole};

use crate::files::reading::{FileFault, Files};
use crate::texts::Text;
use std::alloc::Global;
use std::fs::{self, OpenFile};
use std::io::{self, ErrorKind, Read};
use std::marker::Model;
use std::rt;

/// The files of the disk, through the runtime that it is given. It tells nothing of their content,
/// keeps the name that failed last, and counts its faults in a u64 that stays at its greatest
/// value. A contract sees the count and the name.
#[derive(Drop)]
pub struct DiskFiles<'r, R: rt::Files> {
    rt: &'r R,
    faults: u64,
    failed: Option<Text>,
}

impl<'r, R: rt::Files> Model for DiskFiles<'r, R> {
    ghost use Rattle.std.specs.Prelude.{[], unwrap_or};
    ghost use Rattle.base_types.specs.Reading.{FaultRecord};

    ghost Value = { FaultRecord };

    ghost view = { λ d. record { faults = d.faults; last_failed = unwrap_or d.failed [] } };
}

impl<'r, R: rt::Files> DiskFiles<'r, R> {
    ghost use Rattle.std.specs.Prelude.{◌≡◌, []};

    /// The files that this runtime reaches. It takes no memory.
    pub fn new(rt: &'r R) -> DiskFiles<'r, R>
        ensures { result ≡ record { faults = 0; last_failed = [] } }
    {
        DiskFiles {
            rt,
            faults: 0,
            failed: None,
        }
    }
}

impl<'r, R: rt::Files> Files for DiskFiles<'r, R> {
    ghost use Rattle.std.specs.Prelude.{None};

    ghost content = { λ _. None };

    ghost faults = { λ d. d.faults };

    ghost last_failed = { λ d. d.last_failed };

    fn read(&mut self, alloc: Global, name: &str, limit: u64) -> Result<Vec<u8>, FileFault> {
        let copy = Text::from_bytes(alloc, name.as_bytes());
        let copy = copy.map_err(|_| FileFault::NoMemory)?;
        match read_within(self.rt, alloc, name, limit) {
            Ok(Some(bytes)) => Ok(bytes),
            Ok(None) => Err(FileFault::TooLong),
            Err(error) if error.kind() == ErrorKind::OutOfMemory => Err(FileFault::NoMemory),
            Err(_) => {
                self.faults = self.faults.saturating_add(1);
                self.failed = Some(copy);
                Err(FileFault::Failed)
            }
        }
    }
}

// The bytes of a file, or none where there are more than the limit. A file that says how long it is
// gets its room at the start, so that its bytes are not moved again.
fn read_within<R: rt::Files>(
    rt: &R,
    alloc: Global,
    name: &str,
    limit: u64,
) -> io::Result<Option<Vec<u8>>>
    ensures { IfOk result (λ read. IfSome read (λ bytes. length bytes.items ≤ limit)) }
{
    let file = fs::open(rt, name)?;
    let length = file.metadata()?.len();
    if length > limit {
        return Ok(None);
    }
    read_open(file, alloc, length as usize, limit)
}

// All bytes that a reader has left, or none where there are more than the limit, with room for so
// many bytes at the start.
fn read_open<T: Read + Drop>(
    reader: T,
    alloc: Global,
    room: usize,
    limit: u64,
) -> io::Result<Option<Vec<u8>>>
    ensures within { IfOk result (λ read. IfSome read (λ bytes. length bytes.items ≤ limit)) }
    ensures whole { IfOk result (λ read. ReadsWhole (T.remaining reader) limit read) }
{
    let mut bytes = Vec::with_capacity(alloc, room)?;
    reader
        .take(limit.saturating_add(1))
        .read_to_end(&mut bytes)?;
    if bytes.len() as u64 > limit {
        return Ok(None);
    }
    Ok(Some(bytes))
}
