// A writer that fails, and the disk: the edge to the outside, of which no clause says anything.

use base_types::{DiskFiles, FileFault, Files, Sink, SinkFault, WriterSink};
use std::io::{self, ErrorKind, Write};
use std::test::Fail;
use std::{fs, process};

// A writer that takes at most three bytes at a time, and answers the fault from the fourth call on.
#[derive(Drop)]
struct Slow {
    taken: usize,
    calls: usize,
    fault: Option<ErrorKind>,
}

impl Write for Slow {
    fn write(&mut self, piece: &[u8]) -> io::Result<usize> {
        self.calls = self.calls.saturating_add(1);
        if self.calls == 2 {
            return Err(io::Error::from(ErrorKind::Interrupted));
        }
        if self.calls < 4 {
            let taken = piece.len().min(3);
            self.taken = self.taken.saturating_add(taken);
            return Ok(taken);
        }
        match self.fault {
            Some(kind) => Err(io::Error::from(kind)),
            None => Ok(0),
        }
    }

    fn flush(&mut self) -> io::Result<()> {
        Ok(())
    }
}

#[test]
fn a_writer_takes_parts_fails_or_takes_nothing(rt: HostRuntime) {
    for (piece, fault, want, taken) in [
        (b"abcdef", None, Ok(()), 6usize),
        (b"abcdef", Some(ErrorKind::BrokenPipe), Ok(()), 6),
    ] {
        let mut slow = Slow {
            taken: 0,
            calls: 0,
            fault,
        };
        let mut sink = WriterSink::new(&mut slow);
        assert_eq!(rt; sink.write(piece), want);
        assert_eq!(rt; sink.write(b""), Ok(()));
        assert_eq!(rt; sink.write(b"g"), Err(SinkFault::Failed));
        drop(sink);
        assert_eq!(rt; slow.taken, taken);
    }
}

#[test]
fn the_disk_gives_bytes_or_fails(rt: HostRuntime) -> Result<(), Fail> {
    let alloc = rt.alloc();
    let folder = std::env::temp_dir(&rt)?;
    let folder = folder.as_path().to_str().ok_or("no text")?;
    let name = format!(in alloc; "{folder}/base_types-{}", process::id(rt.process()))?;
    fs::write(&rt, name.as_str(), "four")?;
    let mut files = DiskFiles::new(&rt);
    let bytes = files.read(alloc, name.as_str(), 4)?;
    assert_eq!(rt; bytes.as_slice(), b"four".as_slice());
    assert_eq!(rt;
        files.read(alloc, name.as_str(), 3).err(),
        Some(FileFault::TooLong)
    );
    fs::remove_file(&rt, name.as_str())?;
    assert_eq!(rt;
        files.read(alloc, name.as_str(), 4).err(),
        Some(FileFault::Failed)
    );
    assert_eq!(rt;
        files.read(alloc, folder, 1 << 40).err(),
        Some(FileFault::Failed)
    );
    Ok(())
}
