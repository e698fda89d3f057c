//! Tries the real host where the system refuses, and where it does a part of what is asked.

use crate::{Host, HostErr, OsHost, ReadErr, WriteErr, read_all, report_all, write_all};
use std::alloc::Allocator;
use std::fmt::Display;
use std::fs::{self, File, Metadata, OpenFile, OpenOptions};
use std::io::{self, ErrorKind, Print, Read, Seek, SeekFrom, Write};
use std::rt::Files;
use std::test::Fail;

/// A call of the halting system moves at most so many bytes.
const MOST: usize = 4;

/// A file of it gives bytes so often, and fails then.
const READS: u32 = 2;

/// The real system, but that each call moves few bytes, that reading a file fails half way, and that what is
/// reported goes to a file.
#[derive(Drop)]
struct Halting<'a> {
    rt: &'a HostRuntime,
    reported: File,
}

#[derive(Drop)]
struct HaltingFile {
    file: File,
    reads: u32,
}

fn unsupported() -> io::Error {
    io::Error::from(ErrorKind::Unsupported)
}

impl Read for HaltingFile {
    fn read(&mut self, into: &mut [u8]) -> io::Result<usize> {
        if self.reads >= READS {
            return Err(unsupported());
        }
        self.reads += 1;
        let count = into.len().min(MOST);
        self.file.read(&mut into[..count])
    }
}

impl Write for HaltingFile {
    fn write(&mut self, piece: &[u8]) -> io::Result<usize> {
        let count = piece.len().min(MOST);
        self.file.write(&piece[..count])
    }

    fn flush(&mut self) -> io::Result<()> {
        self.file.flush()
    }
}

impl Seek for HaltingFile {
    fn seek(&mut self, to: SeekFrom) -> io::Result<u64> {
        self.file.seek(to)
    }
}

impl OpenFile for HaltingFile {
    fn metadata(&self) -> io::Result<Metadata> {
        Err(unsupported())
    }

    fn set_len(&self, _size: u64) -> io::Result<()> {
        Err(unsupported())
    }

    fn sync_all(&self) -> io::Result<()> {
        Err(unsupported())
    }

    fn sync_data(&self) -> io::Result<()> {
        Err(unsupported())
    }
}

impl Print for Halting<'_> {
    fn print<D: Display + Drop>(&self, _value: D) -> io::Result<()> {
        Err(unsupported())
    }

    fn println<D: Display + Drop>(&self, _value: D) -> io::Result<()> {
        Err(unsupported())
    }

    fn write_all(&self, _bytes: &[u8]) -> io::Result<()> {
        Err(unsupported())
    }

    fn write_some(&self, bytes: &[u8]) -> io::Result<usize> {
        let count = bytes.len().min(MOST);
        (&self.reported).write(&bytes[..count])
    }
}

impl Files for Halting<'_> {
    type File = HaltingFile;

    type Dir = <HostRuntime as Files>::Dir;

    fn open_file(&self, how: &OpenOptions, path: &str) -> io::Result<HaltingFile> {
        let file = self.rt.open_file(how, path)?;
        Ok(HaltingFile { file, reads: 0 })
    }

    fn open_dir(&self, path: &str) -> io::Result<Self::Dir> {
        self.rt.open_dir(path)
    }

    fn metadata(&self, path: &str) -> io::Result<Metadata> {
        self.rt.metadata(path)
    }

    fn symlink_metadata(&self, path: &str) -> io::Result<Metadata> {
        self.rt.symlink_metadata(path)
    }

    fn copy(&self, _from: &str, _to: &str) -> io::Result<u64> {
        Err(unsupported())
    }

    fn rename(&self, _from: &str, _to: &str) -> io::Result<()> {
        Err(unsupported())
    }

    fn remove_file(&self, _path: &str) -> io::Result<()> {
        Err(unsupported())
    }

    fn create_dir(&self, _path: &str) -> io::Result<()> {
        Err(unsupported())
    }

    fn remove_dir(&self, _path: &str) -> io::Result<()> {
        Err(unsupported())
    }

    fn remove_dir_all<B: Allocator>(&self, _alloc: B, _path: &str) -> io::Result<()> {
        Err(unsupported())
    }
}

// A file of /proc that its mode keeps even from root, a path below a file, and a name without a file.
#[test]
fn what_may_not_be_opened_or_created_fails(rt: HostRuntime) -> Result<(), Fail> {
    let mut host = OsHost::new(rt.alloc(), &rt);
    for name in [
        "/proc/sys/vm/drop_caches",
        "/dev/null/below",
        "host_io_no_file",
        "",
    ] {
        assert!(rt; host.open(name) == Err(HostErr::Failed), "at {name}");
    }
    for name in [".", "/dev/null/below", "host_io_no_folder/file", ""] {
        assert!(rt; host.create(name) == Err(HostErr::Failed), "at {name}");
    }
    Ok(())
}

// The system opens a folder, and the memory of this process, whose first page has no bytes.
#[test]
fn what_opens_and_can_not_be_read_is_a_fault(rt: HostRuntime) -> Result<(), Fail> {
    let mut host = OsHost::new(rt.alloc(), &rt);
    for name in [".", "/proc/self/mem"] {
        let slot = host.open(name)?;
        let read = read_all(rt.alloc(), &mut host, slot, 10);
        assert!(rt; read == Err(ReadErr::ReadFault), "at {name}");
    }
    Ok(())
}

#[test]
fn a_read_that_fails_half_way_is_a_fault(rt: HostRuntime) -> Result<(), Fail> {
    fs::write(&rt, "host_io_half", "0123456789")?;
    let system = Halting {
        rt: &rt,
        reported: File::create(&rt, "/dev/null")?,
    };
    let mut host = OsHost::new(rt.alloc(), &system);
    let slot = host.open("host_io_half")?;
    let read = read_all(rt.alloc(), &mut host, slot, 10);
    fs::remove_file(&rt, "host_io_half")?;
    assert!(rt; read == Err(ReadErr::ReadFault));
    Ok(())
}

#[test]
fn what_is_written_in_pieces_is_whole(rt: HostRuntime) -> Result<(), Fail> {
    let system = Halting {
        rt: &rt,
        reported: File::create(&rt, "host_io_reported")?,
    };
    let mut host = OsHost::new(rt.alloc(), &system);
    let slot = host.create("host_io_written")?;
    write_all(&mut host, slot, b"0123456789")?;
    report_all(&mut host, b"abcdefghij")?;
    let written = fs::read_to_string(&rt, "host_io_written")?;
    let reported = fs::read_to_string(&rt, "host_io_reported")?;
    fs::remove_file(&rt, "host_io_written")?;
    fs::remove_file(&rt, "host_io_reported")?;
    assert_eq!(rt; written.as_str(), "0123456789");
    assert_eq!(rt; reported.as_str(), "abcdefghij");
    Ok(())
}

#[test]
fn a_full_device_is_a_fault(rt: HostRuntime) -> Result<(), Fail> {
    let system = Halting {
        rt: &rt,
        reported: File::create(&rt, "/dev/full")?,
    };
    let mut host = OsHost::new(rt.alloc(), &system);
    assert!(rt; report_all(&mut host, b"0123456789") == Err(WriteErr::WriteFault));
    let slot = host.create("/dev/full")?;
    assert!(rt; write_all(&mut host, slot, b"0123456789") == Err(WriteErr::WriteFault));
    Ok(())
}
