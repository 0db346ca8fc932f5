//! Each public call once, with its answer, and what the system may answer.

use super::*;
use crate::disk::{append_below, fetched_from, stored_from};
use crate::faults::{Fault, fault_of};
use std::alloc::{AllocError, Global};
use std::io::{ErrorKind, Read, Write};
use std::process::Abort;
use std::test::Fail;
use std::{env, fs, io, process};

#[test]
fn memory_files_fail_where_listed(rt: HostRuntime) -> Result<(), Fail> {
    let alloc = rt.alloc();
    let mut files = MemFiles::new(alloc, &[1, 3])?;
    files.put("a.drv", b"one")?;
    let mut bytes = Vec::from_slice(alloc, b"> ")?;
    assert_eq!(rt; files.fetch("a.drv", 4, &mut bytes), Fetched::Found);
    assert_eq!(rt; files.fetch("a.drv", 4, &mut bytes), Fetched::Failed);
    assert_eq!(rt; files.store("b.drv", b"two"), Stored::Done);
    assert_eq!(rt; files.store("a.drv", b"two"), Stored::Failed);
    assert_eq!(rt; files.fetch("c.drv", 4, &mut bytes), Fetched::Missing);
    assert_eq!(rt; files.fetch("a.drv", 3, &mut bytes), Fetched::Longer);
    assert_eq!(rt; bytes.as_slice(), b"> one".as_slice());
    for (path, held) in [("a.drv", "one"), ("b.drv", "two"), ("c.drv", "none")] {
        let bytes = files.bytes_at(path).unwrap_or(b"none");
        assert_eq!(rt; bytes, held.as_bytes(), "at {path}");
    }
    Ok(())
}

#[test]
fn memory_source_gives_its_bytes(rt: HostRuntime) -> Result<(), Fail> {
    let mut source = MemSource::new(rt.alloc(), b"hello", &[1])?;
    for (got, buf) in [
        (Got::Bytes(3), "hel"),
        (Got::Failed, "..."),
        (Got::Bytes(2), "lo."),
        (Got::Bytes(0), "..."),
    ] {
        let mut into = *b"...";
        assert_eq!(rt; source.read(&mut into), got, "at {buf}");
        assert_eq!(rt; into.as_slice(), buf.as_bytes(), "at {buf}");
    }
    Ok(())
}

#[test]
fn memory_sink_stops_at_its_room(rt: HostRuntime) -> Result<(), Fail> {
    let mut sink = MemSink::new(rt.alloc(), 5, &[1])?;
    for (piece, took) in [
        ("abc", Took::Bytes(3)),
        ("x", Took::Failed),
        ("", Took::Bytes(0)),
        ("def", Took::Bytes(2)),
        ("g", Took::Failed),
        ("", Took::Failed),
    ] {
        assert_eq!(rt; sink.write(piece.as_bytes()), took, "at {piece}");
    }
    assert_eq!(rt; sink.as_slice(), b"abcde".as_slice());
    Ok(())
}

/// More bytes than a mebibyte has.
fn many(alloc: Global) -> Result<Vec<u8>, AllocError> {
    let mut bytes = Vec::new(alloc);
    for place in 0..(1 << 20) + 3u32 {
        bytes.push((place % 251) as u8)?;
    }
    Ok(bytes)
}

/// Asserts how a store at the path ends, and a fetch after it.
fn assert_stores<F: Files>(
    rt: &impl Abort,
    alloc: Global,
    files: &mut F,
    path: &str,
    bytes: &[u8],
    (stored, fetched): (Stored, Fetched),
) {
    let mut found = Vec::new(alloc);
    assert_eq!(rt; files.store(path, bytes), stored, "at {path}");
    assert_eq!(rt;
        files.fetch(path, u64::MAX, &mut found),
        fetched,
        "at {path}"
    );
    if stored == Stored::Done {
        assert!(rt; found.as_slice() == bytes, "at {path}");
    }
}

#[test]
fn disk_files_tell_missing_from_failed(rt: HostRuntime) -> Result<(), Fail> {
    let alloc = rt.alloc();
    let name = format!(in alloc; "ctt-edge-{}", process::id(rt.process()))?;
    let folder = env::temp_dir(&rt)?.join(alloc, name.as_str())?;
    fs::create_dir(&rt, folder.as_str())?;
    let there = folder.join(alloc, "there")?;
    let inside = there.join(alloc, "inside")?;
    let mut files = DiskFiles::new(rt);
    let done = (Stored::Done, Fetched::Found);
    let failed = (Stored::Failed, Fetched::Failed);
    assert_stores(&rt, alloc, &mut files, there.as_str(), &many(alloc)?, done);
    assert_stores(&rt, alloc, &mut files, there.as_str(), b"rules 1", done);
    assert_stores(&rt, alloc, &mut files, folder.as_str(), b"rules 1", failed);
    assert_stores(&rt, alloc, &mut files, inside.as_str(), b"rules 1", failed);
    assert_stores(&rt, alloc, &mut files, "/dev/full", b"rules 1", failed);
    let mut bytes = Vec::from_slice(alloc, b"> ")?;
    for (limit, fetched) in [(7, Fetched::Longer), (8, Fetched::Found)] {
        assert_eq!(rt; files.fetch(there.as_str(), limit, &mut bytes), fetched);
    }
    assert_eq!(rt; bytes.as_slice(), b"> rules 1".as_slice());
    fs::remove_dir_all(&rt, folder.as_str())?;
    assert_eq!(rt;
        files.fetch(there.as_str(), 8, &mut bytes),
        Fetched::Missing
    );
    assert_eq!(rt; bytes.as_slice(), b"> rules 1".as_slice());
    Ok(())
}

#[test]
fn disk_files_store_beside_the_path(rt: HostRuntime) -> Result<(), Fail> {
    let alloc = rt.alloc();
    let name = format!(in alloc; "ctt-beside-{}", process::id(rt.process()))?;
    let folder = env::temp_dir(&rt)?.join(alloc, name.as_str())?;
    fs::create_dir(&rt, folder.as_str())?;
    let there = folder.join(alloc, "there")?;
    let link = folder.join(alloc, "link")?;
    fs::write(&rt, there.as_str(), "old")?;
    fs::hard_link(&rt, there.as_str(), link.as_str())?;
    let taken = folder.join(alloc, ".ctt-0")?;
    fs::write(&rt, taken.as_str(), "taken")?;
    let mut files = DiskFiles::new(rt);
    assert_eq!(rt; files.store(link.as_str(), b"new"), Stored::Done);
    for (path, held) in [(&there, "old"), (&link, "new"), (&taken, "taken")] {
        assert_eq!(rt;
            fs::read(&rt, path.as_str())?.as_slice(),
            held.as_bytes(),
            "at {held}"
        );
    }
    assert!(rt; !fs::exists(&rt, folder.join(alloc, ".ctt-1")?.as_str())?);
    fs::remove_dir_all(&rt, folder.as_str())?;
    Ok(())
}

#[test]
fn errors_have_their_meaning(rt: HostRuntime) {
    for (kind, fault, fetched, stored) in [
        (
            ErrorKind::NotFound,
            Fault::Missing,
            Fetched::Missing,
            Stored::Failed,
        ),
        (
            ErrorKind::OutOfMemory,
            Fault::Memory,
            Fetched::Memory,
            Stored::Memory,
        ),
        (
            ErrorKind::Interrupted,
            Fault::Interrupted,
            Fetched::Failed,
            Stored::Failed,
        ),
        (
            ErrorKind::PermissionDenied,
            Fault::Other,
            Fetched::Failed,
            Stored::Failed,
        ),
        (
            ErrorKind::StorageFull,
            Fault::Other,
            Fetched::Failed,
            Stored::Failed,
        ),
        (
            ErrorKind::NotADirectory,
            Fault::Other,
            Fetched::Failed,
            Stored::Failed,
        ),
    ] {
        assert_eq!(rt; fault_of(&io::Error::from(kind)), fault);
        assert_eq!(rt; fetched_from(&Err(io::Error::from(kind))), fetched);
        assert_eq!(rt; stored_from(&Err(io::Error::from(kind))), stored);
    }
    assert_eq!(rt; fetched_from(&Ok(true)), Fetched::Found);
    assert_eq!(rt; fetched_from(&Ok(false)), Fetched::Longer);
}

/// A stream with these errors, the last first, that then gives nothing and takes so many bytes of
/// each piece.
#[derive(Drop)]
struct Faulty {
    errors: Vec<ErrorKind>,
    takes: usize,
}

impl Faulty {
    fn new(alloc: Global, errors: &[ErrorKind], takes: usize) -> Result<Faulty, AllocError> {
        let errors = Vec::from_slice(alloc, errors)?;
        Ok(Faulty { errors, takes })
    }

    fn next(&mut self) -> io::Result<()> {
        match self.errors.pop() {
            Some(kind) => Err(io::Error::from(kind)),
            None => Ok(()),
        }
    }
}

impl Read for Faulty {
    fn read(&mut self, _buf: &mut [u8]) -> io::Result<usize> {
        self.next()?;
        Ok(0)
    }
}

impl Write for Faulty {
    fn write(&mut self, buf: &[u8]) -> io::Result<usize> {
        self.next()?;
        Ok(self.takes.min(buf.len()))
    }

    fn flush(&mut self) -> io::Result<()> {
        Ok(())
    }
}

const INTERRUPTS: [ErrorKind; 3] = [ErrorKind::Interrupted; 3];

#[test]
fn input_is_read_until_it_answers(rt: HostRuntime) -> Result<(), Fail> {
    let alloc = rt.alloc();
    let mut buf = *b"...";
    let mut input = StdIn::new(b"hi".as_slice());
    assert_eq!(rt; input.read(&mut buf), Got::Bytes(2));
    assert_eq!(rt; buf.as_slice(), b"hi.".as_slice());
    let mut input = StdIn::new(Faulty::new(alloc, &INTERRUPTS, 0)?);
    assert_eq!(rt; input.read(&mut buf), Got::Bytes(0));
    let errors = [ErrorKind::TimedOut, ErrorKind::Interrupted];
    let mut input = StdIn::new(Faulty::new(alloc, &errors, 0)?);
    assert_eq!(rt; input.read(&mut buf), Got::Failed);
    assert_eq!(rt; input.read(&mut buf), Got::Bytes(0));
    assert_eq!(rt; StdIn::new(rt.stdin()).read(&mut []), Got::Bytes(0));
    Ok(())
}

/// Asserts how two writes end where the writer has these errors first.
fn assert_writes(
    rt: &impl Abort,
    alloc: Global,
    errors: &[ErrorKind],
    takes: usize,
    writes: [Took; 2],
) -> Result<(), AllocError> {
    let mut out = StdOut::new(Faulty::new(alloc, errors, takes)?);
    for took in writes {
        assert_eq!(rt; out.write(b"hi"), took, "taking {takes}");
    }
    Ok(())
}

#[test]
fn output_is_written_until_it_answers(rt: HostRuntime) -> Result<(), Fail> {
    let alloc = rt.alloc();
    let mut written = Vec::new(alloc);
    assert_eq!(rt; StdOut::new(&mut written).write(b"hi"), Took::Bytes(2));
    assert_eq!(rt; written.as_slice(), b"hi".as_slice());
    let (one, two) = (Took::Bytes(1), Took::Bytes(2));
    assert_writes(&rt, alloc, &INTERRUPTS, 2, [two, two])?;
    assert_writes(
        &rt,
        alloc,
        &[ErrorKind::StorageFull],
        1,
        [Took::Failed, one],
    )?;
    assert_writes(&rt, alloc, &[ErrorKind::BrokenPipe], 5, [Took::Failed, two])?;
    assert_writes(&rt, alloc, &[], 0, [Took::Failed, Took::Failed])?;
    assert_eq!(rt; StdOut::new(rt.stdout()).write(b""), Took::Bytes(0));
    Ok(())
}

#[test]
fn a_read_that_fails_appends_nothing(rt: HostRuntime) -> Result<(), Fail> {
    let mut bytes = Vec::from_slice(rt.alloc(), b"> ")?;
    let errors = [ErrorKind::TimedOut];
    let reader = b"hi".as_slice().chain(Faulty::new(rt.alloc(), &errors, 0)?);
    assert!(rt; append_below(reader, 9, &mut bytes).is_err());
    assert_eq!(rt; bytes.as_slice(), b"> ".as_slice());
    assert!(rt; !append_below(b"hi".as_slice(), 2, &mut bytes)?);
    assert_eq!(rt; bytes.as_slice(), b"> ".as_slice());
    assert!(rt; append_below(b"hi".as_slice(), 3, &mut bytes)?);
    assert_eq!(rt; bytes.as_slice(), b"> hi".as_slice());
    Ok(())
}
