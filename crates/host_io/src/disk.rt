//! The files of the system.

ghost use Rattle.std.specs.Prelude.{◌≡◌, None, IfOk, OnOk, OnErr, true, false};
ghost use Rattle.host_io.specs.Counts.{no_counts, counted_fetch, counted_store};
ghost use Rattle.host_io.specs.Disk.{AppendsBelow, ReadsFile, WritesFile};
ghost use Rattle.host_io.specs.Faults.{fetched_from, stored_from};
ghost use Rattle.host_io.specs.Files.{FetchGives};

use crate::faults::{Fault, fault_of};
use crate::{Fetched, Files, Stored};
use std::alloc::Global;
use std::fs::File;
use std::io::{ErrorKind, Read, Write};
use std::marker::Model;
use std::{fs, io, rt};

/// How many names are tried for a new file.
const MOST_NAMES: u32 = 100;

/// The files of the system, which what `main` is handed reaches. They tell no contents. A path that
/// is there and is no regular file, or can't be opened or read, is a fault. A store makes a new
/// file in the folder of the path and gives it the name of the path, so that no link is followed.
#[derive(Drop)]
pub struct DiskFiles<R: rt::Files + AllocGlobal + Drop> {
    system: R,
    misses: u64,
    fetch_faults: u64,
    store_faults: u64,
}

impl<R: rt::Files + AllocGlobal + Drop> Model for DiskFiles<R> {
    ghost use Rattle.host_io.specs.Counts.{FileCounts};

    ghost Value = { FileCounts };

    ghost view = { λ d. record {
      misses = d.misses;
      fetch_faults = d.fetch_faults;
      store_faults = d.store_faults;
    } };
}

impl<R: rt::Files + AllocGlobal + Drop> DiskFiles<R> {
    /// The files that the runtime reaches.
    pub fn new(system: R) -> Self
        ensures { result ≡ no_counts }
    {
        DiskFiles {
            system,
            misses: 0,
            fetch_faults: 0,
            store_faults: 0,
        }
    }

    /// Counts a fetch that ended so.
    fn count_fetch(&mut self, fetched: Fetched)
        ensures { self.new ≡ counted_fetch fetched self.old }
    {
        match fetched {
            Fetched::Found => {}
            Fetched::Missing => self.misses = self.misses.saturating_add(1),
            Fetched::Failed => self.fetch_faults = self.fetch_faults.saturating_add(1),
            Fetched::Longer | Fetched::Memory => {}
        }
    }
}

/// The error of a path at which no regular file stands.
fn no_file() -> io::Error {
    io::Error::from(ErrorKind::InvalidInput)
}

/// Appends all that the reader has left, if that is less than `limit` bytes, and tells whether. A
/// no and an error leave `into` as it was.
pub(crate) fn append_below<R: Read + Drop>(
    reader: R,
    limit: u64,
    into: &mut Vec<u8>,
) -> io::Result<bool>
    ensures ok { IfOk result
        (AppendsBelow (R.remaining reader) limit into.old.items into.new.items) }
    ensures err { OnErr result (into.new.items ≡ into.old.items) }
{
    let before = into.len();
    match reader.take(limit).read_to_end(into) {
        Ok(count) if (count as u64) < limit => Ok(true),
        Ok(_) => {
            into.truncate(before);
            Ok(false)
        }
        Err(error) => {
            into.truncate(before);
            Err(error)
        }
    }
}

/// Opens the regular file at the path, and tells its length. What is none is not opened, since that
/// might block.
fn open_file<R: rt::Files>(system: &R, path: &str) -> io::Result<(R::File, u64)> {
    let there = fs::metadata(system, path)?;
    if !there.is_file() {
        return Err(no_file());
    }
    Ok((File::open(system, path)?, there.len()))
}

/// Makes room for so many bytes, as far as they are below the limit.
fn reserve_below(into: &mut Vec<u8>, length: u64, limit: u64) -> io::Result<()>
    ensures { into.new.items ≡ into.old.items }
{
    into.reserve(length.min(limit) as usize)?;
    Ok(())
}

/// Appends the bytes of the file at the path, if they are fewer than `limit`, and tells whether. A
/// no and an error leave `into` as it was.
fn append_file<R: rt::Files>(
    system: &R,
    path: &str,
    limit: u64,
    into: &mut Vec<u8>,
) -> io::Result<bool>
    ensures ok { IfOk result
        (ReadsFile R.File.remaining limit into.old.items into.new.items) }
    ensures err { OnErr result (into.new.items ≡ into.old.items) }
{
    let (file, length) = open_file(system, path)?;
    reserve_below(into, length, limit)?;
    append_below(file, limit, into)
}

/// Refuses a path at which something stands that is no regular file and no link, or that no one may
/// write.
fn refuse_kept<R: rt::Files>(system: &R, path: &str) -> io::Result<()> {
    match fs::symlink_metadata(system, path) {
        Ok(there) if there.is_symlink() => Ok(()),
        Ok(there) if there.is_file() && !there.permissions().readonly() => Ok(()),
        Ok(_) => Err(no_file()),
        Err(error) if error.kind() == ErrorKind::NotFound => Ok(()),
        Err(error) => Err(error),
    }
}

/// The folder of a path, up to its slash.
fn folder_of(path: &str) -> &str {
    match path.rfind('/') {
        Some(slash) => &path[..=slash],
        None => "",
    }
}

/// Makes a file in the folder of the path, under a name that nothing had there: the name and the
/// file.
fn new_beside<R: rt::Files>(
    system: &R,
    alloc: Global,
    path: &str,
) -> io::Result<(String, R::File)> {
    let folder = folder_of(path);
    for number in 0..MOST_NAMES {
        let name = format!(in alloc; "{folder}.ctt-{number}")?;
        match File::create_new(system, name.as_str()) {
            Ok(file) => return Ok((name, file)),
            Err(error) if error.kind() == ErrorKind::AlreadyExists => {}
            Err(error) => return Err(error),
        }
    }
    Err(io::Error::from(ErrorKind::AlreadyExists))
}

/// Writes the bytes to the file, and renames it.
fn fill<R: rt::Files>(
    system: &R,
    mut file: R::File,
    name: &str,
    path: &str,
    bytes: &[u8],
) -> io::Result<()>
    ensures { OnOk result (WritesFile R.File.contents bytes.now) }
{
    file.write_all(bytes)?;
    fs::rename(system, name, path)
}

/// Puts a file of these bytes at the path, in place of what stood there, which stays where this
/// fails.
fn write_file<R: rt::Files>(system: &R, alloc: Global, path: &str, bytes: &[u8]) -> io::Result<()>
    ensures { OnOk result (WritesFile R.File.contents bytes.now) }
{
    refuse_kept(system, path)?;
    let (name, file) = new_beside(system, alloc, path)?;
    match fill(system, file, name.as_str(), path, bytes) {
        Ok(()) => Ok(()),
        Err(error) => {
            // What is left over is of no use. That it can't be removed is no other fault.
            let _ = fs::remove_file(system, name.as_str());
            Err(error)
        }
    }
}

/// How a fetch ends where the system answered so.
pub(crate) fn fetched_from(answer: &io::Result<bool>) -> Fetched
    ensures { result ≡ fetched_from answer.now }
{
    match answer {
        Ok(true) => Fetched::Found,
        Ok(false) => Fetched::Longer,
        Err(error) => match fault_of(error) {
            Fault::Missing => Fetched::Missing,
            Fault::Memory => Fetched::Memory,
            Fault::Interrupted | Fault::Other => Fetched::Failed,
        },
    }
}

/// How a store ends where the system answered so.
pub(crate) fn stored_from(answer: &io::Result<()>) -> Stored
    ensures { result ≡ stored_from answer.now }
{
    match answer {
        Ok(()) => Stored::Done,
        Err(error) => match fault_of(error) {
            Fault::Memory => Stored::Memory,
            Fault::Missing | Fault::Interrupted | Fault::Other => Stored::Failed,
        },
    }
}

impl<R: rt::Files + AllocGlobal + Drop> Files for DiskFiles<R> {
    ghost held = { λ d. None };

    ghost counts = { λ d. d };

    fn fetch(&mut self, path: &str, limit: u64, into: &mut Vec<u8>) -> Fetched
        ensures bytes { FetchGives None path.now limit into.old.items into.new.items result }
        ensures found { result ≡ Fetched.Found
            → ReadsFile R.File.remaining limit into.old.items into.new.items true }
        ensures longer { result ≡ Fetched.Longer
            → ReadsFile R.File.remaining limit into.old.items into.new.items false }
        ensures counted { self.new ≡ counted_fetch result self.old }
    {
        let answer = append_file(&self.system, path, limit, into);
        let fetched = fetched_from(&answer);
        self.count_fetch(fetched);
        fetched
    }

    fn store(&mut self, path: &str, bytes: &[u8]) -> Stored
        ensures done { result ≡ Stored.Done → WritesFile R.File.contents bytes.now }
        ensures counted { self.new ≡ counted_store result self.old }
    {
        let answer = write_file(&self.system, self.system.alloc(), path, bytes);
        let stored = stored_from(&answer);
        if stored == Stored::Failed {
            self.store_faults = self.store_faults.saturating_add(1);
        }
        stored
    }
}
