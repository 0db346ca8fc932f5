//! Where words are run: files in memory, what the input gives, and what the output takes.

use crate::loaded::{loaded_shown, put_chain};
use host_io::{MemFiles, MemSink, MemSource};
use outcomes::Status;
use session::run;
use std::alloc::{AllocError, Global};

/// The bytes that an output takes where nothing else is said.
const ROOM: usize = 1000;

/// Files, what an input gives, how many bytes an output takes, and what was shown last.
#[derive(Drop)]
pub(crate) struct Place {
    files: MemFiles,
    given: String,
    /// The reads of an input that fail.
    failing_reads: Vec<u64>,
    room: usize,
    /// The writes of an output that fail.
    failing_writes: Vec<u64>,
    last: String,
}

/// What was printed, and how that ended.
#[derive(Drop)]
struct Ended {
    text: String,
    status: Status,
}

/// The numbers of a text; its other words are none.
fn numbers(alloc: Global, text: &str) -> Result<Vec<u64>, AllocError> {
    let mut found = Vec::new(alloc);
    for word in text.split_whitespace() {
        if let Ok(number) = word.parse::<u64>() {
            found.push(number)?;
        }
    }
    Ok(found)
}

/// The words of a text, in which `''` is the empty one.
fn words_of(alloc: Global, text: &str) -> Result<Vec<String>, AllocError> {
    let mut words = Vec::new(alloc);
    for word in text.split_whitespace() {
        words.push(String::from_str(alloc, if word == "''" { "" } else { word })?)?;
    }
    Ok(words)
}

/// Runs the words. It stands alone, so that no other proof meets what is stated of a run.
fn run_over(
    alloc: Global,
    words: &[String],
    files: &mut MemFiles,
    input: &mut MemSource,
    out: &mut MemSink,
) -> Status {
    run(alloc, words, files, input, out)
}

impl Place {
    /// A place with no files and an empty input, where nothing fails.
    pub(crate) fn new(alloc: Global) -> Result<Place, AllocError> {
        Ok(Place {
            files: MemFiles::new(alloc, &[])?,
            given: String::new(alloc),
            failing_reads: Vec::new(alloc),
            room: ROOM,
            failing_writes: Vec::new(alloc),
            last: String::new(alloc),
        })
    }

    /// From here on no path is held, and the fetches and stores of these numbers fail.
    pub(crate) fn clear(&mut self, alloc: Global, failing: &str) -> Result<(), AllocError> {
        let failing = numbers(alloc, failing)?;
        self.files = MemFiles::new(alloc, &failing)?;
        Ok(())
    }

    /// From here on an input gives what stands behind the first line, where `\r` is a carriage
    /// return, and its reads of the numbers on that line fail.
    pub(crate) fn set_input(&mut self, alloc: Global, input: &str) -> Result<(), AllocError> {
        let (failing, given) = input.split_once("\n").unwrap_or((input, ""));
        self.given = given.replace(alloc, "\\r", "\r")?;
        self.failing_reads = numbers(alloc, failing)?;
        Ok(())
    }

    /// From here on an output takes so many bytes, and its writes of the other numbers fail.
    pub(crate) fn set_sink(&mut self, alloc: Global, input: &str) -> Result<(), AllocError> {
        let (room, failing) = input.split_once(" ").unwrap_or((input, ""));
        self.room = room.parse::<usize>().unwrap_or(0).min(ROOM);
        self.failing_writes = numbers(alloc, failing)?;
        Ok(())
    }

    /// The path on the first line holds the rest.
    pub(crate) fn put(&mut self, input: &str) -> Result<(), AllocError> {
        let (path, text) = input.split_once("\n").unwrap_or((input, ""));
        self.files.put(path, text.as_bytes())
    }

    /// So many modules are held, each of which imports the next.
    pub(crate) fn chain(&mut self, alloc: Global, count: &str) -> Result<(), AllocError> {
        put_chain(alloc, &mut self.files, count.parse::<u32>().unwrap_or(0))
    }

    /// What loading a module gives.
    pub(crate) fn loaded_shown(&mut self, alloc: Global, name: &str) -> Result<String, AllocError> {
        loaded_shown(alloc, &mut self.files, name)
    }

    fn run(&mut self, alloc: Global, words: &str) -> Result<Ended, AllocError> {
        let words = words_of(alloc, words)?;
        let mut input = MemSource::new(alloc, self.given.as_bytes(), &self.failing_reads)?;
        let mut out = MemSink::new(alloc, self.room, &self.failing_writes)?;
        let status = run_over(alloc, &words, &mut self.files, &mut input, &mut out);
        let text = String::from_utf8_lossy(alloc, out.as_slice())?;
        Ok(Ended { text, status })
    }

    /// What words print.
    pub(crate) fn printed(&mut self, alloc: Global, words: &str) -> Result<String, AllocError> {
        let Ended { text, status: _ } = self.run(alloc, words)?;
        Ok(text)
    }

    fn shown(&mut self, alloc: Global, words: &str) -> Result<String, AllocError> {
        let Ended { text, status } = self.run(alloc, words)?;
        format!(in alloc; "{status:?} {text:?}")
    }

    /// The status that words end with, and what they print.
    pub(crate) fn run_shown(&mut self, alloc: Global, words: &str) -> Result<String, AllocError> {
        let found = self.shown(alloc, words)?;
        self.last.clear();
        self.last.push_str(found.as_str())?;
        Ok(found)
    }

    /// The same, or that it is as the last time.
    pub(crate) fn again_shown(&mut self, alloc: Global, words: &str) -> Result<String, AllocError> {
        let found = self.shown(alloc, words)?;
        if found.as_str() == self.last.as_str() {
            return String::from_str(alloc, "the same");
        }
        Ok(found)
    }

    /// What a path holds.
    pub(crate) fn held_shown(&self, alloc: Global, path: &str) -> Result<String, AllocError> {
        let Some(bytes) = self.files.bytes_at(path) else {
            return String::from_str(alloc, "nothing");
        };
        let text = String::from_utf8_lossy(alloc, bytes)?;
        format!(in alloc; "{text:?}")
    }
}
