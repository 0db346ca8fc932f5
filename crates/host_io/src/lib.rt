//! What the program reaches outside itself: files, a source and a sink of bytes, real and in
//! memory.
//!
//! ```text
//! let mut files = MemFiles::new(alloc, &[1])?;         // the call of number 1 fails
//! files.put("a.drv", b"one")?;
//! files.fetch("a.drv", &mut bytes)                     // Fetched::Found: `one` is appended
//! files.fetch("a.drv", &mut bytes)                     // Fetched::Failed, which is counted
//! ```
#![tactic(auto)]

mod disk;
mod faults;
mod files;
mod memory;
mod standard;
mod streams;

pub use disk::DiskFiles;
pub use files::{Fetched, Files, Stored};
pub use memory::{MemFiles, MemSink, MemSource};
pub use standard::{StdIn, StdOut};
pub use streams::{Got, Sink, Source, Took};

#[cfg(test)]
mod tests;
