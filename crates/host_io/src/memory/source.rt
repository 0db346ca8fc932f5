//! A source in memory.

ghost use Rattle.std.specs.Prelude.{◌≡◌, ◌↔◌, ◌++◌, min, Some, IfOk, Contains, length, take, drop};
ghost use Rattle.host_io.specs.Streams.{ReadGives};
ghost use Rattle.host_io.specs.Memory.{after_read, GivesWhatFits};

use super::script::Script;
use crate::{Got, Source};
use std::alloc::{AllocError, Global};
use std::marker::Model;

/// A source that gives the bytes that it was made with.
#[derive(Drop)]
pub struct MemSource {
    bytes: Vec<u8>,
    at: usize,
    script: Script,
    faults: u64,
}

impl Model for MemSource {
    ghost use Rattle.std.specs.Prelude.{◌≤◌, length, drop};
    ghost use Rattle.host_io.specs.Memory.{SourceInMemory};

    ghost Value = { SourceInMemory };

    ghost view = { λ s. record {
      left = drop s.at s.bytes.items;
      failing = s.script.failing.items;
      calls = s.script.calls;
      faults = s.faults;
    } };

    ghost invariant = { λ s. s.at ≤ length s.bytes.items };
}

impl MemSource {
    /// A source with these bytes. Reads are numbered from 0, and fail where their number is listed.
    pub fn new(alloc: Global, bytes: &[u8], failing: &[u64]) -> Result<MemSource, AllocError>
        ensures { IfOk result (λ source. source ≡ record {
          left = bytes.now;
          failing = failing.now;
          calls = 0;
          faults = 0;
        }) }
    {
        Ok(MemSource {
            bytes: Vec::from_slice(alloc, bytes)?,
            at: 0,
            script: Script::new(alloc, failing)?,
            faults: 0,
        })
    }
}

/// Copies to the start of a slice as much as fits of the start of another, and tells how much.
fn copy_start(from: &[u8], to: &mut [u8]) -> usize
    ensures count { result ≡ min (length to.old) (length from.now) }
    ensures copied { to.new ≡ take result from.now ++ drop result to.old }
{
    let count = to.len().min(from.len());
    to[..count].copy_from_slice(&from[..count]);
    count
}

impl Source for MemSource {
    ghost left = { λ s. Some s.left };

    ghost faults = { λ s. s.faults };

    fn read(&mut self, buf: &mut [u8]) -> Got
        ensures bytes { ReadGives (Some self.old.left) (Some self.new.left) buf.new result }
        ensures listed { (result ≡ Got.Failed) ↔ Contains self.old.failing self.old.calls }
        ensures gives { GivesWhatFits self.old buf.old buf.new result }
        ensures after { self.new ≡ after_read result self.old }
    {
        if self.script.next_fails() {
            self.faults = self.faults.saturating_add(1);
            return Got::Failed;
        }
        let count = copy_start(self.bytes.split_at(self.at).1, buf);
        self.at += count;
        Got::Bytes(count)
    }
}
