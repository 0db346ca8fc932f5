//! A sink in memory.

ghost use Rattle.std.specs.Prelude.{◌≡◌, ◌≤◌, ◌↔◌, ◌⊎◌, [], Some, IfOk, Contains, length};
ghost use Rattle.host_io.specs.Memory.{after_write, TakesWhatFits};

use super::script::Script;
use crate::{Sink, Took};
use std::alloc::{AllocError, Global};
use std::marker::Model;

/// A sink that keeps what it takes, up to the room that it was made with.
#[derive(Drop)]
pub struct MemSink {
    bytes: Vec<u8>,
    room: usize,
    script: Script,
    faults: u64,
}

impl Model for MemSink {
    ghost use Rattle.std.specs.Prelude.{◌≤◌, vec_len, vec_capacity};
    ghost use Rattle.host_io.specs.Memory.{SinkInMemory};

    ghost Value = { SinkInMemory };

    ghost view = { λ s. record {
      taken = s.bytes.items;
      room = s.room;
      failing = s.script.failing.items;
      calls = s.script.calls;
      faults = s.faults;
    } };

    ghost invariant = { λ s. (vec_len s.bytes ≤ s.room) × (s.room ≤ vec_capacity s.bytes) };
}

impl MemSink {
    /// A sink with room for so many bytes, which are reserved first, so that no write takes memory.
    /// Writes are numbered from 0, and fail where their number is listed, and where no room is
    /// left.
    pub fn new(alloc: Global, room: usize, failing: &[u64]) -> Result<MemSink, AllocError>
        ensures { IfOk result (λ sink. sink ≡ record {
          taken = [];
          room = room;
          failing = failing.now;
          calls = 0;
          faults = 0;
        }) }
    {
        Ok(MemSink {
            bytes: Vec::with_capacity(alloc, room)?,
            room,
            script: Script::new(alloc, failing)?,
            faults: 0,
        })
    }

    /// The bytes that were taken.
    pub fn as_slice(&self) -> &[u8]
        ensures { result.now ≡ self.now.taken }
    {
        &self.bytes
    }
}

impl Sink for MemSink {
    ghost taken = { λ s. Some s.taken };

    ghost faults = { λ s. s.faults };

    fn write(&mut self, piece: &[u8]) -> Took
        ensures refused { (result ≡ Took.Failed)
            ↔ (Contains self.old.failing self.old.calls ⊎ (self.old.room ≤ length self.old.taken)) }
        ensures fits { TakesWhatFits self.old piece.now result }
        ensures after { self.new ≡ after_write result piece.now self.old }
    {
        let left = self.room - self.bytes.len();
        if self.script.next_fails() || left == 0 {
            self.faults = self.faults.saturating_add(1);
            return Took::Failed;
        }
        let count = piece.len().min(left);
        match self.bytes.extend_from_slice(&piece[..count]) {
            Ok(()) => Took::Bytes(count),
            Err(_) => unreachable!(),
        }
    }
}
