//! Files in memory.

ghost use Rattle.std.specs.Prelude.{◌≡◌, ◌↔◌, Some, IfOk, OnOk, OnErr, IsSome, Contains};
ghost use Rattle.std.specs.Option.{option_map};
ghost use Rattle.std.specs.FinMap as map;
ghost use Rattle.host_io.specs.Counts.{no_counts};
ghost use Rattle.host_io.specs.Files.{FetchGives, StoreDoes};
ghost use Rattle.host_io.specs.Memory.{after_fetch, after_store};

use super::script::Script;
use crate::{Fetched, Files, Stored};
use std::alloc::{AllocError, Global};
use std::collections::BTreeMap;
use std::marker::Model;

/// Files that are held in memory.
#[derive(Drop)]
pub struct MemFiles {
    alloc: Global,
    held: BTreeMap<String, Vec<u8>>,
    script: Script,
    misses: u64,
    fetch_faults: u64,
    store_faults: u64,
}

impl Model for MemFiles {
    ghost use Rattle.host_io.specs.Memory.{FilesInMemory, held_in};
    ghost use Rattle.host_io.specs.Codes.{coded_files};

    ghost Value = { FilesInMemory };

    ghost coded = { coded_files };

    ghost view = { λ f. record {
      held = held_in f.held;
      failing = f.script.failing.items;
      calls = f.script.calls;
      counts = record {
        misses = f.misses;
        fetch_faults = f.fetch_faults;
        store_faults = f.store_faults;
      };
    } };
}

impl MemFiles {
    /// Files that hold no path. Fetches and stores are numbered together, from 0, and fail where
    /// their number is listed.
    pub fn new(alloc: Global, failing: &[u64]) -> Result<MemFiles, AllocError>
        ensures { IfOk result (λ files. files ≡ record {
          held = map.empty;
          failing = failing.now;
          calls = 0;
          counts = no_counts;
        }) }
    {
        Ok(MemFiles {
            alloc,
            held: BTreeMap::new(alloc),
            script: Script::new(alloc, failing)?,
            misses: 0,
            fetch_faults: 0,
            store_faults: 0,
        })
    }

    /// Puts the bytes at the path, in place of what it held. This is no store, and has no number.
    pub fn put(&mut self, path: &str, bytes: &[u8]) -> Result<(), AllocError>
        ensures ok { OnOk result (self.new
            ≡ record self.old { held = map.insert self.old.held path.now bytes.now }) }
        ensures err { OnErr result (self.new ≡ self.old) }
    {
        let key = String::from_str(self.alloc, path)?;
        let value = Vec::from_slice(self.alloc, bytes)?;
        self.held.insert(key, value)?;
        Ok(())
    }

    /// The bytes that the path holds, if it is held. This is no fetch, and has no number.
    pub fn bytes_at(&self, path: &str) -> Option<&[u8]>
        ensures { option_map (λ bytes. bytes.now) result ≡ map.get self.now.held path.now }
    {
        self.held.get(path).map(|bytes| bytes.as_slice())
    }
}

impl Files for MemFiles {
    ghost held = { λ s. Some s.held };

    ghost counts = { λ s. s.counts };

    fn fetch(&mut self, path: &str, limit: u64, into: &mut Vec<u8>) -> Fetched
        ensures bytes { FetchGives (Some self.old.held) path.now limit
            into.old.items into.new.items result }
        ensures listed { (result ≡ Fetched.Failed) ↔ Contains self.old.failing self.old.calls }
        ensures memory { result ≡ Fetched.Memory → IsSome (map.get self.old.held path.now) }
        ensures after { self.new ≡ after_fetch result self.old }
    {
        if self.script.next_fails() {
            self.fetch_faults = self.fetch_faults.saturating_add(1);
            return Fetched::Failed;
        }
        match self.bytes_at(path) {
            None => {
                self.misses = self.misses.saturating_add(1);
                Fetched::Missing
            }
            Some(bytes) if bytes.len() as u64 >= limit => Fetched::Longer,
            Some(bytes) => match into.extend_from_slice(bytes) {
                Ok(()) => Fetched::Found,
                Err(_) => Fetched::Memory,
            },
        }
    }

    fn store(&mut self, path: &str, bytes: &[u8]) -> Stored
        ensures held { StoreDoes (Some self.old.held) (Some self.new.held)
            path.now bytes.now result }
        ensures listed { (result ≡ Stored.Failed) ↔ Contains self.old.failing self.old.calls }
        ensures after { self.new ≡ after_store result path.now bytes.now self.old }
    {
        if self.script.next_fails() {
            self.store_faults = self.store_faults.saturating_add(1);
            return Stored::Failed;
        }
        match self.put(path, bytes) {
            Ok(()) => Stored::Done,
            Err(_) => Stored::Memory,
        }
    }
}
