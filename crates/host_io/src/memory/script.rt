//! Which calls of an object in memory are to fail.

ghost use Rattle.std.specs.Prelude.{◌≡◌, ◌↔◌, IfOk, IsTrue, Contains};
ghost use Rattle.host_io.specs.Counts.{one_more};

use std::alloc::{AllocError, Global};

/// The numbers of the calls that are to fail, and the number of the next call.
#[derive(Drop)]
pub struct Script {
    failing: Vec<u64>,
    calls: u64,
}

impl Script {
    pub fn new(alloc: Global, failing: &[u64]) -> Result<Script, AllocError>
        ensures failing { IfOk result (λ script. script.failing.items ≡ failing.now) }
        ensures calls { IfOk result (λ script. script.calls ≡ 0) }
    {
        Ok(Script {
            failing: Vec::from_slice(alloc, failing)?,
            calls: 0,
        })
    }

    /// Counts a call, and tells whether it is to fail.
    pub fn next_fails(&mut self) -> bool
        ensures answer { IsTrue result ↔ Contains self.old.failing.items self.old.calls }
        ensures calls { self.new.calls ≡ one_more self.old.calls }
        ensures failing { self.new.failing ≡ self.old.failing }
    {
        let call = self.calls;
        self.calls = call.saturating_add(1);
        self.failing.contains(&call)
    }
}
