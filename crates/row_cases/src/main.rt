//! Answers the cases of `tests/rows.txt`, which says what is asked: what rows open to, whether they
//! mean the same, and how side conditions over them are decided.
#![tactic(auto)]

mod asked;
mod chains;
mod compared;
mod decided;
mod fault;
mod opened;
mod stored;
mod written;

use asked::{Asked, told};
use fault::Fault;
use std::alloc::{AllocError, Global};
use std::io;
use std::process::ExitCode;
use tables::{Case, Layer, run};

impl Layer for Asked {
    fn answer(&mut self, alloc: Global, case: &Case) -> Result<Option<String>, AllocError> {
        if case.asked.as_str() == "rows" {
            return match self.put(alloc, case.input.as_str()) {
                Ok(()) => Ok(None),
                Err(fault) => Ok(Some(format!(in alloc; "{fault:?}")?)),
            };
        }
        match told(alloc, self, case.asked.as_str(), case.input.as_str()) {
            Ok(found) => Ok(Some(found)),
            Err(fault) => Ok(Some(format!(in alloc; "{fault:?}")?)),
        }
    }
}

fn main(rt: HostRuntime) -> io::Result<ExitCode> {
    let alloc = rt.alloc();
    run(&rt, &mut Asked::new(alloc))
}
