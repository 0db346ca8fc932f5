//! Answers the cases of `tests/normality.txt`, which says what is asked: whether trees are normal.
#![tactic(auto)]

mod fault;
mod told;
mod written;

use std::alloc::{AllocError, Global};
use std::io;
use std::process::ExitCode;
use tables::{Case, Layer, run};
use told::{doubled_told, normal_told};

/// It keeps nothing from one case to the next.
#[derive(Drop)]
struct Normality;

impl Layer for Normality {
    fn answer(&mut self, alloc: Global, case: &Case) -> Result<Option<String>, AllocError> {
        let input = case.input.as_str();
        let told = match case.asked.as_str() {
            "normal" => normal_told(alloc, input),
            "doubled" => doubled_told(alloc, input),
            _ => return Ok(Some(String::from_str(alloc, "no such question")?)),
        };
        match told {
            Ok(true) => Ok(Some(String::from_str(alloc, "yes")?)),
            Ok(false) => Ok(Some(String::from_str(alloc, "no")?)),
            Err(fault) => Ok(Some(format!(in alloc; "{fault:?}")?)),
        }
    }
}

fn main(rt: HostRuntime) -> io::Result<ExitCode> {
    run(&rt, &mut Normality)
}
