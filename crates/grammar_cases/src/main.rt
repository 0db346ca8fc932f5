//! Answers the cases of `tests/grammar.txt`, which says what is asked: the trees that are read of
//! texts, or the faults.
#![tactic(auto)]

mod shown;
mod texts;

use std::alloc::{AllocError, Global};
use std::io;
use std::process::ExitCode;
use tables::{Case, Layer, Marked, repeated, run};
use texts::{beginnings_read, exp_answer, exp_told, module_answer, module_told};

/// What is answered of texts.
#[derive(Drop)]
struct Grammar;

fn marked_exp(alloc: Global, input: &str) -> Result<String, AllocError> {
    let marked = Marked::new(alloc, input)?;
    let found = exp_told(alloc, marked.text.as_str())?;
    marked.told(alloc, found.as_str())
}

fn marked_module(alloc: Global, input: &str) -> Result<String, AllocError> {
    let marked = Marked::new(alloc, input)?;
    let found = module_told(alloc, marked.text.as_str())?;
    marked.told(alloc, found.as_str())
}

impl Layer for Grammar {
    fn answer(&mut self, alloc: Global, case: &Case) -> Result<Option<String>, AllocError> {
        let input = case.input.as_str();
        let found = match case.asked.as_str() {
            "exp" => exp_answer(alloc, input, false)?,
            "spans" => exp_answer(alloc, input, true)?,
            "module" => module_answer(alloc, input)?,
            "exp-at" => marked_exp(alloc, input)?,
            "module-at" => marked_module(alloc, input)?,
            "exp-times" => exp_told(alloc, repeated(alloc, input)?.as_str())?,
            "module-times" => module_told(alloc, repeated(alloc, input)?.as_str())?,
            "beginnings" => beginnings_read(alloc, input)?,
            _ => String::from_str(alloc, "no such question")?,
        };
        Ok(Some(found))
    }
}

fn main(rt: HostRuntime) -> io::Result<ExitCode> {
    run(&rt, &mut Grammar)
}
