//! Answers the cases of `tests/resolver.txt`, which says what is asked: the codes of texts, in a
//! scope with the definitions `f`, `g` and `g` of other modules, or the faults.
#![tactic(auto)]

mod shown;
mod texts;

use std::alloc::{AllocError, Global};
use std::io;
use std::process::ExitCode;
use tables::{Case, Layer, Marked, repeated, run};
use texts::{definitions_shown, exp_shown, module_shown};

/// What is answered of texts.
#[derive(Drop)]
struct Resolver;

fn marked_exp(alloc: Global, input: &str) -> Result<String, AllocError> {
    let marked = Marked::new(alloc, input)?;
    let found = exp_shown(alloc, marked.text.as_str())?;
    marked.told(alloc, found.as_str())
}

/// The place is that in the definitions, which a heading stands before.
fn marked_defs(alloc: Global, input: &str) -> Result<String, AllocError> {
    let whole = format!(in alloc; "module M where\n{input}\n")?;
    let marked = Marked::new(alloc, whole.as_str())?;
    let found = module_shown(alloc, marked.text.as_str())?;
    marked.told(alloc, found.as_str())
}

/// How the code of a text that nests begins, as far as that is wanted.
fn begun(alloc: Global, case: &Case) -> Result<String, AllocError> {
    let text = repeated(alloc, case.input.as_str())?;
    let found = exp_shown(alloc, text.as_str())?;
    let found = found.as_str();
    String::from_str(alloc, found.get(..case.wanted.len()).unwrap_or(found))
}

impl Layer for Resolver {
    fn answer(&mut self, alloc: Global, case: &Case) -> Result<Option<String>, AllocError> {
        let input = case.input.as_str();
        let found = match case.asked.as_str() {
            "exp" => exp_shown(alloc, input)?,
            "defs" => definitions_shown(alloc, input)?,
            "exp-at" => marked_exp(alloc, input)?,
            "defs-at" => marked_defs(alloc, input)?,
            "begins" => begun(alloc, case)?,
            _ => String::from_str(alloc, "no such question")?,
        };
        Ok(Some(found))
    }
}

fn main(rt: HostRuntime) -> io::Result<ExitCode> {
    run(&rt, &mut Resolver)
}
