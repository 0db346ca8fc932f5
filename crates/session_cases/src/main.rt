//! Answers the cases of `tests/session.txt`, which says what is asked: how words end over files in
//! memory, what they print, what is held then, which modules are loaded, and what is said of some.
#![tactic(auto)]

mod loaded;
mod modules;
mod place;

use loading::laws_of_loading;
use modules::{checked, tower};
use place::Place;
use session::answers_exclude_each_other;
use std::alloc::{AllocError, Global};
use std::io;
use std::process::ExitCode;
use tables::{Case, Layer, repeated, run};

/// What is answered where a case asks.
fn told(alloc: Global, place: &mut Place, case: &Case) -> Result<String, AllocError> {
    let input = case.input.as_str();
    match case.asked.as_str() {
        "run" => place.run_shown(alloc, input),
        "again" => place.again_shown(alloc, input),
        "held" => place.held_shown(alloc, input),
        "loads" => place.loaded_shown(alloc, input),
        "module" => checked(alloc, input),
        "tower" => checked(alloc, tower(alloc, input)?.as_str()),
        "deep" => checked(alloc, repeated(alloc, input)?.as_str()),
        _ => String::from_str(alloc, "no such question"),
    }
}

impl Layer for Place {
    fn answer(&mut self, alloc: Global, case: &Case) -> Result<Option<String>, AllocError> {
        let input = case.input.as_str();
        match case.asked.as_str() {
            "files" => self.clear(alloc, input)?,
            "file" => self.put(input)?,
            "chain" => self.chain(alloc, input)?,
            "input" => self.set_input(alloc, input)?,
            "sink" => self.set_sink(alloc, input)?,
            _ => return Ok(Some(told(alloc, self, case)?)),
        }
        Ok(None)
    }
}

fn main(rt: HostRuntime) -> io::Result<ExitCode> {
    // Laws, which do nothing: they are called so that they want nothing.
    answers_exclude_each_other();
    laws_of_loading();
    let mut place = Place::new(rt.alloc())?;
    run(&rt, &mut place)
}
