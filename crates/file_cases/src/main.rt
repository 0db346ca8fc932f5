//! Answers the cases of `tests/files.txt`, which says what is asked: what lines spell, and what is
//! judged of files.
#![tactic(auto)]

mod judged;
mod lines;
mod long;
mod made;

use judged::{verdict_told, verdict_with};
use lines::{ending_told, row_told};
use long::{long_file, towers};
use made::{found_rows_told, roots_told, weakened_told};
use std::alloc::{AllocError, Global};
use std::io;
use std::process::ExitCode;
use tables::{Case, Layer, run};

/// What is answered of the lines that the cases before have given.
#[derive(Drop)]
struct Files {
    text: String,
}

/// A number, and what stands behind it.
fn with_number(input: &str) -> (usize, &str) {
    let (number, rest) = input.split_once(" ").unwrap_or((input, ""));
    (number.parse::<usize>().unwrap_or(0), rest)
}

impl Files {
    /// Puts these lines in place of the others.
    fn put(&mut self, input: &str) -> Result<(), AllocError> {
        self.text.clear();
        self.text.push_str(input)
    }

    fn row(&mut self, alloc: Global, line: &str) -> Result<String, AllocError> {
        self.text.push_str(line)?;
        self.text.push('\n')?;
        row_told(alloc, self.text.as_bytes())
    }

    fn told(&mut self, alloc: Global, case: &Case) -> Result<String, AllocError> {
        let input = case.input.as_str();
        let (number, rest) = with_number(input);
        match case.asked.as_str() {
            "row" => self.row(alloc, input),
            "ending" => ending_told(alloc, self.text.as_str(), input),
            "judged" => verdict_told(alloc, self.text.as_bytes()),
            "with" => verdict_with(alloc, self.text.as_str(), number, rest),
            "towers" => verdict_told(alloc, towers(alloc, number)?.as_bytes()),
            "long" => verdict_told(alloc, long_file(alloc, number, rest)?.as_bytes()),
            "roots" => roots_told(alloc, self.text.as_bytes()),
            "found" => found_rows_told(alloc, self.text.as_bytes()),
            "weakened" => weakened_told(alloc, self.text.as_bytes()),
            _ => String::from_str(alloc, "no such question"),
        }
    }
}

impl Layer for Files {
    fn answer(&mut self, alloc: Global, case: &Case) -> Result<Option<String>, AllocError> {
        if case.asked.as_str() == "file" {
            self.put(case.input.as_str())?;
            return Ok(None);
        }
        Ok(Some(self.told(alloc, case)?))
    }
}

fn main(rt: HostRuntime) -> io::Result<ExitCode> {
    let text = String::new(rt.alloc());
    run(&rt, &mut Files { text })
}
