//! Tables of cases: inputs with the answers that are wanted, as text that a program reads.
//!
//!     # a comment
//!     exp f x y => (app f x y)
//!     module
//!         module M where
//!         a : U = b
//!     => M (def a : U = b)
//!
//! A case begins with the word that says what is asked. The input stands behind it, or on lines of
//! its own that begin with four spaces; the answer stands behind `=>`. Where that begins a line,
//! the last line of the input has its newline; where it stands within one, with a space on both
//! sides, it has none.
#![tactic(auto)]

mod inputs;
mod reading;

pub use inputs::{Marked, repeated};
use reading::Reader;
use std::alloc::{AllocError, Global};
use std::io;
use std::process::ExitCode;

/// What is asked, of which input, which answer is wanted, and the line that it ends on.
#[derive(Debug, Drop)]
pub struct Case {
    pub asked: String,
    pub input: String,
    pub wanted: String,
    pub line: usize,
}

/// What answers the cases of a table.
pub trait Layer {
    /// The answer to a case; None where it only says what the cases behind it are about.
    fn answer(&mut self, alloc: Global, case: &Case) -> Result<Option<String>, AllocError>;
}

/// How many cases had their answers, how many had another one, and what is said of these.
#[derive(Debug, Drop)]
pub struct Tally {
    pub passed: u64,
    pub failed: u64,
    pub wrong: String,
}

impl Tally {
    fn count(&mut self, alloc: Global, case: &Case, found: &str) -> Result<(), AllocError> {
        let found = found.trim_start();
        if found == case.wanted.as_str() {
            self.passed = self.passed.saturating_add(1);
            return Ok(());
        }
        self.failed = self.failed.saturating_add(1);
        let Case {
            asked,
            input,
            wanted,
            line,
        } = case;
        let what = format!(in alloc;
            "line {line}: {asked} {input} => {found}\n    in place of {wanted}\n"
        )?;
        self.wrong.push_str(what.as_str())
    }
}

/// Asks each case of a table, in order.
pub fn ask_all<L: Layer>(alloc: Global, text: &str, layer: &mut L) -> Result<Tally, AllocError> {
    let mut tally = Tally {
        passed: 0,
        failed: 0,
        wrong: String::new(alloc),
    };
    let mut reader = Reader::new();
    for (at, line) in text.lines().enumerate() {
        if let Some(case) = reader.take(alloc, at, line)? {
            if let Some(found) = layer.answer(alloc, &case)? {
                tally.count(alloc, &case, found.as_str())?;
            }
        }
    }
    if reader.is_open() {
        tally.failed = tally.failed.saturating_add(1);
        tally.wrong.push_str("the last case has no answer\n")?;
    }
    Ok(tally)
}

/// Reads a table from the input, prints the cases that have another answer, and how many have
/// theirs and how many another; the status says whether all have theirs.
pub fn run<L: Layer>(rt: &HostRuntime, layer: &mut L) -> io::Result<ExitCode> {
    let text = io::read_to_string(rt.alloc(), rt.stdin())?;
    let Tally {
        passed,
        failed,
        wrong,
    } = ask_all(rt.alloc(), text.as_str(), layer)?;
    println!(rt; "{wrong}{passed} passed, {failed} failed")?;
    Ok(if failed == 0 {
        ExitCode::SUCCESS
    } else {
        ExitCode::FAILURE
    })
}
