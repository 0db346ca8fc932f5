//! Reads cases line by line.

use crate::Case;
use std::alloc::{AllocError, Global};

/// The case that is read, if one has begun.
#[derive(Drop)]
pub(crate) struct Reader {
    open: Option<Begun>,
}

/// What is asked, the input so far, and whether it has a line.
#[derive(Drop)]
struct Begun {
    asked: String,
    input: String,
    has_line: bool,
}

/// A line without the answer that stands in it, and that answer.
fn parted(line: &str) -> (&str, Option<&str>) {
    if let Some((piece, wanted)) = line.split_once(" => ") {
        return (piece, Some(wanted));
    }
    match line.strip_suffix(" =>") {
        Some(piece) => (piece, Some("")),
        None => (line, None),
    }
}

impl Begun {
    fn new(alloc: Global, asked: &str) -> Result<Begun, AllocError> {
        Ok(Begun {
            asked: String::from_str(alloc, asked)?,
            input: String::new(alloc),
            has_line: false,
        })
    }

    /// Adds a line, and answers what is wanted where that stands behind it.
    fn add<'a>(&mut self, line: &'a str) -> Result<Option<&'a str>, AllocError> {
        if self.has_line {
            self.input.push('\n')?;
        }
        if let Some(wanted) = line.strip_prefix("=>") {
            return Ok(Some(wanted.trim_start()));
        }
        self.has_line = true;
        let (piece, wanted) = parted(line);
        self.input.push_str(piece)?;
        Ok(wanted)
    }

    fn ended(self, alloc: Global, wanted: &str, line: usize) -> Result<Case, AllocError> {
        let Begun { asked, input, .. } = self;
        Ok(Case {
            asked,
            input,
            wanted: String::from_str(alloc, wanted)?,
            line,
        })
    }
}

impl Reader {
    pub(crate) fn new() -> Reader {
        Reader { open: None }
    }

    pub(crate) fn is_open(&self) -> bool {
        self.open.is_some()
    }

    /// The case that the line at a place, counted from 0, ends.
    pub(crate) fn take(
        &mut self,
        alloc: Global,
        at: usize,
        line: &str,
    ) -> Result<Option<Case>, AllocError> {
        match self.open.take() {
            Some(mut begun) => {
                let wanted = begun.add(line.strip_prefix("    ").unwrap_or(line))?;
                self.go_on(alloc, at, begun, wanted)
            }
            None => {
                if line.is_empty() || line.starts_with("#") {
                    return Ok(None);
                }
                self.begin(alloc, at, line)
            }
        }
    }

    fn begin(&mut self, alloc: Global, at: usize, line: &str) -> Result<Option<Case>, AllocError> {
        let Some((asked, rest)) = line.split_once(" ") else {
            self.open = Some(Begun::new(alloc, line)?);
            return Ok(None);
        };
        let mut begun = Begun::new(alloc, asked)?;
        let wanted = begun.add(rest)?;
        self.go_on(alloc, at, begun, wanted)
    }

    fn go_on(
        &mut self,
        alloc: Global,
        at: usize,
        begun: Begun,
        wanted: Option<&str>,
    ) -> Result<Option<Case>, AllocError> {
        match wanted {
            Some(wanted) => Ok(Some(begun.ended(alloc, wanted, at.saturating_add(1))?)),
            None => {
                self.open = Some(begun);
                Ok(None)
            }
        }
    }
}
