//! The rows of a file, as they are held until those that serve a root are written.

ghost use Rattle.std.specs.Prelude.{◌≡◌, ◌≤◌, ◌<◌, ◌+◌, ◌∷◌, ◌++◌, [], length, IfOk, OnErr, Some};
ghost use Rattle.std.specs.Prelude.{slice_get};
ghost use Rattle.deriv_file.specs.declared.row.Row.{Row};
ghost use Rattle.derivation.specs.Right.{RightRow};
ghost use Rattle.book_writer.specs.Chains.{IsPlain};
ghost use Rattle.book_writer.specs.Held.{names_of, row_of};
ghost use Rattle.book_writer.specs.Means.{meaning_after, meanings_in};

use std::alloc::{AllocError, Global};
use std::marker::Model;
use theory::{Op, RuleName, count_parts, count_premises, kid_count};

/// The most rows and nodes that a row of a book or a node names.
pub const MOST_NAMES: usize = 32;

/// What a row of a file is. The rows that it names stand beside it.
#[derive(Clone, Copy, Debug)]
pub enum RowHead {
    Header,
    Var(u32),
    Make(Op),
    Instance,
    Shift(u64),
    Push,
    CtxNil,
    CtxVar,
    CtxName,
    CtxFace,
    Node(RuleName),
}

/// A row, and where its names begin.
#[derive(Clone, Copy, Debug)]
pub struct Line {
    pub head: RowHead,
    pub start: usize,
}

/// Rows of a file, right from the header on, and none of them a root.
#[derive(Drop)]
pub struct Lines {
    pub(crate) alloc: Global,
    lines: Vec<Line>,
    names: Vec<u64>,
}

impl Model for Lines {
    ghost use Rattle.std.specs.Prelude.{List, map};
    ghost use Rattle.std.specs.List.{All};
    ghost use Rattle.deriv_file.specs.declared.row.Row.{Row};
    ghost use Rattle.book_writer.specs.Held.{line_row, HasNames};
    ghost use Rattle.book_writer.specs.Means.{IsFile};

    ghost Value = { List Row };

    ghost view = { λ s. map (line_row s.names.items) s.lines.items };

    ghost invariant = { λ s. All (HasNames s.names.items) s.lines.items ×
        IsFile (map (line_row s.names.items) s.lines.items) };
}

/// How many rows such a row names.
fn count_names(head: RowHead) -> usize
    ensures value { result ≡ names_of head }
    ensures few { result ≤ 32 }
{
    match head {
        RowHead::Header | RowHead::Var(_) | RowHead::Shift(_) | RowHead::CtxNil => 0,
        RowHead::CtxName => 1,
        RowHead::Instance | RowHead::Push | RowHead::CtxVar | RowHead::CtxFace => 2,
        RowHead::Make(op) => kid_count(op) as usize,
        RowHead::Node(rule) => count_parts(rule) as usize + count_premises(rule) as usize,
    }
}

impl Lines {
    /// The header.
    pub fn new(alloc: Global) -> Result<Lines, AllocError> {
        let head = RowHead::Header;
        let mut lines = Vec::new(alloc);
        lines.push(Line { head, start: 0 })?;
        let names = Vec::new(alloc);
        Ok(Lines {
            alloc,
            lines,
            names,
        })
    }

    /// The number of rows.
    pub fn len(&self) -> u64
        ensures { result ≡ length self.now }
    {
        self.lines.len() as u64
    }

    /// Adds a row, which is right. After an error the rows are as before.
    pub fn add(&mut self, head: RowHead, names: &[u64]) -> Result<u64, AllocError>
        requires count { length names.now ≡ names_of head }
        requires plain { IsPlain (row_of head names.now) }
        requires right { let all = meanings_in self.old in let row = row_of head names.now in
            RightRow all row (meaning_after all row) }
        ensures place { IfOk result (λ at. at ≡ length self.old) }
        ensures row { IfOk result (λ at. self.new ≡ self.old ++ row_of head names.now ∷ []) }
        ensures err { OnErr result (self.new ≡ self.old) }
    {
        let start = self.names.len();
        self.names.extend_from_slice(names)?;
        self.lines.push(Line { head, start })?;
        Ok(self.lines.len() as u64 - 1)
    }

    /// What a row is, and the rows that it names.
    pub fn line(&self, at: u64) -> (RowHead, &[u64])
        requires { at < length self.now }
        ensures row { slice_get self.now at ≡ Some (row_of result.0 result.1.now) }
        ensures count { length result.1.now ≡ names_of result.0 }
        ensures few { length result.1.now ≤ 32 }
    {
        let Line { head, start } = self.lines[at as usize];
        let names = self.names.split_at(start).1;
        (head, names.split_at(count_names(head)).0)
    }
}
